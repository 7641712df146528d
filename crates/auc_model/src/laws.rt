//! Laws over every schedule, from every world that a phase begins with. The functions do nothing: their contracts are
//! theorems, and crates above cite them. One calls the law of the mails that it rests on.

ghost use Rattle.std.specs.Prelude.{ℕ, ℤ, pos, ◌<◌, ◌≤◌, ◌≤ℤ◌, ◌≡◌, ◌≢◌, ◌⊎◌, true, List, [], ◌∷◌, ◌++◌, Some, None};
ghost use Rattle.std.specs.Prelude.{Contains, All, length, map};
ghost use Rattle.auc_graph.specs.declared.arc.Arc.{Arc};
ghost use Rattle.auc_graph.specs.Assignment.{IsAssignment, IsLeast, object_of};
ghost use Rattle.auc_graph.specs.Dual.{IsNoPriceLeft, IsSlackRight, scale_of};
ghost use Rattle.auc_graph.specs.Problem.{IsWithin, Problem};
ghost use Rattle.auc_graph.specs.Table.{Table, IsTable, IsTableOf};
ghost use Rattle.auc_letters.specs.Persons.{persons_of};
ghost use Rattle.auc_letters.specs.Price.{IsEps};
ghost use Rattle.auc_letters.specs.declared.letter.Why.{Why};
ghost use Rattle.auc_letters.specs.declared.out.Out.{Out};
ghost use Rattle.auc_letters.specs.declared.state.Held.{Held};
ghost use Rattle.auc_letters.specs.declared.state.PersonState.{PersonState};
ghost use Rattle.auc_mail.specs.Mail.{Mail};
ghost use Rattle.auc_mail.specs.declared.call.PostRefused.{PostRefused};
ghost use Rattle.auc_model.specs.declared.turn.End.{End};
ghost use Rattle.auc_model.specs.declared.turn.MailName.{MailName};
ghost use Rattle.auc_model.specs.declared.turn.Turn.{Turn};
ghost use Rattle.auc_model.specs.declared.turn.TurnReply.{TurnReply};
ghost use Rattle.auc_model.specs.World.{Phase, World, phase_of};
ghost use Rattle.auc_model.specs.Mails.{Shard, Takes, mail_named};
ghost use Rattle.auc_model.specs.Bidding.{SomeoneStuck};
ghost use Rattle.auc_model.specs.Posting.{MayPost, Refuses, is_price};
ghost use Rattle.auc_model.specs.Hearing.{FitsLetter, Rises};
ghost use Rattle.auc_model.specs.Selling.{FitsBid};
ghost use Rattle.auc_model.specs.Hub.{IsForHub};
ghost use Rattle.auc_model.specs.Schedule.{Turned, Schedule, Reached, StepsIn, TakesOfTwoSenders};
ghost use Rattle.auc_model.specs.Start.{Lawful, Starts, UsualNodes, occurs, free_in};
ghost use Rattle.auc_model.specs.SlackBids.{HasSlackArc};
ghost use Rattle.auc_model.specs.Still.{IsStill, Rests};
ghost use Rattle.auc_model.specs.Chosen.{ArePricesOf, HoldersAreAssigned, HoldsAnObject, IsHeldArc};
ghost use Rattle.auc_model.specs.Counts.{held_objects};
ghost use Rattle.auc_model.specs.Invariants.{Kept};
ghost use Rattle.auc_model.specs.Room.{Room};
ghost use Rattle.auc_model.specs.Work.{IsOfRound, work};

use auc_letters::Letter;
use auc_mail::only_the_sender_is_free;

/// A turn with the reply Nothing leaves the world as it was, and each turn is at most one step of one mail.
pub fn turns_are_small()
    ensures nothing { (g : Phase) (w v : World) (t : Turn) → Turned g w t TurnReply.Nothing v → v ≡ w }
    ensures one_step { (g : Phase) (w v : World) (t : Turn) (r : TurnReply) → Turned g w t r v → (name : MailName)
        × StepsIn w v name }
{}

/// A turn leaves nothing open but the sender of a letter that it takes: two outcomes of one turn are the same, or each
/// took a letter, of two senders.
pub fn only_the_sender_is_free_in_turns()
    ensures { (g : Phase) (w u v : World) (t : Turn) (r s : TurnReply) → Turned g w t r u → Turned g w t s v
        → ((r ≡ s) × (u ≡ v)) ⊎ TakesOfTwoSenders w u v }
{
    only_the_sender_is_free::<Letter>();
}

/// One turn is a schedule, and one schedule after another is one.
pub fn schedules_go_on()
    ensures one { (g : Phase) (w v : World) (t : Turn) (r : TurnReply) → Turned g w t r v → Schedule g w (t ∷ []) v }
    ensures more { (g : Phase) (w u v : World) (ts us : List Turn) → Schedule g w ts u → Schedule g u us v
        → Schedule g w (ts ++ us) v }
{}

/// The reached worlds: the world that a phase begins with is one, and turns and schedules lead from one to another. The
/// number of nodes of a mail never changes.
pub fn reached_worlds()
    ensures begins { (g : Phase) (w : World) → Lawful g → Starts g w → Reached g w }
    ensures turn { (g : Phase) (w v : World) (t : Turn) (r : TurnReply) → Reached g w → Turned g w t r v → Reached g v }
    ensures schedule { (g : Phase) (w v : World) (ts : List Turn) → Reached g w → Schedule g w ts v → Reached g v }
    ensures nodes { (g : Phase) (w v : World) (ts : List Turn) → Schedule g w ts v → (name : MailName)
        → (mail_named v name).nodes ≡ (mail_named w name).nodes }
{}

/// No copy of a price falls over a schedule, whatever the world it begins with.
pub fn copies_never_fall()
    ensures { (g : Phase) (w v : World) (ts : List Turn) → Schedule g w ts v → (s j : ℕ) → w.copy s j ≤ℤ v.copy s j }
{}

/// An object that nobody holds had no holder before either, and its price is unchanged.
pub fn unheld_prices_stay()
    ensures { (g : Phase) (w v : World) (ts : List Turn) → Schedule g w ts v → (j : ℕ) → v.holder j ≡ None
        → (w.holder j ≡ None) × (v.price j ≡ w.price j) }
{}

/// In no reached world is a guard hit: neither was one so far, nor is one by the next letter, whichever that is.
///
/// - A letter that a shard of the persons takes fits it, and has no price below its copy.
/// - A letter that a shard of the objects takes is a bid that fits it.
/// - The hub takes only First and Stop letters.
/// - Where the mails have the usual numbers of nodes, only a Price is refused for want of room.
pub fn no_guard()
    ensures fell { (g : Phase) (v : World) → Reached g v → v.end ≢ Some (End.Stopped Why.Fell) }
    ensures stray { (g : Phase) (v : World) → Reached g v → v.end ≢ Some (End.Stopped Why.Stray) }
    ensures trail { (g : Phase) (v : World) → Reached g v → v.end ≢ Some (End.Stopped Why.Trail) }
    ensures mail { (g : Phase) (v : World) → Reached g v → UsualNodes g v → v.end ≢ Some (End.Stopped Why.Mail) }
    ensures hears { (g : Phase) (v : World) → Reached g v → (s x k : ℕ) (l : Letter) (m : Mail Letter)
        → Takes v.persons_mail s x k l m → FitsLetter g v s l × Rises v s l }
    ensures sells { (g : Phase) (v : World) → Reached g v → (q x k : ℕ) (l : Letter) (m : Mail Letter)
        → Takes v.objects_mail q x k l m → FitsBid g q l }
    ensures counts { (g : Phase) (v : World) → Reached g v → (x k : ℕ) (l : Letter) (m : Mail Letter)
        → Takes v.hub_mail 0 x k l m → IsForHub l }
    ensures room { (g : Phase) (v : World) → Reached g v → UsualNodes g v → (h : Shard) (o : Out) (rest : List Out)
        → MayPost g v h o rest → Refuses g v h o PostRefused.Full → is_price o.letter ≡ true }
{}

/// A reached world has stopped for want of an arc only where a person has none.
pub fn stuck_has_its_cause()
    ensures { (g : Phase) (v : World) → Reached g v → v.end ≡ Some (End.Stopped Why.Stuck) → SomeoneStuck g }
{}

/// In every reached world no copy is above the true price, and no person holds two objects. Each holder's arc is one of
/// the holder's to that object, slack-right at eps at the true prices (epsilon-complementary slackness). The hub counts
/// no more than there are persons, and no more objects are held. Where it has counted as many, each person holds an
/// object.
pub fn every_schedule()
    ensures copies_low { (g : Phase) (v : World) → Reached g v → (s j : ℕ) → v.copy s j ≤ℤ v.price j }
    ensures held_once { (g : Phase) (v : World) → Reached g v → (j k : ℕ) (a b : Held) → v.holder j ≡ Some a
        → v.holder k ≡ Some b → a.person ≡ b.person → j ≡ k }
    ensures slack { (g : Phase) (v : World) → Reached g v → (j : ℕ) (h : Held) → v.holder j ≡ Some h
        → HasSlackArc g v.price h j }
    ensures counted { (g : Phase) (v : World) → Reached g v → v.count ≤ g.persons }
    ensures held { (g : Phase) (v : World) → Reached g v → held_objects g v ≤ g.persons }
    ensures everyone { (g : Phase) (v : World) → Reached g v → v.count ≡ g.persons → (i : ℕ) → i < g.persons
        → HoldsAnObject v i }
{}

/// In a phase of a problem, in every reached world: where the hub has counted as many as there are persons, the
/// holders' arcs are an assignment of the problem. An object that such an assignment leaves is held by nobody. Each
/// holder's arc is slack-right at eps at the true prices. So at eps 1 such an assignment has the least cost, if each
/// object that it leaves has price 0.
pub fn counted_holders_are_assigned()
    ensures assigned { (p : Problem) (t : Table) (shards : ℕ) (eps : ℤ) (v : World) → IsTableOf p t
        → Reached (phase_of t shards eps) v → v.count ≡ length t.rows → HoldersAreAssigned p v }
    ensures left { (p : Problem) (t : Table) (shards : ℕ) (eps : ℤ) (v : World) (choice : List Arc) → IsTableOf p t
        → Reached (phase_of t shards eps) v → IsAssignment p choice → All (IsHeldArc p v) choice → (j : ℕ)
        → ¬ Contains (map object_of choice) j → v.holder j ≡ None }
    ensures slack { (p : Problem) (t : Table) (shards : ℕ) (eps : ℤ) (v : World) (prices : List ℤ) → IsTableOf p t
        → Reached (phase_of t shards eps) v → ArePricesOf v prices → (arc : Arc) → arc.person < p.persons
        → IsHeldArc p v arc → IsSlackRight eps (scale_of p) prices p.arcs arc }
    ensures least { (p : Problem) (t : Table) (shards : ℕ) (v : World) (prices : List ℤ) (choice : List Arc)
        → IsTableOf p t → Reached (phase_of t shards (pos 1)) v → ArePricesOf v prices → length prices ≡ p.objects
        → All (IsWithin p.persons p.objects) p.arcs → IsAssignment p choice → All (IsHeldArc p v) choice
        → IsNoPriceLeft prices choice → IsLeast p choice }
{}

/// The basis of the laws of every schedule: the invariants of the world that a phase begins with are kept by each turn.
pub fn turns_keep_invariants()
    ensures begins { (g : Phase) (w : World) → Starts g w → Kept g w }
    ensures keeps { (g : Phase) (w v : World) (t : Turn) (r : TurnReply) → Lawful g → Kept g w → Turned g w t r v
        → Kept g v }
    ensures begins_with_room { (g : Phase) (w : World) → Starts g w → UsualNodes g w → Room g w }
    ensures keeps_room { (g : Phase) (w v : World) (t : Turn) (r : TurnReply) → Lawful g → Kept g w → Room g w
        → Turned g w t r v → Room g v }
{}

/// An end stays once it is set, and it is `All` only where the hub has counted every person.
pub fn ends_stay()
    ensures stays { (g : Phase) (w v : World) (ts : List Turn) (e : End) → Schedule g w ts v → w.end ≡ Some e
        → v.end ≡ Some e }
    ensures all { (g : Phase) (v : World) → Reached g v → v.end ≡ Some End.All → v.count ≡ g.persons }
{}

/// Where nothing can move, the end is set. In no reached world before the end are all outboxes and mails empty while
/// nobody bids. And in each reached world before the end some bid, post or take moves something.
pub fn no_stall()
    ensures still { (g : Phase) (v : World) → 0 < g.persons → Reached g v → IsStill g v → v.end ≢ None }
    ensures rests { (g : Phase) (v : World) → 0 < g.persons → Reached g v → Rests g v → v.end ≢ None }
{}

/// The turns of a round use up work: none makes more of it, and a turn that moves leaves less, or the phase has ended
/// after it. So the rounds end.
pub fn rounds_use_up_work()
    ensures never_more { (g : Phase) (w v : World) (t : Turn) (r : TurnReply) → IsOfRound t → Turned g w t r v
        → work g v ≤ work g w }
    ensures less { (g : Phase) (w v : World) (t : Turn) → IsOfRound t → Turned g w t TurnReply.Moved v
        → (v.end ≢ None) ⊎ (work g v < work g w) }
{}

/// The rows of a problem make a lawful phase, and the lists of all persons by shards are those that a phase begins
/// with.
pub fn problems_make_phases()
    ensures lawful { (t : Table) (shards : ℕ) (eps : ℤ) → IsTable t → 0 < shards → IsEps eps
        → Lawful (phase_of t shards eps) }
    ensures idle { (g : Phase) (s i : ℕ) → occurs i (persons_of s g.shards g.persons) ≡ free_in g PersonState.Free s i }
{}

/// The premises of the other laws can be met, by a world of one person; and from that world some schedule ends with
/// `All`.
pub fn premises_can_be_met()
    ensures { (g : Phase) × (w : World) × Lawful g × Starts g w × UsualNodes g w
        × ((ts : List Turn) × (v : World) × Schedule g w ts v × (v.end ≡ Some End.All)) }
{}
