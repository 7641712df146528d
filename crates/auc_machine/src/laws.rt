//! Laws of every world that [`World::make`] gave and turns have led to. The functions do nothing: their contracts are
//! theorems.

ghost use Rattle.std.specs.Prelude.{true, ℕ, ℤ, pos, ◌<◌, ◌≤◌, ◌≤ℤ◌, ◌≡◌, ◌≢◌, ◌⊎◌, List, [], ◌∷◌, Some, None, All};
ghost use Rattle.std.specs.Prelude.{length};
ghost use Rattle.auc_graph.specs.Problem.{Problem, IsProblem, IsSquare};
ghost use Rattle.auc_graph.specs.Table.{Table, IsTable, IsTableOf};
ghost use Rattle.auc_graph.specs.Price.{IsPrice};
ghost use Rattle.auc_letters.specs.declared.letter.Letter.{Letter};
ghost use Rattle.auc_letters.specs.declared.letter.Why.{Why};
ghost use Rattle.auc_letters.specs.declared.out.Out.{Out};
ghost use Rattle.auc_letters.specs.declared.state.Held.{Held};
ghost use Rattle.auc_mail.specs.Mail.{Mail};
ghost use Rattle.auc_mail.specs.declared.call.PostRefused.{PostRefused};
ghost use Rattle.auc_model.specs.Chosen.{ArePricesOf, HoldersAreAssigned, HoldsAnObject};
ghost use Rattle.auc_model.specs.Hearing.{FitsLetter, Rises};
ghost use Rattle.auc_model.specs.Hub.{IsForHub};
ghost use Rattle.auc_model.specs.Mails.{Shard, Takes};
ghost use Rattle.auc_model.specs.Posting.{MayPost, Refuses, is_price};
ghost use Rattle.auc_model.specs.Schedule.{Reached};
ghost use Rattle.auc_model.specs.Selling.{FitsBid};
ghost use Rattle.auc_model.specs.SlackBids.{HasSlackArc};
ghost use Rattle.auc_model.specs.Start.{UsualNodes};
ghost use Rattle.auc_model.specs.World.{World as Model, phase_of};
ghost use Rattle.auc_model.specs.declared.turn.End.{End};
ghost use Rattle.auc_machine.specs.Certified.{HasCertified};
ghost use Rattle.auc_machine.specs.Parts.{phase, world_of};

use crate::world::World;

impl<'a> World<'a> {
    /// No guard is hit, whatever the turns were:
    ///
    /// - The phase hasn't stopped for a price that fell, a stray letter or a full trail.
    /// - The next letter that a shard of the persons takes fits it, and has no price below its copy.
    /// - The next letter that a shard of the objects takes is a bid that fits it.
    /// - The next letter that the hub takes is a First or a Stop.
    /// - With the usual numbers of letters that may wait, only a Price meets a full mail.
    ///
    /// A law, which does nothing.
    pub fn no_guard_is_hit(&self)
        requires { Reached (phase self.now) (world_of self.now) }
        ensures fell { (world_of self.now).end ≢ Some (End.Stopped Why.Fell) }
        ensures stray { (world_of self.now).end ≢ Some (End.Stopped Why.Stray) }
        ensures trail { (world_of self.now).end ≢ Some (End.Stopped Why.Trail) }
        ensures mail { UsualNodes (phase self.now) (world_of self.now)
            → (world_of self.now).end ≢ Some (End.Stopped Why.Mail) }
        ensures hears { (s x k : ℕ) (l : Letter) (m : Mail Letter) → Takes (world_of self.now).persons_mail s x k l m
            → FitsLetter (phase self.now) (world_of self.now) s l × Rises (world_of self.now) s l }
        ensures sells { (q x k : ℕ) (l : Letter) (m : Mail Letter) → Takes (world_of self.now).objects_mail q x k l m
            → FitsBid (phase self.now) q l }
        ensures counts { (x k : ℕ) (l : Letter) (m : Mail Letter) → Takes (world_of self.now).hub_mail 0 x k l m
            → IsForHub l }
        ensures room { UsualNodes (phase self.now) (world_of self.now) → (h : Shard) (o : Out) (rest : List Out)
            → MayPost (phase self.now) (world_of self.now) h o rest
            → Refuses (phase self.now) (world_of self.now) h o PostRefused.Full → is_price o.letter ≡ true }
    {}

    /// No copy of a price is above the true one, and nobody holds two objects. Each holder's arc is one of the holder's
    /// to that object, slack-right at eps at the true prices (epsilon-complementary slackness). The hub has counted no
    /// more than there are persons. A law, which does nothing.
    pub fn holders_are_slack_right(&self)
        requires { Reached (phase self.now) (world_of self.now) }
        ensures copies_low { (s j : ℕ) → (world_of self.now).copy s j ≤ℤ (world_of self.now).price j }
        ensures held_once { (j k : ℕ) (a b : Held) → (world_of self.now).holder j ≡ Some a
            → (world_of self.now).holder k ≡ Some b → a.person ≡ b.person → j ≡ k }
        ensures slack { (j : ℕ) (h : Held) → (world_of self.now).holder j ≡ Some h
            → HasSlackArc (phase self.now) (world_of self.now).price h j }
        ensures counted { (world_of self.now).count ≤ (phase self.now).persons }
    {}

    /// A phase that has ended with all has counted as many as there are persons. Where the hub has, each person holds
    /// an object, and the holders' arcs are an assignment of the problem, at any eps. A law, which does nothing.
    pub fn counted_holders_are_assigned(&self)
        requires { Reached (phase self.now) (world_of self.now) }
        ensures ended { (world_of self.now).end ≡ Some End.All → (world_of self.now).count ≡ (phase self.now).persons }
        ensures everyone { (world_of self.now).count ≡ (phase self.now).persons → (i : ℕ)
            → i < (phase self.now).persons → HoldsAnObject (world_of self.now) i }
        ensures assigned { (p : Problem) → IsTableOf p self.now.table
            → (world_of self.now).count ≡ (phase self.now).persons → HoldersAreAssigned p (world_of self.now) }
    {}
}

/// Where the hub has counted as many as there are persons, the holders' arcs are an assignment. At eps 1 the checker
/// finds no fault in it with the true prices, so it has the least cost. That needs as many objects as persons, or price
/// 0 of each object that nobody holds. The second is so in each world that was made with every price 0 (clause `unheld`
/// of [`World::turn`]). A law, which does nothing.
pub fn counted_holders_pass_the_checker()
    ensures { (p : Problem) (t : Table) (shards : ℕ) (v : Model) (prices : List ℤ) → IsProblem p → IsTable t
        → IsTableOf p t → (IsSquare p ⊎ ((j : ℕ) → v.holder j ≡ None → v.price j ≡ pos 0))
        → Reached (phase_of t shards (pos 1)) v → v.count ≡ length t.rows → ArePricesOf v prices
        → length prices ≡ p.objects → All IsPrice prices → HasCertified p v prices }
{}
