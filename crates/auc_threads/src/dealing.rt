//! How a worker of the objects answers bids.

ghost use Rattle.std.specs.Prelude.{◌≡◌, ◌≢◌, ◌≤◌, ◌<◌, ◌+◌, ◌++◌, ◌↔◌, [], ◌∷◌, Ok, IsTrue, length};
ghost use Rattle.arrayvec.specs.ArrayVec.{array_vec_len};
ghost use Rattle.auc_objects.specs.Objects.{Owns};
ghost use Rattle.auc_objects.specs.Answers.{letters_of};
ghost use Rattle.auc_letters.specs.declared.letter.Why.{Why as AWhy};
ghost use Rattle.auc_mail.specs.declared.call.Taken.{Taken as ATaken};
ghost use Rattle.auc_threads.specs.Taking.{AfterTake, letter_of};
ghost use Rattle.auc_threads.specs.Dealing.{Deals, DealsBehind, prices_told};
ghost use Rattle.auc_threads.specs.Worker.{box, dealer_of, seller_of, taker};
ghost use Rattle.auc_threads.specs.declared.calls.Step.{Step as AStep};

use crate::calls::{BATCH, Step, hold_for};
use crate::gate::Gate;
use crate::object_worker::ObjectWorker;
use crate::task::{PhaseRun, Task};
use arrayvec::ArrayVec;
use auc_book::{HeldMail, MailBrand, Seat, TrailFull};
use auc_letters::{Letter, Out, Why, shard_of};
use auc_mail::Taken;
use auc_objects::{Answers, ObjectShard};
use std::sync::Wait;

/// The greatest number of letters that follow one bid: two answers, and a price to each of 16 shards of the persons.
const MOST_SAID: usize = 18;

/// The greatest number of letters that follow the bids that are taken under one lock: `MOST_SAID` for each bid of a
/// batch.
pub(crate) const ROOM: usize = 288;

/// Notes the answers to a bid, in order.
fn note_answers(said: &mut ArrayVec<Out, ROOM>, answers: Answers)
    requires { array_vec_len said.old + 2 ≤ ROOM }
    ensures { said.new.items ≡ said.old.items ++ letters_of answers }
{
    match answers {
        Answers::Refused { refused } => said.push(refused),
        Answers::First { award, first } => {
            said.push(award);
            said.push(first);
        }
        Answers::Outbid { outbid, award } => {
            said.push(outbid);
            said.push(award);
        }
    }
}

/// Notes the price of an object for each shard of the persons but one.
fn note_prices(
    said: &mut ArrayVec<Out, ROOM>,
    shard: &ObjectShard,
    shards: u32,
    object: u32,
    knowing: u32,
)
    requires object { Owns shard.now object }
    requires shards { shard.now.person_shards ≡ shards }
    requires room { array_vec_len said.old + shards ≤ ROOM }
    ensures { said.new.items ≡ said.old.items ++ prices_told shard.now shards knowing object }
{
    for other in 0..shards {
        if other != knowing {
            said.push(shard.tell(object, other));
        }
    }
}

/// Whether a bid was accepted, by its answers.
fn is_accepted(answers: &Answers) -> bool
    ensures { IsTrue result ↔ (length (letters_of answers.now) ≡ 2) }
{
    !matches!(answers, Answers::Refused { .. })
}

/// Answers a letter, and notes the letters that follow. It stops where the letter is no bid that fits the shard; then
/// nothing is changed.
fn deal_letter(
    task: &Task,
    shard: &mut ObjectShard,
    said: &mut ArrayVec<Out, ROOM>,
    letter: Letter,
) -> Step
    requires shards { shard.old.person_shards ≡ task.now.limits.now.shards }
    requires room { array_vec_len said.old + MOST_SAID ≤ ROOM }
    ensures deals { DealsBehind task.now.eps shard.old (letter ∷ []) said.old.items said.new.items shard.new result }
    ensures goes { (result ≢ AStep.Over) × (result ≢ AStep.Stop AWhy.Trail) }
{
    let Some(bid) = shard.bid_in(letter) else {
        return Step::Stop { why: Why::Stray };
    };
    let answers = shard.answer(bid, task.eps);
    note_answers(said, answers);
    if is_accepted(&answers) {
        let shards = task.limits.shards;
        let knowing = shard_of(bid.person, shards);
        note_prices(said, shard, shards, bid.object, knowing);
    }
    Step::On
}

/// Answers what was taken.
fn deal(
    task: &Task,
    shard: &mut ObjectShard,
    said: &mut ArrayVec<Out, ROOM>,
    taken: Result<Taken<Letter>, TrailFull>,
) -> Step
    requires shards { shard.old.person_shards ≡ task.now.limits.now.shards }
    requires room { array_vec_len said.old + MOST_SAID ≤ ROOM }
    requires some { taken ≢ Ok ATaken.Empty }
    ensures deals { DealsBehind task.now.eps shard.old (letter_of taken) said.old.items said.new.items shard.new
        result }
    ensures after { AfterTake taken result }
{
    match taken {
        Ok(Taken::Letter { item, .. }) => deal_letter(task, shard, said, item),
        Ok(_) => Step::Over,
        Err(TrailFull) => Step::Stop { why: Why::Trail },
    }
}

/// Takes the bids that wait, at most as many as are posted under one lock, and answers them.
fn deal_each<N: MailBrand>(
    held: &mut HeldMail<'_, Letter, N>,
    task: &Task,
    number: u32,
    shard: &mut ObjectShard,
    seat: &mut Seat<Letter, N>,
    said: &mut ArrayVec<Out, ROOM>,
) -> Step
    requires shards { shard.old.person_shards ≡ task.now.limits.now.shards }
    requires known { number < N.boxes }
    requires none { said.old.items ≡ [] }
    ensures { Deals task.now.eps (box N.room number) (taker shard.old seat.old) said.new.items
        (taker shard.new seat.new) result }
{
    for _ in 0..BATCH {
        if said.remaining_capacity() < MOST_SAID {
            return Step::On;
        }
        let taken = held.take(seat, number);
        if matches!(&taken, Ok(Taken::Empty)) {
            return Step::On;
        }
        let step = deal(task, shard, said, taken);
        if step != Step::On {
            return step;
        }
    }
    Step::On
}

/// Waits for a bid, and answers all that wait, but no more than a batch.
pub(crate) fn deal_next<O: MailBrand, P: MailBrand, H: MailBrand, R: Wait, G: Gate>(
    rt: &R,
    gate: &G,
    run: &PhaseRun<'_, O, P, H>,
    number: u32,
    worker: &mut ObjectWorker<O, P, H>,
    said: &mut ArrayVec<Out, ROOM>,
) -> Step
    requires shards { worker.old.shard.person_shards ≡ run.now.task.limits.now.shards }
    requires known { number < run.now.task.limits.now.shards }
    requires none { said.old.items ≡ [] }
    ensures deals { Deals run.now.task.eps (box O.room number) (dealer_of (seller_of worker.old)) said.new.items
        (dealer_of (seller_of worker.new)) result }
    ensures persons { worker.new.seats.persons ≡ worker.old.seats.persons }
    ensures hub { worker.new.seats.hub ≡ worker.old.seats.hub }
{
    let shard = &mut worker.shard;
    let seat = &mut worker.seats.objects;
    let mut held = hold_for(rt, gate, &run.mails.objects, seat.worker(), number);
    let step = deal_each(&mut held, &run.task, number, shard, seat, said);
    held.release();
    step
}
