//! The letters that a worker of the persons hears.

ghost use Rattle.std.specs.Prelude.{◌≡◌, ◌≢◌, ◌<◌, [], ◌∷◌, Ok};
ghost use Rattle.auc_letters.specs.declared.letter.Why.{Why};
ghost use Rattle.auc_mail.specs.declared.call.Taken.{Taken as ATaken};
ghost use Rattle.auc_phases.specs.Shards.{IsPersonShard};
ghost use Rattle.auc_threads.specs.Taking.{AfterTake, letter_of};
ghost use Rattle.auc_threads.specs.Buying.{Listens, ListensTo};
ghost use Rattle.auc_threads.specs.Hearing.{Hears, HearsOf};
ghost use Rattle.auc_threads.specs.Worker.{box, round, taker};

use crate::calls::{Step, hold, hold_for};
use crate::gate::Gate;
use crate::task::{PhaseRun, Task};
use auc_book::{HeldMail, MailBrand, Seat, TrailFull};
use auc_letters::{Letter, Why};
use auc_mail::Taken;
use auc_persons::PersonShard;
use auc_phases::reason_for;
use std::sync::Wait;

/// Hears a letter.
fn hear_letter(task: &Task, number: u32, shard: &mut PersonShard, letter: Letter) -> Step
    requires { IsPersonShard task.now.rows.now task.now.limits.now.shards number shard.old }
    ensures is { IsPersonShard task.now.rows.now task.now.limits.now.shards number shard.new }
    ensures hears { HearsOf shard.old (letter ∷ []) shard.new (result ≡ Step.Stop Why.Fell) }
    ensures listens { ListensTo (round task.now.rows.now task.now.eps) shard.old (letter ∷ []) shard.new result }
    ensures goes { (result ≢ Step.Over) × (result ≢ Step.Stop Why.Trail) }
    ensures why { result ≢ Step.Stop Why.Stuck }
{
    match shard.on_letter(letter) {
        Ok(()) => Step::On,
        Err(fault) => Step::Stop {
            why: reason_for(fault),
        },
    }
}

/// Hears what was taken.
fn hear(
    task: &Task,
    number: u32,
    shard: &mut PersonShard,
    taken: Result<Taken<Letter>, TrailFull>,
) -> Step
    requires shard { IsPersonShard task.now.rows.now task.now.limits.now.shards number shard.old }
    requires some { taken ≢ Ok ATaken.Empty }
    ensures is { IsPersonShard task.now.rows.now task.now.limits.now.shards number shard.new }
    ensures hears { HearsOf shard.old (letter_of taken) shard.new (result ≡ Step.Stop Why.Fell) }
    ensures listens { ListensTo (round task.now.rows.now task.now.eps) shard.old (letter_of taken) shard.new result }
    ensures after { AfterTake taken result }
    ensures why { result ≢ Step.Stop Why.Stuck }
{
    match taken {
        Ok(Taken::Letter { item, .. }) => hear_letter(task, number, shard, item),
        Ok(_) => Step::Over,
        Err(TrailFull) => Step::Stop { why: Why::Trail },
    }
}

/// Hears the letters that wait, but no more than two for each person.
fn hear_each<N: MailBrand>(
    held: &mut HeldMail<'_, Letter, N>,
    task: &Task,
    number: u32,
    shard: &mut PersonShard,
    seat: &mut Seat<Letter, N>,
) -> Step
    requires shard { IsPersonShard task.now.rows.now task.now.limits.now.shards number shard.old }
    requires known { number < N.boxes }
    ensures is { IsPersonShard task.now.rows.now task.now.limits.now.shards number shard.new }
    ensures hears { Hears (box N.room number) (taker shard.old seat.old) (taker shard.new seat.new)
        (result ≡ Step.Stop Why.Fell) }
    ensures listens { Listens (round task.now.rows.now task.now.eps) (box N.room number) (taker shard.old seat.old)
        (taker shard.new seat.new) result }
    ensures why { result ≢ Step.Stop Why.Stuck }
{
    for _ in 0..2 * task.rows.persons() {
        let taken = held.take(seat, number);
        if matches!(&taken, Ok(Taken::Empty)) {
            return Step::On;
        }
        let step = hear(task, number, shard, taken);
        if step != Step::On {
            return step;
        }
    }
    Step::On
}

/// Hears the letters that wait; where the worker has nothing else to do, it waits for a letter first.
pub(crate) fn hear_next<O: MailBrand, P: MailBrand, H: MailBrand, R: Wait, G: Gate>(
    rt: &R,
    gate: &G,
    run: &PhaseRun<'_, O, P, H>,
    number: u32,
    shard: &mut PersonShard,
    seat: &mut Seat<Letter, P>,
    is_waiting: bool,
) -> Step
    requires shard { IsPersonShard run.now.task.rows.now run.now.task.limits.now.shards number shard.old }
    requires known { number < run.now.task.limits.now.shards }
    ensures is { IsPersonShard run.now.task.rows.now run.now.task.limits.now.shards number shard.new }
    ensures hears { Hears (box P.room number) (taker shard.old seat.old) (taker shard.new seat.new)
        (result ≡ Step.Stop Why.Fell) }
    ensures listens { Listens (round run.now.task.rows.now run.now.task.eps) (box P.room number)
        (taker shard.old seat.old)
        (taker shard.new seat.new) result }
    ensures why { result ≢ Step.Stop Why.Stuck }
{
    let mail = &run.mails.persons;
    let mut held = if is_waiting {
        hold_for(rt, gate, mail, seat.worker(), number)
    } else {
        hold(rt, gate, mail, seat.worker())
    };
    let step = hear_each(&mut held, &run.task, number, shard, seat);
    held.release();
    step
}
