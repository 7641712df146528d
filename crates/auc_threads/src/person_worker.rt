//! A worker of the persons: it hears letters and bids until the phase is over.

ghost use Rattle.std.specs.Prelude.{◌≡◌, ◌<◌};
ghost use Rattle.auc_letters.specs.declared.letter.Why.{Why};
ghost use Rattle.auc_persons.specs.Candidates.{Kept};
ghost use Rattle.auc_phases.specs.Shards.{IsPersonShard};
ghost use Rattle.auc_threads.specs.Buying.{Buys};
ghost use Rattle.auc_threads.specs.Hearing.{Hears, SomebodyStuck};
ghost use Rattle.auc_threads.specs.Starts.{IsPersonWork};
ghost use Rattle.auc_threads.specs.Worker.{bought_of, box, buyer_of, listener_of, rooms, round};

use crate::bidding::{Buyer, ask_all};
use crate::calls::{BATCH, Step, send};
use crate::gate::Gate;
use crate::hearing::hear_next;
use crate::mails::WorkerSeats;
use crate::stopping::end;
use crate::task::PhaseRun;
use arrayvec::ArrayVec;
use auc_book::MailBrand;
use auc_letters::{Out, Why};
use auc_persons::PersonShard;
use std::sync::Wait;

/// A worker of the persons: its shard, with its candidate lists, and its seats.
#[derive(Drop)]
pub(crate) struct PersonWorker<O: MailBrand, P: MailBrand, H: MailBrand> {
    pub(crate) buyer: Buyer,
    pub(crate) seats: WorkerSeats<O, P, H>,
}

/// The result of a worker of the persons: its shard and its seats, and why it stopped, if it did.
#[derive(Drop)]
pub(crate) struct PersonWork<O: MailBrand, P: MailBrand, H: MailBrand> {
    pub(crate) shard: PersonShard,
    pub(crate) seats: WorkerSeats<O, P, H>,
    pub(crate) why: Option<Why>,
}

/// Asks for bids, posts them, also where the next person can't bid, and hears the letters that wait; where there are
/// none, it waits for a letter. The effect of a refused post comes first.
fn serve<O: MailBrand, P: MailBrand, H: MailBrand, R: Wait, G: Gate>(
    rt: &R,
    gate: &G,
    run: &PhaseRun<'_, O, P, H>,
    number: u32,
    worker: &mut PersonWorker<O, P, H>,
    bids: &mut ArrayVec<Out, BATCH>,
) -> Step
    requires shard { IsPersonShard run.now.task.rows.now run.now.task.limits.now.shards number worker.old.buyer.shard }
    requires kept { Kept run.now.task.rows.now worker.old.buyer.shard.copies worker.old.buyer.lists }
    requires known { number < run.now.task.limits.now.shards }
    ensures is { IsPersonShard run.now.task.rows.now run.now.task.limits.now.shards number worker.new.buyer.shard }
    ensures kept { Kept run.now.task.rows.now worker.new.buyer.shard.copies worker.new.buyer.lists }
    ensures hears { Hears (box P.room number) (listener_of (buyer_of worker.old)) (listener_of (buyer_of worker.new))
        (result ≡ Step.Stop Why.Fell) }
    ensures buys { Buys (round run.now.task.rows.now run.now.task.eps) (rooms O.room P.room H.room) number
        (buyer_of worker.old) (buyer_of worker.new) result }
    ensures hub { worker.new.seats.hub ≡ worker.old.seats.hub }
    ensures stuck { result ≡ Step.Stop Why.Stuck → SomebodyStuck run.now.task.rows.now }
{
    bids.clear();
    let asked = ask_all(&run.task, number, &mut worker.buyer, bids);
    let mail = &run.mails.objects;
    let sent = send(rt, gate, mail, &mut worker.seats.objects, bids.as_slice());
    if sent != Step::On {
        return sent;
    }
    if asked != Step::On {
        return asked;
    }
    let shard = &mut worker.buyer.shard;
    let seat = &mut worker.seats.persons;
    hear_next(rt, gate, run, number, shard, seat, bids.is_empty())
}

/// Hears and bids until the phase is over, or it must stop.
pub(crate) fn buy<O: MailBrand, P: MailBrand, H: MailBrand, R: Wait, G: Gate>(
    rt: &R,
    gate: &G,
    run: &PhaseRun<'_, O, P, H>,
    number: u32,
    worker: PersonWorker<O, P, H>,
) -> PersonWork<O, P, H>
    requires shard { IsPersonShard run.now.task.rows.now run.now.task.limits.now.shards number worker.buyer.shard }
    requires kept { Kept run.now.task.rows.now worker.buyer.shard.copies worker.buyer.lists }
    requires known { number < run.now.task.limits.now.shards }
    ensures { IsPersonWork (round run.now.task.rows.now run.now.task.eps) (rooms O.room P.room H.room) (buyer_of worker)
        (bought_of result) result.why }
{
    let mut worker = worker;
    let mut bids = ArrayVec::new();
    for _ in rt.forever() {
        let step = serve(rt, gate, run, number, &mut worker, &mut bids);
        if step != Step::On {
            let why = end(rt, gate, &run.mails.hub, &mut worker.seats.hub, step);
            let PersonWorker { buyer, seats } = worker;
            let Buyer { shard, lists: _ } = buyer;
            return PersonWork { shard, seats, why };
        }
    }
    unreachable!()
}
