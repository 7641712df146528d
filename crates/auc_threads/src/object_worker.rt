//! A worker of the objects: it answers bids until the phase is over.

ghost use Rattle.std.specs.Prelude.{◌≡◌, ◌<◌};
ghost use Rattle.auc_objects.specs.Objects.{SameShape};
ghost use Rattle.auc_threads.specs.Dealing.{Serves};
ghost use Rattle.auc_threads.specs.Starts.{IsObjectWork};
ghost use Rattle.auc_threads.specs.Worker.{rooms, seller_of, sold_of};

use crate::calls::Step;
use crate::dealing::{ROOM, deal_next};
use crate::gate::Gate;
use crate::mails::WorkerSeats;
use crate::saying::say;
use crate::stopping::end;
use crate::task::PhaseRun;
use arrayvec::ArrayVec;
use auc_book::MailBrand;
use auc_letters::{Out, Why};
use auc_objects::ObjectShard;
use std::sync::Wait;

/// A worker of the objects: its shard and its seats.
#[derive(Drop)]
pub(crate) struct ObjectWorker<O: MailBrand, P: MailBrand, H: MailBrand> {
    pub(crate) shard: ObjectShard,
    pub(crate) seats: WorkerSeats<O, P, H>,
}

/// The result of a worker of the objects: its shard and its seats, and why it stopped, if it did.
#[derive(Drop)]
pub(crate) struct ObjectWork<O: MailBrand, P: MailBrand, H: MailBrand> {
    pub(crate) shard: ObjectShard,
    pub(crate) seats: WorkerSeats<O, P, H>,
    pub(crate) why: Option<Why>,
}

/// Waits for bids, answers those that wait, and posts the letters that follow, also where the worker then ends. The
/// effect of a refused post comes before that of what the worker took later.
fn serve<O: MailBrand, P: MailBrand, H: MailBrand, R: Wait, G: Gate>(
    rt: &R,
    gate: &G,
    run: &PhaseRun<'_, O, P, H>,
    number: u32,
    worker: &mut ObjectWorker<O, P, H>,
    said: &mut ArrayVec<Out, ROOM>,
) -> Step
    requires shards { worker.old.shard.person_shards ≡ run.now.task.limits.now.shards }
    requires known { number < run.now.task.limits.now.shards }
    ensures serves { Serves run.now.task.eps (rooms O.room P.room H.room) number (seller_of worker.old)
        (seller_of worker.new) result }
    ensures shape { SameShape worker.old.shard worker.new.shard }
{
    said.clear();
    let took = deal_next(rt, gate, run, number, worker, said);
    let posted = say(rt, gate, run, &mut worker.seats, said.as_slice());
    if posted != Step::On {
        return posted;
    }
    took
}

/// Answers bids until the phase is over, or it must stop.
pub(crate) fn sell<O: MailBrand, P: MailBrand, H: MailBrand, R: Wait, G: Gate>(
    rt: &R,
    gate: &G,
    run: &PhaseRun<'_, O, P, H>,
    number: u32,
    worker: ObjectWorker<O, P, H>,
) -> ObjectWork<O, P, H>
    requires own { worker.shard.shard ≡ number }
    requires shards { worker.shard.person_shards ≡ run.now.task.limits.now.shards }
    requires known { number < run.now.task.limits.now.shards }
    ensures { IsObjectWork run.now.task.eps (rooms O.room P.room H.room) (seller_of worker)
        (sold_of result) result.why }
{
    let mut worker = worker;
    let mut said = ArrayVec::new();
    for _ in rt.forever() {
        let step = serve(rt, gate, run, number, &mut worker, &mut said);
        if step != Step::On {
            let why = end(rt, gate, &run.mails.hub, &mut worker.seats.hub, step);
            let ObjectWorker { shard, seats } = worker;
            return ObjectWork { shard, seats, why };
        }
    }
    unreachable!()
}
