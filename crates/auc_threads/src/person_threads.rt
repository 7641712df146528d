//! The threads of the persons.

ghost use Rattle.std.specs.Prelude.{◌≡◌, ◌<◌, ◌≤◌, [], vec_len, vec_capacity, IsTrue};
ghost use Rattle.auc_persons.specs.Candidates.{Kept};
ghost use Rattle.auc_phases.specs.Shards.{IsPersonShard};
ghost use Rattle.auc_threads.specs.Placed.{Placed};
ghost use Rattle.auc_threads.specs.Starts.{AreBuyers, HaveBought, IsPersonPromise};
ghost use Rattle.auc_threads.specs.Worker.{rooms, round, setting_of};

use crate::gate::Gate;
use crate::person_worker::{PersonWork, PersonWorker, buy};
use crate::task::{PhaseRun, Task};
use auc_book::MailBrand;
use auc_graph::Rows;
use std::snapshot::Snapshot;
use std::sync::Wait;
use std::thread::{Promise, PromisedHandle, Scope, Threads};

/// The promise of a thread of the persons: it bid and heard. It reports a fall only where its seat shows one, and is
/// stuck only where a person has no arc.
#[derive(Drop)]
pub(crate) struct Bought<O: MailBrand, P: MailBrand, H: MailBrand> {
    pub(crate) eps: i64,
    pub(crate) rows: Snapshot<Rows>,
    pub(crate) start: Snapshot<PersonWorker<O, P, H>>,
}

impl<O: MailBrand, P: MailBrand, H: MailBrand> Promise<PersonWork<O, P, H>> for Bought<O, P, H> {
    ghost use Rattle.auc_threads.specs.Starts.{IsPersonWork};
    ghost use Rattle.auc_threads.specs.Worker.{bought_of, buyer_of, rooms};

    ghost kept_by = { λ p r. IsPersonWork (round p.rows.value p.eps) (rooms O.room P.room H.room)
        (buyer_of p.start.value) (bought_of r) r.why };
}

/// Starts a thread for each shard of the persons. False where one couldn't be started; then no more are.
pub(crate) fn start_persons<
    's,
    'e: 's,
    O: MailBrand + Send + Sync,
    P: MailBrand + Send + Sync,
    H: MailBrand + Send + Sync,
    R: Threads + Wait + Sync,
    G: Gate + Sync,
>(
    scope: &'s Scope<'s, &'e ()>,
    rt: &'e R,
    gate: &'e G,
    run: &'e PhaseRun<'e, O, P, H>,
    starts: Vec<PersonWorker<O, P, H>>,
    handles: &mut Vec<PromisedHandle<PersonWork<O, P, H>, Bought<O, P, H>>>,
) -> bool
    requires many { vec_len starts ≡ run.now.task.limits.now.shards }
    requires starts { AreBuyers (setting_of run.now.task) starts.items }
    requires none { handles.old.items ≡ [] }
    requires room { vec_len starts ≤ vec_capacity handles.old }
    ensures promised { Placed (λ k h. IsPersonPromise (setting_of run.now.task) k h.promise) 0 handles.new.items }
    ensures few { vec_len handles.new ≤ run.now.task.limits.now.shards }
    ensures all { IsTrue result → vec_len handles.new ≡ run.now.task.limits.now.shards }
{
    let mut number: u32 = 0;
    for start in starts {
        let promise = Bought {
            eps: run.task.eps,
            rows: Snapshot::of(run.task.rows),
            start: Snapshot::of(&start),
        };
        let PersonWorker { buyer, seats } = start;
        let work = move || -> PersonWork<O, P, H>
            requires { IsPersonShard run.now.task.rows.now run.now.task.limits.now.shards number buyer.shard
                × Kept run.now.task.rows.now buyer.shard.copies buyer.lists
                × (number < run.now.task.limits.now.shards) }
        { buy(rt, gate, run, number, PersonWorker { buyer, seats }) };
        let Ok(handle) = scope.spawn_with(promise, work) else {
            return false;
        };
        handles.push_reserved(handle);
        number += 1;
    }
    true
}

/// Waits for the threads of the persons, and returns their results.
pub(crate) fn join_persons<
    O: MailBrand + Send + Sync,
    P: MailBrand + Send + Sync,
    H: MailBrand + Send + Sync,
    R: Threads,
>(
    rt: &R,
    task: &Task,
    handles: Vec<PromisedHandle<PersonWork<O, P, H>, Bought<O, P, H>>>,
    works: &mut Vec<PersonWork<O, P, H>>,
)
    requires promised { Placed (λ k h. IsPersonPromise (setting_of task.now) k h.promise) 0 handles.items }
    requires none { works.old.items ≡ [] }
    requires room { vec_len handles ≤ vec_capacity works.old }
    ensures many { vec_len works.new ≡ vec_len handles }
    ensures works { HaveBought (setting_of task.now) (rooms O.room P.room H.room) works.new.items }
{
    for handle in handles {
        works.push_reserved(handle.join(rt));
    }
}
