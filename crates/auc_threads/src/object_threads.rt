//! The threads of the objects.

ghost use Rattle.std.specs.Prelude.{◌≡◌, ◌<◌, ◌≤◌, [], vec_len, vec_capacity, IsTrue};
ghost use Rattle.auc_threads.specs.Placed.{Placed};
ghost use Rattle.auc_threads.specs.Starts.{AreSellers, HaveSold, IsObjectPromise};
ghost use Rattle.auc_threads.specs.Worker.{rooms, setting_of};

use crate::gate::Gate;
use crate::object_worker::{ObjectWork, ObjectWorker, sell};
use crate::task::{PhaseRun, Task};
use auc_book::MailBrand;
use std::snapshot::Snapshot;
use std::sync::Wait;
use std::thread::{Promise, PromisedHandle, Scope, Threads};

/// The promise of a thread of the objects: its shard is the result of the bids that it took, and it has posted the
/// letters that follow them.
#[derive(Drop)]
pub(crate) struct Sold<O: MailBrand, P: MailBrand, H: MailBrand> {
    pub(crate) eps: i64,
    pub(crate) start: Snapshot<ObjectWorker<O, P, H>>,
}

impl<O: MailBrand, P: MailBrand, H: MailBrand> Promise<ObjectWork<O, P, H>> for Sold<O, P, H> {
    ghost use Rattle.auc_threads.specs.Starts.{IsObjectWork};
    ghost use Rattle.auc_threads.specs.Worker.{rooms, seller_of, sold_of};

    ghost kept_by = { λ p r. IsObjectWork p.eps (rooms O.room P.room H.room) (seller_of p.start.value)
        (sold_of r) r.why };
}

/// Starts a thread for each shard of the objects. False where one couldn't be started; then no more are.
pub(crate) fn start_objects<
    's,
    'e: 's,
    O: MailBrand + Send + Sync,
    P: MailBrand + Send + Sync,
    H: MailBrand + Send + Sync,
    R: Threads + Wait + Sync,
    G: Gate + Sync,
>(
    scope: &'s Scope<'s, &'e ()>,
    rt: &'e R,
    gate: &'e G,
    run: &'e PhaseRun<'e, O, P, H>,
    starts: Vec<ObjectWorker<O, P, H>>,
    handles: &mut Vec<PromisedHandle<ObjectWork<O, P, H>, Sold<O, P, H>>>,
) -> bool
    requires many { vec_len starts ≡ run.now.task.limits.now.shards }
    requires starts { AreSellers (setting_of run.now.task) starts.items }
    requires none { handles.old.items ≡ [] }
    requires room { vec_len starts ≤ vec_capacity handles.old }
    ensures promised { Placed (λ k h. IsObjectPromise (setting_of run.now.task) k h.promise) 0 handles.new.items }
    ensures few { vec_len handles.new ≤ run.now.task.limits.now.shards }
    ensures all { IsTrue result → vec_len handles.new ≡ run.now.task.limits.now.shards }
{
    let mut number: u32 = 0;
    for start in starts {
        let promise = Sold {
            eps: run.task.eps,
            start: Snapshot::of(&start),
        };
        let work = move || -> ObjectWork<O, P, H>
            requires { (start.shard.shard ≡ number) × (start.shard.person_shards ≡ run.now.task.limits.now.shards)
                × (number < run.now.task.limits.now.shards) }
        { sell(rt, gate, run, number, start) };
        let Ok(handle) = scope.spawn_with(promise, work) else {
            return false;
        };
        handles.push_reserved(handle);
        number += 1;
    }
    true
}

/// Waits for the threads of the objects, and returns their results.
pub(crate) fn join_objects<
    O: MailBrand + Send + Sync,
    P: MailBrand + Send + Sync,
    H: MailBrand + Send + Sync,
    R: Threads,
>(
    rt: &R,
    task: &Task,
    handles: Vec<PromisedHandle<ObjectWork<O, P, H>, Sold<O, P, H>>>,
    works: &mut Vec<ObjectWork<O, P, H>>,
)
    requires promised { Placed (λ k h. IsObjectPromise (setting_of task.now) k h.promise) 0 handles.items }
    requires none { works.old.items ≡ [] }
    requires room { vec_len handles ≤ vec_capacity works.old }
    ensures many { vec_len works.new ≡ vec_len handles }
    ensures works { HaveSold (setting_of task.now) (rooms O.room P.room H.room) works.new.items }
{
    for handle in handles {
        works.push_reserved(handle.join(rt));
    }
}
