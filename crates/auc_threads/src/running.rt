//! One phase in threads: a thread for each shard, and the hub on the caller's.

ghost use Rattle.std.specs.Prelude.{◌≡◌, ◌<◌, ◌≤◌, [], IfOk, IsTrue, vec_capacity, vec_len};
ghost use Rattle.auc_threads.specs.Naming.{workers_of};
ghost use Rattle.auc_threads.specs.Counting.{Closes, Counts};
ghost use Rattle.auc_threads.specs.Placed.{Placed};
ghost use Rattle.auc_threads.specs.Starts.{AreBuyers, AreSellers, AreStarts, AreWorks, IsObjectPromise};
ghost use Rattle.auc_threads.specs.Starts.{IsPersonPromise};
ghost use Rattle.auc_threads.specs.Worker.{AreNewSeats, accounts_of, rooms, setting_of};

use crate::bidding::Buyer;
use crate::error::RunError;
use crate::gate::Gate;
use crate::hub::{HubWork, close_all, count};
use crate::mails::{Mails, WorkerSeats};
use crate::object_threads::{Sold, join_objects, start_objects};
use crate::object_worker::{ObjectWork, ObjectWorker};
use crate::person_threads::{Bought, join_persons, start_persons};
use crate::person_worker::{PersonWork, PersonWorker};
use crate::task::{PhaseRun, Task};
use auc_book::MailBrand;
use auc_objects::ObjectShard;
use auc_persons::{Bidder, PersonShard};
use std::alloc::{AllocError, Global};
use std::sync::Wait;
use std::thread;
use std::thread::{PromisedHandle, Scope, Threads};

/// The state of a phase's workers at its start.
#[derive(Drop)]
pub(crate) struct Starts<O: MailBrand, P: MailBrand, H: MailBrand> {
    pub(crate) persons: Vec<PersonWorker<O, P, H>>,
    pub(crate) objects: Vec<ObjectWorker<O, P, H>>,
    pub(crate) hub: WorkerSeats<O, P, H>,
}

/// Their results.
#[derive(Drop)]
pub(crate) struct Works<O: MailBrand, P: MailBrand, H: MailBrand> {
    pub(crate) persons: Vec<PersonWork<O, P, H>>,
    pub(crate) objects: Vec<ObjectWork<O, P, H>>,
    pub(crate) hub: HubWork<O, P, H>,
}

/// The threads that were started.
#[derive(Drop)]
struct Handles<O: MailBrand, P: MailBrand, H: MailBrand> {
    persons: Vec<PromisedHandle<PersonWork<O, P, H>, Bought<O, P, H>>>,
    objects: Vec<PromisedHandle<ObjectWork<O, P, H>, Sold<O, P, H>>>,
}

/// The workers of the persons, by their seats, each with a new bidder. In a phase no copy of a price falls, so the
/// lists in it stay right.
fn person_starts<O: MailBrand, P: MailBrand, H: MailBrand>(
    alloc: Global,
    task: &Task,
    seats: Vec<WorkerSeats<O, P, H>>,
) -> Result<Vec<PersonWorker<O, P, H>>, AllocError>
    requires seats { Placed (λ k w. AreNewSeats k (accounts_of w)) 0 seats.items }
    requires many { vec_len seats ≡ task.now.limits.now.shards }
    ensures starts { IfOk result (λ v. AreBuyers (setting_of task.now) v.items) }
    ensures many { IfOk result (λ v. vec_len v ≡ task.now.limits.now.shards) }
{
    let shards = task.limits.shards;
    let bids = task.limits.bids;
    let persons = task.rows.persons();
    let mut starts = Vec::with_capacity(alloc, seats.len())?;
    let mut number: u32 = 0;
    for seats in seats {
        let shard = PersonShard::make(alloc, number, shards, shards, persons, task.prices, bids)?;
        let lists = Bidder::make(alloc, task.rows, number, shards)?;
        let buyer = Buyer { shard, lists };
        starts.push_reserved(PersonWorker { buyer, seats });
        number += 1;
    }
    Ok(starts)
}

/// The workers of the objects, by their seats.
fn object_starts<O: MailBrand, P: MailBrand, H: MailBrand>(
    alloc: Global,
    task: &Task,
    seats: Vec<WorkerSeats<O, P, H>>,
) -> Result<Vec<ObjectWorker<O, P, H>>, AllocError>
    requires seats { Placed (λ k w. AreNewSeats k (accounts_of w)) task.now.limits.now.shards seats.items }
    requires many { vec_len seats ≡ task.now.limits.now.shards }
    ensures starts { IfOk result (λ v. AreSellers (setting_of task.now) v.items) }
    ensures many { IfOk result (λ v. vec_len v ≡ task.now.limits.now.shards) }
{
    let shards = task.limits.shards;
    let persons = task.rows.persons();
    let mut starts = Vec::with_capacity(alloc, seats.len())?;
    let mut number: u32 = 0;
    for seats in seats {
        let shard = ObjectShard::make(alloc, number, shards, shards, persons, task.prices)?;
        starts.push_reserved(ObjectWorker { shard, seats });
        number += 1;
    }
    Ok(starts)
}

/// Gives each worker its shard.
pub(crate) fn starts_of<O: MailBrand, P: MailBrand, H: MailBrand>(
    alloc: Global,
    task: &Task,
    seats: Vec<WorkerSeats<O, P, H>>,
) -> Result<Starts<O, P, H>, AllocError>
    requires seats { Placed (λ k w. AreNewSeats k (accounts_of w)) 0 seats.items }
    requires many { vec_len seats ≡ workers_of task.now.limits.now.shards }
    ensures { IfOk result (AreStarts (setting_of task.now)) }
{
    let mut seats = seats;
    let Some(hub) = seats.pop() else {
        unreachable!()
    };
    let object_seats = seats.split_off(task.limits.shards as usize)?;
    let persons = person_starts(alloc, task, seats)?;
    let objects = object_starts(alloc, task, object_seats)?;
    Ok(Starts {
        persons,
        objects,
        hub,
    })
}

/// The hub's work: it counts; or it closes all boxes at once, where a thread couldn't be started.
fn hub_work<O: MailBrand, P: MailBrand, H: MailBrand, R: Wait>(
    rt: &R,
    mails: &Mails<O, P, H>,
    persons: u32,
    seats: WorkerSeats<O, P, H>,
    is_counting: bool,
) -> HubWork<O, P, H>
    requires { 0 < persons }
    ensures counts { IsTrue is_counting → Counts H.room persons seats.hub result.is_all result.why result.seats.hub }
    ensures objects { Closes O.room O.boxes seats.objects result.seats.objects }
    ensures persons { Closes P.room P.boxes seats.persons result.seats.persons }
{
    if is_counting {
        return count(rt, mails, persons, seats);
    }
    let mut seats = seats;
    close_all(rt, mails, &mut seats);
    HubWork {
        seats,
        is_all: false,
        why: None,
    }
}

/// Starts a thread for each shard, those of the persons first. False where one couldn't be started; then no more are,
/// of either kind.
fn start_all<
    's,
    'e: 's,
    O: MailBrand + Send + Sync,
    P: MailBrand + Send + Sync,
    H: MailBrand + Send + Sync,
    R: Threads + Wait + Sync,
    G: Gate + Sync,
>(
    scope: &'s Scope<'s, &'e ()>,
    rt: &'e R,
    gate: &'e G,
    run: &'e PhaseRun<'e, O, P, H>,
    persons: Vec<PersonWorker<O, P, H>>,
    objects: Vec<ObjectWorker<O, P, H>>,
    handles: &mut Handles<O, P, H>,
) -> bool
    requires persons { AreBuyers (setting_of run.now.task) persons.items }
    requires persons_many { vec_len persons ≡ run.now.task.limits.now.shards }
    requires persons_none { handles.old.persons.items ≡ [] }
    requires persons_room { vec_len persons ≤ vec_capacity handles.old.persons }
    requires objects { AreSellers (setting_of run.now.task) objects.items }
    requires objects_many { vec_len objects ≡ run.now.task.limits.now.shards }
    requires objects_none { handles.old.objects.items ≡ [] }
    requires objects_room { vec_len objects ≤ vec_capacity handles.old.objects }
    ensures persons { Placed (λ k h. IsPersonPromise (setting_of run.now.task) k h.promise) 0
        handles.new.persons.items }
    ensures persons_few { vec_len handles.new.persons ≤ run.now.task.limits.now.shards }
    ensures objects { Placed (λ k h. IsObjectPromise (setting_of run.now.task) k h.promise) 0
        handles.new.objects.items }
    ensures objects_few { vec_len handles.new.objects ≤ run.now.task.limits.now.shards }
    ensures persons_all { IsTrue result → vec_len handles.new.persons ≡ run.now.task.limits.now.shards }
    ensures objects_all { IsTrue result → vec_len handles.new.objects ≡ run.now.task.limits.now.shards }
    ensures refused { vec_len handles.new.persons < run.now.task.limits.now.shards → handles.new.objects.items ≡ [] }
{
    if !start_persons(scope, rt, gate, run, persons, &mut handles.persons) {
        return false;
    }
    start_objects(scope, rt, gate, run, objects, &mut handles.objects)
}

/// Starts all threads, counts, and waits for them.
fn run_all<
    's,
    'e: 's,
    O: MailBrand + Send + Sync,
    P: MailBrand + Send + Sync,
    H: MailBrand + Send + Sync,
    R: Threads + Wait + Sync,
    G: Gate + Sync,
>(
    scope: &'s Scope<'s, &'e ()>,
    alloc: Global,
    rt: &'e R,
    gate: &'e G,
    run: &'e PhaseRun<'e, O, P, H>,
    starts: Starts<O, P, H>,
) -> Result<Works<O, P, H>, RunError>
    requires { AreStarts (setting_of run.now.task) starts }
    ensures { IfOk result (AreWorks (setting_of run.now.task) (rooms O.room P.room H.room)) }
{
    let shards = run.task.limits.shards as usize;
    let persons_count = run.task.rows.persons();
    let Starts {
        persons: person_starts,
        objects: object_starts,
        hub: seats,
    } = starts;
    let mut handles = Handles {
        persons: Vec::with_capacity(alloc, shards)?,
        objects: Vec::with_capacity(alloc, shards)?,
    };
    let mut persons = Vec::with_capacity(alloc, shards)?;
    let mut objects = Vec::with_capacity(alloc, shards)?;
    let is_whole = start_all(
        scope,
        rt,
        gate,
        run,
        person_starts,
        object_starts,
        &mut handles,
    );
    let Handles {
        persons: person_handles,
        objects: object_handles,
    } = handles;
    let hub = hub_work(rt, run.mails, persons_count, seats, is_whole);
    join_persons(rt, &run.task, person_handles, &mut persons);
    join_objects(rt, &run.task, object_handles, &mut objects);
    if !is_whole {
        return Err(RunError::Spawn);
    }
    Ok(Works {
        persons,
        objects,
        hub,
    })
}

/// Runs all threads in a scope of their own.
pub(crate) fn run_in_scope<
    O: MailBrand + Send + Sync,
    P: MailBrand + Send + Sync,
    H: MailBrand + Send + Sync,
    R: Threads + Wait + Sync,
    G: Gate + Sync,
>(
    rt: &R,
    alloc: Global,
    gate: &G,
    run: &PhaseRun<'_, O, P, H>,
    starts: Starts<O, P, H>,
) -> Result<Works<O, P, H>, RunError>
    requires { AreStarts (setting_of run.now.task) starts }
    ensures { IfOk result (AreWorks (setting_of run.now.task) (rooms O.room P.room H.room)) }
{
    thread::scope(
        thread::scope_env(),
        rt,
        |scope| -> Result<Works<O, P, H>, RunError>
            requires { AreStarts (setting_of run.now.task) starts }
            ensures { IfOk result (AreWorks (setting_of run.entry.now.task) (rooms O.room P.room H.room)) }
        { run_all(scope, alloc, rt, gate, run, starts) },
    )
}
