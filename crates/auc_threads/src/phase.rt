//! One phase in threads, on new mails.

ghost use Rattle.std.specs.Prelude.{ℕ, ◌≡◌, length, IfOk};
ghost use Rattle.auc_letters.specs.Price.{IsEps};
ghost use Rattle.auc_phases.specs.Begins.{ArePrices};
ghost use Rattle.auc_threads.specs.Naming.{AreNamed, AreThreadLimits, IsUnopened, numbers, workers_of};
ghost use Rattle.auc_threads.specs.Phase.{IsPhase};
ghost use Rattle.auc_threads.specs.Starts.{AreWorks};
ghost use Rattle.auc_threads.specs.Worker.{rooms, setting_of};

use crate::error::RunError;
use crate::gate::Gate;
use crate::gathering::{bids_of, end_of, gather, told_end};
use crate::mails::{Ledgers, Mails};
use crate::running::{Works, run_in_scope, starts_of};
use crate::settling::{Trails, seats_of, settle_all};
use crate::task::{PhaseRun, Task};
use auc_answers::Gathered;
use auc_book::MailBrand;
use auc_graph::Rows;
use auc_model::End;
use auc_phases::Limits;
use std::alloc::Global;
use std::marker::Brand;
use std::sync::Wait;
use std::sync::ledger::Blank;
use std::thread::Threads;

/// The result of a phase.
#[derive(Drop)]
pub struct PhaseEnd {
    /// The holder of each object, and its price.
    pub gathered: Gathered,
    /// The number of bids that each shard of the persons has posted, in order, those that were refused too.
    pub bids: Vec<u64>,
    /// How it ended; None where nothing was reported.
    pub end: Option<End>,
    /// The trails, where all three mails settled.
    pub trails: Option<Trails>,
}

/// The result of the phase, from those of its workers.
fn finish<O: MailBrand, P: MailBrand, H: MailBrand>(
    alloc: Global,
    task: &Task,
    mails: Mails<O, P, H>,
    works: Works<O, P, H>,
) -> Result<PhaseEnd, RunError>
    requires works { AreWorks (setting_of task.now) (rooms O.room P.room H.room) works }
    requires names { AreNamed task.now.limits.now (length task.now.rows.now.rows)
        (numbers O.boxes O.workers O.nodes O.most O.room)
        (numbers P.boxes P.workers P.nodes P.most P.room) (numbers H.boxes H.workers H.nodes H.most H.room) }
    ensures { IfOk result (IsPhase task.now.rows.now task.now.limits.now task.now.eps task.now.prices.now) }
{
    let shards = task.limits.shards;
    let gathered = gather(alloc, task.rows.objects(), shards, works.objects.as_slice())?;
    let bids = bids_of(alloc, works.persons.as_slice())?;
    let ended = end_of(&works);
    let end = told_end(ended, task.limits.audit);
    let all = seats_of(alloc, works)?;
    let trails = settle_all(mails, all);
    Ok(PhaseEnd {
        gathered,
        bids,
        end,
        trails,
    })
}

/// One phase, with names for its three mails.
fn named_phase<
    O: MailBrand + Send + Sync,
    P: MailBrand + Send + Sync,
    H: MailBrand + Send + Sync,
    R: Threads + Wait + Sync,
    G: Gate + Sync,
>(rt: &R, alloc: Global, gate: &G, task: &Task, ledgers: Ledgers) -> Result<PhaseEnd, RunError>
    requires objects_ledger { IsUnopened ledgers.objects.name O.name ledgers.objects.parts O.parts
        (workers_of task.now.limits.now.shards) }
    requires persons_ledger { IsUnopened ledgers.persons.name P.name ledgers.persons.parts P.parts
        (workers_of task.now.limits.now.shards) }
    requires hub_ledger { IsUnopened ledgers.hub.name H.name ledgers.hub.parts H.parts
        (workers_of task.now.limits.now.shards) }
    requires names { AreNamed task.now.limits.now (length task.now.rows.now.rows)
        (numbers O.boxes O.workers O.nodes O.most O.room)
        (numbers P.boxes P.workers P.nodes P.most P.room) (numbers H.boxes H.workers H.nodes H.most H.room) }
    ensures { IfOk result (IsPhase task.now.rows.now task.now.limits.now task.now.eps task.now.prices.now) }
{
    let (mails, seats) = Mails::<O, P, H>::make(alloc, task.rows.persons(), task.limits, ledgers)?;
    let starts = starts_of(alloc, task, seats)?;
    let run = PhaseRun {
        task: *task,
        mails: &mails,
    };
    let works = run_in_scope(rt, alloc, gate, &run, starts)?;
    finish(alloc, task, mails, works)
}

/// One phase in threads, on new mails: a thread for each shard, and the hub on the caller's.
///
/// `prices` are in scaled costs, from 0 to 2^61, indexed by object; `eps` is in scaled costs, from 1 to 2^60. Every
/// worker of a shard passes the gate before each time it takes the lock of a mail, for one call or for several.
/// `limits.audit` is the number of calls that each mail, and each seat at it, has places for. The trails are returned
/// where it is above 0 and all three mails settled with their seats.
///
/// Nothing is said of whether it ends.
///
/// Takes the time of the bids, each O(arcs of the person). Takes O(shards * (persons + objects)) memory, and that for
/// 3 * (2 * shards + 2) * audit lines.
///
/// # Errors
///
/// `NoMemory`, and `Spawn` where a thread couldn't be started: then those that run are ended and waited for.
pub fn phase_threads<R: Threads + Wait + Sync, G: Gate + Sync>(
    rt: &R,
    alloc: Global,
    rows: &Rows,
    limits: &Limits,
    prices: &[i64],
    eps: i64,
    gate: &G,
) -> Result<PhaseEnd, RunError>
    requires prices { ArePrices rows.now prices.now }
    requires eps { IsEps eps }
    requires limits { AreThreadLimits limits.now }
    ensures { IfOk result (IsPhase rows.now limits.now eps prices.now) }
{
    let workers = u64::from(2 * limits.shards + 1);
    let ledgers = Ledgers {
        objects: Blank::new(workers),
        persons: Blank::new(workers),
        hub: Blank::new(workers),
    };
    let task = Task {
        rows,
        limits,
        prices,
        eps,
    };
    named_phase::<Brand, Brand, Brand, R, G>(rt, alloc, gate, &task, ledgers)
}
