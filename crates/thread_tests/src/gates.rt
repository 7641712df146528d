//! Gates that hold workers: all shards are at work at once.

use crate::problems::{ONE, TWO, run};
use auc_threads::Gate;
use std::alloc::Global;
use std::process::Abort;
use std::sync::Wait;
use std::sync::atomic::AtomicU64;
use std::sync::atomic::Ordering::SeqCst;
use std::test::*;
use std::thread::{Threads, yield_now};

/// How often a worker looks whether it may pass, and lets others run in between, before it passes anyway.
const TURNS: u32 = 10_000_000;

/// How often each of four workers has come to the gate.
#[derive(Drop)]
struct Visits {
    first: AtomicU64,
    second: AtomicU64,
    third: AtomicU64,
    fourth: AtomicU64,
}

impl Visits {
    fn new() -> Visits {
        Visits {
            first: AtomicU64::new(0),
            second: AtomicU64::new(0),
            third: AtomicU64::new(0),
            fourth: AtomicU64::new(0),
        }
    }

    fn of(&self, worker: u32) -> &AtomicU64 {
        match worker {
            0 => &self.first,
            1 => &self.second,
            2 => &self.third,
            _ => &self.fourth,
        }
    }
}

/// Holds the first pass of each worker from number `held` on, until each worker below number `awaited` has come so
/// often.
#[derive(Drop)]
struct HoldingGate {
    visits: Visits,
    held: u32,
    awaited: u32,
    often: u64,
    late: AtomicU64,
}

impl HoldingGate {
    fn new(held: u32, awaited: u32, often: u64) -> HoldingGate {
        HoldingGate {
            visits: Visits::new(),
            held,
            awaited,
            often,
            late: AtomicU64::new(0),
        }
    }

    fn is_open(&self) -> bool {
        for worker in 0..self.awaited {
            if self.visits.of(worker).load(SeqCst) < self.often {
                return false;
            }
        }
        true
    }

    /// Waits until the gate is open. False where the turns are used up first.
    fn opens(&self) -> bool {
        for _turn in 0..TURNS {
            if self.is_open() {
                return true;
            }
            yield_now();
        }
        false
    }
}

impl Gate for HoldingGate {
    fn pass(&self, worker: u32) {
        let before = self.visits.of(worker).fetch_add(1, SeqCst);
        if worker >= self.held && before == 0 && !self.opens() {
            self.late.fetch_add(1, SeqCst);
        }
    }
}

/// Solves the problem of two persons with two shards of each kind, with this gate, which no worker passes too late.
fn solves_behind<R: Threads + Wait + Abort + Sync>(
    rt: &R,
    alloc: Global,
    gate: &HoldingGate,
    audit: u32,
) -> Result<(), Fail> {
    let solved = run(rt, alloc, TWO, 2, audit, gate)?;
    assert_eq!(rt;
        solved.text.as_slice(),
        b"auction 1\noptimal 2 3\nassign 1 2 2\nassign 2 1 1\nprice 1 7\nprice 2 5\n".as_slice()
    );
    assert_eq!(rt; solved.phases.len(), 1);
    assert_eq!(rt; gate.late.load(SeqCst), 0);
    assert!(rt; gate.is_open());
    Ok(())
}

#[test]
fn all_four_are_inside_at_once(rt: HostRuntime) -> Result<(), Fail> {
    solves_behind(&rt, rt.alloc(), &HoldingGate::new(0, 4, 1), 0)?;
    solves_behind(&rt, rt.alloc(), &HoldingGate::new(0, 4, 1), 1000)
}

#[test]
fn shards_of_the_objects_come_late(rt: HostRuntime) -> Result<(), Fail> {
    solves_behind(&rt, rt.alloc(), &HoldingGate::new(2, 2, 3), 0)
}

// The worker of the one object takes a bid, posts the letters of it at the persons' mail and at the hub's, and then
// hears that the phase is over.
#[test]
fn the_gate_is_passed_before_each_lock(rt: HostRuntime) -> Result<(), Fail> {
    for audit in [0, 1000] {
        let gate = HoldingGate::new(2, 0, 0);
        let solved = run(&rt, rt.alloc(), ONE, 1, audit, &gate)?;
        assert_eq!(rt; solved.phases.len(), 1);
        assert_eq!(rt; gate.visits.of(1).load(SeqCst), 4);
    }
    Ok(())
}
