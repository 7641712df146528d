//! Solves with a watch.

ghost use Rattle.std.specs.Prelude.{true};

use crate::texts::{AMPLE, problem_of, text_of};
use auc_direct::{Progress, Watch, may_start, solve_direct_watched, solve_direct_watched_from};
use std::test::*;

/// Three persons, the first without an arc to the last object: so it is no full table, and is solved in phases.
const THREE: &str = "3\n1 1 4 1 2 1\n2 1 2 2 2 0 2 3 500\n3 1 3 3 2 2 3 3 2\n";

/// Each person's first arc has a high cost, and the other one a low cost; all take the high ones, or all the low ones.
const DEAR_FIRST: &str = "3\n1 1 1000 1 2 1\n2 2 1000 2 3 1\n3 1 1 3 3 1000\n";

/// Goes on `left` times, and then says no.
#[derive(Drop)]
struct Patience {
    left: u32,
    asked: u32,
    has_stopped: bool,
}

impl Watch for Patience {
    ghost has_stopped = { λ p. p.has_stopped };

    ghost was_asked = { λ _. true };

    fn has_said_no(&self) -> bool {
        self.has_stopped
    }

    fn goes_on(&mut self, _progress: Progress) -> bool {
        self.asked = self.asked.saturating_add(1);
        if self.left == 0 {
            self.has_stopped = true;
            return false;
        }
        self.left -= 1;
        true
    }
}

/// A watch that goes on `left` times.
fn going_on(left: u32) -> Patience {
    Patience {
        left,
        asked: 0,
        has_stopped: false,
    }
}

/// A no ends the run before the next phase, with a bracket. A watch that never says no gets the answer of all phases,
/// and was asked in each.
#[test]
fn stops(rt: HostRuntime) -> Result<(), Fail> {
    let problem = problem_of(&rt, THREE, 0)?;
    for (times, asked) in [(0, 1), (1, 2)] {
        let mut watch = going_on(times);
        let answer = solve_direct_watched(rt.alloc(), &problem, &AMPLE, &mut watch)?;
        let told = text_of(&rt, &problem, answer)?;
        assert!(rt; told.as_slice().starts_with(b"auction 1\nbracket bids 3 "));
        assert!(rt; watch.asked == asked);
    }
    let mut watch = going_on(100);
    let answer = solve_direct_watched(rt.alloc(), &problem, &AMPLE, &mut watch)?;
    let told = text_of(&rt, &problem, answer)?;
    assert!(rt; told.as_slice().starts_with(b"auction 1\noptimal 3 "));
    assert!(rt; watch.asked > 1);
    Ok(())
}

/// A no after the first phase gives its result: the arcs of low cost. Nothing is held then, and an assignment that is
/// completed from nothing has the arcs of high cost, at a thousand times the cost.
#[test]
fn keeps_the_last_assignment(rt: HostRuntime) -> Result<(), Fail> {
    let problem = problem_of(&rt, DEAR_FIRST, 0)?;
    let mut watch = going_on(1);
    let answer = solve_direct_watched(rt.alloc(), &problem, &AMPLE, &mut watch)?;
    let told = text_of(&rt, &problem, answer)?;
    assert!(rt; watch.has_stopped);
    assert!(rt; told.as_slice().starts_with(b"auction 1\nbracket bids 3 "));
    let assigned = b"\nassign 1 2 1\nassign 2 3 1\nassign 3 1 1\n";
    assert!(rt;
        told.as_slice()
            .windows(assigned.len())
            .any(|part| part == assigned.as_slice())
    );
    Ok(())
}

/// The same from start prices, in one phase.
#[test]
fn stops_from_prices(rt: HostRuntime) -> Result<(), Fail> {
    let problem = problem_of(&rt, THREE, 0)?;
    let mut watch = going_on(0);
    let start = [0, 0, 0];
    if !may_start(&problem, &start) {
        return Err(Fail::new("no start prices"));
    }
    let answer = solve_direct_watched_from(rt.alloc(), &problem, &AMPLE, &start, &mut watch)?;
    let told = text_of(&rt, &problem, answer)?;
    assert!(rt; told.as_slice().starts_with(b"auction 1\nbracket bids 3 "));
    assert!(rt; watch.has_stopped);
    Ok(())
}
