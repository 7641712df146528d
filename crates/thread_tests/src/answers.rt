//! The answers of the solver in threads, up to the bytes of its certificate, and the results of a phase.

use crate::problems::{ONE, ONE_OBJECT, THREE, TWO, limits_of, problem_of, run, run_from};
use auc_graph::Rows;
use auc_letters::Why;
use auc_threads::{FreeGate, phase_threads};
use auc_world::{End, Limits};
use std::test::*;

const SHARDS: [u32; 3] = [1, 2, 16];

#[test]
fn one_person_with_any_shards(rt: HostRuntime) -> Result<(), Fail> {
    for shards in SHARDS {
        let solved = run(&rt, rt.alloc(), ONE, shards, 0, &FreeGate)?;
        assert_eq!(rt;
            solved.text.as_slice(),
            b"auction 1\noptimal 1 -7\nassign 1 1 -7\nprice 1 1\n".as_slice()
        );
        assert!(rt; solved.phases.len() == 1);
    }
    Ok(())
}

#[test]
fn two_persons_with_any_shards(rt: HostRuntime) -> Result<(), Fail> {
    for shards in SHARDS {
        let solved = run(&rt, rt.alloc(), TWO, shards, 1000, &FreeGate)?;
        assert_eq!(rt;
            solved.text.as_slice(),
            b"auction 1\noptimal 2 3\nassign 1 2 2\nassign 2 1 1\nprice 1 7\nprice 2 5\n".as_slice()
        );
        assert_eq!(rt; solved.phases.len(), 1);
        for phase in solved.phases.iter() {
            assert_eq!(rt; phase.end, Some(End::All));
            assert_eq!(rt; phase.gathered.prices.as_slice(), [7i64, 5].as_slice());
            assert!(rt; phase.trails.is_some());
        }
    }
    Ok(())
}

// The prices depend on the schedule, but there is only one least-cost assignment; and there are two phases.
#[test]
fn three_persons_with_any_shards(rt: HostRuntime) -> Result<(), Fail> {
    for shards in SHARDS {
        let solved = run(&rt, rt.alloc(), THREE, shards, 1000, &FreeGate)?;
        assert!(rt;
            solved.text.as_slice().starts_with(
                b"auction 1\noptimal 3 5\nassign 1 2 1\nassign 2 1 2\nassign 3 3 2\nprice 1 "
            )
        );
        assert_eq!(rt; solved.phases.len(), 2);
    }
    Ok(())
}

/// From the prices of an old certificate there is one phase.
#[test]
fn from_a_start_with_any_shards(rt: HostRuntime) -> Result<(), Fail> {
    let cert = "auction 1\noptimal 2 3\nassign 1 2 2\nassign 2 1 1\nprice 1 7\nprice 2 5\n";
    for shards in SHARDS {
        let text = "2\n1 1 1\n1 2 2\n2 1 4\n2 2 3\n";
        let solved = run_from(&rt, rt.alloc(), text, cert, shards, &FreeGate)?;
        assert!(rt;
            solved.text.as_slice().starts_with(
                b"auction 1\noptimal 2 4\nassign 1 1 1\nassign 2 2 3\nprice 1 "
            )
        );
        assert_eq!(rt; solved.phases.len(), 1);
    }
    Ok(())
}

#[test]
fn no_assignment_and_no_phase(rt: HostRuntime) -> Result<(), Fail> {
    let solved = run(&rt, rt.alloc(), ONE_OBJECT, 2, 0, &FreeGate)?;
    assert_eq!(rt;
        solved.text.as_slice(),
        b"auction 1\ninfeasible 2 1\nperson 1\nperson 2\nobject 1\n".as_slice()
    );
    assert!(rt; solved.phases.is_empty());
    Ok(())
}

#[test]
fn a_full_trail_is_a_bracket(rt: HostRuntime) -> Result<(), Fail> {
    let solved = run(&rt, rt.alloc(), TWO, 1, 1, &FreeGate)?;
    assert_eq!(rt;
        solved.text.as_slice(),
        b"auction 1\nbracket trail 2 2 4\nassign 1 1 1\nassign 2 2 3\nprice 1 0\nprice 2 0\n".as_slice()
    );
    assert!(rt; solved.phases.iter().all(|phase| phase.trails.is_some()));
    Ok(())
}

#[test]
fn a_phase_of_two_persons(rt: HostRuntime) -> Result<(), Fail> {
    let rows = Rows::build(rt.alloc(), &problem_of(rt.alloc(), TWO)?)?;
    let limits = limits_of(2, 1000)?;
    let prices = vec![in rt.alloc(); 0; rows.objects() as usize]?;
    let ended = phase_threads(
        &rt,
        rt.alloc(),
        &rows,
        &limits,
        prices.as_slice(),
        1,
        &FreeGate,
    )?;
    assert_eq!(rt; ended.end, Some(End::All));
    assert_eq!(rt; ended.gathered.prices.as_slice(), [7i64, 5].as_slice());
    assert!(rt; ended.trails.is_some());
    assert_eq!(rt; ended.bids.len(), 2);
    Ok(())
}

#[test]
fn no_more_bids_than_allowed(rt: HostRuntime) -> Result<(), Fail> {
    let rows = Rows::build(rt.alloc(), &problem_of(rt.alloc(), TWO)?)?;
    let prices = vec![in rt.alloc(); 0; rows.objects() as usize]?;
    for audit in [0, 1000] {
        let limits = Limits {
            bids: 1,
            ..limits_of(1, audit)?
        };
        let ended = phase_threads(
            &rt,
            rt.alloc(),
            &rows,
            &limits,
            prices.as_slice(),
            1,
            &FreeGate,
        )?;
        assert_eq!(rt; ended.end, Some(End::Stopped { why: Why::Bids }));
        assert_eq!(rt; ended.bids.as_slice(), [1u64].as_slice());
    }
    Ok(())
}
