//! Solves that start from prices.

use crate::texts::{AMPLE, answered_from, problem_of};
use auc_direct::DirectLimits;
use std::test::*;

/// Three persons, three objects.
const THREE: &str = "3\n1 1 4 1 2 1 1 3 3\n2 1 2 2 2 0 2 3 5\n3 1 3 3 2 2 3 3 2\n";

/// The greatest price of a start.
const MOST: i64 = 1_152_921_504_606_846_976;

/// Whether the least assignment is found from these prices.
fn is_found_from(rt: &HostRuntime, start: &[i64]) -> Result<bool, Fail> {
    let problem = problem_of(rt, THREE, 0)?;
    let told = answered_from(rt, &problem, &AMPLE, start)?;
    let least = b"auction 1\noptimal 3 5\nassign 1 2 1\nassign 2 1 2\nassign 3 3 2\n";
    Ok(told.as_slice().starts_with(least))
}

/// The least assignment is found whatever the prices were: those of the problem, of another one, and the greatest.
#[test]
fn prices_start_a_solve(rt: HostRuntime) -> Result<(), Fail> {
    assert!(rt; is_found_from(&rt, &[10, 17, 15])?);
    assert!(rt; is_found_from(&rt, &[0, 7, 0])?);
    assert!(rt; is_found_from(&rt, &[MOST, 0, MOST])?);
    Ok(())
}

/// At prices that show who takes what no bid is needed.
#[test]
fn no_bids_from_prices(rt: HostRuntime) -> Result<(), Fail> {
    let problem = problem_of(&rt, THREE, 0)?;
    let told = answered_from(&rt, &problem, &DirectLimits { bids: 0 }, &[0, 8, 1])?;
    assert!(rt;
        told.as_slice().starts_with(
            b"auction 1\noptimal 3 5\nassign 1 2 1\nassign 2 1 2\nassign 3 3 2\n"
        )
    );
    Ok(())
}

/// Where there is no assignment, a run from start prices says so. Either a person has no arc. Or each person has one,
/// but persons have arcs to too few objects, so that a search for a path finds none.
#[test]
fn no_assignment_from_prices(rt: HostRuntime) -> Result<(), Fail> {
    let problem = problem_of(&rt, "2\n1 1 1\n", 0)?;
    let told = answered_from(&rt, &problem, &AMPLE, &[3, 0])?;
    assert!(rt;
        told.as_slice()
            .starts_with(b"auction 1\ninfeasible 1 0\nperson 2\n")
    );
    let problem = problem_of(
        &rt,
        "4\n1 1 5 1 2 8\n2 1 7 2 2 0\n3 1 1 3 2 2\n4 3 4 4 4 4\n",
        0,
    )?;
    let told = answered_from(&rt, &problem, &AMPLE, &[9, 0, 0, 2])?;
    assert!(rt;
        told.as_slice().starts_with(
            b"auction 1\ninfeasible 3 2\nperson 1\nperson 2\nperson 3\nobject 1\nobject 2\n"
        )
    );
    Ok(())
}
