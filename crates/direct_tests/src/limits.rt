//! Runs out of bids: the answer is a bracket with that reason.

use crate::texts::{answered, problem_of};
use auc_direct::DirectLimits;
use std::test::*;

/// Three persons, the first without an arc to the last object: so it is no full table, and is solved by bids.
const THREE: &str = "3\n1 1 4 1 2 1\n2 1 2 2 2 0 2 3 5\n3 1 3 3 2 2 3 3 2\n";

/// With no bid the prices are those of column reduction, 2, 0 and 2; the scale is 4.
#[test]
fn few_bids(rt: HostRuntime) -> Result<(), Fail> {
    let problem = problem_of(&rt, THREE, 0)?;
    for bids in [0, 1, 2] {
        let told = answered(&rt, &problem, &DirectLimits { bids })?;
        assert!(rt; told.as_slice().starts_with(b"auction 1\nbracket bids 3 "));
    }
    let told = answered(&rt, &problem, &DirectLimits { bids: 0 })?;
    assert!(rt;
        told.as_slice()
            .ends_with(b"\nprice 1 0\nprice 2 8\nprice 3 0\n")
    );
    Ok(())
}

/// A full table is searched as a table, which takes no bids.
#[test]
fn no_bids_for_a_full_table(rt: HostRuntime) -> Result<(), Fail> {
    let problem = problem_of(&rt, "2\n1 1 4 1 2 1\n2 1 2 2 2 0\n", 0)?;
    let told = answered(&rt, &problem, &DirectLimits { bids: 0 })?;
    assert!(rt; told.as_slice().starts_with(b"auction 1\noptimal 2 3\n"));
    Ok(())
}

/// Where there is no assignment, no bid is needed to find that.
#[test]
fn no_bids_for_a_hall_set(rt: HostRuntime) -> Result<(), Fail> {
    let problem = problem_of(&rt, "2\n1 1 5\n2 1 7\n", 0)?;
    let told = answered(&rt, &problem, &DirectLimits { bids: 0 })?;
    assert!(rt; told.as_slice().starts_with(b"auction 1\ninfeasible 2 1\n"));
    Ok(())
}
