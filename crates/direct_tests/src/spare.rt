//! Starts with more objects than persons. The least costs are those of a search of all assignments.

use crate::texts::{AMPLE, answered, answered_from, problem_of};
use auc_direct::{DirectLimits, may_start};
use auc_graph::ArcList;
use std::test::*;

/// Four persons, six objects.
const OLD: &str =
    "4\n1 1 26 1 4 28 1 5 23 1 6 30\n2 2 10 2 3 25 2 5 -7 2 6 16\n3 2 30 3 3 30 3 4 24 3 5 -7 3 6 6\n4 1 20 4 2 28 4 4 9 4 5 -4 4 6 8\n";

/// The same with two costs raised, and its least assignment.
const NEW: &str =
    "4\n1 1 51 1 4 28 1 5 23 1 6 30\n2 2 10 2 3 25 2 5 18 2 6 16\n3 2 30 3 3 30 3 4 24 3 5 -7 3 6 6\n4 1 20 4 2 28 4 4 9 4 5 -4 4 6 8\n";

const OLD_CLAIM: &[u8] =
    b"auction 2\noptimal 4 6 34\nassign 1 1 26\nassign 2 5 -7\nassign 3 6 6\nassign 4 4 9\nprice 1 ";

const NEW_CLAIM: &[u8] =
    b"auction 2\noptimal 4 6 39\nassign 1 4 28\nassign 2 2 10\nassign 3 5 -7\nassign 4 6 8\nprice 1 ";

/// The greatest price of a start.
const MOST: i64 = 1_152_921_504_606_846_976;

/// A price for each of the six objects.
type Six = (i64, i64, i64, i64, i64, i64);

/// No prices, some, high ones on all objects or on those that nobody takes, and the greatest.
const STARTS: [Six; 7] = [
    (0, 0, 0, 0, 0, 0),
    (5, 0, 100, 3, 77, 12),
    (0, 1_000_000, 1_000_000, 0, 0, 0),
    (40, 0, 0, 0, 0, 0),
    (MOST, MOST, MOST, MOST, MOST, MOST),
    (MOST, 0, MOST, 0, MOST, 0),
    (0, 0, 0, 0, 0, MOST),
];

/// The answer of the solver from these prices.
fn told_from(
    rt: &HostRuntime,
    problem: &ArcList,
    limits: &DirectLimits,
    start: Six,
) -> Result<Vec<u8>, Fail> {
    let (a, b, c, d, e, f) = start;
    answered_from(rt, problem, limits, &[a, b, c, d, e, f])
}

/// The least assignment is found whatever the prices were.
#[test]
fn any_prices(rt: HostRuntime) -> Result<(), Fail> {
    let old = problem_of(&rt, OLD, 6)?;
    let new = problem_of(&rt, NEW, 6)?;
    for start in STARTS {
        let told = told_from(&rt, &old, &AMPLE, start)?;
        assert!(rt; told.as_slice().starts_with(OLD_CLAIM));
        let told = told_from(&rt, &new, &AMPLE, start)?;
        assert!(rt; told.as_slice().starts_with(NEW_CLAIM));
    }
    Ok(())
}

/// Where each person's own object is best by more than 1, each person keeps it and no bid is needed; an object that
/// nobody keeps has price 0.
#[test]
fn all_keep(rt: HostRuntime) -> Result<(), Fail> {
    let old = problem_of(&rt, OLD, 6)?;
    for start in [(0, 0, 0, 0, 79, 10), (0, 1_000, MOST, 0, 79, 10)] {
        let told = told_from(&rt, &old, &DirectLimits { bids: 0 }, start)?;
        assert!(rt; told.as_slice().starts_with(OLD_CLAIM));
        assert!(rt;
            told.as_slice().ends_with(
                b"\nprice 1 0\nprice 2 0\nprice 3 0\nprice 4 0\nprice 5 79\nprice 6 10\n"
            )
        );
    }
    Ok(())
}

/// Persons who all have arcs to one object only.
#[test]
fn no_assignment(rt: HostRuntime) -> Result<(), Fail> {
    let problem = problem_of(&rt, "2\n1 1 5\n2 1 7\n", 3)?;
    let told = answered_from(&rt, &problem, &AMPLE, &[MOST, 0, 3])?;
    assert!(rt;
        told.as_slice().starts_with(b"auction 1\ninfeasible 2 1\nperson 1\nperson 2\nobject 1\n")
    );
    Ok(())
}

/// Runs out of bids: an assignment and a bound.
#[test]
fn no_bids(rt: HostRuntime) -> Result<(), Fail> {
    let problem = problem_of(&rt, "2\n1 1 1 1 2 9\n2 1 1 2 3 9\n", 3)?;
    let told = answered_from(&rt, &problem, &DirectLimits { bids: 0 }, &[0, 0, 0])?;
    assert!(rt; told.as_slice().starts_with(b"auction 2\nbracket bids 2 3 "));
    let told = answered(&rt, &problem, &AMPLE)?;
    assert!(rt; told.as_slice().starts_with(b"auction 2\noptimal 2 3 10\n"));
    Ok(())
}

/// A start has a price for each object, from 0 to 2^60.
#[test]
fn which_may_start(rt: HostRuntime) -> Result<(), Fail> {
    let problem = problem_of(&rt, OLD, 6)?;
    assert!(rt; may_start(&problem, &[0, 1, 2, 3, 4, MOST]));
    assert!(rt; !may_start(&problem, &[0, 1, 2, 3, 4]));
    assert!(rt; !may_start(&problem, &[0, 1, 2, 3, 4, 5, 6]));
    assert!(rt; !may_start(&problem, &[0, 1, 2, -1, 4, 5]));
    assert!(rt; !may_start(&problem, &[0, 1, 2, 3, 4, MOST + 1]));
    Ok(())
}
