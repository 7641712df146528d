//! The answers where there is one least assignment, or none, up to the prices.

use crate::texts::{AMPLE, answered, problem_of};
use std::test::*;

/// Whether the answer about the problem that a text reads as, with so many objects (0: as many as persons), begins so:
/// up to the prices.
fn claims_so(rt: &HostRuntime, text: &str, objects: u32, claim: &str) -> Result<bool, Fail> {
    let problem = problem_of(rt, text, objects)?;
    let told = answered(rt, &problem, &AMPLE)?;
    Ok(told.as_slice().starts_with(claim.as_bytes()))
}

#[test]
fn claims(rt: HostRuntime) -> Result<(), Fail> {
    assert!(rt;
        claims_so(
            &rt,
            "1\n1 1 -7\n",
            0,
            "auction 1\noptimal 1 -7\nassign 1 1 -7\nprice 1 "
        )?
    );
    assert!(rt;
        claims_so(
            &rt,
            "2\n1 1 1\n1 2 2\n2 1 1\n2 2 3\n",
            0,
            "auction 1\noptimal 2 3\nassign 1 2 2\nassign 2 1 1\nprice 1 "
        )?
    );
    // The cheaper of two arcs between the same two.
    assert!(rt;
        claims_so(
            &rt,
            "1 1 1 4 1 1 2",
            0,
            "auction 1\noptimal 1 2\nassign 1 1 2\nprice 1 "
        )?
    );
    assert!(rt;
        claims_so(
            &rt,
            "3\n1 1 4 1 2 1 1 3 3\n2 1 2 2 2 0 2 3 5\n3 1 3 3 2 2 3 3 2\n",
            0,
            "auction 1\noptimal 3 5\nassign 1 2 1\nassign 2 1 2\nassign 3 3 2\nprice 1 "
        )?
    );
    // Rows that aren't in the order of the persons, nor of the objects.
    assert!(rt;
        claims_so(
            &rt,
            "3\n3 3 2 1 3 3 2 2 0\n1 1 4 3 2 2 1 2 1\n2 3 5 3 1 3 2 1 2\n",
            0,
            "auction 1\noptimal 3 5\nassign 1 2 1\nassign 2 1 2\nassign 3 3 2\nprice 1 "
        )?
    );
    // The least and the greatest cost.
    assert!(rt;
        claims_so(
            &rt,
            "2\n1 1 1000000000 1 2 -1000000000 2 1 -1000000000 2 2 999999999\n",
            0,
            "auction 1\noptimal 2 -2000000000\nassign 1 2 -1000000000\nassign 2 1 -1000000000\nprice 1 "
        )?
    );
    assert!(rt;
        claims_so(
            &rt,
            "2\n1 1 5\n2 1 7\n",
            0,
            "auction 1\ninfeasible 2 1\nperson 1\nperson 2\nobject 1\n"
        )?
    );
    assert!(rt;
        claims_so(
            &rt,
            "2\n1 1 1\n",
            0,
            "auction 1\ninfeasible 1 0\nperson 2\n"
        )?
    );
    // More objects than persons: an object that nobody takes has price 0.
    assert!(rt;
        claims_so(
            &rt,
            "2\n1 1 5 1 2 1\n2 2 2 2 3 9\n",
            4,
            "auction 2\noptimal 2 4 7\nassign 1 1 5\nassign 2 2 2\nprice 1 "
        )?
    );
    assert!(rt;
        claims_so(
            &rt,
            "2\n1 1 5\n2 1 7\n",
            3,
            "auction 1\ninfeasible 2 1\nperson 1\nperson 2\nobject 1\n"
        )?
    );
    Ok(())
}

/// More objects than persons: an object that nobody takes has price 0.
#[test]
fn left_over(rt: HostRuntime) -> Result<(), Fail> {
    let problem = problem_of(&rt, "2\n1 1 5 1 2 1\n2 2 2 2 3 9\n", 4)?;
    let told = answered(&rt, &problem, &AMPLE)?;
    assert!(rt; told.as_slice().ends_with(b"\nprice 3 0\nprice 4 0\n"));
    Ok(())
}
