//! Eps by phases, and the usual limits.

use crate::problems::{NO_OBJECT, ONE, THREE, TWO, rows_of};
use crate::same::assert_same;
use auc_world::{first_eps, next_eps};
use std::test::*;

/// A spread of 100 in a problem of 5,000 persons.
const SPREAD_OF_100: &str = "5000\n1 1 -40\n7 9 60\n5000 5000 0\n";

/// Each phase's eps is a fifth of the last, down to 1, and the first one an eighth of the scaled spread.
#[test]
fn phases(rt: HostRuntime) -> Result<(), Fail> {
    for (text, expected) in [
        (THREE, [2, 1].as_slice()),
        (
            SPREAD_OF_100,
            [62512, 12502, 2500, 500, 100, 20, 4, 1].as_slice(),
        ),
        // A spread of 2, of 0 and of 0.
        (TWO, [1].as_slice()),
        (ONE, [1].as_slice()),
        (NO_OBJECT, [1].as_slice()),
    ] {
        let mut eps = Some(first_eps(&rows_of(&rt, text)?));
        for one in expected {
            assert_same(&rt, (text, eps), (text, Some(*one)));
            eps = next_eps(*one);
        }
        assert_same(&rt, (text, eps), (text, None));
    }
    Ok(())
}

#[test]
fn no_phase_behind_the_last(rt: HostRuntime) {
    for eps in [1, 0, -5, i64::MIN] {
        assert_same(&rt, (eps, next_eps(eps)), (eps, None));
    }
    assert_same(&rt, next_eps(9), Some(1));
    assert_same(&rt, next_eps(10), Some(2));
}
