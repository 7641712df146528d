//! The call over a table.

use crate::given::run_of;
use crate::same::assert_same;
use auc_call::{BRACKET, Found, INFEASIBLE, OPTIMAL, REFUSED, Run, SIZES, START, Watch};
use auc_dense::{GivenTable, solve_table_call};
use std::test::*;

/// No arc is where this number is.
pub(crate) const GAP: i64 = -7;

/// What is between rows, and would be refused among the entries.
const UNSEEN: i64 = i64::MIN;

const NOTHING: Found = Found {
    cost: 9,
    lower: 9,
    persons: 9,
    objects: 9,
    kind: 9,
    place: 9,
};

/// Two persons and three objects, with a place between their rows: the least cost is 3.
pub(crate) const TABLE: [i64; 7] = [1, 2, GAP, UNSEEN, 1, 4, 9];

/// What a solve of two persons has returned, and what is in the caller's memory then.
#[derive(Clone, Copy, Debug, PartialEq)]
pub(crate) struct Behind {
    pub(crate) status: i32,
    pub(crate) choice: [u32; 2],
    pub(crate) prices: [i64; 3],
    pub(crate) objects: [u32; 2],
    pub(crate) found: Found,
}

/// Solves a table of two persons and three objects.
pub(crate) fn solved(
    rt: &HostRuntime,
    costs: &[i64],
    stride: usize,
    gap: i64,
    start: &[i64],
    bids: u64,
) -> Behind {
    solved_under(rt, costs, stride, gap, &mut run_of(start, bids))
}

/// The same by this run.
pub(crate) fn solved_under<W: Watch>(
    rt: &HostRuntime,
    costs: &[i64],
    stride: usize,
    gap: i64,
    run: &mut Run<'_, W>,
) -> Behind {
    let (mut choice, mut prices, mut objects, mut found) = ([7; 2], [7; 3], [7; 2], NOTHING);
    let given = GivenTable {
        persons: 2,
        objects: 3,
        costs,
        stride,
        gap,
    };
    let status = solve_table_call(
        rt.alloc(),
        &given,
        run,
        &mut choice,
        &mut prices,
        &mut objects,
        &mut found,
    );
    Behind {
        status,
        choice,
        prices,
        objects,
        found,
    }
}

/// From nothing, and from the prices that are there then.
#[test]
fn optimal(rt: HostRuntime) {
    let told = solved(&rt, &TABLE, 4, GAP, &[], 1000);
    assert_same(
        &rt,
        (told.status, told.choice[0], told.choice[1], told.objects[0]),
        (OPTIMAL, 1, 0, 7),
    );
    assert_same(&rt, (told.found.cost, told.found.kind), (3, 9));
    let prices = told.prices;
    let again = solved(&rt, &TABLE, 4, GAP, &prices, 1000);
    assert_same(
        &rt,
        (again.status, again.choice[0], again.choice[1]),
        (OPTIMAL, 1, 0),
    );
    assert_same(&rt, again.found.cost, 3);
}

#[test]
fn bracket_and_start(rt: HostRuntime) {
    let told = solved(&rt, &TABLE, 4, GAP, &[], 0);
    assert_same(&rt, (told.status, told.found.kind), (BRACKET, 1));
    assert!(rt; told.found.lower <= 3 && 3 <= told.found.cost);
    assert!(rt; told.choice[0] < 2 && told.choice[1] < 3 && told.choice[0] != told.choice[1]);
    let told = solved(&rt, &TABLE, 4, GAP, &[0, 0, -1], 9);
    assert_same(
        &rt,
        (told.status, told.found.kind, told.found.place),
        (START, 3, 2),
    );
}

/// Two bids from prices of 0: the first person's for the first object is 5, since the second costs 4 more, and so is
/// the second person's, for the second object. All want the first one then, at 1 + 5, so no assignment costs less than
/// 3 * 6 - 10.
#[test]
fn by_few_bids(rt: HostRuntime) {
    let given = GivenTable {
        persons: 3,
        objects: 3,
        costs: &[1, 5, GAP, 1, 2, 7, 1, 4, GAP],
        stride: 3,
        gap: GAP,
    };
    let (mut choice, mut prices, mut objects, mut found) = ([7; 3], [7; 3], [7; 3], NOTHING);
    let status = solve_table_call(
        rt.alloc(),
        &given,
        &mut run_of(&[], 2),
        &mut choice,
        &mut prices,
        &mut objects,
        &mut found,
    );
    assert_same(&rt, (status, found.kind, found.lower), (BRACKET, 1, 8));
    assert_same(&rt, (prices[0], prices[1], prices[2]), (20, 20, 0));
    assert_same(&rt, (choice[1], objects[0]), (2, 7));
    assert!(rt; 12 <= found.cost && found.cost <= 13);
}

/// Both have arcs to the second object alone.
#[test]
fn infeasible(rt: HostRuntime) {
    let told = solved(&rt, &[GAP, 1, GAP, GAP, 1, GAP], 3, GAP, &[], 1000);
    assert_same(
        &rt,
        (told.status, told.choice[0], told.choice[1]),
        (INFEASIBLE, 0, 1),
    );
    assert_same(&rt, (told.found.persons, told.found.objects), (2, 1));
    assert_same(&rt, (told.objects[0], told.objects[1]), (1, 7));
}

/// The second entry of the second row, whatever the stride.
#[test]
fn refused(rt: HostRuntime) {
    let far = 1_000_000_001;
    let told = solved(&rt, &[1, 2, GAP, UNSEEN, 1, far, 9], 4, GAP, &[], 9);
    assert_same(
        &rt,
        (told.status, told.found.kind, told.found.place),
        (REFUSED, 6, 4),
    );
    let told = solved(&rt, &[1, 2, GAP, 1, far, 9], 3, GAP, &[], 9);
    assert_same(
        &rt,
        (told.status, told.found.kind, told.found.place),
        (REFUSED, 6, 4),
    );
    let told = solved(&rt, &[1, 2, 0, 1, far, 9], 3, far, &[], 1000);
    assert_same(&rt, (told.status, told.found.cost), (OPTIMAL, 1));
    assert_same(&rt, (told.choice[0], told.choice[1]), (2, 0));
}

#[test]
fn sizes(rt: HostRuntime) {
    let short = solved(&rt, &[1, 2, GAP, UNSEEN, 1, 4], 4, GAP, &[], 9);
    assert_same(
        &rt,
        (short.status, short.choice[0], short.found.kind),
        (SIZES, 7, 9),
    );
    assert_same(&rt, solved(&rt, &TABLE, 2, GAP, &[], 9).status, SIZES);
    assert_same(&rt, solved(&rt, &TABLE, 5, GAP, &[], 9).status, SIZES);
    assert_same(
        &rt,
        solved(&rt, &TABLE, usize::MAX, GAP, &[], 9).status,
        SIZES,
    );
}
