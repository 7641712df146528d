//! More objects than persons, and which of the solvers takes what.

use crate::given::{given_arcs, run_of};
use crate::same::assert_same;
use auc_call::{
    BRACKET, Found, OPTIMAL, Run, START, Watch, check_call, solve_by_messages_call, solve_call,
};
use auc_graph::Arc;
use std::test::*;

const NOTHING: Found = Found {
    cost: 9,
    lower: 9,
    persons: 9,
    objects: 9,
    kind: 9,
    place: 9,
};

/// The highest price of a start.
const MOST: i64 = 1_152_921_504_606_846_976;

fn arc(person: u32, object: u32, cost: i64) -> Arc {
    Arc {
        cost,
        person,
        object,
    }
}

/// Three persons who all want the first two objects, with outlets at very unequal costs; the least cost is 10^8.
pub(crate) fn outlets() -> [Arc; 12] {
    [
        arc(0, 0, 0),
        arc(0, 1, 0),
        arc(0, 2, 1_000_000_000),
        arc(0, 3, 500_000_000),
        arc(1, 0, 0),
        arc(1, 1, 0),
        arc(1, 2, 999_999_500),
        arc(1, 3, 100_000_000),
        arc(2, 0, 0),
        arc(2, 1, 0),
        arc(2, 2, 999_999_000),
        arc(2, 3, 600_000_000),
    ]
}

/// What a solve of them has returned, and what is in the caller's memory then.
#[derive(Clone, Copy, Debug, PartialEq)]
pub(crate) struct Behind {
    pub(crate) status: i32,
    pub(crate) choice: [u32; 3],
    pub(crate) prices: [i64; 4],
    pub(crate) objects: [u32; 3],
    pub(crate) found: Found,
}

/// Solves them directly.
fn solved(rt: &HostRuntime, start: &[i64], bids: u64) -> Behind {
    solved_of(rt, &outlets(), start, bids)
}

/// The same of these arcs.
pub(crate) fn solved_of(rt: &HostRuntime, arcs: &[Arc], start: &[i64], bids: u64) -> Behind {
    solved_under(rt, arcs, &mut run_of(start, bids))
}

/// The same by this run.
pub(crate) fn solved_under<W: Watch>(
    rt: &HostRuntime,
    arcs: &[Arc],
    run: &mut Run<'_, W>,
) -> Behind {
    let (mut choice, mut prices, mut objects, mut found) = ([7; 3], [7; 4], [7; 3], NOTHING);
    let status = solve_call(
        rt.alloc(),
        &given_arcs(3, 4, arcs),
        run,
        &mut choice,
        &mut prices,
        &mut objects,
        &mut found,
    );
    Behind {
        status,
        choice,
        prices,
        objects,
        found,
    }
}

/// In a thousand bids, from nothing, from some prices, and from the highest ones.
#[test]
fn least_from_any_start(rt: HostRuntime) {
    let none: &[i64] = &[];
    let some: &[i64] = &[0, 7, 0, MOST];
    let highest: &[i64] = &[MOST, MOST, MOST, MOST];
    for start in [none, some, highest] {
        let told = solved(&rt, start, 1000);
        assert_same(
            &rt,
            (told.status, told.objects, told.choice[1]),
            (OPTIMAL, [7, 7, 7], 7),
        );
        assert_same(
            &rt,
            told.found,
            Found {
                cost: 100_000_000,
                ..NOTHING
            },
        );
        let mut found = NOTHING;
        let status = check_call(
            rt.alloc(),
            &given_arcs(3, 4, &outlets()),
            &told.choice,
            &told.prices,
            100_000_000,
            &mut found,
        );
        assert_same(&rt, status, OPTIMAL);
    }
}

/// Where bids run out: an assignment and a bound, and which limit it was. The last arc is left out, which no least
/// assignment has: a full table would be searched without bids.
#[test]
fn no_bids(rt: HostRuntime) {
    let none: &[i64] = &[];
    let some: &[i64] = &[0, 0, MOST, MOST];
    for start in [none, some] {
        let told = solved_of(&rt, &outlets()[..11], start, 0);
        assert_same(&rt, (told.status, told.found.kind), (BRACKET, 1));
        assert!(rt; told.found.lower <= 100_000_000 && 100_000_000 <= told.found.cost);
    }
}

/// A start has a price from 0 to 2^60 for each object.
#[test]
fn refused_starts(rt: HostRuntime) {
    let few: &[i64] = &[0, 0, 0];
    let below: &[i64] = &[0, 0, -1, 0];
    let above: &[i64] = &[0, 0, 0, MOST + 1];
    for (start, kind, place) in [(few, 2, 0), (below, 3, 2), (above, 3, 3)] {
        let told = solved(&rt, start, 1000);
        assert_same(
            &rt,
            (told.status, told.found),
            (
                START,
                Found {
                    kind,
                    place,
                    ..NOTHING
                },
            ),
        );
        let choice = told.choice;
        let prices = told.prices;
        let objects = told.objects;
        assert_same(&rt, (choice, prices, objects), ([7; 3], [7; 4], [7; 3]));
    }
}

/// By messages a start is for as many objects as persons.
#[test]
fn no_start_by_messages(rt: HostRuntime) {
    let (mut choice, mut prices, mut objects, mut found) = ([7; 3], [7; 4], [7; 3], NOTHING);
    let status = solve_by_messages_call(
        rt.alloc(),
        &given_arcs(3, 4, &outlets()),
        &mut run_of(&[0, 0, 0, 0], 1000),
        &mut choice,
        &mut prices,
        &mut objects,
        &mut found,
    );
    assert_same(
        &rt,
        (status, found),
        (
            START,
            Found {
                kind: 1,
                place: 0,
                ..NOTHING
            },
        ),
    );
    assert_same(&rt, (choice, prices, objects), ([7; 3], [7; 4], [7; 3]));
}

/// By messages, from nothing and from a start.
#[test]
fn by_messages(rt: HostRuntime) {
    let arcs = [arc(0, 0, 1), arc(0, 1, 2), arc(1, 0, 1), arc(1, 1, 4)];
    let none: &[i64] = &[];
    let some: &[i64] = &[MOST, 0];
    for start in [none, some] {
        let (mut choice, mut prices, mut objects, mut found) = ([7; 2], [7; 2], [7; 2], NOTHING);
        let status = solve_by_messages_call(
            rt.alloc(),
            &given_arcs(2, 0, &arcs),
            &mut run_of(start, 1000),
            &mut choice,
            &mut prices,
            &mut objects,
            &mut found,
        );
        assert_same(&rt, (status, choice, objects), (OPTIMAL, [1, 2], [7, 7]));
        assert_same(&rt, found, Found { cost: 3, ..NOTHING });
    }
}
