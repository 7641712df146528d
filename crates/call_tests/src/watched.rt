//! Solves under a watch that says no after some questions.

use crate::patience::Patience;
use crate::same::assert_same;
use crate::spare::{self, outlets};
use crate::tables::{self, GAP, TABLE};
use auc_call::{BRACKET, Found, OPTIMAL, Run};
use auc_dense::{GivenTable, solve_table_call};
use std::test::*;

/// A run of a thousand bids from nothing, under this watch.
fn run_under(watch: Patience) -> Run<'static, Patience> {
    Run {
        start: &[],
        bids: 1000,
        watch,
    }
}

/// The outlets under this watch, and the watch afterwards. The last arc is left out, so that they are no full table.
fn of_outlets(rt: &HostRuntime, watch: Patience) -> (spare::Behind, Patience) {
    let mut run = run_under(watch);
    let told = spare::solved_under(rt, &outlets()[..11], &mut run);
    (told, run.watch)
}

/// Whether the answer is the bracket of a stop, around this cost.
fn is_stop(status: i32, found: Found, least: i64) -> bool {
    status == BRACKET && found.kind == 1 && found.lower <= least && least <= found.cost
}

/// At its first question, and where it had said no before.
#[test]
fn list_at_once(rt: HostRuntime) {
    for watch in [Patience::of(0), Patience::over()] {
        let (told, after) = of_outlets(&rt, watch);
        assert_same(&rt, is_stop(told.status, told.found, 100_000_000), true);
        assert_same(
            &rt,
            (after.has_stopped, after.asked == 0),
            (true, watch.has_stopped),
        );
    }
}

/// After some questions: either it has said no, or the least cost is found.
#[test]
fn list_later(rt: HostRuntime) {
    for patience in 0..5 {
        let (told, after) = of_outlets(&rt, Patience::of(patience));
        let is_least = told.status == OPTIMAL && told.found.cost == 100_000_000;
        assert_same(&rt, is_least, !after.has_stopped);
        assert_same(
            &rt,
            is_stop(told.status, told.found, 100_000_000),
            after.has_stopped,
        );
    }
}

/// Where it never says no, all is as without a watch.
#[test]
fn list_never(rt: HostRuntime) {
    let (told, after) = of_outlets(&rt, Patience::of(u32::MAX));
    assert_same(
        &rt,
        told,
        spare::solved_of(&rt, &outlets()[..11], &[], 1000),
    );
    assert_same(&rt, (after.has_stopped, after.asked == 0), (false, false));
}

/// A watch that had said no before the call of a table: a few bids find the least assignment all the same.
#[test]
fn table_at_once(rt: HostRuntime) {
    let mut run = run_under(Patience::over());
    let told = tables::solved_under(&rt, &TABLE, 4, GAP, &mut run);
    assert_same(&rt, told, tables::solved(&rt, &TABLE, 4, GAP, &[], 1000));
    assert_same(&rt, (run.watch.has_stopped, run.watch.asked), (true, 0));
}

/// The search over so small a table asks at its end alone, and its answer stays.
#[test]
fn table_at_its_end(rt: HostRuntime) {
    let mut run = run_under(Patience::of(0));
    let told = tables::solved_under(&rt, &TABLE, 4, GAP, &mut run);
    assert_same(&rt, told, tables::solved(&rt, &TABLE, 4, GAP, &[], 1000));
    assert_same(&rt, (run.watch.has_stopped, run.watch.asked), (true, 1));
}

/// How many rows the table of products has.
const PRODUCTS: u32 = 320;

/// Solves the table of products, whose search scans some million entries. The status, what was found, and the watch.
fn of_products(rt: &HostRuntime, watch: Patience) -> Option<(i32, Found, Patience)> {
    let many = PRODUCTS as usize;
    let mut costs = vec![in rt.alloc(); 0; many * many].ok()?;
    for person in 0..many {
        for object in 0..many {
            costs[person * many + object] = ((person + 1) * (object + 1)) as i64;
        }
    }
    let given = GivenTable {
        persons: PRODUCTS,
        objects: PRODUCTS,
        costs: costs.as_slice(),
        stride: many,
        gap: GAP,
    };
    let mut run = Run {
        start: &[],
        bids: 1_000_000,
        watch,
    };
    let mut found = Found {
        cost: 9,
        lower: 9,
        persons: 9,
        objects: 9,
        kind: 9,
        place: 9,
    };
    let mut choice = [7; 320];
    let mut prices = [7; 320];
    let mut objects = [7; 320];
    let status = solve_table_call(
        rt.alloc(),
        &given,
        &mut run,
        &mut choice,
        &mut prices,
        &mut objects,
        &mut found,
    );
    Some((status, found, run.watch))
}

/// A no within the search, and none.
#[test]
fn table_later(rt: HostRuntime) {
    // The sum of person * (321 - person).
    let least = 5_512_640;
    if let Some((status, found, after)) = of_products(&rt, Patience::of(0)) {
        assert_same(&rt, is_stop(status, found, least), true);
        // What the search had come to: arcs in order would cost twice as much.
        assert!(rt; found.lower > least / 10 * 9 && found.cost < least / 10 * 11);
        assert_same(&rt, (after.has_stopped, after.asked), (true, 1));
    }
    if let Some((status, found, after)) = of_products(&rt, Patience::of(u32::MAX)) {
        assert_same(&rt, (status, found.cost), (OPTIMAL, least));
        assert_same(&rt, (after.has_stopped, after.asked == 0), (false, false));
    }
}
