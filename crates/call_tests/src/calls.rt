//! Each call once, by its statuses.

use crate::given::{given_arcs, run_of};
use crate::same::assert_same;
use auc_call::{
    BRACKET, Found, INFEASIBLE, INVALID, OPTIMAL, REFUSED, SIZES, START, check_call,
    check_hall_call, solve_call,
};
use auc_graph::{Arc, ArcList, ListFault, list_fault};
use std::test::*;

/// Two persons and two objects: the least cost is 3.
const TWO: [Arc; 4] = [
    Arc {
        cost: 1,
        person: 0,
        object: 0,
    },
    Arc {
        cost: 2,
        person: 0,
        object: 1,
    },
    Arc {
        cost: 1,
        person: 1,
        object: 0,
    },
    Arc {
        cost: 4,
        person: 1,
        object: 1,
    },
];

/// Two persons with arcs to one object together.
const BOTH: [Arc; 2] = [
    Arc {
        cost: 1,
        person: 0,
        object: 1,
    },
    Arc {
        cost: 1,
        person: 1,
        object: 1,
    },
];

const NOTHING: Found = Found {
    cost: 9,
    lower: 9,
    persons: 9,
    objects: 9,
    kind: 9,
    place: 9,
};

#[test]
fn optimal(rt: HostRuntime) {
    let (mut choice, mut prices, mut objects, mut found) = ([7; 2], [7; 2], [7; 2], NOTHING);
    let status = solve_call(
        rt.alloc(),
        &given_arcs(2, 0, &TWO),
        &mut run_of(&[], 1000),
        &mut choice,
        &mut prices,
        &mut objects,
        &mut found,
    );
    assert_same(&rt, (status, choice, objects), (OPTIMAL, [1, 2], [7, 7]));
    assert_same(&rt, found, Found { cost: 3, ..NOTHING });
    let status = check_call(
        rt.alloc(),
        &given_arcs(2, 0, &TWO),
        &choice,
        &prices,
        3,
        &mut found,
    );
    assert_same(&rt, status, OPTIMAL);
    let status = check_call(
        rt.alloc(),
        &given_arcs(2, 0, &TWO),
        &choice,
        &prices,
        4,
        &mut found,
    );
    assert_same(&rt, (status, found.kind), (INVALID, 4));
}

/// The second person has no arc to the second object here, so it is no full table, which is searched without bids.
#[test]
fn bracket_and_start(rt: HostRuntime) {
    let (mut choice, mut prices, mut objects, mut found) = ([7; 2], [7; 2], [7; 2], NOTHING);
    let status = solve_call(
        rt.alloc(),
        &given_arcs(2, 0, &TWO[..3]),
        &mut run_of(&[], 0),
        &mut choice,
        &mut prices,
        &mut objects,
        &mut found,
    );
    assert_same(&rt, (status, found.kind), (BRACKET, 1));
    assert!(rt; found.lower <= 3 && 3 <= found.cost);
    let status = solve_call(
        rt.alloc(),
        &given_arcs(2, 0, &TWO),
        &mut run_of(&[0, -1], 9),
        &mut choice,
        &mut prices,
        &mut objects,
        &mut found,
    );
    assert_same(&rt, (status, found.kind, found.place), (START, 3, 1));
}

#[test]
fn infeasible(rt: HostRuntime) {
    let (mut choice, mut prices, mut objects, mut found) = ([7; 2], [7; 2], [7; 2], NOTHING);
    let status = solve_call(
        rt.alloc(),
        &given_arcs(2, 0, &BOTH),
        &mut run_of(&[], 9),
        &mut choice,
        &mut prices,
        &mut objects,
        &mut found,
    );
    assert_same(
        &rt,
        (status, choice, prices, objects),
        (INFEASIBLE, [0, 1], [7, 7], [1, 7]),
    );
    let status = check_hall_call(
        rt.alloc(),
        &given_arcs(2, 0, &BOTH),
        &choice,
        &objects[..1],
        &mut found,
    );
    assert_same(&rt, status, OPTIMAL);
}

#[test]
fn refused(rt: HostRuntime) -> Result<(), Fail> {
    let (mut choice, mut prices, mut objects, mut found) = ([7; 2], [7; 2], [7; 2], NOTHING);
    let status = solve_call(
        rt.alloc(),
        &given_arcs(2, 3, &TWO),
        &mut run_of(&[], 9),
        &mut choice,
        &mut prices,
        &mut objects,
        &mut found,
    );
    assert_same(&rt, (status, found), (SIZES, NOTHING));
    let status = solve_call(
        rt.alloc(),
        &given_arcs(
            2,
            2,
            &[
                TWO[0],
                Arc {
                    cost: 0,
                    person: 1,
                    object: 2,
                },
            ],
        ),
        &mut run_of(&[], 9),
        &mut choice,
        &mut prices,
        &mut objects,
        &mut found,
    );
    assert_same(&rt, (status, found.kind, found.place), (REFUSED, 5, 1));
    assert_same(&rt, list_fault(2, 1, &TWO), Some(ListFault::Objects));
    assert_same(&rt, list_fault(0, 1, &TWO), Some(ListFault::Persons));
    let arcs = Vec::from_slice(rt.alloc(), &TWO)?;
    let problem = ArcList::from_arcs(2, 5, arcs)?;
    assert_same(&rt, problem.objects(), 5);
    Ok(())
}
