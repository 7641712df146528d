//! Persons who are placed by hand, and the completion from there.

use crate::desk::rows_of;
use crate::same::assert_same;
use auc_hall::{
    Matching, Partial, complete, hall_sets_leave_no_assignment, matchings_hold_of_the_problem,
};
use std::test::*;

/// The numbers of the arcs of a full assignment.
fn arcs_of(matching: Matching) -> Result<Vec<u32>, Fail> {
    match matching {
        Matching::Full(arcs) => Ok(arcs.into_vec()),
        Matching::Hall { .. } => Err(Fail::new("there is an assignment")),
    }
}

/// A person is placed once, by one of the person's arcs to an object that nobody holds.
#[test]
fn places_where_it_may_be(rt: HostRuntime) -> Result<(), Fail> {
    let rows = rows_of(&rt, "2 1 1 1 1 2 2 2 1 1 2 2 3").ok_or("rows")?;
    assert!(rt; rows.persons() == 2);
    let mut partial = Partial::new(rt.alloc(), &rows)?;
    // An arc of another person, and an arc that doesn't exist.
    assert!(rt; !partial.place(&rows, 1, 0));
    assert!(rt; !partial.place(&rows, 1, 9));
    assert!(rt; partial.place(&rows, 0, 0));
    // The person has an arc, or the object is taken.
    assert!(rt; !partial.place(&rows, 0, 0));
    assert!(rt; !partial.place(&rows, 0, 1));
    assert!(rt; !partial.place(&rows, 1, 2));
    let arcs = arcs_of(complete(rt.alloc(), &rows, partial)?)?;
    assert_same(&rt, arcs.as_slice(), [0, 3].as_slice());
    Ok(())
}

/// The second person has an arc to one object only, so the first one, who was placed there, is moved.
#[test]
fn moves_who_was_placed(rt: HostRuntime) -> Result<(), Fail> {
    let rows = rows_of(&rt, "2\n1 2 5\n1 1 5\n2 1 7\n").ok_or("rows")?;
    assert!(rt; rows.persons() == 2);
    let mut partial = Partial::new(rt.alloc(), &rows)?;
    assert!(rt; partial.place(&rows, 0, 1));
    let arcs = arcs_of(complete(rt.alloc(), &rows, partial)?)?;
    assert_same(&rt, arcs.as_slice(), [0, 2].as_slice());
    Ok(())
}

/// Two persons have arcs to one object only, whether one of them was placed there or not.
#[test]
fn hall_sets(rt: HostRuntime) -> Result<(), Fail> {
    matchings_hold_of_the_problem();
    hall_sets_leave_no_assignment();
    let rows = rows_of(&rt, "2\n1 1 5\n2 1 7\n").ok_or("rows")?;
    assert!(rt; rows.persons() == 2);
    let mut partial = Partial::new(rt.alloc(), &rows)?;
    assert!(rt; partial.place(&rows, 0, 0));
    if let Matching::Hall { persons, objects } = complete(rt.alloc(), &rows, partial)? {
        assert_same(&rt, persons.as_slice(), [0, 1].as_slice());
        assert_same(&rt, objects.as_slice(), [0].as_slice());
        return Ok(());
    }
    Err(Fail::new("there is no assignment"))
}
