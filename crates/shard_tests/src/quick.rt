//! The quick search for any assignment: where it finds one that the first free objects don't make, and where it finds
//! none.

use crate::desk::rows_of;
use auc_graph::{ReadLimits, Rows, read_arcs};
use auc_hall::has_full_matching;
use std::alloc::AllocError;
use std::test::*;

/// The number of persons of the long problems.
const PERSONS: u32 = 600;

/// Whether the search finds an assignment of the problem that a text reads as.
fn finds(rt: &HostRuntime, text: &str) -> Result<bool, Fail> {
    let rows = rows_of(rt, text).ok_or("rows")?;
    Ok(has_full_matching(rt.alloc(), &rows)?)
}

/// A problem in which each person but the last has arcs to the object of the person's number, to the next one, and to
/// `before` objects before it. The last person has arcs to the `first` first objects only.
fn stairs(rt: &HostRuntime, before: u32, first: u32) -> Result<String, AllocError> {
    let mut text = String::new(rt.alloc());
    text.push_str("600\n")?;
    for person in 1..PERSONS {
        for object in person.saturating_sub(before).max(1)..person + 2 {
            let line = format!(in rt.alloc(); "{person} {object} 7\n")?;
            text.push_str(line.as_str())?;
        }
    }
    for object in 1..=first {
        let line = format!(in rt.alloc(); "600 {object} 7\n")?;
        text.push_str(line.as_str())?;
    }
    Ok(text)
}

/// The third person needs the object of the first one, who needs that of the second.
#[test]
fn displaces(rt: HostRuntime) -> Result<(), Fail> {
    assert!(rt; finds(&rt, "3\n1 1 5\n1 2 5\n2 2 5\n2 3 5\n3 1 5\n")?);
    assert!(rt; finds(&rt, "1\n1 1 5\n")?);
    Ok(())
}

/// The last person needs the object of the first one, who needs that of the next, and so on through all of them; and
/// where each could go back too.
#[test]
fn displaces_all(rt: HostRuntime) -> Result<(), Fail> {
    let text = stairs(&rt, 0, 1)?;
    assert!(rt; finds(&rt, text.as_str())?);
    let text = stairs(&rt, 9, 3)?;
    assert!(rt; finds(&rt, text.as_str())?);
    Ok(())
}

/// A person without an arc, two persons who have one object, and three who have two, of whom the first two get them.
#[test]
fn finds_none(rt: HostRuntime) -> Result<(), Fail> {
    assert!(rt; !finds(&rt, "1\n")?);
    assert!(rt; !finds(&rt, "2\n2 1 5\n2 2 5\n")?);
    assert!(rt; !finds(&rt, "2\n1 1 5\n2 1 7\n")?);
    assert!(rt; !finds(&rt, "3\n1 1 5\n1 2 5\n2 1 5\n2 2 5\n3 1 5\n3 2 5\n")?);
    Ok(())
}

/// With more objects than persons.
#[test]
fn leaves_objects_over(rt: HostRuntime) -> Result<(), Fail> {
    let limits = ReadLimits {
        objects: 4,
        ..ReadLimits::usual()
    };
    let text = b"2 1 1 5 2 1 5 2 4 5";
    let problem = read_arcs(rt.alloc(), text, limits).ok().ok_or("problem")?;
    let rows = Rows::build(rt.alloc(), &problem)?;
    assert!(rt; has_full_matching(rt.alloc(), &rows)?);
    let text = b"2 1 4 5 2 4 5";
    let problem = read_arcs(rt.alloc(), text, limits).ok().ok_or("problem")?;
    let rows = Rows::build(rt.alloc(), &problem)?;
    assert!(rt; !has_full_matching(rt.alloc(), &rows)?);
    Ok(())
}
