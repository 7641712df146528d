//! Problems that are read as a whole text, which no command of the program does.

use crate::marks::refuse_one;
use crate::same::assert_same;
use auc_graph::{ArcList, ReadError, ReadLimits, read_arcs};
use std::alloc::Global;
use std::test::*;

/// Three persons, three objects.
pub const THREE: &str = "3\n1 1 4 1 2 1 1 3 3\n2 1 2 2 2 0 2 3 5\n3 1 3 3 2 2 3 3 2\n";

/// The problem that a text reads as.
pub fn problem_of(alloc: Global, text: &str) -> Result<ArcList, Fail> {
    Ok(read_arcs(alloc, text.as_bytes(), ReadLimits::usual())?)
}

#[test]
fn reading(rt: HostRuntime) -> Result<(), Fail> {
    let ample = problem_of(rt.alloc(), THREE)?;
    let mark = refuse_one(rt.alloc())?;
    let read = read_arcs(rt.alloc(), THREE.as_bytes(), ReadLimits::usual());
    drop(mark);
    let problem = match read {
        Err(ReadError::NoMemory) => problem_of(rt.alloc(), THREE)?,
        told => told?,
    };
    assert_same(&rt, problem.arcs(), ample.arcs());
    Ok(())
}

/// A fault of the text is found, where memory was refused before it when it is read again.
#[test]
fn reading_what_is_no_problem(rt: HostRuntime) -> Result<(), Fail> {
    let text = b"3 1 1 4 1 2 x";
    let mark = refuse_one(rt.alloc())?;
    let mut error = read_arcs(rt.alloc(), text, ReadLimits::usual()).err();
    drop(mark);
    if error == Some(ReadError::NoMemory) {
        error = read_arcs(rt.alloc(), text, ReadLimits::usual()).err();
    }
    assert_same(&rt, error, Some(ReadError::BadNumber { token: 6 }));
    Ok(())
}
