//! Marks: where growths begin to be refused, and where that ends.

use std::alloc::Global;
use std::test::*;

/// A block of this size marks that one growth after it is refused.
const ONE: usize = 7_654_321;

/// One growth is refused from here on, until the mark is dropped.
pub fn refuse_one(alloc: Global) -> Result<Vec<u8>, Fail> {
    Ok(Vec::with_capacity(alloc, ONE)?)
}
