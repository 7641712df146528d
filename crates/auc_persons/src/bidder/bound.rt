//! A bound of the values of some arcs of a long row, and what is kept of a person who has such a row.

use std::snapshot::Snapshot;

/// The number of arcs of a block; the last one of a row may have fewer.
pub(crate) const BLOCK: usize = 16;
/// The bound of a block that hasn't been scanned.
pub(crate) const NO_BOUND: i64 = i64::MIN;

/// A lower bound of the values of the arcs of a block.
#[derive(Drop)]
pub(crate) struct Bound {
    pub least: i64,
    // The person and the number of the block; they never change, and take no bytes.
    pub person: Snapshot<u32>,
    pub block: Snapshot<usize>,
}

/// A person, the number of the person's arcs, and where the bounds of the person's blocks begin.
#[derive(Clone, Copy)]
pub(crate) struct Blocked {
    pub person: u32,
    pub arcs: u32,
    pub start: usize,
}
