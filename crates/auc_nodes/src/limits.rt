//! The limits of a pool.

/// The greatest number of lists of a pool.
pub const MOST_LISTS: u32 = 1048576;

/// The greatest number of nodes of a pool.
pub const MOST_NODES: u32 = 16777216;
