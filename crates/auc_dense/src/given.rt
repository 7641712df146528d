//! The problem that a caller asks, in its memory.

/// A problem of a table, which has a row for each person and in it an entry for each object.
#[derive(Clone, Copy)]
pub struct GivenTable<'a> {
    /// How many rows there are.
    pub persons: u32,
    /// How many entries a row has; 0 means as many as persons.
    pub objects: u32,
    /// The entries: the cost of person `i` and object `j` is at `costs[i * stride + j]`.
    pub costs: &'a [i64],
    /// How many places a row begins after the one before it.
    pub stride: usize,
    /// An entry that equals this number is no arc.
    pub gap: i64,
}
