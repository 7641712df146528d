//! What a claim that holds says.

/// What a claim that holds says, in short.
#[derive(Clone, Copy, Debug, PartialEq, Eq)]
pub enum Valid {
    /// That this is the least cost of an assignment.
    Optimal { cost: i64 },
    /// That there is an assignment of this cost, and that none costs less than `lower`.
    Bracket { lower: i64, cost: i64 },
    /// That so many persons together have arcs to at most so many objects, fewer than they.
    Infeasible { persons: usize, objects: usize },
}
