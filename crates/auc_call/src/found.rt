//! What a call returns beside its status.

/// What a call returns beside its status: each field under the statuses that name it, and else as it was.
#[repr(C)]
#[derive(Clone, Copy, Debug, PartialEq, Eq)]
pub struct Found {
    /// What the assignment costs, in costs of the file: of [`OPTIMAL`](crate::OPTIMAL) and [`BRACKET`](crate::BRACKET).
    pub cost: i64,
    /// What no assignment costs less than: of [`BRACKET`](crate::BRACKET).
    pub lower: i64,
    /// How many persons together have arcs to too few objects: of [`INFEASIBLE`](crate::INFEASIBLE).
    pub persons: u32,
    /// How many objects these persons have arcs to: of [`INFEASIBLE`](crate::INFEASIBLE).
    pub objects: u32,
    /// Which limit ended a phase, or which fault there is, from 1: of [`BRACKET`](crate::BRACKET),
    /// [`REFUSED`](crate::REFUSED), [`START`](crate::START) and [`INVALID`](crate::INVALID).
    pub kind: u32,
    /// The arc, entry, person or object that is at fault, from 0, where the kind has one, else 0: of
    /// [`REFUSED`](crate::REFUSED), [`START`](crate::START) and [`INVALID`](crate::INVALID).
    pub place: u32,
}
