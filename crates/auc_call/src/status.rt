//! The statuses of the calls.

/// Of a solve: a least-cost assignment, and prices that show it. Of a check: the claim holds.
pub const OPTIMAL: i32 = 0;

/// The lengths of the caller's slices aren't the numbers of persons and objects.
pub const SIZES: i32 = 2;

/// Of a solve: there is no assignment.
pub const INFEASIBLE: i32 = 3;

/// Of a check: the claim is not one that the checker lets pass.
pub const INVALID: i32 = 3;

/// A limit ended a phase: an assignment, and a bound on what any costs.
pub const BRACKET: i32 = 4;

/// The arcs are no problem.
pub const REFUSED: i32 = 5;

/// Memory was refused.
pub const MEMORY: i32 = 6;

/// No run can start from the prices.
pub const START: i32 = 7;
