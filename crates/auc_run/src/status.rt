//! The statuses of the program.

/// A least-cost assignment was found.
pub const OPTIMAL: u8 = 0;

/// The claim holds.
pub const VALID: u8 = 0;

/// Each person has an arc to an object of his own.
pub const FULL: u8 = 0;

/// The calls of the script were made.
pub const REPLIED: u8 = 0;

/// The words are no command.
pub const USAGE: u8 = 2;

/// The claim does not hold.
pub const INVALID: u8 = 3;

/// There is no assignment.
pub const INFEASIBLE: u8 = 3;

/// An assignment was found, and a bound below which none costs: a limit was reached.
pub const BRACKET: u8 = 4;

/// An input can't be opened or read, or is no problem, no certificate or no script.
pub const REFUSED: u8 = 5;

/// Memory ran out, or a thread couldn't be started.
pub const NO_MEMORY: u8 = 6;

/// A guard of the solver was hit: there is no answer.
pub const BROKEN: u8 = 7;

/// The answer was not written, or not all of it.
pub const UNWRITTEN: u8 = 8;
