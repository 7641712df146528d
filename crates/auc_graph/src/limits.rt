//! The limits of a problem, and the lower ones of a text that is read with no other limits.

/// The greatest number of persons of a problem, 2 to the 22nd.
pub const MOST_PERSONS: u32 = 4_194_304;

/// The greatest number of objects of a problem, which has at least as many as persons.
pub const MOST_OBJECTS: u32 = 4_194_304;

/// The greatest number of arcs of a problem, 2 to the 28th.
pub const MOST_ARCS: u32 = 268_435_456;

/// The greatest factor that scales costs: one more than the greatest number of persons.
pub const MOST_SCALE: i64 = 4_194_305;

/// The greatest number of persons of a text, under the usual limits of reading.
pub const TEXT_PERSONS: u32 = 10_000;

/// The greatest number of objects of a text, under the usual limits of reading.
pub const TEXT_OBJECTS: u32 = 20_000;

/// The greatest number of arcs of a text, under the usual limits of reading.
pub const TEXT_ARCS: u32 = 33_554_432;

/// The greatest number of calls of `read` that reach the end of an input.
pub const MOST_READS: u32 = 1_073_741_824;

/// The greatest magnitude of a cost.
pub const MOST_COST: i64 = 1_000_000_000;

/// The greatest price of an object, copy of a price and amount of a bid, 2 to the 61st, on the scale of costs times
/// persons + 1. The least is 0.
pub const MOST_PRICE: i64 = 2_305_843_009_213_693_952;
