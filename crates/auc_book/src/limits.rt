//! The limits of a trail and of the count of calls. `specs/Limits.antt` has the same numbers, and the contract of
//! `MailState::make` ties these to them.

/// The greatest number of lines that a trail may have room for.
pub const MOST_ROOM: u32 = 1000000;

/// The greatest number of calls that a mail counts.
pub const MOST_CALLS: u64 = 18446744073709551615;
