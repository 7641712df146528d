//! The number of a limit, as the contract of a function that does nothing.

ghost use Rattle.std.specs.Prelude.{◌≡◌};

use crate::command::MOST_BIDS;

/// The number of the limit on bids, which the jobs' definition writes out.
pub fn limits_are()
    ensures bids { MOST_BIDS ≡ 1000000000000 }
{}
