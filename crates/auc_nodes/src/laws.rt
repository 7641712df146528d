//! The numbers of the limits, as the contract of a function without a body.

ghost use Rattle.std.specs.Prelude.{◌≡◌};

use crate::limits::{MOST_LISTS, MOST_NODES};

/// The numbers of the limits.
pub fn limits_are()
    ensures lists { MOST_LISTS ≡ 1048576 }
    ensures nodes { MOST_NODES ≡ 16777216 }
{}
