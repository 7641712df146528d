//! Why a run ends at once, with no market to go on with.

ghost use Rattle.std.specs.Prelude.{◌≡◌};
ghost use Rattle.auc_market.specs.declared.halt.Halt.TheVariants.{NoMemory};

use crate::hall::HallSet;
use std::alloc::AllocError;

/// What ends a run at once.
#[derive(Drop)]
pub enum Halt {
    /// Memory was refused.
    NoMemory,
    /// A search for a path has found a Hall violator: persons who together have too few objects. So there is no
    /// assignment.
    Closed(HallSet),
}

impl From<AllocError> for Halt {
    ghost from_gives = { λ _ e. e ≡ NoMemory };

    fn from(_error: AllocError) -> Halt {
        Halt::NoMemory
    }
}
