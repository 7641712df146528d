//! What a solve comes to.

ghost use Rattle.std.specs.Prelude.{◌≡◌};
ghost use Rattle.auc_call.specs.declared.solved.Failed.TheVariants.{NoMemory, Fault};

use crate::start::StartFault;
use auc_claim::Reason;
use auc_graph::ListFault;
use std::alloc::AllocError;

/// What was found, but for what is in the caller's memory.
#[derive(Clone, Copy, Debug, PartialEq, Eq)]
pub enum Solved {
    Optimal {
        cost: i64,
    },
    Infeasible {
        persons: u32,
        objects: u32,
    },
    Bracket {
        reason: Reason,
        lower: i64,
        cost: i64,
    },
}

/// Why nothing was found.
#[derive(Clone, Copy, Debug, PartialEq, Eq)]
pub enum Failed {
    Sizes,
    Fault(ListFault),
    Start(StartFault),
    NoMemory,
}

impl From<AllocError> for Failed {
    ghost from_gives = { λ _ e. e ≡ NoMemory };

    fn from(_e: AllocError) -> Failed {
        Failed::NoMemory
    }
}

impl From<ListFault> for Failed {
    ghost from_gives = { λ fault e. e ≡ Fault fault };

    fn from(fault: ListFault) -> Failed {
        Failed::Fault(fault)
    }
}
