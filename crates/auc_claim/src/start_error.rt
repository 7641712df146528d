//! Why the prices of a certificate can't start a run.

ghost use Rattle.std.specs.Prelude.{◌≡◌};
ghost use Rattle.auc_claim.specs.declared.start_error.StartError.TheVariants.{NoMemory};

use std::alloc::AllocError;
use thiserror::Error;

/// Why the prices of a certificate can't start a run on a problem. Objects are numbered from 0.
#[derive(Clone, Copy, Debug, PartialEq, Eq, Error)]
pub enum StartError {
    /// The problem has more objects than persons.
    #[error("the problem has more objects than persons")]
    NotSquare,
    /// The certificate is of a Hall set.
    #[error("the certificate has no prices")]
    NoPrices,
    /// The picks or the prices aren't as many as the persons.
    #[error("the certificate is of a problem of another size")]
    OtherSize,
    /// This is the first object whose price is above 2^60.
    #[error("the price of object {object} is too high to start from")]
    TooHigh { object: u32 },
    /// Memory was refused.
    #[error("out of memory")]
    NoMemory,
}

impl From<AllocError> for StartError {
    ghost from_gives = { λ _ e. e ≡ NoMemory };

    fn from(_e: AllocError) -> StartError {
        StartError::NoMemory
    }
}
