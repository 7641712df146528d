//! Why a claim is refused.

ghost use Rattle.std.specs.Prelude.{◌≡◌};
ghost use Rattle.auc_claim.specs.declared.refused.CertRefused.TheVariants.{NoMemory};

use std::alloc::{AllocError, AllocFailed};
use thiserror::Error;

/// The fault of a claim: the first one in this order. Persons and objects are numbered from 0.
#[derive(Clone, Copy, Debug, PartialEq, Eq, Error)]
pub enum CertRefused {
    /// There are not as many picks as persons, or not as many prices as objects.
    #[error("the certificate is not of the size of the problem")]
    WrongSize,
    /// The pick of this person, the first such, is no arc of that person.
    #[error("the pick of person {person} is no arc of his")]
    NoSuchArc { person: u32 },
    /// This object is picked by an earlier person too; it is that of the first person who repeats one.
    #[error("object {object} is picked twice")]
    ObjectTwice { object: u32 },
    /// The cost is not the sum of the costs of the picks.
    #[error("the cost is not the sum of the picks")]
    WrongCost,
    /// This person, the first such, has an arc that is better than the pick by more than 1 at the prices.
    #[error("person {person} has a better arc at these prices")]
    Slack { person: u32 },
    /// This object, the first such, is picked by nobody and has a price above 0.
    #[error("object {object} is left over and has a price")]
    LeftOver { object: u32 },
    /// The named persons are no Hall violator. A number is out of range, the objects are not fewer than the persons, or
    /// an arc of a named person leads to an object that is not named.
    #[error("the persons do not know too few objects")]
    NotHall,
    /// The lower bound is not the least cost that is, multiplied by persons + 1, at least the dual bound of the prices.
    #[error("the lower bound is not that of the prices")]
    WrongBound,
    /// Memory was refused.
    #[error("out of memory")]
    NoMemory,
}

impl From<AllocError> for CertRefused {
    ghost from_gives = { λ _ e. e ≡ NoMemory };

    fn from(_e: AllocError) -> CertRefused {
        CertRefused::NoMemory
    }
}

impl<T: Drop> From<AllocFailed<T>> for CertRefused {
    ghost from_gives = { λ _ e. e ≡ NoMemory };

    fn from(_e: AllocFailed<T>) -> CertRefused {
        CertRefused::NoMemory
    }
}
