//! Why a text is no problem.

ghost use Rattle.std.specs.Prelude.{◌≡◌};
ghost use Rattle.auc_graph.specs.declared.read_error.ReadError.TheVariants.{NoMemory};

use std::alloc::{AllocError, AllocFailed};
use thiserror::Error;

/// Why a text is no problem: its first fault; or why it was not read. Tokens and arcs are numbered from 0.
#[derive(Clone, Copy, Debug, PartialEq, Eq, Error)]
pub enum ReadError {
    /// There is no token.
    #[error("the text is empty")]
    Empty,
    /// This token is no number.
    #[error("token {token} is no number")]
    BadNumber { token: u64 },
    /// The first token is not in the range of the number of persons.
    #[error("the number of persons is out of range")]
    CountRange,
    /// A token comes after the last arc that is allowed.
    #[error("there are too many arcs")]
    TooManyArcs,
    /// The person of this arc is not one of the problem.
    #[error("the person of arc {arc} is out of range")]
    PersonRange { arc: u64 },
    /// The object of this arc is not one of the problem.
    #[error("the object of arc {arc} is out of range")]
    ObjectRange { arc: u64 },
    /// The cost of this arc is too great or too small.
    #[error("the cost of arc {arc} is out of range")]
    CostRange { arc: u64 },
    /// The text, which has this many tokens, ends inside an arc.
    #[error("the text ends inside an arc, behind {tokens} tokens")]
    Cut { tokens: u64 },
    /// Memory was refused.
    #[error("out of memory")]
    NoMemory,
    /// A read failed, or was interrupted.
    #[error("a read failed")]
    ReadFault,
    /// As many reads as are allowed did not reach the end.
    #[error("too many reads")]
    TooManyReads,
    /// The first token is a number of persons, and above the wanted number of objects.
    #[error("there are fewer objects than persons")]
    TooFewObjects,
}

impl From<AllocError> for ReadError {
    ghost from_gives = { λ _ e. e ≡ NoMemory };

    fn from(_e: AllocError) -> ReadError {
        ReadError::NoMemory
    }
}

impl<T: Drop> From<AllocFailed<T>> for ReadError {
    ghost from_gives = { λ _ e. e ≡ NoMemory };

    fn from(_e: AllocFailed<T>) -> ReadError {
        ReadError::NoMemory
    }
}
