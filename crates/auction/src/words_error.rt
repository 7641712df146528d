//! Why the words are no job.

ghost use Rattle.std.specs.Prelude.{◌≡◌};
ghost use Rattle.auction.specs.declared.words_error.WordsError.TheVariants.{NoMemory};

use std::alloc::{AllocError, AllocFailed};
use thiserror::Error;

/// Why the words are no job. The texts are what the program writes to standard error; that of [`WordsError::Usage`]
/// where it can't say which argument is at fault (`wrong_words.rt`).
#[derive(Clone, Copy, Debug, PartialEq, Eq, Error)]
pub enum WordsError {
    /// They are none that the program has.
    #[error("auction: these arguments are no command; see auction --help")]
    Usage,
    /// They ask for a trail without threads.
    #[error("auction: --audit ROOM wants --workers K above 0: a solve without threads keeps no trail")]
    AuditAlone,
    /// Memory ran out.
    #[error("auction: out of memory")]
    NoMemory,
    /// They ask for a start from a certificate, and for a number of objects.
    #[error("auction: --from CERT goes with --objects M only where there is --direct too: else a solve from old prices has as many objects as persons")]
    FromObjects,
    /// They ask for the direct solver, and for threads or a trail.
    #[error("auction: --direct goes without --workers K and --audit ROOM: a direct search has no threads and no trail")]
    DirectThreads,
    /// They ask for another solver, and that it be watched.
    #[error("auction: --seconds T and --progress want --direct: a solve by messages has its limits by --bids N alone")]
    WatchAlone,
    /// They ask for another solver, and that it solve a large problem.
    #[error("auction: --large wants --direct: a solve by messages has at most 10,000 persons")]
    LargeAlone,
}

impl From<AllocError> for WordsError {
    ghost from_gives = { λ _ e. e ≡ NoMemory };

    fn from(_e: AllocError) -> WordsError {
        WordsError::NoMemory
    }
}

impl<T: Drop> From<AllocFailed<T>> for WordsError {
    ghost from_gives = { λ _ e. e ≡ NoMemory };

    fn from(_e: AllocFailed<T>) -> WordsError {
        WordsError::NoMemory
    }
}
