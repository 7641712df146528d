//! The search for a token in the text of a reader.

ghost use Rattle.std.specs.Prelude.{◌≡◌, ◌≤◌, ◌-◌, Err, IfOk, IfSome, length};
ghost use Rattle.auc_place.specs.declared.place.TheConstants.{MOST_SHOWN};
ghost use Rattle.auc_place.specs.Places.{BeginsBehind, IsFound};

use crate::finding::Finding;
use crate::place::Place;
use std::io::Read;
use thiserror::Error;

/// The greatest number of bytes that are taken of a reader at a time. They are on the stack, since a search takes no
/// memory, so they are few.
const PIECE: usize = 4_096;

/// Why a search was given up.
#[derive(Clone, Copy, Debug, PartialEq, Eq, Error)]
pub enum SearchFault {
    /// A read failed, or was interrupted.
    #[error("a read failed")]
    Failed,
    /// As many reads as are allowed reached neither the token nor the end of the text.
    #[error("too many reads")]
    TooManyReads,
}

/// The place of the token of this number, from 0 on, in the text of a reader, or none where the text has no such token.
/// `limit` is the greatest number of calls of `read`. The reader is read up to the piece in which the token ends, or is
/// known to be longer than what is kept of it.
///
/// # Errors
///
/// [`SearchFault::Failed`] at the first read that fails, also by an interrupt: no read is tried again.
/// [`SearchFault::TooManyReads`] where `limit` reads gave bytes each, and the place of the token was not known after
/// them.
///
/// Takes O(bytes read) time, 4 kB on the stack, and no memory.
pub fn find_token<R: Read>(
    reader: &mut R,
    number: u64,
    limit: u32,
) -> Result<Option<Place>, SearchFault>
    // The place is that of the token in the whole text.
    ensures found { IfOk result (λ place. IfSome (R.remaining reader.old) (λ text. IsFound text number place)) }
    // Each read gave at least one byte.
    ensures many { result ≡ Err SearchFault.TooManyReads → IfSome (R.remaining reader.old)
        (λ text. limit ≤ length text) }
    // The token didn't begin among these bytes, but perhaps among the last `MOST_SHOWN` of them.
    ensures far { result ≡ Err SearchFault.TooManyReads
        → IfSome (R.remaining reader.old) (λ text. BeginsBehind text number (limit - MOST_SHOWN)) }
{
    let mut finding = Finding::new();
    let mut piece = [0u8; PIECE];
    for _done in 0..limit {
        match reader.read(&mut piece) {
            Ok(0) => return Ok(finding.at_end()),
            Ok(count) => finding = finding.behind(number, &piece[..count]),
            Err(_) => return Err(SearchFault::Failed),
        }
        if let Finding::Behind(place) = finding {
            return Ok(Some(place));
        }
    }
    Err(SearchFault::TooManyReads)
}
