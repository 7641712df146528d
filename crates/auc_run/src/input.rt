//! Reading of a whole input.

ghost use Rattle.std.specs.Prelude.{◌≡◌, ◌≤◌, ◌<◌, length, Err, IfOk, OnOk, IfSome};
ghost use Rattle.std.specs.Io.KnownBytes.{IsAtEnd};
ghost use Rattle.auc_run.specs.declared.input.ReadFault.TheVariants.{NoMemory};

use std::alloc::{AllocError, AllocFailed, Global};
use std::io::Read;
use thiserror::Error;

/// Why an input was not read to its end.
#[derive(Clone, Copy, Debug, PartialEq, Eq, Error)]
pub enum ReadFault {
    /// A read failed, or was interrupted.
    #[error("a read failed")]
    Failed,
    /// As many reads as are allowed did not reach the end.
    #[error("too many reads")]
    TooManyReads,
    /// Memory ran out.
    #[error("out of memory")]
    NoMemory,
}

impl From<AllocError> for ReadFault {
    ghost from_gives = { λ _ e. e ≡ NoMemory };

    fn from(_e: AllocError) -> ReadFault {
        ReadFault::NoMemory
    }
}

impl<T: Drop> From<AllocFailed<T>> for ReadFault {
    ghost from_gives = { λ _ e. e ≡ NoMemory };

    fn from(_e: AllocFailed<T>) -> ReadFault {
        ReadFault::NoMemory
    }
}

/// The most bytes that are taken of a reader at a time.
const PIECE: usize = 65_536;

/// All bytes that the reader still has. `limit` is the most calls of `read`, the one that finds the end among them.
///
/// # Errors
///
/// [`ReadFault::Failed`] at the first read that fails, also by an interrupt: no read is tried again.
/// [`ReadFault::TooManyReads`] where `limit` reads gave bytes each. After an error the reader is where the last
/// read left it. [`ReadFault::NoMemory`] at once, where memory was refused, also before the first read.
///
/// Takes O(length) time and memory, and 64 kB of memory for a piece, which are asked for before the first read: none of
/// them lie on the stack.
pub fn read_all<R: Read>(alloc: Global, reader: &mut R, limit: u32) -> Result<Vec<u8>, ReadFault>
    ensures whole { IfOk result (λ v. IfSome (R.remaining reader.old) (λ bytes. v.items ≡ bytes)) }
    ensures end { OnOk result (IsAtEnd (R.remaining reader.new)) }
    // Each read gave at least one byte.
    ensures many { result ≡ Err ReadFault.TooManyReads → IfSome (R.remaining reader.old)
        (λ bytes. limit ≤ length bytes) }
{
    let mut piece = vec![in alloc; 0u8; PIECE]?;
    read_by_pieces(alloc, reader, limit, piece.as_mut_slice())
}

/// The same, through this room for a piece. A function of its own, so that the room comes from memory and not from the
/// stack.
fn read_by_pieces<R: Read>(
    alloc: Global,
    reader: &mut R,
    limit: u32,
    piece: &mut [u8],
) -> Result<Vec<u8>, ReadFault>
    requires room { 0 < length piece.old }
    ensures whole { IfOk result (λ v. IfSome (R.remaining reader.old) (λ bytes. v.items ≡ bytes)) }
    ensures end { OnOk result (IsAtEnd (R.remaining reader.new)) }
    ensures many { result ≡ Err ReadFault.TooManyReads → IfSome (R.remaining reader.old)
        (λ bytes. limit ≤ length bytes) }
{
    let mut all = Vec::new(alloc);
    for _done in 0..limit {
        match reader.read(piece) {
            Ok(0) => return Ok(all),
            Ok(count) => all.extend_from_slice(&piece[..count])?,
            Err(_) => return Err(ReadFault::Failed),
        }
    }
    Err(ReadFault::TooManyReads)
}
