//! Reading of the problem: from a text, or from a reader.

ghost use Rattle.std.specs.Prelude.{◌≡◌, ◌≤◌, ◌<◌, List, ℕ, length};
ghost use Rattle.std.specs.Io.KnownBytes.{Consumes};
ghost use Rattle.auc_graph.specs.Memory.{AnswersUnless};
ghost use Rattle.auc_graph.specs.Reading.{reading};
ghost use Rattle.auc_graph.specs.Pieces.{AreReadLimits, IsRead};

use crate::arc::ArcList;
use crate::limits::{MOST_READS, TEXT_ARCS, TEXT_PERSONS};
use crate::pieces::{is_want_of_memory, known_behind, problem_behind, stage_behind};
use crate::read_error::ReadError;
use crate::stage::Stage;
use crate::tokens::from_place;
use crate::unfinished::MOST_KEPT;
use std::alloc::Global;
use std::io::Read;

/// The greatest number of bytes that are taken of a reader at a time.
const PIECE: usize = 65_536;

/// The limits of reading: the number of persons, of arcs, and of calls of `read` of a reader. And the number of objects
/// of the problem.
#[derive(Clone, Copy, Debug, PartialEq, Eq)]
pub struct ReadLimits {
    pub persons: u32,
    pub arcs: u32,
    pub reads: u32,
    /// The number of objects; 0 means as many as persons.
    pub objects: u32,
}

impl ReadLimits {
    /// The usual limits, with as many objects as persons.
    pub fn usual() -> Self
        ensures persons { result.persons ≡ TEXT_PERSONS }
        ensures arcs { result.arcs ≡ TEXT_ARCS }
        ensures reads { result.reads ≡ MOST_READS }
        ensures objects { result.objects ≡ 0 }
    {
        ReadLimits {
            persons: TEXT_PERSONS,
            arcs: TEXT_ARCS,
            reads: MOST_READS,
            objects: 0,
        }
    }
}

/// The problem that a text reads as, or the first fault in the order of the text.
///
/// Bytes 9 to 13, 26 and 32 separate the tokens of the text. The first token is the number of persons; each three
/// tokens after it are an arc: person, object, cost. In the text persons and objects are numbered from 1. The same pair
/// listed twice is two arcs, and no arc at all is a lawful list.
///
/// - `limits.persons` is the greatest number of persons.
/// - `limits.objects` is the number of objects; 0 means as many as persons.
/// - `limits.arcs` is the greatest number of arcs that are read.
/// - `limits.reads` is ignored here.
///
/// # Errors
///
/// At a token [`ReadError::TooManyArcs`] comes first, then [`ReadError::BadNumber`], then the range of the number. At
/// the first token [`ReadError::TooFewObjects`] comes after these, where there are more persons than objects.
/// [`ReadError::Cut`] and [`ReadError::Empty`] come at the end of the text. [`ReadError::NoMemory`] may come in place
/// of any other answer, where memory was refused. No text is a [`ReadError::ReadFault`] or has too many reads.
///
/// Takes O(length) time and 16 bytes of memory an arc.
pub fn read_arcs(alloc: Global, bytes: &[u8], limits: ReadLimits) -> Result<ArcList, ReadError>
    requires limits { AreReadLimits limits }
    ensures { AnswersUnless ReadError.NoMemory (λ p. p) result (λ r. reading limits.persons limits.arcs
        limits.objects bytes.now ≡ r) }
{
    let mut arcs = Vec::new(alloc);
    let first = Stage::AtCount {
        most: limits.persons,
        wanted: limits.objects,
    };
    let (stage, left) = stage_behind(limits.arcs, first, &mut arcs, bytes)?;
    let token = from_place(bytes, bytes.len() - left);
    problem_behind(limits.arcs, stage, arcs, token)
}

/// The problem that the text of a reader reads as, as [`read_arcs`] says, or the first fault. No more of the text is
/// kept than 32 bytes of a token that isn't finished.
///
/// `limits.persons` is the greatest number of persons, `limits.objects` the number of objects, `limits.arcs` the
/// greatest number of arcs that are read, and `limits.reads` that of calls of `read`, the one that finds the end among
/// them. A read that gives no bytes is the end; the reader is read up to there, also where a fault of the text was seen
/// before.
///
/// # Errors
///
/// [`ReadError::ReadFault`] at the first read that fails, also by an interrupt: no read is tried again.
/// [`ReadError::TooManyReads`] where `limits.reads` reads gave bytes each. [`ReadError::NoMemory`] at once, where
/// memory was refused. Each of these comes whatever fault of the text was seen before. Else the answer is that of
/// [`read_arcs`] on the whole text.
///
/// Takes O(length) time, 16 bytes of memory an arc, and 64 kB for a piece of the text. These are asked for before the
/// first read: none of them is on the stack.
pub fn read_arcs_from<R: Read>(
    alloc: Global,
    reader: &mut R,
    limits: ReadLimits,
) -> Result<ArcList, ReadError>
    requires limits { AreReadLimits limits }
    requires reads { limits.reads ≤ MOST_READS }
    // A text was taken, all that the reader had unless it says otherwise; the answer is that of the whole text.
    ensures { (text : List ℕ) × Consumes (R.remaining reader.old) (R.remaining reader.new) text
        × IsRead limits (R.remaining reader.new) text result }
{
    let mut piece = vec![in alloc; 0u8; PIECE]?;
    read_by_pieces(alloc, reader, limits, piece.as_mut_slice())
}

/// The same, through this room for a piece. A function of its own, so that the room comes from memory and not from the
/// stack.
fn read_by_pieces<R: Read>(
    alloc: Global,
    reader: &mut R,
    limits: ReadLimits,
    piece: &mut [u8],
) -> Result<ArcList, ReadError>
    requires limits { AreReadLimits limits }
    // The bytes that are kept of an unfinished token leave room for one more byte.
    requires room { MOST_KEPT < length piece.old }
    ensures { (text : List ℕ) × Consumes (R.remaining reader.old) (R.remaining reader.new) text
        × IsRead limits (R.remaining reader.new) text result }
{
    let mut arcs = Vec::new(alloc);
    let mut known = Ok(Stage::AtCount {
        most: limits.persons,
        wanted: limits.objects,
    });
    let mut kept = 0;
    for _done in 0..limits.reads {
        let Ok(count) = reader.read(&mut piece[kept..]) else {
            return Err(ReadError::ReadFault);
        };
        if count == 0 {
            let stage = known?;
            return problem_behind(limits.arcs, stage, arcs, &piece[..kept]);
        }
        (known, kept) = known_behind(limits.arcs, known, &mut arcs, piece, kept + count);
        if is_want_of_memory(&known) {
            return Err(ReadError::NoMemory);
        }
    }
    Err(ReadError::TooManyReads)
}
