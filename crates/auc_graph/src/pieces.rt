//! Reading a text piece by piece.

ghost use Rattle.std.specs.Prelude.{◌≡◌, ◌≢◌, ◌-◌, ◌<◌, ◌≤◌, ◌++◌, List, ℕ, length, take, drop, Ok, Err, true, false};
ghost use Rattle.std.specs.Prelude.{IfOk, IfErr};
ghost use Rattle.auc_graph.specs.declared.stage.Stage.TheVariants.{AtPerson};
ghost use Rattle.auc_graph.specs.Memory.{AnswersUnless};
ghost use Rattle.auc_graph.specs.Pieces.{reading_at, reading_from, IsStage, IsKnown, IsPlain};
ghost use Rattle.auc_graph.specs.Written.{IsWritten};

use crate::arc::{Arc, ArcList};
use crate::front::next_whole;
use crate::limits::MOST_ARCS;
use crate::line::{WrittenPerson, person_at, short_arc};
use crate::number::number_at;
use crate::read_error::ReadError;
use crate::stage::Stage;
use crate::tokens::separators_len;
use crate::unfinished::{MOST_KEPT, keep};

/// Reads arcs of two short numbers and a cost each, whose person is spelled like this, as many as there is room for,
/// and appends them. Returns the text after them.
#[inline(always)]
fn behind_row<'a>(
    limit: u32,
    _persons: u32,
    objects: u32,
    written: WrittenPerson,
    arcs: &mut Vec<Arc>,
    bytes: &'a [u8],
) -> Result<&'a [u8], ReadError>
    requires written { IsWritten written × (written.person < _persons) }
    requires few { limit ≤ MOST_ARCS }
    requires sound { IsStage limit (AtPerson _persons objects) arcs.old.items }
    ensures exact { IfOk result
        (λ rest. (more : List ℕ) → reading_at limit (AtPerson _persons objects) arcs.old.items (bytes.now ++ more) ≡
        reading_at limit (AtPerson _persons objects) arcs.new.items (rest.now ++ more)) }
    ensures sound { IfOk result (λ _. IsStage limit (AtPerson _persons objects) arcs.new.items) }
    ensures memory { IfErr result (λ e. e ≡ ReadError.NoMemory) }
    ensures behind { IfOk result
        (λ rest. (length rest.now ≤ length bytes.now) × (rest.now ≡ drop
        (length bytes.now - length rest.now) bytes.now)) }
{
    if arcs.len() >= limit as usize {
        return Ok(bytes);
    }
    arcs.reserve(1)?;
    // One test for the limit and the room.
    let end = arcs.capacity().min(limit as usize);
    let mut rest = bytes;
    'lines: while arcs.len() < end {
        let Some((arc, behind)) = short_arc(written, objects, rest) else {
            break;
        };
        arcs.push_reserved(arc);
        rest = behind;
    }
    Ok(rest)
}

/// Reads arcs of two short numbers and a cost each, and appends them. Returns the text after them. A function of its
/// own, so that the loop of a row has the registers.
#[inline(never)]
fn behind_short_arcs<'a>(
    limit: u32,
    persons: u32,
    objects: u32,
    arcs: &mut Vec<Arc>,
    bytes: &'a [u8],
) -> Result<&'a [u8], ReadError>
    requires few { limit ≤ MOST_ARCS }
    requires sound { IsStage limit (AtPerson persons objects) arcs.old.items }
    ensures exact { IfOk result
        (λ rest. (more : List ℕ) → reading_at limit (AtPerson persons objects) arcs.old.items (bytes.now ++ more) ≡
        reading_at limit (AtPerson persons objects) arcs.new.items (rest.now ++ more)) }
    ensures sound { IfOk result (λ _. IsStage limit (AtPerson persons objects) arcs.new.items) }
    ensures memory { IfErr result (λ e. e ≡ ReadError.NoMemory) }
    ensures behind { IfOk result
        (λ rest. (length rest.now ≤ length bytes.now) × (rest.now ≡ drop
        (length bytes.now - length rest.now) bytes.now)) }
{
    let mut rest = bytes;
    while let Some(written) = person_at(persons, rest) {
        let behind = behind_row(limit, persons, objects, written, arcs, rest)?;
        if behind.len() == rest.len() {
            break;
        }
        rest = behind;
    }
    Ok(rest)
}

/// The stage after all numbers of a piece that a separator ends, and the length in bytes of the unfinished token after
/// them.
pub(crate) fn stage_behind(
    limit: u32,
    first: Stage,
    arcs: &mut Vec<Arc>,
    piece: &[u8],
) -> Result<(Stage, usize), ReadError>
    requires few { limit ≤ MOST_ARCS }
    requires sound { IsStage limit first arcs.old.items }
    ensures exact { IfOk result
        (λ x. (more : List ℕ) → reading_at limit first arcs.old.items (piece.now ++ more) ≡ reading_at limit x.0
        arcs.new.items (drop (length piece.now - x.1) piece.now ++ more)) }
    ensures fault { IfErr result
        (λ e. e ≢ ReadError.NoMemory → (more : List ℕ) → reading_at limit first arcs.old.items (piece.now ++ more)
        ≡ Err e) }
    ensures sound { IfOk result (λ x. IsStage limit x.0 arcs.new.items) }
    ensures few { IfOk result (λ x. x.1 ≤ length piece.now) }
    ensures plain { IfOk result (λ x. IsPlain (drop (length piece.now - x.1) piece.now)) }
{
    let mut stage = first;
    let mut rest = piece;
    while let Some((number, behind)) = next_whole(rest) {
        stage = stage.after(limit, arcs, number)?;
        rest = behind;
        if let Stage::AtPerson { persons, objects } = stage {
            rest = behind_short_arcs(limit, persons, objects, arcs, rest)?;
        }
    }
    Ok((stage, rest.len() - separators_len(rest)))
}

/// The state after these bytes of a piece, and the number of bytes that are kept at its front. A fault stays the first
/// one.
pub(crate) fn known_behind(
    limit: u32,
    before: Result<Stage, ReadError>,
    arcs: &mut Vec<Arc>,
    piece: &mut [u8],
    len: usize,
) -> (Result<Stage, ReadError>, usize)
    requires few { limit ≤ MOST_ARCS }
    requires len { len ≤ length piece.old }
    requires room { MOST_KEPT ≤ length piece.old }
    requires sound { IsKnown limit before arcs.old.items }
    ensures exact { result.0 ≢ Err ReadError.NoMemory → (more : List ℕ)
        → reading_from limit before arcs.old.items (take len piece.old ++ more) ≡ reading_from limit result.0
        arcs.new.items (take result.1 piece.new ++ more) }
    ensures sound { IsKnown limit result.0 arcs.new.items }
    ensures plain { IsPlain (take result.1 piece.new) }
    ensures few { result.1 ≤ MOST_KEPT }
    ensures len { length piece.new ≡ length piece.old }
{
    match before {
        Err(fault) => (Err(fault), 0),
        Ok(stage) => match stage_behind(limit, stage, arcs, &piece[..len]) {
            Err(fault) => (Err(fault), 0),
            Ok((stage, kept)) => (Ok(stage), keep(piece, len - kept, len)),
        },
    }
}

/// The problem of a text that ends after this token.
pub(crate) fn problem_behind(
    limit: u32,
    stage: Stage,
    arcs: Vec<Arc>,
    token: &[u8],
) -> Result<ArcList, ReadError>
    requires few { limit ≤ MOST_ARCS }
    requires sound { IsStage limit stage arcs.items }
    requires plain { IsPlain token.now }
    ensures { AnswersUnless ReadError.NoMemory (λ p. p) result (λ r. reading_at limit stage arcs.items token.now ≡ r) }
{
    let mut arcs = arcs;
    if token.is_empty() {
        return stage.finished(limit, arcs);
    }
    let (number, _) = number_at(token);
    let last = stage.after(limit, &mut arcs, number)?;
    last.finished(limit, arcs)
}

/// Whether memory was refused.
pub(crate) fn is_want_of_memory(known: &Result<Stage, ReadError>) -> bool
    ensures want { result ≡ true → known.now ≡ Err ReadError.NoMemory }
    ensures other { result ≡ false → known.now ≢ Err ReadError.NoMemory }
{
    match known {
        Err(ReadError::NoMemory) => true,
        _ => false,
    }
}
