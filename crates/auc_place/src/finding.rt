//! The state of a search for a token.

ghost use Rattle.std.specs.Prelude.{◌≡◌, ◌<◌, ◌+◌, ◌^◌, ◌++◌, ◌∷◌, [], List, ℕ, length};
ghost use Rattle.auc_place.specs.Places.{IsFound};
ghost use Rattle.auc_place.specs.Search.{IsCursor, IsFinding, IsOpen};

use crate::cursor::{Cursor, is_separator_byte};
use crate::place::Place;

/// The result of a search for a token in the beginning of a text.
#[derive(Debug, Drop)]
pub enum Finding {
    /// The token doesn't begin there.
    Before(Cursor),
    /// The token begins there, all its bytes so far are kept, and it may go on.
    Within(Place),
    /// The token has ended, or is longer than what is kept of it: its place stays.
    Behind(Place),
}

/// The state after one more byte, where the token has not begun before it.
#[inline(always)]
fn begun(cursor: Cursor, number: u64, byte: u8) -> Finding
    ensures { (seen : List ℕ) → length seen < 2 ^ 63 → IsFinding number seen (Finding.Before cursor)
        → IsFinding number (seen ++ byte ∷ []) result }
{
    let next = cursor.behind(byte);
    if next.tokens > number {
        Finding::Within(Place::begun(cursor.line, cursor.column, byte))
    } else {
        Finding::Before(next)
    }
}

/// The state after one more byte, where the token has begun before it.
#[inline(always)]
fn gone_on(place: Place, byte: u8) -> Finding
    ensures { (number : ℕ) (seen : List ℕ) → IsFinding number seen (Finding.Within place)
        → IsFinding number (seen ++ byte ∷ []) result }
{
    if is_separator_byte(byte) {
        return Finding::Behind(place);
    }
    let longer = place.with(byte);
    if longer.whole {
        Finding::Within(longer)
    } else {
        Finding::Behind(longer)
    }
}

/// The state after one more byte.
#[inline(always)]
fn next(finding: Finding, number: u64, byte: u8) -> Finding
    ensures { (seen : List ℕ) → length seen < 2 ^ 63 → IsFinding number seen finding
        → IsFinding number (seen ++ byte ∷ []) result }
{
    match finding {
        Finding::Before(cursor) => begun(cursor, number, byte),
        Finding::Within(place) => gone_on(place, byte),
        Finding::Behind(place) => Finding::Behind(place),
    }
}

impl Finding {
    /// At the beginning of a text.
    pub(crate) fn new() -> Finding
        ensures is { (number : ℕ) → IsFinding number [] result }
        ensures undecided { IsOpen result }
    {
        Finding::Before(Cursor::new())
    }

    /// After one more piece of the text.
    pub(crate) fn behind(self, number: u64, piece: &[u8]) -> Finding
        ensures { (seen : List ℕ) → length seen + length piece.now < 2 ^ 63 → IsFinding number seen self
            → IsFinding number (seen ++ piece.now) result }
    {
        let mut finding = self;
        for byte in piece {
            finding = next(finding, number, *byte);
        }
        finding
    }

    /// The place where the text ends.
    pub(crate) fn at_end(self) -> Option<Place>
        ensures { (number : ℕ) (seen : List ℕ) → IsFinding number seen self → IsFound seen number result }
    {
        match self {
            Finding::Before(_) => None,
            Finding::Within(place) => Some(place),
            Finding::Behind(place) => Some(place),
        }
    }
}
