//! The position in a text up to which it has been read.

ghost use Rattle.std.specs.Prelude.{◌≡◌, ◌<◌, ◌+◌, ◌^◌, false, ◌++◌, ◌∷◌, [], List, ℕ, length};
ghost use Rattle.auc_graph.specs.Tokens.{is_separator};
ghost use Rattle.auc_place.specs.Places.{line_behind, column_behind};
ghost use Rattle.auc_place.specs.Search.{HasTokens, IsCursor};

/// The state after a beginning of a text.
#[derive(Clone, Copy, Debug)]
pub struct Cursor {
    /// The number of tokens that begin there.
    pub tokens: u64,
    /// Whether it ends inside one.
    pub inside: bool,
    /// The line of the next byte.
    pub line: u64,
    /// The column of the next byte.
    pub column: u64,
}

/// Whether this byte separates tokens.
#[inline(always)]
#[tactic(auto, unfolding(auc_graph::specs::Tokens::is_separator))]
pub(crate) fn is_separator_byte(byte: u8) -> bool
    ensures { result ≡ is_separator byte }
{
    matches!(byte, 9..=13 | 26 | 32)
}

/// The line and the column after one more byte.
#[inline(always)]
fn place_behind(line: u64, column: u64, byte: u8) -> (u64, u64)
    ensures { (seen : List ℕ) → length seen < 2 ^ 63 → line ≡ line_behind seen → column ≡ column_behind seen
        → (result.0 ≡ line_behind (seen ++ byte ∷ [])) × (result.1 ≡ column_behind (seen ++ byte ∷ [])) }
{
    if byte == b'\n' {
        (line.saturating_add(1), 1)
    } else {
        (line, column.saturating_add(1))
    }
}

/// The number of tokens that begin after one more byte, and whether the text ends inside one there.
#[inline(always)]
fn tokens_behind(tokens: u64, inside: bool, byte: u8) -> (u64, bool)
    ensures has { (seen : List ℕ) → length seen < 2 ^ 63 → HasTokens seen tokens inside
        → HasTokens (seen ++ byte ∷ []) result.0 result.1 }
    ensures begins { tokens < result.0 → (inside ≡ false) × (is_separator byte ≡ false) × (result.0 ≡ tokens + 1) }
{
    if is_separator_byte(byte) {
        (tokens, false)
    } else if inside {
        (tokens, true)
    } else {
        (tokens.saturating_add(1), true)
    }
}

impl Cursor {
    /// At the beginning of a text.
    pub(crate) fn new() -> Cursor
        ensures { IsCursor [] result }
    {
        Cursor {
            tokens: 0,
            inside: false,
            line: 1,
            column: 1,
        }
    }

    /// After one more byte. No text has more than 2^63.
    #[inline(always)]
    pub(crate) fn behind(self, byte: u8) -> Cursor
        ensures is { (seen : List ℕ) → length seen < 2 ^ 63 → IsCursor seen self → IsCursor (seen ++ byte ∷ []) result }
        // One more token begins there only with a byte of its own, after a separator or at the front.
        ensures begins { self.tokens < result.tokens → (self.inside ≡ false) × (is_separator byte ≡ false)
            × (result.tokens ≡ self.tokens + 1) }
    {
        let (tokens, inside) = tokens_behind(self.tokens, self.inside, byte);
        let (line, column) = place_behind(self.line, self.column, byte);
        Cursor {
            tokens,
            inside,
            line,
            column,
        }
    }
}
