//! The place of a token.

ghost use Rattle.std.specs.Prelude.{◌≡◌, ◌≤◌, ◌<◌, ◌++◌, ◌∷◌, [], List, ℕ, length, take};
ghost use Rattle.auc_place.specs.Places.{shows};

use arrayvec::ArrayVec;

/// The greatest number of bytes of a token that its place keeps.
pub const MOST_SHOWN: usize = 24;

/// The place of a token, and its first bytes.
#[derive(Debug, Drop)]
pub struct Place {
    /// Its line, from 1 on: a line feed ends one.
    pub line: u64,
    /// Its column, from 1 on: the number of bytes of its line before it, plus one.
    pub column: u64,
    /// Its first bytes, up to [`MOST_SHOWN`].
    pub front: ArrayVec<u8, 24>,
    /// Whether these are all its bytes.
    pub whole: bool,
}

impl Place {
    /// The place of a token that begins with this byte.
    pub(crate) fn begun(line: u64, column: u64, byte: u8) -> Place
        ensures line { result.line ≡ line }
        ensures column { result.column ≡ column }
        ensures shows { shows result (byte ∷ []) }
    {
        let mut front = ArrayVec::new();
        front.push(byte);
        Place {
            line,
            column,
            front,
            whole: true,
        }
    }

    /// The same place, where the token goes on with this byte.
    pub(crate) fn with(self, byte: u8) -> Place
        ensures line { result.line ≡ self.line }
        ensures column { result.column ≡ self.column }
        ensures shows { (token : List ℕ) → shows self token → shows result (token ++ byte ∷ []) }
    {
        let mut place = self;
        if place.front.len() < MOST_SHOWN {
            place.front.push(byte);
        } else {
            place.whole = false;
        }
        place
    }
}
