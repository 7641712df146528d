//! Tokens: the longest runs of bytes that are no separators.

ghost use Rattle.std.specs.Prelude.{◌≡◌, ◌+◌, ◌≤◌, ◌∷◌, [], length, drop, slice_range, IfSome, IfNone};
ghost use Rattle.std.specs.List.{prefix_len, position_or_len};
ghost use Rattle.auc_graph.specs.Tokens.{is_separator, tokens, IsFirstToken};

/// A token, by its places in the text: from `start` up to `end`, where the text goes on.
#[derive(Clone, Copy, Debug, PartialEq, Eq)]
pub struct Token {
    pub start: usize,
    pub end: usize,
}

#[inline(always)]
#[tactic(auto, unfolding(crate::specs::Tokens::is_separator))]
pub(crate) fn is_separator_byte(byte: u8) -> bool
    ensures { result ≡ is_separator byte }
{
    matches!(byte, 9..=13 | 26 | 32)
}

/// The text from a place on.
#[inline(always)]
pub(crate) fn from_place(bytes: &[u8], place: usize) -> &[u8]
    requires { place ≤ length bytes.now }
    ensures { result.now ≡ drop place bytes.now }
{
    &bytes[place..]
}

/// The number of separators at the front.
#[inline(always)]
pub(crate) fn separators_len(bytes: &[u8]) -> usize
    ensures len { result ≡ prefix_len is_separator bytes.now }
    ensures few { result ≤ length bytes.now }
{
    for (i, byte) in bytes.iter().enumerate() {
        if !is_separator_byte(*byte) {
            return i;
        }
    }
    bytes.len()
}

/// The number of bytes before the first separator.
#[inline(always)]
pub(crate) fn token_len(bytes: &[u8]) -> usize
    ensures len { result ≡ position_or_len is_separator bytes.now }
    ensures few { result ≤ length bytes.now }
{
    for (i, byte) in bytes.iter().enumerate() {
        if is_separator_byte(*byte) {
            return i;
        }
    }
    bytes.len()
}

/// The first token from a place of the text on. Where the place is inside a token, that is the rest of it; at or past
/// the end there is none. Takes O(bytes read) time.
pub fn token_at(bytes: &[u8], from: usize) -> Option<Token>
    ensures found { IfSome result (λ token. IsFirstToken bytes.now from token.start token.end) }
    ensures tokens { IfSome result
        (λ token. tokens (drop from bytes.now) ≡ slice_range bytes.now token.start token.end ∷ tokens
        (drop token.end bytes.now)) }
    ensures none { IfNone result (tokens (drop from bytes.now) ≡ []) }
{
    if from >= bytes.len() {
        return None;
    }
    let start = from + separators_len(from_place(bytes, from));
    if start >= bytes.len() {
        return None;
    }
    let end = start + token_len(from_place(bytes, start));
    Some(Token { start, end })
}
