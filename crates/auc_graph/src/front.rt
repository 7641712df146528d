//! Numbers at the front of a text that goes on after them.

ghost use Rattle.std.specs.Prelude.{◌≡◌, ◌+◌, ◌-◌, ◌≤◌, ◌<◌, ◌∷◌, ◌++◌, List, ℕ, true, false, length, drop, pos, neg_ℤ};
ghost use Rattle.std.specs.Prelude.{◌≤ℤ◌, IfSome, IfNone};
ghost use Rattle.std.specs.Char.{is_ascii_digit};
ghost use Rattle.std.specs.List.{prefix_len};
ghost use Rattle.auc_graph.specs.declared.number.Number.TheVariants.{Value};
ghost use Rattle.auc_graph.specs.Tokens.{is_separator};
ghost use Rattle.auc_graph.specs.Numbers.{numbers, signed, IsPlainToken};
ghost use Rattle.auc_graph.specs.Pieces.{IsPlain};

use crate::limits::MOST_COST;
use crate::number::{Number, number_at, split_sign_of};
use crate::tokens::{from_place, is_separator_byte, separators_len};

/// One more than the digits of a short number.
pub(crate) const SHORT: usize = 8;

/// One more than the digits of the greatest cost.
const LONG: usize = 11;

/// The value of a digit; above nine for any other byte. Of 32 bits, so that the sum that takes it needs no widening.
#[inline(always)]
fn digit_of(byte: u8) -> u32
    ensures digit { result ≤ 9 → (is_ascii_digit byte ≡ true) × (byte ≡ result + 48) }
    ensures other { 9 < result → is_ascii_digit byte ≡ false }
{
    (byte as u32).wrapping_sub(b'0' as u32)
}

/// The separators that may come after a short number.
#[derive(Clone, Copy)]
pub(crate) enum Separators {
    /// A space or a line feed: nearly all files have no others, and to test for these alone is fastest.
    Usual,
    /// Each byte that may separate two tokens.
    All,
}

/// Whether a byte is one of these separators.
#[inline(always)]
#[tactic(auto, unfolding(crate::specs::Tokens::is_separator))]
fn is_among(separators: Separators, byte: u8) -> bool
    ensures { result ≡ true → is_separator byte ≡ true }
{
    match separators {
        Separators::Usual => byte == b' ' || byte == b'\n',
        Separators::All => is_separator_byte(byte),
    }
}

/// The value and the length of the token at the front, where it is one to seven digits and such a separator follows.
/// The compiler unrolls this loop, so that each of its tests is predicted by its own history.
#[inline(always)]
pub(crate) fn short_number_at(separators: Separators, bytes: &[u8; SHORT]) -> Option<(u32, usize)>
    ensures { IfSome result (λ x. (x.1 < SHORT) × (x.0 < 10000000) × IsPlainToken bytes.now x.0 x.1) }
{
    let mut value: u32 = 0;
    for (i, byte) in bytes.iter().enumerate() {
        let digit = digit_of(*byte);
        if digit > 9 {
            if i > 0 && is_among(separators, *byte) {
                return Some((value, i));
            }
            return None;
        }
        value = 10 * value + digit;
    }
    None
}

/// The short number at the front, and the text after the separator that follows it.
#[inline(always)]
pub(crate) fn short_number(separators: Separators, bytes: &[u8]) -> Option<(u32, &[u8])>
    ensures found { IfSome result (λ x. (more : List ℕ) → numbers (bytes.now ++ more)
        ≡ Value (pos x.0) ∷ numbers (x.1.now ++ more)) }
    ensures small { IfSome result (λ x. x.0 < 10000000) }
    ensures shorter { IfSome result (λ x. length x.1.now < length bytes.now) }
    ensures behind { IfSome result (λ x. x.1.now ≡ drop (length bytes.now - length x.1.now) bytes.now) }
{
    let front = bytes.first_chunk::<SHORT>()?;
    let (value, len) = short_number_at(separators, front)?;
    Some((value, from_place(bytes, len + 1)))
}

/// The value and the length of the token at the front, where it is one to ten digits and a usual separator follows.
#[inline(always)]
fn long_number_at(bytes: &[u8; LONG]) -> Option<(u64, usize)>
    ensures { IfSome result (λ x. (x.1 < LONG) × IsPlainToken bytes.now x.0 x.1) }
{
    let mut value: u64 = 0;
    for (i, byte) in bytes.iter().enumerate() {
        let digit = digit_of(*byte);
        if digit > 9 {
            if i > 0 && is_among(Separators::Usual, *byte) {
                return Some((value, i));
            }
            return None;
        }
        value = 10 * value + digit as u64;
    }
    None
}

/// A number by its sign and its size.
#[inline(always)]
fn signed_of(negative: bool, size: u32) -> i64
    ensures { result ≡ signed negative size }
{
    if negative {
        -(size as i64)
    } else {
        size as i64
    }
}

/// The cost at the front, in range, of up to ten digits and after a sign or none, and the text after the separator that
/// follows it.
#[inline(always)]
fn long_cost(bytes: &[u8]) -> Option<(i64, &[u8])>
    ensures found { IfSome result (λ x. (more : List ℕ) → numbers (bytes.now ++ more)
        ≡ Value x.0 ∷ numbers (x.1.now ++ more)) }
    ensures low { IfSome result (λ x. neg_ℤ MOST_COST ≤ℤ x.0) }
    ensures high { IfSome result (λ x. x.0 ≤ℤ MOST_COST) }
    ensures shorter { IfSome result (λ x. length x.1.now < length bytes.now) }
    ensures behind { IfSome result (λ x. x.1.now ≡ drop (length bytes.now - length x.1.now) bytes.now) }
{
    let (negative, unsigned) = split_sign_of(bytes);
    let front = unsigned.first_chunk::<LONG>()?;
    let (value, len) = long_number_at(front)?;
    if value > MOST_COST as u64 {
        return None;
    }
    Some((
        signed_of(negative, value as u32),
        from_place(unsigned, len + 1),
    ))
}

/// The same. Most costs are short and have no sign, so these are read by the loop of short numbers.
#[inline(always)]
pub(crate) fn cost_at(bytes: &[u8]) -> Option<(i64, &[u8])>
    ensures found { IfSome result (λ x. (more : List ℕ) → numbers (bytes.now ++ more)
        ≡ Value x.0 ∷ numbers (x.1.now ++ more)) }
    ensures low { IfSome result (λ x. neg_ℤ MOST_COST ≤ℤ x.0) }
    ensures high { IfSome result (λ x. x.0 ≤ℤ MOST_COST) }
    ensures shorter { IfSome result (λ x. length x.1.now < length bytes.now) }
    ensures behind { IfSome result (λ x. x.1.now ≡ drop (length bytes.now - length x.1.now) bytes.now) }
{
    match short_number(Separators::Usual, bytes) {
        Some((value, rest)) => Some((value as i64, rest)),
        None => long_cost(bytes),
    }
}

/// The number at the front, where a separator follows it, and the text after that.
#[cold]
#[inline(never)]
fn any_whole(bytes: &[u8]) -> Option<(Number, &[u8])>
    ensures found { IfSome result (λ x. (more : List ℕ) → numbers (bytes.now ++ more)
        ≡ x.0 ∷ numbers (x.1.now ++ more)) }
    ensures shorter { IfSome result (λ x. length x.1.now < length bytes.now) }
    ensures behind { IfSome result (λ x. x.1.now ≡ drop (length bytes.now - length x.1.now) bytes.now) }
    ensures none { IfNone result (IsPlain (drop (prefix_len is_separator bytes.now) bytes.now)) }
{
    let start = separators_len(bytes);
    let token = from_place(bytes, start);
    let (number, len) = number_at(token);
    if len < token.len() {
        // Past the separator: a short number has none in front.
        Some((number, from_place(token, len + 1)))
    } else {
        None
    }
}

/// The number at the front, where a separator follows it, and the text after that. Nearly all numbers of a file are
/// short, so these are read by a loop of fixed length.
#[inline(always)]
pub(crate) fn next_whole(bytes: &[u8]) -> Option<(Number, &[u8])>
    ensures found { IfSome result (λ x. (more : List ℕ) → numbers (bytes.now ++ more)
        ≡ x.0 ∷ numbers (x.1.now ++ more)) }
    ensures shorter { IfSome result (λ x. length x.1.now < length bytes.now) }
    ensures behind { IfSome result (λ x. x.1.now ≡ drop (length bytes.now - length x.1.now) bytes.now) }
    ensures none { IfNone result (IsPlain (drop (prefix_len is_separator bytes.now) bytes.now)) }
{
    match short_number(Separators::All, bytes) {
        Some((value, rest)) => Some((Number::Value(value as i64), rest)),
        None => any_whole(bytes),
    }
}
