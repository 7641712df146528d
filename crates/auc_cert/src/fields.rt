//! The fields of a line, read: a number after a word, up to the byte that ends it.

ghost use Rattle.std.specs.Prelude.{◌≡◌, ◌-◌, ℤ, ◌≤ℤ◌, pos, unsigned_abs, IfSome, IfNone, FitsSigned};
ghost use Rattle.std.specs.Int.{w64};
ghost use Rattle.std.specs.Fmt.{signed_decimal};
ghost use Rattle.auc_cert.specs.Fields.{viewed, word_at, spelled, field_at};

use auc_graph::MOST_OBJECTS;
use itoa::Buffer;
use std::str;

/// The number whose spelling this word is.
fn number_of_word(word: &[u8]) -> Option<i64>
    ensures found { IfSome result (λ z. word.now ≡ signed_decimal z) }
    ensures none { IfNone result ((z : ℤ) → FitsSigned w64 z → word.now ≡ signed_decimal z → ⊥) }
{
    let text = match str::from_utf8(word) {
        Ok(text) => text,
        Err(_) => return None,
    };
    let number = match text.parse::<i64>() {
        Ok(number) => number,
        Err(_) => return None,
    };
    let mut buffer = Buffer::new();
    if buffer.format(number).as_bytes() == word {
        Some(number)
    } else {
        None
    }
}

/// The number from least to most whose spelling this word is.
fn spelled_in(word: &[u8], least: i64, most: i64) -> Option<i64>
    ensures exact { result ≡ spelled least most word.now }
    ensures bounds { IfSome result (λ z. (least ≤ℤ z) × (z ≤ℤ most)) }
{
    let number = number_of_word(word)?;
    if least <= number && number <= most {
        Some(number)
    } else {
        None
    }
}

/// The text before the first byte `stop`, and the text after it.
pub(crate) fn word_before(bytes: &[u8], stop: u8) -> Option<(&[u8], &[u8])>
    ensures { viewed (λ x. (x.0.now, x.1.now)) result ≡ word_at stop bytes.now }
{
    for (i, byte) in bytes.iter().enumerate() {
        if *byte == stop {
            return Some((&bytes[..i], &bytes[i + 1..]));
        }
    }
    None
}

/// The number from least to most after the front, which the byte ends, and the text after it.
#[tactic(auto, unfolding(crate::specs::Fields::field_at, crate::specs::Fields::after))]
pub(crate) fn field_of<'a>(
    bytes: &'a [u8],
    front: &[u8],
    least: i64,
    most: i64,
    stop: u8,
) -> Option<(i64, &'a [u8])>
    ensures exact { viewed (λ x. (x.0, x.1.now)) result ≡ field_at front.now least most stop bytes.now }
    ensures bounds { IfSome result (λ x. (least ≤ℤ x.0) × (x.0 ≤ℤ most)) }
{
    let rest = bytes.strip_prefix(front)?;
    let (word, rest) = word_before(rest, stop)?;
    let number = spelled_in(word, least, most)?;
    Some((number, rest))
}

/// A number from 1, as a number from 0.
pub(crate) fn index_of(number: i64) -> u32
    requires low { pos 1 ≤ℤ number }
    requires high { number ≤ℤ pos MOST_OBJECTS }
    ensures { result ≡ unsigned_abs number - 1 }
{
    (number - 1) as u32
}
