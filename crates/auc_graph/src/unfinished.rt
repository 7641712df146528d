//! Tokens that the end of a piece of a text cuts: what is kept of them.

ghost use Rattle.std.specs.Prelude.{◌≡◌, ◌≤◌, ◌<◌, ◌++◌, List, ℕ, length, take, slice_range};
ghost use Rattle.auc_graph.specs.Numbers.{numbers};
ghost use Rattle.auc_graph.specs.Pieces.{spelled, IsCapped, IsPlain, AreAlike};

use crate::number::{digits_of, point_len, split_sign_of};
use crate::tokens::from_place;
use itoa::Buffer;

/// The greatest number of bytes that are kept of an unfinished token.
pub(crate) const MOST_KEPT: usize = 32;

/// What is known of an unfinished token that is too long to be kept.
#[derive(Clone, Copy, Debug, PartialEq, Eq)]
pub enum Unfinished {
    /// It is no number, however it ends.
    NoNumber,
    /// A sign, and digits of this value, where one above the largest means all above it; perhaps a point and zeros.
    Digits {
        negative: bool,
        value: u64,
        point: bool,
    },
}

/// What is known of an unfinished token.
#[cold]
#[inline(never)]
fn unfinished_of(token: &[u8]) -> Unfinished
    requires { 1 < length token.now }
    ensures alike { AreAlike token.now (spelled result) }
    ensures capped { IsCapped result }
{
    let (negative, unsigned) = split_sign_of(token);
    let (value, digits) = digits_of(unsigned);
    let behind = from_place(unsigned, digits);
    let point = point_len(behind);
    if digits == 0 || point < behind.len() {
        Unfinished::NoNumber
    } else {
        Unfinished::Digits {
            negative,
            value,
            point: point > 0,
        }
    }
}

/// Moves the short text of an unfinished token to the front, and returns its length.
#[cold]
#[inline(never)]
fn spell(piece: &mut [u8], unfinished: Unfinished) -> usize
    requires room { MOST_KEPT ≤ length piece.old }
    requires capped { IsCapped unfinished }
    ensures spelled { take result piece.new ≡ spelled unfinished }
    ensures few { result ≤ MOST_KEPT }
    ensures len { length piece.new ≡ length piece.old }
{
    match unfinished {
        Unfinished::NoNumber => {
            piece[0] = b'x';
            1
        }
        Unfinished::Digits {
            negative,
            value,
            point,
        } => {
            piece[0] = if negative { b'-' } else { b'+' };
            let mut buffer = Buffer::new();
            let digits = buffer.format(value).as_bytes();
            let end = 1 + digits.len();
            piece[1..end].copy_from_slice(digits);
            if point {
                piece[end] = b'.';
                end + 1
            } else {
                end
            }
        }
    }
}

/// Moves the unfinished token between two places to the front, or a short text that reads alike however the token goes
/// on, and returns the length.
pub(crate) fn keep(piece: &mut [u8], start: usize, end: usize) -> usize
    requires places { (start ≤ end) × (end ≤ length piece.old) }
    requires room { MOST_KEPT ≤ length piece.old }
    requires plain { IsPlain (slice_range piece.old start end) }
    ensures alike { (more : List ℕ) → numbers (slice_range piece.old start end ++ more)
        ≡ numbers (take result piece.new ++ more) }
    ensures plain { IsPlain (take result piece.new) }
    ensures few { result ≤ MOST_KEPT }
    ensures len { length piece.new ≡ length piece.old }
{
    if end - start <= MOST_KEPT {
        piece.copy_within(start..end, 0);
        return end - start;
    }
    let unfinished = unfinished_of(&piece[start..end]);
    spell(piece, unfinished)
}
