//! Lines of two short numbers and a cost at the front of a text that goes on after them.
//!
//! Most files list the arcs of a person line by line, so the person of a line is found by comparing its first bytes
//! with those of the line before.

ghost use Rattle.std.specs.Prelude.{◌≡◌, ◌+◌, ◌-◌, ◌<◌, ◌∷◌, ◌++◌, List, ℕ, length, drop, pos, IfSome};
ghost use Rattle.auc_graph.specs.declared.number.Number.TheVariants.{Value};
ghost use Rattle.auc_graph.specs.Numbers.{numbers};
ghost use Rattle.auc_graph.specs.Problem.{IsWithin};
ghost use Rattle.std.specs.Int.{w64, from_le_bytes};
ghost use Rattle.auc_graph.specs.Written.{AreBytes, IsWritten};

use crate::arc::Arc;
use crate::front::{SHORT, Separators, cost_at, short_number, short_number_at};
use crate::tokens::from_place;

/// The length in bytes of the longest line of three short numbers: the last may have a sign. A longer cost tests for
/// more by itself.
const LINE: usize = 3 * SHORT + 1;

/// How a person is written at the front of a line: the digits of the number and a separator.
#[derive(Clone, Copy, Debug, PartialEq, Eq)]
pub struct WrittenPerson {
    /// The bytes of a word that the digits and the separator take.
    pub mask: u64,
    /// These bytes, in a word whose lowest byte is the first byte of the line.
    pub word: u64,
    pub digits: usize,
    pub person: u32,
}

/// Eight bytes as a number, the first of them lowest.
#[inline(always)]
fn word_of(front: &[u8; SHORT]) -> u64
    ensures word { result ≡ from_le_bytes w64 front.now }
    ensures bytes { AreBytes front.now }
{
    u64::from_le_bytes(*front)
}

/// The person at the front, where the number is one to seven digits and in range.
#[inline(always)]
pub(crate) fn person_at(persons: u32, bytes: &[u8]) -> Option<WrittenPerson>
    ensures written { IfSome result (λ x. IsWritten x) }
    ensures within { IfSome result (λ x. x.person < persons) }
{
    let front = bytes.first_chunk::<SHORT>()?;
    let (value, digits) = short_number_at(Separators::Usual, front)?;
    if value < 1 || value > persons {
        return None;
    }
    let mask = u64::MAX >> (8 * (SHORT - 1 - digits));
    Some(WrittenPerson {
        mask,
        word: word_of(front) & mask,
        digits,
        person: value - 1,
    })
}

/// The text after the person and the separator, where the front is spelled like this.
#[inline(always)]
fn behind_person(written: WrittenPerson, bytes: &[u8]) -> Option<&[u8]>
    requires { IsWritten written }
    ensures found { IfSome result
        (λ x. (more : List ℕ) → numbers (bytes.now ++ more) ≡ Value (pos (written.person + 1)) ∷ numbers
        (x.now ++ more)) }
    ensures shorter { IfSome result (λ x. length x.now < length bytes.now) }
    ensures behind { IfSome result (λ x. x.now ≡ drop (length bytes.now - length x.now) bytes.now) }
{
    let front = bytes.first_chunk::<SHORT>()?;
    if word_of(front) & written.mask != written.word {
        return None;
    }
    Some(from_place(bytes, written.digits + 1))
}

/// The arc at the front and the text after it, where the person is spelled like this. The object is a short number, the
/// cost one of up to ten digits with or without a sign, and both are in range.
#[inline(always)]
pub(crate) fn short_arc(written: WrittenPerson, objects: u32, bytes: &[u8]) -> Option<(Arc, &[u8])>
    requires { IsWritten written }
    ensures found { IfSome result
        (λ x. (more : List ℕ) → numbers (bytes.now ++ more) ≡ Value (pos (x.0.person + 1)) ∷ Value (pos (x.0.object +
        1)) ∷ Value x.0.cost ∷ numbers (x.1.now ++ more)) }
    ensures within { IfSome result (λ x. (persons : ℕ) → written.person < persons → IsWithin persons objects x.0) }
    ensures shorter { IfSome result (λ x. length x.1.now < length bytes.now) }
    ensures behind { IfSome result (λ x. x.1.now ≡ drop (length bytes.now - length x.1.now) bytes.now) }
{
    // One test of the length, after which the compiler leaves out those of each number.
    if bytes.len() < LINE {
        return None;
    }
    let rest = behind_person(written, bytes)?;
    let (object, rest) = short_number(Separators::Usual, rest)?;
    let (cost, rest) = cost_at(rest)?;
    if object < 1 || object > objects {
        return None;
    }
    let arc = Arc {
        person: written.person,
        object: object - 1,
        cost,
    };
    Some((arc, rest))
}
