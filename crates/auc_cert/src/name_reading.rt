//! Persons and objects that are named, read line by line.

ghost use Rattle.std.specs.Prelude.{◌≡◌, ◌≤◌, ◌<◌, ◌+◌, ℕ, length, IfOk, IfErr};
ghost use Rattle.auc_graph.specs.Memory.{AnswersUnless};
ghost use Rattle.auc_cert.specs.Runs.{IsRisingRun, BreaksRising, NamesLine, From};
ghost use Rattle.auc_claim.specs.Spelled.{least_behind};
ghost use Rattle.auc_cert.specs.Form.{AreNamedIn};
ghost use Rattle.auc_cert.specs.SecondLine.{AreCounts};
ghost use Rattle.auc_cert.specs.Text.{joined, name_lines};
ghost use Rattle.auc_cert.specs.CertReading.{IsFirstBadOf, NameLines};

use crate::cert_lines::number_of;
use crate::form::Form;
use crate::text_error::CertTextError;
use auc_graph::{Indices, MOST_OBJECTS, MOST_PERSONS};
use std::alloc::Global;

/// The least number that may come after `done` of `count` numbers: `least`, and for the last one at least `last`.
fn least_here(least: u32, last: u32, done: u32, count: u32) -> u32
    requires { done < count }
    ensures least { least ≤ result }
    ensures last { done + 1 ≡ count → last ≤ result }
    ensures no_more { (k : ℕ) → least ≤ k → (done + 1 ≡ count → last ≤ k) → result ≤ k }
{
    if done + 1 == count {
        least.max(last)
    } else {
        least
    }
}

/// `count` rising numbers below `most`, the last one `last` or above, each on a line with this front, the first on line
/// `first`, and the text after them. A number has to leave room for those after it.
fn rising_of<'a>(
    alloc: Global,
    front: &[u8],
    most: u32,
    last: u32,
    count: u32,
    first: u64,
    bytes: &'a [u8],
) -> Result<(Vec<u32>, &'a [u8]), CertTextError>
    requires most { most ≤ MOST_OBJECTS }
    requires last { last ≤ most }
    requires count { count ≤ most }
    requires first { first ≤ 2 + MOST_PERSONS }
    ensures found { IfOk result (λ x. IsRisingRun front.now most count bytes.now x.0.items x.1.now) }
    ensures last { IfOk result (λ x. 0 < count → last < least_behind 0 x.0.items) }
    ensures line { AnswersUnless CertTextError.NoMemory (λ x. x) result
        (λ r. IfErr r (NamesLine (From first (BreaksRising front.now most last count bytes.now)))) }
{
    let mut numbers = Vec::new(alloc);
    let mut least = 0;
    let mut rest = bytes;
    for done in 0..count {
        let end = most - (count - (done + 1));
        let (number, after) = match number_of(
            rest,
            front,
            least_here(least, last, done, count),
            end,
        ) {
            Some(found) => found,
            None => {
                return Err(CertTextError::Line {
                    line: first + done as u64,
                });
            }
        };
        numbers.push(number)?;
        least = number + 1;
        rest = after;
    }
    Ok((numbers, rest))
}

/// The named persons and objects, after the first two lines of a certificate of this form that ends with them.
pub(crate) fn names_of(
    alloc: Global,
    form: Form,
    persons: u32,
    objects: u32,
    bytes: &[u8],
) -> Result<(Indices, Indices), CertTextError>
    requires { AreCounts form persons objects }
    ensures found { IfOk result
        (λ x. AreNamedIn form x.0 x.1 × (length x.0 ≡ persons) × (length x.1 ≡ objects) ×
        (bytes.now ≡ joined (name_lines x.0 x.1))) }
    ensures line { AnswersUnless CertTextError.NoMemory (λ x. x) result
        (λ r. IfErr r (NamesLine (From 2 (IsFirstBadOf (NameLines form persons objects) bytes.now)))) }
{
    let most = form.most_persons();
    let (named, rest) = rising_of(alloc, b"person ", most, 0, persons, 2, bytes)?;
    let (known, rest) = rising_of(
        alloc,
        b"object ",
        form.most_objects(),
        form.least_last(),
        objects,
        2 + persons as u64,
        rest,
    )?;
    if !rest.is_empty() {
        return Err(CertTextError::Line {
            line: 2 + persons as u64 + objects as u64,
        });
    }
    Ok((Indices::new(named), Indices::new(known)))
}
