//! A pick for each person and a price for each object, read line by line.

ghost use Rattle.std.specs.Prelude.{◌≡◌, ◌≤◌, ◌+◌, length, IfOk, IfErr};
ghost use Rattle.auc_graph.specs.Memory.{AnswersUnless};
ghost use Rattle.auc_cert.specs.Runs.{IsRun, BreaksOff, NamesLine, From};
ghost use Rattle.auc_graph.specs.Price.{IsPrice};
ghost use Rattle.auc_claim.specs.Spelled.{IsPick};
ghost use Rattle.auc_cert.specs.Form.{IsChoiceIn};
ghost use Rattle.auc_cert.specs.Text.{assign_line, price_line, joined, choice_lines};
ghost use Rattle.auc_cert.specs.CertReading.{IsFirstBadOf, ChoiceLines};
ghost use Rattle.auc_cert.specs.SecondLine.{AreSizes};

use crate::cert_lines::{pick_of, price_of};
use crate::form::Form;
use crate::text_error::CertTextError;
use auc_claim::{Pick, Picks, Prices};
use auc_graph::{MOST_OBJECTS, MOST_PERSONS};
use std::alloc::Global;

/// The picks of the persons, each on its own line and of one of `most` objects, and the text after them.
fn picks_of(
    alloc: Global,
    persons: u32,
    most: u32,
    bytes: &[u8],
) -> Result<(Vec<Pick>, &[u8]), CertTextError>
    requires persons { persons ≤ MOST_PERSONS }
    requires most { most ≤ MOST_OBJECTS }
    ensures found { IfOk result (λ x. IsRun assign_line (IsPick most) persons bytes.now x.0.items x.1.now) }
    ensures line { AnswersUnless CertTextError.NoMemory (λ x. x) result
        (λ r. IfErr r (NamesLine (From 2 (BreaksOff assign_line (IsPick most) persons bytes.now)))) }
{
    let mut picks = Vec::new(alloc);
    let mut rest = bytes;
    for person in 0..persons {
        let (pick, after) = match pick_of(rest, most, person) {
            Some(found) => found,
            None => {
                return Err(CertTextError::Line {
                    line: 2 + person as u64,
                });
            }
        };
        picks.push(pick)?;
        rest = after;
    }
    Ok((picks, rest))
}

/// The prices of the objects, each on its own line, the first on line `first`, and the text after them.
fn prices_of(
    alloc: Global,
    objects: u32,
    first: u64,
    bytes: &[u8],
) -> Result<(Vec<i64>, &[u8]), CertTextError>
    requires objects { objects ≤ MOST_OBJECTS }
    requires first { first ≤ 2 + MOST_PERSONS }
    ensures found { IfOk result (λ x. IsRun price_line IsPrice objects bytes.now x.0.items x.1.now) }
    ensures line { AnswersUnless CertTextError.NoMemory (λ x. x) result
        (λ r. IfErr r (NamesLine (From first (BreaksOff price_line IsPrice objects bytes.now)))) }
{
    let mut prices = Vec::new(alloc);
    let mut rest = bytes;
    for object in 0..objects {
        let (price, after) = match price_of(rest, object) {
            Some(found) => found,
            None => {
                return Err(CertTextError::Line {
                    line: first + object as u64,
                });
            }
        };
        prices.push(price)?;
        rest = after;
    }
    Ok((prices, rest))
}

/// The picks of the persons and the prices of the objects, after the first two lines of a certificate of this form that
/// ends with them.
pub(crate) fn choice_of(
    alloc: Global,
    form: Form,
    persons: u32,
    objects: u32,
    bytes: &[u8],
) -> Result<(Picks, Prices), CertTextError>
    requires { AreSizes form persons objects }
    ensures found { IfOk result
        (λ x. IsChoiceIn form x.0 x.1 × (length x.0 ≡ persons) × (length x.1 ≡ objects)
        × (bytes.now ≡ joined (choice_lines x.0 x.1))) }
    ensures line { AnswersUnless CertTextError.NoMemory (λ x. x) result
        (λ r. IfErr r (NamesLine (From 2 (IsFirstBadOf (ChoiceLines form persons objects) bytes.now)))) }
{
    let (choice, rest) = picks_of(alloc, persons, form.most_objects(), bytes)?;
    let (prices, rest) = prices_of(alloc, objects, 2 + persons as u64, rest)?;
    if !rest.is_empty() {
        return Err(CertTextError::Line {
            line: 2 + persons as u64 + objects as u64,
        });
    }
    Ok((Picks::new(choice), Prices::new(prices)))
}
