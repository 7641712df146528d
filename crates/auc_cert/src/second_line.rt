//! The second line of a certificate, read: the kind of the claim, and how many lines of which shape follow.

ghost use Rattle.std.specs.Prelude.{◌≡◌};
ghost use Rattle.auc_cert.specs.Fields.{viewed, after, objects_at, optimal_at, infeasible_at, bracket_at};
ghost use Rattle.auc_cert.specs.Fields.{second_line_at};

use crate::fields::{field_of, word_before};
use crate::form::Form;
use crate::words::reason_of_word;
use auc_claim::{Reason, Version};

/// The content of a second line.
pub(crate) enum SecondLine {
    Optimal {
        persons: u32,
        objects: u32,
        cost: i64,
    },
    Infeasible {
        persons: u32,
        objects: u32,
    },
    Bracket {
        reason: Reason,
        persons: u32,
        objects: u32,
        lower: i64,
        cost: i64,
    },
}

/// The number of objects, which comes after the number of persons, and the text after it: version 1 has as many as
/// persons, and doesn't write it.
#[tactic(auto, unfolding(crate::specs::Fields::objects_at))]
fn objects_of(bytes: &[u8], form: Form, persons: u32) -> Option<(u32, &[u8])>
    ensures { viewed (λ x. (x.0, x.1.now)) result ≡ objects_at form persons bytes.now }
{
    let least = match form {
        Form::Usual(Version::First) => return Some((persons, bytes)),
        Form::Usual(Version::Second) => persons as i64 + 1,
        Form::Large => persons as i64,
    };
    let (objects, rest) = field_of(bytes, b"", least, form.most_objects() as i64, b' ')?;
    Some((objects as u32, rest))
}

/// The second line of an optimal certificate at the front, and the text after it.
#[tactic(auto, unfolding(crate::specs::Fields::optimal_at))]
fn optimal_of(bytes: &[u8], form: Form) -> Option<(SecondLine, &[u8])>
    ensures { viewed (λ x. (x.0, x.1.now)) result ≡ optimal_at form bytes.now }
{
    let (persons, rest) = field_of(bytes, b"optimal ", 1, form.most_persons() as i64, b' ')?;
    let persons = persons as u32;
    let (objects, rest) = objects_of(rest, form, persons)?;
    let (cost, rest) = field_of(rest, b"", i64::MIN, i64::MAX, b'\n')?;
    let line = SecondLine::Optimal {
        persons,
        objects,
        cost,
    };
    Some((line, rest))
}

/// The second line of an infeasible certificate at the front, and the text after it.
#[tactic(auto, unfolding(crate::specs::Fields::infeasible_at))]
fn infeasible_of(bytes: &[u8], form: Form) -> Option<(SecondLine, &[u8])>
    ensures { viewed (λ x. (x.0, x.1.now)) result ≡ infeasible_at form bytes.now }
{
    let (persons, rest) = field_of(bytes, b"infeasible ", 1, form.most_persons() as i64, b' ')?;
    let least = form.least_named();
    let (objects, rest) = field_of(rest, b"", least, form.most_persons() as i64, b'\n')?;
    let line = SecondLine::Infeasible {
        persons: persons as u32,
        objects: objects as u32,
    };
    Some((line, rest))
}

/// The second line of a bracket at the front, and the text after it.
#[tactic(auto, unfolding(crate::specs::Fields::bracket_at, crate::specs::Fields::after))]
fn bracket_of(bytes: &[u8], form: Form) -> Option<(SecondLine, &[u8])>
    ensures { viewed (λ x. (x.0, x.1.now)) result ≡ bracket_at form bytes.now }
{
    let rest = bytes.strip_prefix(b"bracket ")?;
    let (word, rest) = word_before(rest, b' ')?;
    let reason = reason_of_word(word)?;
    let (persons, rest) = field_of(rest, b"", 1, form.most_persons() as i64, b' ')?;
    let persons = persons as u32;
    let (objects, rest) = objects_of(rest, form, persons)?;
    let (lower, rest) = field_of(rest, b"", i64::MIN, i64::MAX, b' ')?;
    let (cost, rest) = field_of(rest, b"", i64::MIN, i64::MAX, b'\n')?;
    let line = SecondLine::Bracket {
        reason,
        persons,
        objects,
        lower,
        cost,
    };
    Some((line, rest))
}

/// The second line of a text of this form at the front, of whichever kind, and the text after it.
#[tactic(auto, unfolding(crate::specs::Fields::second_line_at))]
pub(crate) fn second_line_of(bytes: &[u8], form: Form) -> Option<(SecondLine, &[u8])>
    ensures { viewed (λ x. (x.0, x.1.now)) result ≡ second_line_at form bytes.now }
{
    optimal_of(bytes, form)
        .or_else(|| infeasible_of(bytes, form))
        .or_else(|| bracket_of(bytes, form))
}
