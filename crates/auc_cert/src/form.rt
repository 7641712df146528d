//! The forms of a certificate's text: its versions, with their limits.

ghost use Rattle.std.specs.Prelude.{◌≡◌, ◌≤◌, pos};
ghost use Rattle.auc_claim.specs.Spelled.{least_behind};
ghost use Rattle.auc_cert.specs.Form.{form_of_names, form_of_sizes, least_last, least_named, objects_in};
ghost use Rattle.auc_cert.specs.Form.{persons_in, has_objects};

use auc_claim::{MOST_OBJECTS_IN_FIRST, Version, names_version};
use auc_graph::{MOST_OBJECTS, MOST_PERSONS, TEXT_OBJECTS, TEXT_PERSONS};

/// The form of a certificate's text.
#[derive(Clone, Copy, Debug, PartialEq, Eq)]
pub enum Form {
    /// Version 1 or 2: up to 10,000 persons and 20,000 objects.
    Usual(Version),
    /// Version 3: any claim about a problem, with up to 4,194,304 persons and objects.
    Large,
}

/// One more than the last number, 0 where there is none.
fn end_of(numbers: &[u32]) -> u64
    ensures { result ≡ least_behind 0 numbers.now }
{
    let count = numbers.len();
    if count == 0 {
        return 0;
    }
    u64::from(numbers[count - 1]) + 1
}

impl Form {
    /// The form in which a claim with these numbers of picks and prices is written.
    pub(crate) fn of_sizes(picks: usize, prices: usize) -> Form
        ensures { result ≡ form_of_sizes picks prices }
    {
        if picks > TEXT_PERSONS as usize || prices > TEXT_OBJECTS as usize {
            Form::Large
        } else {
            Form::Usual(Version::of_sizes(picks, prices))
        }
    }

    /// The form in which a claim that names these persons and objects is written.
    pub(crate) fn of_names(persons: &[u32], objects: &[u32]) -> Form
        ensures { result ≡ form_of_names persons.now objects.now }
    {
        if end_of(persons) > u64::from(TEXT_PERSONS) || end_of(objects) > u64::from(TEXT_OBJECTS) {
            Form::Large
        } else {
            Form::Usual(names_version(objects))
        }
    }

    /// Whether a text has the number of objects, beside that of persons.
    pub(crate) fn has_objects(self) -> bool
        ensures { result ≡ has_objects self }
    {
        match self {
            Form::Usual(Version::First) => false,
            Form::Usual(Version::Second) | Form::Large => true,
        }
    }

    /// The most persons of a claim, and the most objects that it names as a Hall set does.
    pub(crate) fn most_persons(self) -> u32
        ensures most { result ≡ persons_in self }
        ensures few { result ≤ MOST_PERSONS }
    {
        match self {
            Form::Usual(_) => TEXT_PERSONS,
            Form::Large => MOST_PERSONS,
        }
    }

    /// The most objects that a claim numbers.
    pub(crate) fn most_objects(self) -> u32
        ensures most { result ≡ objects_in self }
        ensures few { result ≤ MOST_OBJECTS }
    {
        match self {
            Form::Usual(version) => version.most_objects(),
            Form::Large => MOST_OBJECTS,
        }
    }

    /// The least number of objects that it names.
    pub(crate) fn least_named(self) -> i64
        ensures { result ≡ pos (least_named self) }
    {
        match self {
            Form::Usual(Version::Second) => 1,
            Form::Usual(Version::First) | Form::Large => 0,
        }
    }

    /// The least object, numbered from 0, that may be the last one named.
    pub(crate) fn least_last(self) -> u32
        ensures { result ≡ least_last self }
    {
        match self {
            Form::Usual(Version::Second) => MOST_OBJECTS_IN_FIRST,
            Form::Usual(Version::First) | Form::Large => 0,
        }
    }
}
