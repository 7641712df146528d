//! The versions of a certificate's text.

ghost use Rattle.std.specs.Prelude.{◌≡◌, ◌≤◌};
ghost use Rattle.auc_claim.specs.Spelled.{most_in, version_of_sizes, names_version};

use crate::limits::{MOST_OBJECTS_IN_FIRST, TEXT_OBJECTS};

/// The version of a certificate's text, of a problem within the usual limits. A claim that version 1 can spell is in
/// version 1, any other in version 2.
#[derive(Clone, Copy, Debug, PartialEq, Eq)]
pub enum Version {
    /// As many prices as picks, and objects up to 10,000.
    First,
    /// More prices than picks, or an object above 10,000 that is named; objects up to 20,000.
    Second,
}

impl Version {
    /// The version of a claim with these numbers of picks and prices.
    pub fn of_sizes(picks: usize, prices: usize) -> Version
        ensures { result ≡ version_of_sizes picks prices }
    {
        if prices == picks {
            Version::First
        } else {
            Version::Second
        }
    }

    /// The greatest number of objects that a certificate numbers.
    pub fn most_objects(self) -> u32
        ensures most { result ≡ most_in self }
        ensures few { result ≤ TEXT_OBJECTS }
    {
        match self {
            Version::First => MOST_OBJECTS_IN_FIRST,
            Version::Second => TEXT_OBJECTS,
        }
    }
}

/// The version of a claim that names these objects, which rise.
pub fn names_version(objects: &[u32]) -> Version
    ensures { result ≡ names_version objects.now }
{
    let count = objects.len();
    if count > 0 && objects[count - 1] >= MOST_OBJECTS_IN_FIRST {
        Version::Second
    } else {
        Version::First
    }
}
