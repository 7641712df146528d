//! Certificates: claims whose numbers are in range.

ghost use Rattle.std.specs.Prelude.{◌≡◌, ◌≤◌, ◌<◌, ◌↔◌, IsOk, IsTrue, MatchResult, length, All};
ghost use Rattle.auc_graph.specs.Rising.{Rises};
ghost use Rattle.auc_graph.specs.Price.{IsPrice};
ghost use Rattle.auc_claim.specs.Spelled.{AreNamedWithin, IsChoiceWithin, IsPick};

use crate::limits::{
    MOST_COST, MOST_NAMED, MOST_OBJECTS, MOST_PERSONS, MOST_PRICE, TEXT_OBJECTS, TEXT_PERSONS,
};
use crate::lists::{Pick, Picks, Prices};
use crate::reason::Reason;
use crate::version::Version;
use auc_graph::Indices;
use std::marker::Model;

/// The claim of a certificate.
#[derive(Debug, Drop)]
pub enum CertParts {
    /// A least-cost assignment: its total cost, a pick for each person, and a price for each object, of which there may
    /// be more. The prices show that no assignment costs less.
    Optimal {
        cost: i64,
        choice: Picks,
        prices: Prices,
    },
    /// That there is no assignment: persons, and objects, fewer than they, to which all their arcs lead (a Hall
    /// violator). Both are in rising order, and numbered from 0.
    Infeasible {
        persons: Indices,
        objects: Indices,
    },
    /// An assignment of this cost, and that none costs less than the lower bound. It names the limit that ended the
    /// run, the bound, the total cost, a pick for each person, and a price for each object. The prices show the bound.
    Bracket {
        reason: Reason,
        lower: i64,
        cost: i64,
        choice: Picks,
        prices: Prices,
    },
}

/// A claim whose numbers are those of some problem. Whether it is true of a problem is for [`check`](crate::check).
#[derive(Debug, Drop)]
pub struct Cert {
    parts: CertParts,
}

impl Model for Cert {
    ghost use Rattle.auc_claim.specs.declared.cert.CertParts.{CertParts};

    ghost Value = { CertParts };

    ghost view = { λ a. a.parts };

    ghost use Rattle.auc_claim.specs.InRange.{IsInRange};

    ghost invariant = { λ a. IsInRange a.parts };
}

fn are_picks(picks: &[Pick], most: u32) -> bool
    ensures { IsTrue result ↔ All (IsPick most) picks.now }
{
    picks.iter().all(|p| p.object < most && -MOST_COST <= p.cost && p.cost <= MOST_COST)
}

fn are_prices(prices: &[i64]) -> bool
    ensures { IsTrue result ↔ All IsPrice prices.now }
{
    prices.iter().all(|p| 0 <= *p && *p <= MOST_PRICE)
}

/// Whether these are picks and prices, at most so many, with each pick's object below the last number.
fn is_choice(persons: u32, objects: u32, object: u32, choice: &[Pick], prices: &[i64]) -> bool
    ensures { IsTrue result ↔ IsChoiceWithin persons objects object choice.now prices.now }
{
    !choice.is_empty()
        && choice.len() <= persons as usize
        && choice.len() <= prices.len()
        && prices.len() <= objects as usize
        && are_picks(choice, object)
        && are_prices(prices)
}

/// Whether the numbers are in rising order, and below the end.
fn do_rise(numbers: &[u32], end: u32) -> bool
    ensures { IsTrue result ↔ Rises 0 end numbers.now }
{
    let mut least = 0;
    for number in numbers {
        if *number < least || end <= *number {
            return false;
        }
        least = *number + 1;
    }
    true
}

/// Whether persons are named and no more objects than `most`, in rising order below these ends.
fn are_named(most: u32, ends: (u32, u32), persons: &[u32], objects: &[u32]) -> bool
    ensures { IsTrue result ↔ AreNamedWithin most ends.0 ends.1 persons.now objects.now }
{
    !persons.is_empty()
        && objects.len() <= most as usize
        && do_rise(persons, ends.0)
        && do_rise(objects, ends.1)
}

impl Cert {
    ghost use Rattle.auc_claim.specs.InRange.{IsInRange};
    ghost use Rattle.auc_claim.specs.Spelled.{IsSpelled};

    /// The certificate of these parts. The parts are returned where no text of versions 1 and 2 spells them:
    ///
    /// - There are no picks or more than 10,000, fewer prices than picks or more than 20,000.
    /// - An object is 20,000 or more, or, with as many prices as picks, 10,000 or more.
    /// - The cost of a pick is beyond 10^9 in magnitude, or a price is not from 0 to 2^61.
    /// - No person is named, or more than 10,000 objects are.
    /// - The persons are not in rising order or not below 10,000, or the objects are not in rising order or not below
    ///   20,000.
    ///
    /// Takes O(persons + objects) time and no memory.
    pub fn make(parts: CertParts) -> Result<Cert, CertParts>
        ensures ok { IsOk result ↔ IsSpelled parts }
        ensures same { MatchResult result (λ c. c ≡ parts) (λ e. e ≡ parts) }
    {
        let is_spelled = match &parts {
            CertParts::Optimal { choice, prices, .. } | CertParts::Bracket { choice, prices, .. } =>
                {
                    let (choice, prices) = (choice.as_slice(), prices.as_slice());
                    let most = Version::of_sizes(choice.len(), prices.len()).most_objects();
                    is_choice(TEXT_PERSONS, TEXT_OBJECTS, most, choice, prices)
                }
            CertParts::Infeasible { persons, objects } => {
                let ends = (TEXT_PERSONS, TEXT_OBJECTS);
                are_named(MOST_NAMED, ends, persons.as_slice(), objects.as_slice())
            }
        };
        if is_spelled {
            Ok(Cert::of(parts))
        } else {
            Err(parts)
        }
    }

    /// The certificate of these parts, also of a problem that is too large for a text of versions 1 and 2. The parts
    /// are returned where [`Cert::make`] returns them, with 4,194,304 in place of 10,000 and of 20,000.
    ///
    /// Takes O(persons + objects) time and no memory.
    pub fn make_wide(parts: CertParts) -> Result<Cert, CertParts>
        ensures ok { IsOk result ↔ IsInRange parts }
        ensures same { MatchResult result (λ c. c ≡ parts) (λ e. e ≡ parts) }
    {
        let is_in_range = match &parts {
            CertParts::Optimal { choice, prices, .. } | CertParts::Bracket { choice, prices, .. } =>
                {
                    let (choice, prices) = (choice.as_slice(), prices.as_slice());
                    is_choice(MOST_PERSONS, MOST_OBJECTS, MOST_OBJECTS, choice, prices)
                }
            CertParts::Infeasible { persons, objects } => {
                let ends = (MOST_PERSONS, MOST_OBJECTS);
                are_named(MOST_PERSONS, ends, persons.as_slice(), objects.as_slice())
            }
        };
        if is_in_range {
            Ok(Cert { parts })
        } else {
            Err(parts)
        }
    }

    /// The certificate of parts that a text spells, such as those that were read from one. Takes no time.
    pub fn of(parts: CertParts) -> Cert
        requires { IsSpelled parts }
        ensures { result ≡ parts }
    {
        Cert { parts }
    }

    /// The claim of the certificate.
    pub fn parts(&self) -> &CertParts
        ensures is { result.now ≡ self.now }
        ensures in_range { IsInRange self.now }
    {
        &self.parts
    }
}
