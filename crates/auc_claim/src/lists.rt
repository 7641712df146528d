//! The lists in certificates, each a type of its own over a `Vec`.

ghost use Rattle.std.specs.Prelude.{◌≡◌};

use auc_graph::Indices;
use std::marker::Model;

/// The pick of a person: this object, by an arc of this cost of the file.
#[derive(Clone, Copy, Debug, PartialEq, Eq)]
pub struct Pick {
    pub cost: i64,
    pub object: u32,
}

/// A pick for each person, in the order of the persons. Contracts see it as a list.
///
/// A caller that has chosen them from a list of arcs may pass their places in it. No contract says that the places are
/// right, so each reader checks them.
#[derive(Debug, Drop)]
pub struct Picks {
    picks: Vec<Pick>,
    places: Option<Indices>,
}

impl Model for Picks {
    ghost use Rattle.std.specs.Prelude.{List};
    ghost use Rattle.auc_claim.specs.declared.lists.Pick.{Pick};

    ghost Value = { List Pick };

    ghost view = { λ a. a.picks.items };
}

impl Picks {
    /// These picks. Takes no memory.
    pub fn new(picks: Vec<Pick>) -> Self
        ensures { result ≡ picks.items }
    {
        Picks {
            picks,
            places: None,
        }
    }

    /// The same, with the place of each pick's arc in the list that they were chosen from. Takes no memory.
    pub fn with_places(picks: Vec<Pick>, places: Indices) -> Self
        ensures { result ≡ picks.items }
    {
        Picks {
            picks,
            places: Some(places),
        }
    }

    /// Returns the picks.
    pub fn into_vec(self) -> Vec<Pick>
        ensures { result.items ≡ self }
    {
        let Picks { picks, .. } = self;
        picks
    }

    /// The picks, indexed by person.
    pub fn as_slice(&self) -> &[Pick]
        ensures { result.now ≡ self.now }
    {
        self.picks.as_slice()
    }

    /// The places that were passed with them, indexed by person, if any were.
    pub fn places(&self) -> Option<&[u32]> {
        match &self.places {
            Some(places) => Some(places.as_slice()),
            None => None,
        }
    }
}

/// A price for each object, in the order of the objects, on the scale of costs times persons + 1. Contracts see it as a
/// list.
#[derive(Debug, Drop)]
pub struct Prices {
    prices: Vec<i64>,
}

impl Model for Prices {
    ghost use Rattle.std.specs.Prelude.{List, ℤ};

    ghost Value = { List ℤ };

    ghost view = { λ a. a.prices.items };
}

impl Prices {
    /// These prices. Takes no memory.
    pub fn new(prices: Vec<i64>) -> Self
        ensures { result ≡ prices.items }
    {
        Prices { prices }
    }

    /// Returns the prices.
    pub fn into_vec(self) -> Vec<i64>
        ensures { result.items ≡ self }
    {
        let Prices { prices } = self;
        prices
    }

    /// The prices, indexed by object.
    pub fn as_slice(&self) -> &[i64]
        ensures { result.now ≡ self.now }
    {
        self.prices.as_slice()
    }
}
