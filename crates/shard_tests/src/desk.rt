//! A person shard beside the rows that it was made for.

ghost use Rattle.std.specs.Prelude.{◌≡◌, ◌<◌, All};
ghost use Rattle.auc_graph.specs.Price.{IsPrice};
ghost use Rattle.auc_letters.specs.Price.{IsEps};
ghost use Rattle.auc_persons.specs.Persons.{IsMadeFor};

use auc_graph::{ReadLimits, Rows, read_arcs};
use auc_letters::{Letter, PersonState};
use auc_persons::{Bidding, PersonFault, PersonShard};
use std::test::*;

/// The rows of the problem that a text reads as.
pub fn rows_of(rt: &HostRuntime, text: &str) -> Option<Rows> {
    let problem = read_arcs(rt.alloc(), text.as_bytes(), ReadLimits::usual()).ok()?;
    Rows::build(rt.alloc(), &problem).ok()
}

/// The first shard of `of`, and the rows of its problem.
#[derive(Drop)]
pub struct Desk {
    rows: Rows,
    of: u32,
    shard: PersonShard,
    ghost fits: { IsMadeFor rows shard },
    ghost known: { shard.of ≡ of },
    ghost first: { shard.shard ≡ 0 },
    ghost some: { 0 < of },
}

impl Desk {
    /// The first shard of `of`, for the problem that the text reads as.
    pub fn new(rt: &HostRuntime, text: &str, of: u32, prices: &[i64], bids: u64) -> Option<Desk>
        requires prices { All IsPrice prices.now }
        requires of { 0 < of }
    {
        let rows = rows_of(rt, text)?;
        if prices.len() != rows.objects() as usize {
            return None;
        }
        let persons = rows.persons();
        let Ok(shard) = PersonShard::make(rt.alloc(), 0, of, 1, persons, prices, bids) else {
            return None;
        };
        Some(Desk { rows, of, shard })
    }

    /// The next bid.
    pub fn asks(&mut self, eps: i64) -> Bidding
        requires { IsEps eps }
    {
        self.shard.next_bid(&self.rows, eps)
    }

    /// The answer to a letter.
    pub fn hears(&mut self, letter: Letter) -> Result<(), PersonFault> {
        self.shard.on_letter(letter)
    }

    /// The state of a person of the shard.
    pub fn state(&self, person: u32) -> Option<PersonState> {
        if person < self.rows.persons() && person % self.of == 0 {
            Some(self.shard.state(person))
        } else {
            None
        }
    }

    /// The copy of an object's price.
    pub fn copy(&self, object: u32) -> Option<i64> {
        if object < self.rows.objects() {
            Some(self.shard.copy(object))
        } else {
            None
        }
    }
}
