//! Two shards of the same persons, one of which bids by a `Bidder`.

ghost use Rattle.std.specs.Prelude.{IfSome};
ghost use Rattle.auc_letters.specs.Price.{IsEps};
ghost use Rattle.auc_persons.specs.Persons.{IsMadeFor};
ghost use Rattle.shard_tests.specs.Twins.{AreTwins};

use auc_graph::Rows;
use auc_letters::Letter;
use auc_persons::{Bidder, Bidding, PersonShard};
use std::test::*;

/// The number of shards, of which these are the first.
const SHARDS: u32 = 75;

/// Two shards that get the same questions and letters.
#[derive(Drop)]
pub struct Twins {
    pub whole: PersonShard,
    pub listed: PersonShard,
    pub bidder: Bidder,
}

/// The first of the shards, at prices of 0.
fn first_shard(rt: &HostRuntime, rows: &Rows) -> Option<PersonShard>
    ensures { IfSome result (IsMadeFor rows.now) }
{
    let prices = vec![in rt.alloc(); 0; rows.objects() as usize].ok()?;
    PersonShard::make(
        rt.alloc(),
        0,
        SHARDS,
        1,
        rows.persons(),
        prices.as_slice(),
        1_000,
    )
    .ok()
}

impl Twins {
    /// Two shards for these rows, and a bidder for one of them.
    pub fn new(rt: &HostRuntime, rows: &Rows) -> Option<Twins>
        ensures { IfSome result (λ t. AreTwins rows.now t.whole t.listed t.bidder) }
    {
        let whole = first_shard(rt, rows)?;
        let listed = first_shard(rt, rows)?;
        let Ok(bidder) = Bidder::make(rt.alloc(), rows, 0, SHARDS) else {
            return None;
        };
        Some(Twins {
            whole,
            listed,
            bidder,
        })
    }

    /// The next bid by a whole pass, where it is the same by the bidder.
    pub fn asks(&mut self, rows: &Rows, eps: i64) -> Option<Bidding>
        requires twins { AreTwins rows.now self.old.whole self.old.listed self.old.bidder }
        requires eps { IsEps eps }
        ensures { AreTwins rows.now self.new.whole self.new.listed self.new.bidder }
    {
        let whole = self.whole.next_bid(rows, eps);
        let listed = self.listed.next_bid_by(rows, eps, &mut self.bidder);
        if whole == listed { Some(whole) } else { None }
    }

    /// Gives both a letter; returns whether they answer the same.
    pub fn hears(&mut self, _rows: &Rows, letter: Letter) -> bool
        requires { AreTwins _rows.now self.old.whole self.old.listed self.old.bidder }
        ensures { AreTwins _rows.now self.new.whole self.new.listed self.new.bidder }
    {
        let whole = self.whole.on_letter(letter);
        let listed = self.listed.on_letter(letter);
        whole == listed
    }
}
