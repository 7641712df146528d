//! The next bid of a shard of the persons.

ghost use Rattle.std.specs.Prelude.{◌≡◌, ◌≢◌, ◌<◌, [], length, IfSome, IfNone};
ghost use Rattle.auc_graph.specs.Table.{row_of};
ghost use Rattle.auc_letters.specs.Price.{IsEps};
ghost use Rattle.auc_persons.specs.Bid.{IsBidOf};
ghost use Rattle.auc_persons.specs.Candidates.{Kept};
ghost use Rattle.auc_persons.specs.Persons.{IsMadeFor, NextBid, NeverFall, SameShape, first_idle};

use crate::bidder::Bidder;
use crate::bidder::bid::plain_bid;
use crate::bidder::person_row::PersonRow;
use crate::bidding::Bidding;
use crate::shard::PersonShard;
use auc_graph::{MOST_PRICE, Rows};
use auc_letters::{Bid, Why};

impl PersonShard {
    /// The result of the bid of the person who has been free longest, where there is a bid.
    #[tactic(auto, using(crate::proofs::Rise::shape_bid, crate::proofs::Rise::shape_same))]
    #[inline(always)]
    fn bid_with(&mut self, rows: &Rows, eps: i64, found: Option<Bid>) -> Bidding
        requires rows { IsMadeFor rows.now self.old }
        requires eps { IsEps eps }
        requires some { self.old.idle ≢ [] }
        requires known { first_idle self.old < length self.old.states }
        requires left { self.old.bids ≢ 0 }
        requires found { IfSome found (IsBidOf rows.now eps self.old.copies (first_idle self.old)) }
        requires stuck { IfNone found (row_of rows.now (first_idle self.old) ≡ []) }
        ensures exact { NextBid rows.now eps self.old result self.new }
        ensures copies { self.new.copies ≡ self.old.copies }
        ensures rise { NeverFall self.old.copies self.new.copies }
        ensures shape { SameShape self.old self.new }
    {
        let Some(bid) = found else {
            return Bidding::Stop { why: Why::Stuck };
        };
        if bid.amount > MOST_PRICE {
            return Bidding::Stop { why: Why::Ceiling };
        }
        let out = bid.into_out(self.object_shards);
        self.wait_for(bid.object);
        Bidding::Out { out }
    }

    /// The bid of the person who has been free longest, who waits afterwards. Idle where nobody is free.
    ///
    /// Stop says why the person can't bid, and nothing is changed then. The first of these causes decides:
    ///
    /// - Bids: the shard has used up its bids.
    /// - Stuck: the person has no arc.
    /// - Ceiling: the bid would be above the greatest price.
    ///
    /// `rows` are the rows of the problem that the shard was made for; `eps` is in scaled costs.
    ///
    /// Takes one pass over the person's row, O(arcs of the person) time and no memory.
    #[tactic(auto, using(crate::proofs::Rise::shape_bid, crate::proofs::Rise::shape_same))]
    pub fn next_bid(&mut self, rows: &Rows, eps: i64) -> Bidding
        requires rows { IsMadeFor rows.now self.old }
        requires eps { IsEps eps }
        ensures exact { NextBid rows.now eps self.old result self.new }
        ensures rise { NeverFall self.old.copies self.new.copies }
        ensures shape { SameShape self.old self.new }
    {
        let Some(person) = self.first() else {
            return Bidding::Idle;
        };
        if self.bids == 0 {
            return Bidding::Stop { why: Why::Bids };
        }
        let own = PersonRow {
            rows,
            person,
            copies: self.copies.as_slice(),
        };
        let found = plain_bid(own, eps);
        self.bid_with(rows, eps, found)
    }

    /// The same bid as [`Self::next_bid`] makes, found sooner by a `Bidder` beside the shard.
    ///
    /// `bidder` is of these rows, and no copy has fallen since it was made. It stays right in each call of the shard,
    /// since copies never fall, and where a world of later prices begins.
    ///
    /// Takes a pass over a short row. For a longer row most bids take a pass over a short list, and the others as long
    /// as [`Self::next_bid`]. Of a row of more than 256 arcs these scan a part. No memory.
    #[inline(always)]
    pub fn next_bid_by(&mut self, rows: &Rows, eps: i64, bidder: &mut Bidder) -> Bidding
        requires rows { IsMadeFor rows.now self.old }
        requires eps { IsEps eps }
        requires kept { Kept rows.now self.old.copies bidder.old }
        ensures exact { NextBid rows.now eps self.old result self.new }
        ensures rise { NeverFall self.old.copies self.new.copies }
        ensures shape { SameShape self.old self.new }
        ensures kept { Kept rows.now self.new.copies bidder.new }
    {
        let Some(person) = self.first() else {
            return Bidding::Idle;
        };
        if self.bids == 0 {
            return Bidding::Stop { why: Why::Bids };
        }
        let own = PersonRow {
            rows,
            person,
            copies: self.copies.as_slice(),
        };
        let found = bidder.bid_by(own, eps);
        self.bid_with(rows, eps, found)
    }

    /// The person who has been free longest.
    #[inline]
    fn first(&self) -> Option<u32>
        ensures some { IfSome result (λ i. (self.now.idle ≢ []) × (i ≡ first_idle self.now)
            × (i < length self.now.states)) }
        ensures none { IfNone result (self.now.idle ≡ []) }
    {
        let person = self.idle.front()?;
        Some(*person)
    }
}
