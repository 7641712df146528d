//! Finds the bids of a shard's persons: a method for each row, candidate lists and blocks.

ghost use Rattle.std.specs.Prelude.{◌≡◌, ◌<◌, List, ℤ, [], length, All, IfOk, IfSome, IfNone};
ghost use Rattle.auc_graph.specs.Price.{IsPrice};
ghost use Rattle.auc_graph.specs.Table.{Table, row_of};
ghost use Rattle.auc_letters.specs.Price.{IsEps};
ghost use Rattle.auc_persons.specs.Bid.{IsBidAt, IsBidOf};
ghost use Rattle.auc_persons.specs.Candidates.{Kept, Listed};
ghost use Rattle.auc_persons.specs.Persons.{NeverFall};
ghost use Rattle.auc_persons.specs.Priced.{KeptAt, IsScanOf, arcs_of};

mod amount;
pub(crate) mod bid;
mod blocks;
mod bound;
mod bounded;
mod least;
mod lists;
mod lists_by_blocks;
mod method;
mod methods;
pub(crate) mod person_row;
mod priced_row;
mod rising;
mod scan;
mod search;
mod shortlist;
mod sorted_row;
mod sorting;

use crate::bidder::bid::bid_on;
use crate::bidder::blocks::Blocks;
use crate::bidder::lists::{lists_of, scan_list};
use crate::bidder::methods::Methods;
use crate::bidder::person_row::PersonRow;
use crate::bidder::priced_row::PricedRow;
use crate::bidder::scan::Scan;
use crate::bidder::search::scan_from;
use crate::bidder::shortlist::Shortlist;
use auc_graph::Rows;
use auc_letters::Bid;
use std::alloc::{AllocError, Global};
use std::marker::Model;

/// Finds the bids of a shard's persons ([`Bidder::bid`], [`crate::PersonShard::next_bid_by`]). The method for a row
/// depends on that row alone.
///
/// - Rows of more than 64 arcs have candidate lists, by which most bids scan a few arcs only.
/// - Rows of more than 256 arcs also have bounds of blocks.
/// - Shorter rows that aren't in rising order of objects have copies that are.
///
/// All are of the rows that they were made for, and stay right as long as no copy of a price falls.
#[derive(Drop)]
pub struct Bidder {
    methods: Methods,
    lists: Vec<Shortlist>,
    blocks: Blocks,
}

impl Model for Bidder {
    ghost use Rattle.std.specs.Prelude.{List, ◌++◌};
    ghost use Rattle.auc_persons.specs.Candidates.{Listed};

    ghost Value = { List Listed };

    ghost view = { λ c. c.lists.items ++ (c.blocks ++ c.methods) };
}

impl Bidder {
    /// The methods for the persons of shard number `shard` of `of`, and empty lists for those with more than 64 arcs.
    ///
    /// Takes O(persons + arcs) time, and 8 bytes of memory for each person of all. For each of the shard's with more
    /// than 64 arcs it takes 328 bytes, and with more than 256 arcs 8 to 16 more for each 16 arcs. For each of the
    /// shard's with at most 64 arcs that aren't in rising order it takes 12 to 24 bytes for each arc. To sort them
    /// takes time too, O(arcs^2) where some lead to one object.
    ///
    /// # Errors
    ///
    /// Only where memory was refused.
    pub fn make(alloc: Global, rows: &Rows, shard: u32, of: u32) -> Result<Bidder, AllocError>
        requires { shard < of }
        ensures kept { IfOk result (λ c. (copies : List ℤ) → Kept rows.now copies c) }
    {
        let lists = lists_of(alloc, rows, shard, of)?;
        let blocks = Blocks::make(alloc, rows, shard, of)?;
        let methods = Methods::make(alloc, rows, shard, of)?;
        Ok(Bidder {
            methods,
            lists,
            blocks,
        })
    }

    /// The best arc of a person with a long row, where the list at this place or the blocks decide it.
    #[inline]
    fn best_long(&mut self, own: PersonRow, place: u32) -> Option<Scan>
        requires kept { KeptAt own self.old }
        ensures some { IfSome result (IsScanOf own.entry) }
        ensures kept { KeptAt own.entry self.new }
    {
        let lists = self.lists.as_mut_slice();
        let found = scan_list(lists, own, place);
        if found.is_some() {
            return found;
        }
        self.blocks.scan(own, place, lists)
    }

    /// The best arc of a person: by the list or the blocks where these decide it, and else by a pass over the row. None
    /// where the person has no arc.
    // Not inlined: so the scan of a sorted short row, which is in line where a bid is asked for, keeps the best arc,
    // the second and the place in registers.
    #[inline(never)]
    fn best_apart(&mut self, own: PersonRow) -> Option<Scan>
        requires kept { KeptAt own self.old }
        ensures some { IfSome result (IsScanOf own.entry) }
        ensures none { IfNone result (arcs_of own.entry ≡ []) }
        ensures kept { KeptAt own.entry self.new }
    {
        if let Some(place) = self.methods.place(own.person) {
            let found = self.best_long(own, place);
            if found.is_some() {
                return found;
            }
        }
        scan_from(PricedRow::of(own))
    }

    /// The same, for an inlined search.
    // A function by itself, since few bids make this call: LLVM sets the memory of its answer to zero where the calling
    // function begins.
    #[inline(always)]
    fn best_seldom(&mut self, own: PersonRow) -> Option<Scan>
        requires kept { KeptAt own self.old }
        ensures some { IfSome result (IsScanOf own.entry) }
        ensures none { IfNone result (arcs_of own.entry ≡ []) }
        ensures kept { KeptAt own.entry self.new }
    {
        self.best_apart(own)
    }

    /// The best arc of a person, by the method for the row; none where the person has no arc.
    #[inline(always)]
    fn best(&mut self, own: PersonRow) -> Option<Scan>
        requires kept { KeptAt own self.old }
        ensures some { IfSome result (IsScanOf own.entry) }
        ensures none { IfNone result (arcs_of own.entry ≡ []) }
        ensures kept { KeptAt own.entry self.new }
    {
        let found = self.methods.best(own);
        if found.is_some() {
            return found;
        }
        self.best_seldom(own)
    }

    /// The bid of a person at these copies of the prices; None where the person has no arc.
    #[inline(always)]
    pub(crate) fn bid_by(&mut self, own: PersonRow, eps: i64) -> Option<Bid>
        requires eps { IsEps eps }
        requires kept { KeptAt own self.old }
        ensures some { IfSome result (IsBidAt own.entry eps) }
        ensures none { IfNone result (arcs_of own.entry ≡ []) }
        ensures kept { KeptAt own.entry self.new }
    {
        let found = self.best(own)?;
        Some(bid_on(own, eps, found))
    }

    /// The bid of a person at these copies of the prices; None where the person has no arc. The amount may be above the
    /// greatest price.
    ///
    /// `copies` are indexed by object, and no copy has fallen since this was made; `eps` is in scaled costs, as the
    /// copies are. For a person of another shard than this was made for the bid is the same, but found more slowly.
    ///
    /// Takes a pass over a short row. For a longer row most bids take a pass over a short list, and the others a pass
    /// over the row. Of a row of more than 256 arcs that pass scans a part. No memory.
    // Inlined, so that the result stays in registers.
    #[inline(always)]
    pub fn bid(&mut self, rows: &Rows, eps: i64, person: u32, copies: &[i64]) -> Option<Bid>
        requires person { person < length rows.now.rows }
        requires objects { rows.now.objects ≡ length copies.now }
        requires copies { All IsPrice copies.now }
        requires eps { IsEps eps }
        requires kept { Kept rows.now copies.now self.old }
        ensures some { IfSome result (IsBidOf rows.now eps copies.now person) }
        ensures none { IfNone result (row_of rows.now person ≡ []) }
        ensures kept { Kept rows.now copies.now self.new }
    {
        let own = PersonRow {
            rows,
            person,
            copies,
        };
        self.bid_by(own, eps)
    }
}

/// Candidate lists stay right while no copy falls. So those of a shard do through each of its calls, and those of one
/// phase do for the next one, which begins with the prices that the phase leaves. Does nothing: its contract is the
/// law.
pub fn lists_stay_right()
    ensures { (t : Table) (copies later : List ℤ) (lists : List Listed) → NeverFall copies later → Kept t copies lists
        → Kept t later lists }
{}
