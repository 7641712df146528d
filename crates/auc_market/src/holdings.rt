//! The state of a phase: the prices, the holder of each object, and the arc by which each person holds an object.

ghost use Rattle.std.specs.Prelude.{◌≡◌, ◌≢◌, ◌<◌, ◌≤◌, ℕ, pos, true, false, length, replicate, set, IfOk};
ghost use Rattle.auc_market.specs.Market.{HaveObjects, holder_at, no_own, own_at};

use crate::bid::Bid;
use crate::scan::wrapping_value;
use auc_letters::NOBODY;
use auc_rows::ShortArc;
use std::alloc::{AllocError, Global};

/// Marks a person who holds no object, in place of the arc.
pub(crate) const NO_OWN: ShortArc = ShortArc {
    object: NOBODY,
    cost: 0,
};

/// In place of the own value of a person who holds nothing: no arc has a lower value.
const NO_OWN_VALUE: i64 = -17_592_186_044_416;

/// Prices in scaled costs and holders, both indexed by object, and own arcs, indexed by person.
#[derive(Drop)]
pub struct Holdings {
    pub prices: Vec<i64>,
    pub holders: Vec<u32>,
    pub owns: Vec<ShortArc>,
}

impl Holdings {
    /// Starts at these prices, with no holder.
    pub(crate) fn new(alloc: Global, persons: u32, prices: Vec<i64>) -> Result<Holdings, AllocError>
        ensures prices { IfOk result (λ m. m.prices.items ≡ prices.items) }
        ensures holders { IfOk result (λ m. m.holders.items ≡ replicate (length prices.items) NOBODY) }
        ensures owns { IfOk result (λ m. m.owns.items ≡ replicate persons no_own) }
    {
        let holders = vec![in alloc; NOBODY; prices.len()]?;
        let owns = vec![in alloc; NO_OWN; persons as usize]?;
        Ok(Holdings {
            prices,
            holders,
            owns,
        })
    }

    /// Removes all holders; prices stay.
    pub(crate) fn open(&mut self)
        ensures prices { self.new.prices.items ≡ self.old.prices.items }
        ensures holders { self.new.holders.items ≡ replicate (length self.old.holders.items) NOBODY }
        ensures owns { self.new.owns.items ≡ replicate (length self.old.owns.items) no_own }
    {
        for object in 0..self.holders.len() {
            self.holders[object] = NOBODY;
        }
        for person in 0..self.owns.len() {
            self.owns[person] = NO_OWN;
        }
    }

    /// Removes all holders, and sets all prices to 0.
    pub(crate) fn empty(&mut self)
        ensures prices { self.new.prices.items ≡ replicate (length self.old.prices.items) (pos 0) }
        ensures holders { self.new.holders.items ≡ replicate (length self.old.holders.items) NOBODY }
        ensures owns { self.new.owns.items ≡ replicate (length self.old.owns.items) no_own }
    {
        for object in 0..self.prices.len() {
            self.prices[object] = 0;
        }
        self.open();
    }

    /// A person leaves the object held, whose price is then 0.
    pub(crate) fn leave(&mut self, person: u32)
        requires person { person < length self.old.owns.items }
        requires price { (own_at self.old.owns.items person).object < length self.old.prices.items }
        requires holder { (own_at self.old.owns.items person).object < length self.old.holders.items }
        ensures prices { self.new.prices.items ≡ set self.old.prices.items (own_at self.old.owns.items person).object
            (pos 0) }
        ensures holders { self.new.holders.items ≡ set self.old.holders.items
            (own_at self.old.owns.items person).object NOBODY }
        ensures owns { self.new.owns.items ≡ set self.old.owns.items person no_own }
    {
        let object = self.owns[person as usize].object as usize;
        self.prices[object] = 0;
        self.holders[object] = NOBODY;
        self.owns[person as usize] = NO_OWN;
    }

    /// Awards the object of a bid to the bidder, at the bid's amount; returns the holder before, who then holds
    /// nothing.
    #[inline(always)]
    pub(crate) fn award(&mut self, person: u32, bid: Bid) -> u32
        requires price { bid.arc.object < length self.old.prices.items }
        requires holder { bid.arc.object < length self.old.holders.items }
        requires person { person < length self.old.owns.items }
        requires earlier { holder_at self.old.holders.items bid.arc.object ≢ NOBODY
            → holder_at self.old.holders.items bid.arc.object < length self.old.owns.items }
        requires few { length self.old.owns.items < NOBODY }
        ensures prices { self.new.prices.items ≡ set self.old.prices.items bid.arc.object bid.amount }
        ensures holders { self.new.holders.items ≡ set self.old.holders.items bid.arc.object person }
        ensures owns { self.new.owns.items ≡ set (set self.old.owns.items person bid.arc)
            (holder_at self.old.holders.items bid.arc.object) no_own }
        ensures earlier { result ≡ holder_at self.old.holders.items bid.arc.object }
    {
        let object = bid.arc.object as usize;
        let earlier = self.holders[object];
        self.prices[object] = bid.amount;
        self.holders[object] = person;
        self.owns[person as usize] = bid.arc;
        // Where nobody held it, the bidder's own arc is written again, so that there is no branch: it would be
        // mispredicted where a chain of bids ends.
        let (last, own) = if earlier == NOBODY {
            (person, bid.arc)
        } else {
            (earlier, NO_OWN)
        };
        self.owns[last as usize] = own;
        earlier
    }

    /// The first person from here on, below `until`, who has no object and is neither of these two; `until` where there
    /// is none.
    #[inline(always)]
    pub(crate) fn free_from(&self, from: u32, until: u32, person: u32, other: u32) -> u32
        requires from { from ≤ until }
        requires until { until ≤ length self.now.owns.items }
        ensures least { from ≤ result }
        ensures most { result ≤ until }
        ensures free { result < until → (own_at self.now.owns.items result).object ≡ NOBODY }
        ensures neither { result < until → (result ≢ person) × (result ≢ other) }
        ensures passed { (i : ℕ) → from ≤ i → i < result → i ≢ person → i ≢ other
            → (own_at self.now.owns.items i).object ≢ NOBODY }
    {
        for at in from..until {
            let is_free = self.owns[at as usize].object == NOBODY;
            if is_free && at != person && at != other {
                return at;
            }
        }
        until
    }

    /// Whether each person has an object.
    pub fn all_have(&self) -> bool
        ensures yes { result ≡ true → HaveObjects (length self.now.owns.items) self.now.owns.items }
        ensures no { result ≡ false → HaveObjects (length self.now.owns.items) self.now.owns.items → ⊥ }
    {
        for person in 0..self.owns.len() {
            if self.owns[person].object == NOBODY {
                return false;
            }
        }
        true
    }

    /// The holder of an object; NOBODY where there is none.
    #[inline]
    pub(crate) fn holder_of(&self, object: u32) -> u32
        ensures { result ≡ holder_at self.now.holders.items object }
    {
        if (object as usize) < self.holders.len() {
            self.holders[object as usize]
        } else {
            NOBODY
        }
    }

    /// The value of the arc by which a person holds an object, by sums that wrap.
    #[inline]
    pub(crate) fn own_value(&self, scale: i64, person: u32) -> i64 {
        if person as usize >= self.owns.len() {
            return NO_OWN_VALUE;
        }
        let own = self.owns[person as usize];
        if own.object as usize >= self.prices.len() {
            return NO_OWN_VALUE;
        }
        wrapping_value(scale, own.cost, self.prices[own.object as usize])
    }
}
