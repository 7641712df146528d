//! How a candidate list is made: which arcs it takes, and how high its bound is.

ghost use Rattle.std.specs.Prelude.{true, false, ◌≡◌, ◌+◌, ◌<◌, ◌≤◌, ◌^◌, ◌<ℤ◌, ◌≤ℤ◌, [], pos, neg_ℤ, length, take};
ghost use Rattle.auc_persons.specs.Candidates.{Gathered, Keeps};
ghost use Rattle.auc_persons.specs.Scan.{IsValue};
ghost use Rattle.auc_persons.specs.Priced.{value_in};

use crate::bidder::priced_row::PricedRow;
use crate::bidder::shortlist::Shortlist;

/// With fewer arcs the next list should have more.
const FEW_CANDIDATES: u32 = 8;
/// With more arcs the next list should have fewer.
const MANY_CANDIDATES: u32 = 14;
/// The greatest distance of a bound above the second-best value.
const MOST_DELTA: i64 = 1 << 60;
/// A number from 1 to the greatest distance of a bound.
pub(crate) fn delta_within(delta: i64) -> i64
    ensures low { pos 1 ≤ℤ result }
    ensures high { result ≤ℤ pos (2 ^ 60) }
{
    if delta < 1 {
        return 1;
    }
    if delta > MOST_DELTA {
        return MOST_DELTA;
    }
    delta
}

impl Shortlist {
    /// Empties the list, with this bound.
    #[inline]
    pub(crate) fn begin(&mut self, bound: i64)
        requires { bound ≤ℤ pos (2 ^ 62) }
        ensures { self.new ≡ record self.old { bound = bound; arcs = [] } }
    {
        self.count = 0;
        self.bound = bound;
        self.rises = true;
    }

    /// Appends the arc at a place of a row where it is below a bound; the list has those before. No arc is kept at all
    /// where they are too many.
    #[inline(always)]
    fn take_at(&mut self, row: PricedRow, bound: i64, place: usize) -> bool
        requires within { place < length row.arcs.now }
        requires gathered { Gathered (value_in row) (take place row.arcs.now) self.old.arcs bound }
        ensures taken { result ≡ true → Gathered (value_in row.entry) (take (place + 1) row.entry.arcs.now)
            self.new.arcs bound }
        ensures none { result ≡ false → self.new.arcs ≡ [] }
        ensures bound { self.new.bound ≡ self.old.bound }
        ensures person { self.new.person ≡ self.old.person }
    {
        if row.value(place) < bound {
            if self.is_full() {
                self.count = 0;
                return false;
            }
            self.push(row.arcs[place]);
        }
        true
    }

    /// Appends the arcs below a bound from one place of a row to another; the list has those before. No arc is kept at
    /// all where they are too many.
    // Not inlined, so that the loop has the registers for itself.
    #[inline(never)]
    pub(crate) fn take_part(&mut self, row: PricedRow, bound: i64, from: usize, to: usize) -> bool
        requires order { from ≤ to }
        requires within { to ≤ length row.arcs.now }
        requires gathered { Gathered (value_in row) (take from row.arcs.now) self.old.arcs bound }
        ensures taken { result ≡ true → Gathered (value_in row.entry) (take to row.entry.arcs.now) self.new.arcs bound }
        ensures none { result ≡ false → self.new.arcs ≡ [] }
        ensures bound { self.new.bound ≡ self.old.bound }
        ensures person { self.new.person ≡ self.old.person }
    {
        let pairs = (to - from) / 2;
        // Two arcs an iteration: most need one test only, and an iteration by itself costs half as much as that.
        for pair in 0..pairs {
            let place = from + 2 * pair;
            if !self.take_at(row, bound, place) {
                return false;
            }
            if !self.take_at(row, bound, place + 1) {
                return false;
            }
        }
        let place = from + 2 * pairs;
        if place < to {
            return self.take_at(row, bound, place);
        }
        true
    }

    /// Takes the arcs of a row below a bound; none where they are too many.
    fn fill(&mut self, row: PricedRow, bound: i64) -> bool
        requires bound { bound ≤ℤ pos (2 ^ 62) }
        ensures keeps { Keeps (value_in row.entry) row.entry.arcs.now self.new.arcs self.new.bound }
        ensures person { self.new.person ≡ self.old.person }
    {
        self.begin(bound);
        self.take_part(row, bound, 0, row.arcs.len())
    }

    /// Sets how far the next bound should be above the second-best value, by the number of arcs that this list has
    /// taken.
    pub(crate) fn adapt(&mut self, fitted: bool)
        ensures { self.new ≡ self.old }
    {
        let delta = self.delta;
        if !fitted {
            self.delta = delta_within(delta / 4);
        } else if self.count > MANY_CANDIDATES as u8 {
            self.delta = delta_within(delta - delta / 4);
        } else if self.count < FEW_CANDIDATES as u8 {
            self.delta = delta_within(delta + delta / 2 + 1);
        }
    }

    /// The bound of a list made for this second-best value.
    #[inline]
    pub(crate) fn bound_above(&self, second: i64) -> i64
        requires { IsValue second }
        ensures low { neg_ℤ (pos (2 ^ 52)) <ℤ result }
        ensures high { result ≤ℤ pos (2 ^ 62) }
    {
        second + self.delta
    }

    /// Makes the list anew, with a bound above this second-best value.
    pub(crate) fn remake(&mut self, row: PricedRow, second: i64)
        requires second { IsValue second }
        ensures keeps { Keeps (value_in row.entry) row.entry.arcs.now self.new.arcs self.new.bound }
        ensures person { self.new.person ≡ self.old.person }
    {
        let bound = self.bound_above(second);
        let fitted = self.fill(row, bound);
        self.adapt(fitted);
    }
}
