//! A free person takes an augmenting path that a search has proposed. The proposal is tried: prices rise only where
//! each holder stays within eps of the best, and a person takes an object only where that keeps the person within eps.

ghost use Rattle.std.specs.Prelude.{◌≡◌, ◌<◌, IsTrue, length};
ghost use Rattle.auc_letters.specs.Price.{IsEps};
ghost use Rattle.auc_rows.specs.Rows.{IsFlatTable};
ghost use Rattle.auc_letters.specs.declared.limits.TheConstants.{NOBODY};
ghost use Rattle.auc_market.specs.Market.{AreHigher, AreUnsold, Stands, own_at};
ghost use Rattle.auc_market.specs.Path.{AreRaised, AreRises, AreWithin, set_back};
ghost use Rattle.auc_market.specs.Starts.{any_eps};
ghost use Rattle.auc_market.specs.Augmented.{IsAugmented};

use crate::bid::Bid;
use crate::holdings::Holdings;
use crate::search::Rise;
use crate::slack::is_slack;
use auc_graph::MOST_PRICE;
use auc_letters::NOBODY;
use auc_rows::FlatRows;

impl Holdings {
    /// Whether each of these objects has a holder, and none of their prices would fall or pass the greatest.
    fn may_rise(&self, rises: &[Rise]) -> bool
        ensures { IsTrue result → AreRises self.now.prices.items self.now.holders.items rises.now }
    {
        for rise in rises {
            let Rise { object, amount } = *rise;
            if object as usize >= self.prices.len() || self.holder_of(object) == NOBODY {
                return false;
            }
            if amount < self.prices[object as usize] || MOST_PRICE < amount {
                return false;
            }
        }
        true
    }

    /// Raises the prices, and notes in the place of each amount the price before.
    fn raise(&mut self, rises: &mut [Rise])
        requires { AreRises self.old.prices.items self.old.holders.items rises.old }
        ensures raised { AreRaised self.old.prices.items self.new.prices.items self.old.holders.items rises.new
            (length rises.new) }
        ensures back { set_back (length rises.new) rises.new self.new.prices.items ≡ self.old.prices.items }
        ensures holders { self.new.holders.items ≡ self.old.holders.items }
        ensures owns { self.new.owns.items ≡ self.old.owns.items }
    {
        for place in 0..rises.len() {
            let Rise { object, amount } = rises[place];
            let before = self.prices[object as usize];
            self.prices[object as usize] = amount;
            rises[place] = Rise {
                object,
                amount: before,
            };
        }
    }

    /// Sets the prices back to what was noted, the last one first.
    fn take_back(&mut self, rises: &[Rise])
        ensures prices { self.new.prices.items ≡ set_back (length rises.now) rises.now self.old.prices.items }
        ensures holders { self.new.holders.items ≡ self.old.holders.items }
        ensures owns { self.new.owns.items ≡ self.old.owns.items }
    {
        for done in 0..rises.len() {
            let Rise { object, amount } = rises[rises.len() - (done + 1)];
            if object as usize >= self.prices.len() {
                continue;
            }
            self.prices[object as usize] = amount;
        }
    }

    /// Whether each holder of these objects is within eps of the best.
    fn are_within(&self, rows: &FlatRows, eps: i64, rises: &[Rise]) -> bool
        requires eps { IsEps eps }
        requires stands { Stands rows.now any_eps self.now.prices.items self.now.holders.items self.now.owns.items }
        ensures { IsTrue result → AreWithin rows.now eps self.now.prices.items self.now.holders.items
            self.now.owns.items rises.now }
    {
        for rise in rises {
            if !self.is_within(rows, eps, self.holder_of(rise.object)) {
                return false;
            }
        }
        true
    }

    /// Raises prices as a search proposes, where each person stays within eps of the best; else nothing changes.
    /// Returns whether they have risen.
    fn rise(&mut self, rows: &FlatRows, eps: i64, rises: &mut [Rise]) -> bool
        requires eps { IsEps eps }
        requires sound { IsFlatTable rows.now }
        requires stands { Stands rows.now eps self.old.prices.items self.old.holders.items self.old.owns.items }
        ensures stands { Stands rows.now eps self.new.prices.items self.new.holders.items self.new.owns.items }
        ensures higher { AreHigher self.old.prices.items self.new.prices.items }
        ensures unsold { AreUnsold self.old.prices.items self.old.holders.items
            → AreUnsold self.new.prices.items self.new.holders.items }
        ensures owns { self.new.owns.items ≡ self.old.owns.items }
    {
        if !self.may_rise(rises) {
            return false;
        }
        self.raise(rises);
        if self.are_within(rows, eps, rises) {
            return true;
        }
        self.take_back(rises);
        false
    }

    /// A free person takes the object of an arc of the person's row, at its price, where that is within eps of the
    /// best. Returns the free person afterwards: the holder before, or NOBODY where there was none. Where it isn't
    /// within eps, this is the same person.
    fn take_at_price(&mut self, rows: &FlatRows, eps: i64, person: u32, place: u32) -> u32
        requires eps { IsEps eps }
        requires sound { IsFlatTable rows.now }
        requires person { person < length rows.now.rows }
        requires stands { Stands rows.now eps self.old.prices.items self.old.holders.items self.old.owns.items }
        requires none { (own_at self.old.owns.items person).object ≡ NOBODY }
        ensures { IsAugmented rows.now eps person self.old.prices.items self.new.prices.items self.old.holders.items
            self.new.holders.items self.old.owns.items self.new.owns.items result }
    {
        let row = rows.row(person);
        if place as usize >= row.len() {
            return person;
        }
        let arc = row[place as usize];
        if !is_slack(rows, eps, self.prices.as_slice(), person, arc) {
            return person;
        }
        let amount = self.prices[arc.object as usize];
        self.award(person, Bid { amount, arc })
    }

    /// A free person takes a proposed path. Returns the free person afterwards; NOBODY where the whole path was taken.
    pub(crate) fn go(
        &mut self,
        rows: &FlatRows,
        eps: i64,
        person: u32,
        rises: &mut [Rise],
        route: &[u32],
    ) -> u32
        requires eps { IsEps eps }
        requires sound { IsFlatTable rows.now }
        requires person { person < length rows.now.rows }
        requires stands { Stands rows.now eps self.old.prices.items self.old.holders.items self.old.owns.items }
        requires none { (own_at self.old.owns.items person).object ≡ NOBODY }
        ensures { IsAugmented rows.now eps person self.old.prices.items self.new.prices.items self.old.holders.items
            self.new.holders.items self.old.owns.items self.new.owns.items result }
    {
        if !self.rise(rows, eps, rises) {
            return person;
        }
        let mut free = person;
        for place in route {
            if free == NOBODY {
                break;
            }
            free = self.take_at_price(rows, eps, free, *place);
        }
        free
    }
}
