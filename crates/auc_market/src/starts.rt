//! How a run from start prices (a warm start) begins: who keeps an object at them, and which prices stay.

ghost use Rattle.std.specs.Prelude.{ℕ, ◌≡◌, ◌≢◌, ◌<◌, length, false, pos, IfOk, IfSome};
ghost use Rattle.auc_letters.specs.Price.{IsEps};
ghost use Rattle.auc_rows.specs.Rows.{EachHasArc};
ghost use Rattle.auc_letters.specs.declared.limits.TheConstants.{NOBODY};
ghost use Rattle.auc_market.specs.Market.{HaveObjects, Stands, own_at};
ghost use Rattle.auc_market.specs.Endings.{IsStart};
ghost use Rattle.auc_market.specs.Position.{Begins};
ghost use Rattle.auc_market.specs.Starts.{AreKept, AreOpened, ArePricesOf, AreSeated, any_eps};

use crate::bid::Bid;
use crate::holdings::Holdings;
use crate::market::Market;
use crate::scan::wrapping_value_of;
use auc_letters::{LAST_EPS, NOBODY};
use auc_rows::FlatRows;
use std::alloc::{AllocError, Global};

/// The prices before anybody holds anything: the start prices where there are as many objects as persons, else 0.
fn prices_before(alloc: Global, rows: &FlatRows, start: &[i64]) -> Result<Vec<i64>, AllocError>
    requires start { ArePricesOf rows.now start.now }
    ensures start { IfOk result (λ v. IsStart rows.now (pos 1) v.items) }
    ensures kept { IfOk result (λ v. AreKept start.now v.items) }
    ensures same { IfOk result (λ v. rows.now.objects ≡ length rows.now.rows → v.items ≡ start.now) }
{
    if rows.persons() == rows.objects() {
        let prices = start.to_vec(alloc)?;
        return Ok(prices);
    }
    let none = vec![in alloc; 0; rows.objects() as usize]?;
    Ok(none)
}

impl Holdings {
    /// The place in a person's row of the first arc to an object that nobody holds and that is within eps of the best
    /// at the start prices. Past the row where there is none. Nothing is proved of it.
    fn free_within(&self, rows: &FlatRows, eps: i64, start: &[i64], person: u32) -> u32
        requires { person < length rows.now.rows }
    {
        let scale = rows.scale();
        let mut least = i64::MAX;
        let mut best = NOBODY;
        let mut at: u32 = 0;
        let mut best_at: u32 = 0;
        for arc in rows.row(person) {
            let value = wrapping_value_of(scale, *arc, start);
            if value < least {
                least = value;
                best = arc.object;
                best_at = at;
            }
            at = at.saturating_add(1);
        }
        if self.holder_of(best) == NOBODY {
            return best_at;
        }
        let most = least.saturating_add(eps);
        let mut place: u32 = 0;
        for arc in rows.row(person) {
            if self.holder_of(arc.object) == NOBODY
                && wrapping_value_of(scale, *arc, start) <= most
            {
                break;
            }
            place = place.saturating_add(1);
        }
        place
    }

    /// A person takes the object of the arc at this place of the row, which gets its start price then. Not where a
    /// person holds it, nor past the row.
    fn seat(&mut self, rows: &FlatRows, start: &[i64], person: u32, place: u32)
        requires person { person < length rows.now.rows }
        requires start { ArePricesOf rows.now start.now }
        requires seated { AreSeated rows.now start.now self.old.prices.items self.old.holders.items
            self.old.owns.items }
        requires none { (own_at self.old.owns.items person).object ≡ NOBODY }
        ensures seated { AreSeated rows.now start.now self.new.prices.items self.new.holders.items self.new.owns.items }
        ensures none { (i : ℕ) → i ≢ person → (own_at self.old.owns.items i).object ≡ NOBODY
            → (own_at self.new.owns.items i).object ≡ NOBODY }
    {
        let row = rows.row(person);
        if place as usize >= row.len() {
            return;
        }
        let arc = row[place as usize];
        if self.holder_of(arc.object) != NOBODY {
            return;
        }
        let amount = start[arc.object as usize];
        self.award(person, Bid { amount, arc });
    }

    /// Each person in order whose object isn't within eps of the best leaves it, and its price is then 0. Returns
    /// whether any has.
    fn release(&mut self, rows: &FlatRows, eps: i64) -> bool
        requires arcs { EachHasArc rows.now }
        requires eps { IsEps eps }
        requires stands { Stands rows.now any_eps self.old.prices.items self.old.holders.items self.old.owns.items }
        ensures stands { Stands rows.now any_eps self.new.prices.items self.new.holders.items self.new.owns.items }
        ensures kept { AreKept self.old.prices.items self.new.prices.items }
        ensures nobody { result ≡ false → Stands rows.now eps self.new.prices.items self.new.holders.items
            self.new.owns.items }
    {
        let mut released = false;
        for person in 0..rows.persons() {
            if self.is_within(rows, eps, person) {
                continue;
            }
            self.leave(person);
            released = true;
        }
        released
    }

    /// Persons leave objects until each who has one is within eps of the best. Nobody keeps anything where that takes
    /// more passes over all persons than their number can be halved.
    fn settle(&mut self, rows: &FlatRows, eps: i64)
        requires arcs { EachHasArc rows.now }
        requires eps { IsEps eps }
        requires stands { Stands rows.now any_eps self.old.prices.items self.old.holders.items self.old.owns.items }
        ensures stands { Stands rows.now eps self.new.prices.items self.new.holders.items self.new.owns.items }
        ensures kept { AreKept self.old.prices.items self.new.prices.items }
    {
        for _ in 0..u32::BITS - rows.persons().leading_zeros() {
            if !self.release(rows, eps) {
                return;
            }
        }
        self.empty();
    }

    /// Opens a market in which nobody holds anything, at start prices: persons keep what is within eps of their best at
    /// them. Where there are more objects than persons, an object that nobody keeps has price 0. So some persons who
    /// keep one at the start prices may yet leave it.
    fn open_at(&mut self, rows: &FlatRows, eps: i64, start: &[i64])
        requires arcs { EachHasArc rows.now }
        requires eps { IsEps eps }
        requires start { ArePricesOf rows.now start.now }
        requires seated { AreSeated rows.now start.now self.old.prices.items self.old.holders.items
            self.old.owns.items }
        requires none { (i : ℕ) → (own_at self.old.owns.items i).object ≡ NOBODY }
        ensures stands { Stands rows.now eps self.new.prices.items self.new.holders.items self.new.owns.items }
        ensures opened { AreOpened rows.now.objects (length rows.now.rows) start.now self.new.prices.items }
    {
        for person in 0..rows.persons() {
            let place = self.free_within(rows, eps, start, person);
            self.seat(rows, start, person, place);
        }
        if rows.persons() != rows.objects() {
            self.settle(rows, eps);
            return;
        }
        if self.all_within(rows, eps) {
            return;
        }
        self.open();
    }
}

impl<'a> Market<'a> {
    /// A market at start prices, at the last eps. Where there are more objects than persons, only the objects that
    /// persons keep have start prices. Persons hold what they keep.
    pub fn from_start(
        alloc: Global,
        rows: &'a FlatRows,
        start: &[i64],
    ) -> Result<Market<'a>, AllocError>
        requires arcs { EachHasArc rows.now }
        requires start { ArePricesOf rows.now start.now }
        ensures begins { IfOk result (Begins rows.now) }
        ensures opened { IfOk result (λ m. AreOpened rows.now.objects (length rows.now.rows) start.now m.prices) }
    {
        let prices = prices_before(alloc, rows, start)?;
        let mut holdings = Holdings::new(alloc, rows.persons(), prices)?;
        holdings.open_at(rows, LAST_EPS, start);
        Market::with(alloc, rows, holdings)
    }
}

/// The holdings that a proposal gives: each person takes the object of the proposed arc, by its place in the person's
/// row, at its proposed price. None where a person gets no object so, or isn't within the last eps of the best. An
/// object that nobody takes has price 0 where there are more objects than persons.
///
/// # Errors
///
/// Only where memory was refused.
pub fn tried(
    alloc: Global,
    rows: &FlatRows,
    prices: &[i64],
    places: &[u32],
) -> Result<Option<Holdings>, AllocError>
    requires start { ArePricesOf rows.now prices.now }
    ensures stands { IfOk result (λ o. IfSome o (λ m. Stands rows.now (pos 1) m.prices.items m.holders.items
        m.owns.items)) }
    ensures have { IfOk result (λ o. IfSome o (λ m. HaveObjects (length rows.now.rows) m.owns.items)) }
{
    let persons = rows.persons();
    if places.len() != persons as usize {
        return Ok(None);
    }
    let before = prices_before(alloc, rows, prices)?;
    let mut holdings = Holdings::new(alloc, persons, before)?;
    for person in 0..persons {
        holdings.seat(rows, prices, person, places[person as usize]);
    }
    if !holdings.all_have() {
        return Ok(None);
    }
    if !holdings.all_within(rows, LAST_EPS) {
        return Ok(None);
    }
    Ok(Some(holdings))
}
