//! The market: rows, eps, prices, holders, and all moves that change them. Its invariants, on its type:
//!
//! 1. Each object has one price and one place for a holder, and each person has one place for an arc.
//! 2. A price is from 0 to 2^61.
//! 3. The holder of an object holds that object.
//! 4. A person who holds an object is its holder, so no object is held twice.
//! 5. A person holds by an arc of the person's row.
//! 6. Epsilon-complementary slackness: no other arc of that row has a reduced cost that is lower by more than eps.
//! 7. Where there are more objects than persons, an object that nobody holds has price 0.
//! 8. Eps is from 1 to the scaled spread of the costs, or 1; and each person has an arc.
//! 9. Each candidate list is right: no arc that it leaves out has a value below its bound.
//!
//! A move takes the market from one such state to another:
//!
//! - [`Market::bid`]: a bid is an award, as in Gauss-Seidel.
//! - [`Market::path`]: a shortest augmenting path, or the Hall violator that the search has reached.
//! - [`Market::open`]: the next eps.
//!
//! When each is made is strategy, and no answer depends on it. Starts are seated before there is a market (`starts.rt`,
//! `adopt.rt`).

ghost use Rattle.std.specs.Prelude.{true, ◌≡◌, ◌≢◌, ◌≤◌, ◌<◌, ℕ, pos, length, IfErr, IfNone, IfOk, IfSome, OnOk};
ghost use Rattle.auc_rows.specs.Rows.{EachHasArc};
ghost use Rattle.auc_letters.specs.declared.limits.TheConstants.{NOBODY};
ghost use Rattle.auc_market.specs.Endings.{IsStart};
ghost use Rattle.auc_market.specs.Eps.{IsEpsOf};
ghost use Rattle.auc_market.specs.Halts.{IsHalt};
ghost use Rattle.auc_market.specs.Market.{IsAbove, Stands, own_at};
ghost use Rattle.auc_market.specs.Position.{AreHandedOn, Begins, IsBegun, IsBid, IsFree, IsMove, Law};

use crate::augmented::Augmented;
use crate::ending::Ending;
use crate::halt::Halt;
use crate::holdings::{Holdings, NO_OWN};
use crate::incumbent::Incumbent;
use crate::lists::Lists;
use crate::sample::Sample;
use crate::search::Search;
use crate::watch::Best;
use auc_letters::{LAST_EPS, NOBODY};
use auc_rows::FlatRows;
use std::alloc::{AllocError, Global};
use std::marker::Model;

/// The rows; eps, in scaled costs; prices, holders and own arcs; candidate lists; and room for searches.
#[derive(Drop)]
pub struct Market<'a> {
    alloc: Global,
    rows: &'a FlatRows,
    pub(crate) eps: i64,
    holdings: Holdings,
    lists: Lists,
    search: Search,
    incumbent: Incumbent,
}

impl<'a> Model for Market<'a> {
    ghost use Rattle.auc_market.specs.Position.{IsMarket, Position};

    ghost Value = { Position };

    ghost view = { λ m. record {
      table = m.rows.now;
      eps = m.eps;
      prices = m.holdings.prices.items;
      holders = m.holdings.holders.items;
      owns = m.holdings.owns.items;
      has_incumbent = m.incumbent.is_whole;
      incumbent = m.incumbent.owns.items;
    } };

    ghost invariant = { λ m. IsMarket (record {
      table = m.rows.now;
      eps = m.eps;
      prices = m.holdings.prices.items;
      holders = m.holdings.holders.items;
      owns = m.holdings.owns.items;
      has_incumbent = m.incumbent.is_whole;
      incumbent = m.incumbent.owns.items;
    }) m.lists.lists.items m.incumbent };
}

impl<'a> Market<'a> {
    /// A market at these prices, at the last eps, in which nobody holds anything.
    ///
    /// # Errors
    ///
    /// Only where memory was refused.
    pub fn new(
        alloc: Global,
        rows: &'a FlatRows,
        prices: Vec<i64>,
    ) -> Result<Market<'a>, AllocError>
        requires arcs { EachHasArc rows.now }
        requires start { IsStart rows.now (pos 1) prices.items }
        ensures begins { IfOk result (Begins rows.now) }
        ensures prices { IfOk result (λ m. m.prices ≡ prices.items) }
    {
        let holdings = Holdings::new(alloc, rows.persons(), prices)?;
        Market::with(alloc, rows, holdings)
    }

    /// The market with these holdings, at the last eps.
    pub(crate) fn with(
        alloc: Global,
        rows: &'a FlatRows,
        holdings: Holdings,
    ) -> Result<Market<'a>, AllocError>
        requires arcs { EachHasArc rows.now }
        requires stands { Stands rows.now (pos 1) holdings.prices.items holdings.holders.items holdings.owns.items }
        ensures begins { IfOk result (Begins rows.now) }
        ensures prices { IfOk result (λ m. m.prices ≡ holdings.prices.items) }
    {
        let lists = Lists::new(alloc, rows)?;
        let owns = vec![in alloc; NO_OWN; rows.persons() as usize]?;
        let incumbent = Incumbent {
            owns,
            is_whole: false,
            best: None,
        };
        Ok(Market {
            alloc,
            rows,
            eps: LAST_EPS,
            holdings,
            lists,
            search: Search::new(alloc),
            incumbent,
        })
    }

    /// The laws of each market, for a caller whose proof needs them. It does nothing.
    #[inline(always)]
    pub fn law(&self)
        ensures { Law self.now }
    {
        let _ = &self.rows;
    }

    /// The number of persons.
    #[inline(always)]
    pub fn persons(&self) -> u32
        ensures { result ≡ length self.now.table.rows }
    {
        let rows = self.rows;
        rows.persons()
    }

    /// The number of persons who hold an object. O(persons).
    pub fn held(&self) -> u32 {
        let mut held: u32 = 0;
        for own in &self.holdings.owns {
            if own.object != NOBODY {
                held = held.saturating_add(1);
            }
        }
        held
    }

    /// What the last full assignment shows of the least cost.
    pub(crate) fn best(&self) -> Option<Best> {
        self.incumbent.best
    }

    /// The spread and the ties of the rows of at least `least` persons, or of all, at the present prices.
    pub fn sample(&self, least: u32) -> Sample
        ensures { IsEpsOf self.now.table result.spread }
    {
        self.holdings.sample(self.rows, least)
    }

    /// The first person from here on, below `until`, who holds no object and is neither of these two; `until` where
    /// there is none.
    #[inline(always)]
    pub(crate) fn free_from(&self, from: u32, until: u32, person: u32, other: u32) -> u32
        requires from { from ≤ until }
        requires until { until ≤ length self.now.table.rows }
        ensures least { from ≤ result }
        ensures most { result ≤ until }
        ensures free { result < until → (own_at self.now.owns result).object ≡ NOBODY }
        ensures neither { result < until → (result ≢ person) × (result ≢ other) }
        ensures passed { (i : ℕ) → from ≤ i → i < result → i ≢ person → i ≢ other
            → (own_at self.now.owns i).object ≢ NOBODY }
    {
        self.holdings.free_from(from, until, person, other)
    }

    /// A free person bids and gets the object. Returns the holder before, or NOBODY. None where even the least bid is
    /// above the greatest price: nothing has changed then.
    #[inline(always)]
    pub(crate) fn bid(&mut self, person: u32) -> Option<u32>
        requires { IsFree self.old person }
        ensures bid { IfSome result (IsBid person self.old self.new) }
        ensures above { IfNone result
            ((self.new ≡ self.old) × IsAbove self.old.table self.old.eps self.old.prices self.old.owns) }
    {
        let rows = self.rows;
        let lists = &mut self.lists;
        self.holdings.step(rows, self.eps, person, lists)
    }

    /// A free person takes a shortest augmenting path where there is one. Returns the free person afterwards, and the
    /// number of arcs scanned.
    ///
    /// # Errors
    ///
    /// A Hall violator, or memory was refused.
    pub(crate) fn path(&mut self, person: u32) -> Result<Augmented, Halt>
        requires { IsFree self.old person }
        ensures augmented { IfOk result (λ w. IsMove person self.old self.new w.free) }
        ensures halt { IfErr result (IsHalt self.old.table) }
    {
        let rows = self.rows;
        let search = &mut self.search;
        self.holdings
            .find_path(self.alloc, rows, self.eps, person, search)
    }

    /// Begins the next phase at this eps: prices stay, and nobody holds anything.
    pub fn open(&mut self, eps: i64)
        requires eps { IsEpsOf self.old.table eps }
        requires square { self.old.table.objects ≡ length self.old.table.rows }
        ensures { IsBegun eps self.old self.new }
    {
        let earlier = self.eps;
        self.eps = eps;
        self.holdings.set_aside(earlier, &mut self.incumbent);
        self.holdings.open();
    }

    /// The result. Where the run was stopped, it is the incumbent, if there is one, at the present prices.
    pub fn into_holdings(self, ending: Ending) -> Holdings
        ensures { AreHandedOn ending self.entry result.prices.items result.holders.items result.owns.items }
    {
        let Market {
            rows,
            mut holdings,
            incumbent,
            ..
        } = self;
        match ending {
            Ending::Sold => holdings,
            Ending::Stopped(_) => {
                if !incumbent.is_whole {
                    return holdings;
                }
                let Incumbent { owns, .. } = incumbent;
                holdings.open();
                holdings.take_up(rows.persons(), owns)
            }
        }
    }
}
