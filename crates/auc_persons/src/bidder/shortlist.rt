//! The candidate list of one person: the few arcs of the row that were best when the list was made, and a bound. No
//! other arc of the row has a value below the bound.
//!
//! Copies of prices never fall, so a bound of an arc's value stays one. How the bound is found doesn't change any bid;
//! it is in `shortlist/making.rt`.

ghost use Rattle.std.specs.Prelude.{false, true, ◌≡◌, ◌<◌, ◌≤◌, ◌^◌, ◌<ℤ◌, ◌≤ℤ◌, [], ◌∷◌, ◌++◌, pos, IsTrue, IfSome};
ghost use Rattle.std.specs.Prelude.{length, take};
ghost use Rattle.auc_persons.specs.Candidates.{Decides, Keeps, Listed, no_list};
ghost use Rattle.auc_persons.specs.Scan.{IsScan, IsValue, endless};
ghost use Rattle.auc_persons.specs.Priced.{value_in};
ghost use Rattle.auc_persons.specs.Rising.{IsRisingRow};
ghost use Rattle.auc_persons.specs.Search.{IsFound};

mod making;

use crate::bidder::method::VERY_LONG_ROW;
use crate::bidder::priced_row::PricedRow;
use crate::bidder::scan::Scan;
use crate::bidder::search::scan_from;
use crate::bidder::shortlist::making::delta_within;
use crate::bidder::sorted_row::SortedRow;
use auc_graph::RowArc;
use std::marker::Model;

/// The greatest number of arcs of a list.
pub(crate) const LIST_CAPACITY: usize = 24;

/// The candidates of one person.
#[derive(Drop)]
pub(crate) struct Shortlist {
    bound: i64,
    // How far the next bound should be above the second-best value.
    delta: i64,
    arcs: [RowArc; LIST_CAPACITY],
    person: u32,
    count: u8,
    // Whether the arcs are in rising order of objects, as those of a sorted row are.
    rises: bool,
}

impl Model for Shortlist {
    ghost use Rattle.std.specs.Prelude.{take};
    ghost use Rattle.auc_persons.specs.Candidates.{AreListParts, Listed};

    ghost Value = { Listed };

    ghost view = { λ s. record { person = s.person; bound = s.bound; arcs = take s.count s.arcs } };

    ghost invariant = { λ s. AreListParts s.count s.arcs s.delta s.bound s.rises };
}

impl Shortlist {
    /// An empty list, which decides nothing. Its first bound should be about `delta` above the second-best value.
    pub(crate) fn new(person: u32, delta: i64) -> Shortlist
        ensures { result ≡ no_list person }
    {
        Shortlist {
            bound: 0,
            delta: delta_within(delta),
            arcs: [RowArc {
                cost: 0,
                object: 0,
                arc: 0,
            }; LIST_CAPACITY],
            person,
            count: 0,
            rises: true,
        }
    }

    /// The person of the list.
    #[inline]
    pub(crate) fn person(&self) -> u32
        ensures { result ≡ self.now.person }
    {
        self.person
    }

    /// The arcs of the list.
    #[inline]
    fn arcs(&self) -> &[RowArc]
        ensures value { result.now ≡ self.now.arcs }
        ensures few { length result.now ≤ 24 }
    {
        &self.arcs[..self.count as usize]
    }

    /// Whether the arcs are in rising order of objects with one more, too.
    #[inline]
    fn rises_with(&self, arc: RowArc) -> bool
        ensures { result ≡ true → IsRisingRow (self.now.arcs ++ arc ∷ []) }
    {
        if !self.rises {
            return false;
        }
        if self.count == 0 {
            return true;
        }
        self.arcs[self.count as usize - 1].object < arc.object
    }

    /// Appends an arc.
    #[inline]
    fn push(&mut self, arc: RowArc)
        requires { length self.old.arcs < 24 }
        ensures { self.new ≡ record self.old { arcs = self.old.arcs ++ arc ∷ [] } }
    {
        self.rises = self.rises_with(arc);
        self.arcs[self.count as usize] = arc;
        self.count += 1;
    }

    /// Whether there is no room for another arc.
    #[inline]
    fn is_full(&self) -> bool
        ensures { result ≡ false → length self.now.arcs < 24 }
    {
        self.count as usize == LIST_CAPACITY
    }

    /// Whether a pass over the list finds what one over the row would: no arc left out is as good as the best or better
    /// than the second.
    #[inline]
    fn decides(&self, scan: Scan) -> bool
        ensures { IsTrue result → Decides self.now.bound scan }
    {
        scan.value < self.bound && scan.second <= self.bound
    }

    /// The result of a pass over the list, where the list decides: it is that of a pass over the row. None where the
    /// list has no arc.
    #[inline]
    pub(crate) fn listed(&self, row: PricedRow) -> Option<Scan>
        requires keeps { Keeps (value_in row) row.arcs.now self.now.arcs self.now.bound }
        ensures found { IfSome result (λ f. Decides self.now.bound f → IsScan
            (value_in row.entry) row.entry.arcs.now f) }
        ensures some { IfSome result (IsFound (value_in row.entry) row.entry.arcs.now) }
        ensures second { IfSome result (λ f. f.second <ℤ endless → IsValue f.second) }
    {
        if self.rises {
            return SortedRow {
                scale: row.scale,
                arcs: self.arcs(),
                copies: row.copies,
            }
            .best();
        }
        scan_from(PricedRow {
            scale: row.scale,
            arcs: self.arcs(),
            copies: row.copies,
        })
    }

    /// Makes a list anew, and finds the best arc by it; none where no list is made, or it doesn't decide. `second`
    /// bounds that of the row: it is the second of the list's arcs, where there is one, and else the greatest number.
    /// Lists of very long rows are made by their blocks instead.
    fn scan_anew(&mut self, row: PricedRow, second: i64) -> Option<Scan>
        requires keeps { Keeps (value_in row) row.arcs.now self.old.arcs self.old.bound }
        requires second { second <ℤ endless → IsValue second }
        ensures found { IfSome result (IsScan (value_in row.entry) row.entry.arcs.now) }
        ensures keeps { Keeps (value_in row.entry) row.entry.arcs.now self.new.arcs self.new.bound }
        ensures person { self.new.person ≡ self.old.person }
    {
        if row.arcs.len() > VERY_LONG_ROW {
            return None;
        }
        if second < i64::MAX {
            self.remake(row, second);
            let found = self.listed(row)?;
            return if self.decides(found) {
                Some(found)
            } else {
                None
            };
        }
        let whole = scan_from(row)?;
        if whole.second < i64::MAX {
            self.remake(row, whole.second);
        }
        Some(whole)
    }

    /// The best arc of the row, where the list or one that is made anew decides.
    // Not inlined, and `SortedRow::best` always: LLVM chose the opposite, and the row went through memory.
    #[inline(never)]
    pub(crate) fn scan(&mut self, row: PricedRow) -> Option<Scan>
        requires keeps { Keeps (value_in row) row.arcs.now self.old.arcs self.old.bound }
        ensures found { IfSome result (IsScan (value_in row.entry) row.entry.arcs.now) }
        ensures keeps { Keeps (value_in row.entry) row.entry.arcs.now self.new.arcs self.new.bound }
        ensures person { self.new.person ≡ self.old.person }
    {
        let Some(scan) = self.listed(row) else {
            return self.scan_anew(row, i64::MAX);
        };
        if self.decides(scan) {
            return Some(scan);
        }
        self.scan_anew(row, scan.second)
    }
}
