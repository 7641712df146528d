//! Arcs in rising order of objects, with the prices at which they are scanned.

ghost use Rattle.std.specs.Prelude.{◌-◌, ◌^◌, pos, ◌≤ℤ◌, All, length};
ghost use Rattle.auc_graph.specs.declared.limits.TheConstants.{MOST_SCALE};
ghost use Rattle.auc_graph.specs.Table.{IsRowArc};
ghost use Rattle.auc_graph.specs.Price.{IsPrice};
ghost use Rattle.auc_persons.specs.Rising.{IsRisingRow};

use crate::bidder::rising::Nearest;
use crate::bidder::scan::{Scan, value_of};
use auc_graph::RowArc;

/// Arcs of one person in rising order of their objects, and the copies of the prices, indexed by object, that give
/// their values.
#[derive(Clone, Copy)]
pub(crate) struct SortedRow<'a> {
    // The number of persons plus one, by which costs are scaled.
    pub scale: i64,
    pub arcs: &'a [RowArc],
    pub copies: &'a [i64],
    ghost scale_low: { pos 1 ≤ℤ scale },
    ghost scale_high: { scale ≤ℤ MOST_SCALE },
    ghost within: { All (IsRowArc (length copies.now)) arcs.now },
    ghost rising: { IsRisingRow arcs.now },
    ghost are_prices: { All IsPrice copies.now },
}

impl<'a> SortedRow<'a> {
    ghost use Rattle.std.specs.Prelude.{◌≡◌, ◌<◌, IfSome, IfNone, []};
    ghost use Rattle.auc_graph.specs.Bid.{value};
    ghost use Rattle.auc_persons.specs.Priced.{arc_at};
    ghost use Rattle.auc_persons.specs.Scan.{copy_in, IsScan, IsValue};

    /// The value of the arc at this place, in scaled costs.
    #[inline(always)]
    fn value(self, place: usize) -> i64
        requires { place < length self.arcs.now }
        ensures is { result ≡ value self.entry.scale (copy_in self.entry.copies.now)
            (arc_at self.entry.arcs.now place) }
        ensures range { IsValue result }
    {
        let arc = self.arcs[place];
        value_of(self.scale, arc.cost, self.copies[arc.object as usize])
    }

    /// The best arc; none where there is no arc. The pass has no branch by values, and tests nothing but its end.
    // Inlined: best, second and place stay in registers. One arc a turn: a jump across 32 bytes is decoded anew each
    // turn (`bench/solve/jumps`).
    #[inline(always)]
    pub fn best(self) -> Option<Scan>
        ensures some { IfSome result (IsScan (value self.entry.scale (copy_in self.entry.copies.now))
            self.entry.arcs.now) }
        ensures none { IfNone result (self.entry.arcs.now ≡ []) }
    {
        if self.arcs.is_empty() {
            return None;
        }
        let mut nearest = Nearest {
            value: self.value(0),
            second: i64::MAX,
            best: &self.arcs[0],
        };
        for place in 1..self.arcs.len() {
            nearest = nearest.with(self.value(place), &self.arcs[place]);
        }
        Some(Scan {
            value: nearest.value,
            second: nearest.second,
            best: *nearest.best,
        })
    }
}
