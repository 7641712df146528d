//! A row of arcs, with the prices at which it is scanned.

ghost use Rattle.std.specs.Prelude.{pos, ◌≤ℤ◌, All, length};
ghost use Rattle.auc_graph.specs.declared.limits.TheConstants.{MOST_SCALE};
ghost use Rattle.auc_graph.specs.Table.{IsRow};
ghost use Rattle.auc_graph.specs.Price.{IsPrice};

use crate::bidder::person_row::PersonRow;
use crate::bidder::scan::{scale_of, value_of};
use auc_graph::RowArc;

/// The arcs of one person, in the order of the row, and the copies of the prices, indexed by object, that give their
/// values.
#[derive(Clone, Copy)]
pub(crate) struct PricedRow<'a> {
    // The number of persons plus one, by which costs are scaled.
    pub scale: i64,
    pub arcs: &'a [RowArc],
    pub copies: &'a [i64],
    ghost scale_low: { pos 1 ≤ℤ scale },
    ghost scale_high: { scale ≤ℤ MOST_SCALE },
    ghost is_row: { IsRow (length copies.now) arcs.now },
    ghost are_prices: { All IsPrice copies.now },
}

impl<'a> PricedRow<'a> {
    ghost use Rattle.std.specs.Prelude.{◌≡◌, ◌<◌, ◌+◌};
    ghost use Rattle.auc_persons.specs.Priced.{arc_at, arcs_of, value_in};
    ghost use Rattle.auc_persons.specs.Scan.{IsValue};

    /// The row of a person.
    #[inline(always)]
    pub fn of(own: PersonRow<'a>) -> PricedRow<'a>
        ensures scale { result.scale ≡ pos (length own.entry.rows.now.rows + 1) }
        ensures arcs { result.arcs.now ≡ arcs_of own.entry }
        ensures copies { result.copies.now ≡ own.entry.copies.now }
    {
        PricedRow {
            scale: scale_of(own.rows.persons()),
            arcs: own.rows.row(own.person),
            copies: own.copies,
        }
    }

    /// The value of the arc at this place, in scaled costs.
    #[inline(always)]
    pub fn value(self, place: usize) -> i64
        requires { place < length self.arcs.now }
        ensures is { result ≡ value_in self.entry (arc_at self.entry.arcs.now place) }
        ensures range { IsValue result }
    {
        let arc = self.arcs[place];
        value_of(self.scale, arc.cost, self.copies[arc.object as usize])
    }
}
