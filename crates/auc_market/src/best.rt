//! A person's best arc, and a lower bound on the values of the person's other arcs.

ghost use Rattle.std.specs.Prelude.{◌<◌, length};
ghost use Rattle.auc_market.specs.Scan.{IsPricedRow, short_value};
ghost use Rattle.auc_market.specs.Shortlist.{IsBest};

use crate::scan::scan;
use auc_rows::ShortArc;

/// The value of a person's best arc; a lower bound on the values of the person's other arcs (the greatest number where
/// there is no other); and the best arc.
#[derive(Clone, Copy)]
pub(crate) struct Best {
    pub(crate) value: i64,
    pub(crate) second: i64,
    pub(crate) arc: ShortArc,
}

/// The best arc of a row, by a pass over all of it.
#[inline(always)]
pub(crate) fn best_of(scale: i64, row: &[ShortArc], prices: &[i64]) -> Best
    requires priced { IsPricedRow scale prices.now row.now }
    requires some { 0 < length row.now }
    ensures { IsBest (short_value scale prices.now) row.now result }
{
    let found = scan(scale, row, prices);
    Best {
        value: found.value,
        second: found.second,
        arc: row[found.place],
    }
}
