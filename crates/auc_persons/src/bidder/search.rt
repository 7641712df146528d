//! A person's best arc, in one pass over the row with a branch by values; arcs may come in any order.
//!
//! After some arcs nearly every arc of a long row fails one test, and the processor predicts that.

ghost use Rattle.std.specs.Prelude.{◌≡◌, ◌^◌, ◌≤ℤ◌, pos, neg_ℤ, IfSome, IfNone, []};
ghost use Rattle.auc_persons.specs.Scan.{IsScan, IsValue};
ghost use Rattle.auc_persons.specs.Search.{IsFound, IsLimit, PlaceJudged, Taken};
ghost use Rattle.auc_persons.specs.Priced.{value_in};

use crate::bidder::priced_row::PricedRow;
use crate::bidder::scan::Scan;
use auc_graph::RowArc;

/// The result so far.
#[derive(Clone, Copy)]
pub(crate) struct Search {
    pub scan: Scan,
    // An arc of a value above this changes nothing.
    pub limit: i64,
}

impl Scan {
    /// Whether an arc of this value is better than the best one. Arcs may come in any order, so of equal ones to one
    /// object the place in the row decides.
    #[inline]
    fn is_preceded(self, arc: RowArc, value: i64) -> bool
        ensures { PlaceJudged result arc value self }
    {
        if self.value > value {
            return true;
        }
        if self.value < value {
            return false;
        }
        if arc.object != self.best.object {
            return arc.object < self.best.object;
        }
        arc.arc < self.best.arc
    }
}

impl Search {
    /// The search with this result.
    #[inline]
    fn by(scan: Scan) -> Search
        requires low { neg_ℤ (pos (2 ^ 52)) ≤ℤ scan.second }
        ensures scan { result.scan ≡ scan }
        ensures limit { IsLimit result.scan result.limit }
    {
        // Where the best is as good as the second, an arc of the same value may still be the better one.
        let limit = if scan.value < scan.second {
            scan.second - 1
        } else {
            scan.second
        };
        Search { scan, limit }
    }

    /// With one more arc, of this value.
    #[inline]
    pub(crate) fn with(self, arc: RowArc, value: i64) -> Search
        requires value { IsValue value }
        requires best { IsValue self.scan.value }
        requires low { neg_ℤ (pos (2 ^ 52)) ≤ℤ self.scan.second }
        requires limit { IsLimit self.scan self.limit }
        ensures taken { Taken self.scan arc value result.scan }
        ensures limit { IsLimit result.scan result.limit }
    {
        let Scan {
            value: least,
            second,
            best,
        } = self.scan;
        if self.scan.is_preceded(arc, value) {
            if arc.object == best.object {
                let scan = Scan {
                    value,
                    second,
                    best: arc,
                };
                return Search::by(scan);
            }
            let scan = Scan {
                value,
                second: least,
                best: arc,
            };
            return Search::by(scan);
        }
        if arc.object == best.object {
            return self;
        }
        if second <= value {
            return self;
        }
        let scan = Scan {
            value: least,
            second: value,
            best,
        };
        Search::by(scan)
    }
}

/// A search that begins with the result of a pass over some arcs of the row, or else with the row's first arc; none
/// where the row has no arc.
#[inline]
pub(crate) fn begun(row: PricedRow, known: Option<Scan>) -> Option<Search>
    requires known { IfSome known (IsFound (value_in row) row.arcs.now) }
    ensures found { IfSome result (λ s. IsFound (value_in row.entry) row.entry.arcs.now s.scan) }
    ensures limit { IfSome result (λ s. IsLimit s.scan s.limit) }
    ensures none { IfNone result (row.entry.arcs.now ≡ []) }
{
    if let Some(scan) = known {
        return Some(Search::by(scan));
    }
    if row.arcs.is_empty() {
        return None;
    }
    Some(Search::by(Scan {
        value: row.value(0),
        second: i64::MAX,
        best: row.arcs[0],
    }))
}

/// The best arc of a row, in one pass with a branch by values; none where the row has no arc.
pub(crate) fn scan_from(row: PricedRow) -> Option<Scan>
    ensures some { IfSome result (IsScan (value_in row.entry) row.entry.arcs.now) }
    ensures none { IfNone result (row.entry.arcs.now ≡ []) }
{
    let mut search = begun(row, None)?;
    for place in 0..row.arcs.len() {
        let value = row.value(place);
        if value <= search.limit {
            search = search.with(row.arcs[place], value);
        }
    }
    Some(search.scan)
}
