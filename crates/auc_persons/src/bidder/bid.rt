//! The bid of a person whose best arc is found.

ghost use Rattle.std.specs.Prelude.{◌≡◌, [], IfSome, IfNone};
ghost use Rattle.auc_letters.specs.Price.{IsEps};
ghost use Rattle.auc_persons.specs.Bid.{IsBidAt};
ghost use Rattle.auc_persons.specs.Priced.{IsScanOf, arcs_of};

use crate::bidder::amount::amount_of;
use crate::bidder::person_row::PersonRow;
use crate::bidder::priced_row::PricedRow;
use crate::bidder::scan::Scan;
use crate::bidder::search::scan_from;
use auc_letters::Bid;

/// The bid of a person whose best arc is found.
#[inline]
pub(crate) fn bid_on(own: PersonRow, eps: i64, found: Scan) -> Bid
    requires eps { IsEps eps }
    requires found { IsScanOf own found }
    ensures { IsBidAt own.entry eps result }
{
    let row = PricedRow::of(own);
    Bid {
        person: own.person,
        arc: found.best.arc,
        object: found.best.object,
        amount: amount_of(row, own.rows.cost_spread(), eps, found),
    }
}

/// The bid of a person, by one pass over the row; none where the person has no arc.
#[inline]
pub(crate) fn plain_bid(own: PersonRow, eps: i64) -> Option<Bid>
    requires eps { IsEps eps }
    ensures some { IfSome result (IsBidAt own.entry eps) }
    ensures none { IfNone result (arcs_of own.entry ≡ []) }
{
    let found = scan_from(PricedRow::of(own))?;
    Some(bid_on(own, eps, found))
}
