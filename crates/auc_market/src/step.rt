//! One step of the auction: a person bids by the candidate list, and the bid is an award.

ghost use Rattle.std.specs.Prelude.{◌≡◌, ◌<◌, length, IfNone, IfSome};
ghost use Rattle.auc_letters.specs.Price.{IsEps};
ghost use Rattle.auc_rows.specs.Rows.{EachHasArc};
ghost use Rattle.auc_letters.specs.declared.limits.TheConstants.{NOBODY};
ghost use Rattle.auc_market.specs.Bids.{IsBidMade, state_of};
ghost use Rattle.auc_market.specs.Market.{IsAwarded, IsTooHigh, Stands, own_at};
ghost use Rattle.auc_market.specs.Shortlist.{Kept};

use crate::bid::bid_of;
use crate::holdings::Holdings;
use crate::lists::Lists;
use auc_rows::FlatRows;

impl Holdings {
    /// A person bids and gets the object; returns the holder before. None where even the least bid would be above
    /// the greatest price.
    #[inline(always)]
    pub(crate) fn step(
        &mut self,
        rows: &FlatRows,
        eps: i64,
        person: u32,
        lists: &mut Lists,
    ) -> Option<u32>
        requires person { person < length rows.now.rows }
        requires arcs { EachHasArc rows.now }
        requires eps { IsEps eps }
        requires stands { Stands rows.now eps self.old.prices.items self.old.holders.items self.old.owns.items }
        requires none { (own_at self.old.owns.items person).object ≡ NOBODY }
        requires kept { Kept rows.now self.old.prices.items lists.old.lists.items }
        ensures awarded { IfSome result
            (IsAwarded rows.now eps person self.old.prices.items self.new.prices.items self.new.holders.items
            self.old.owns.items self.new.owns.items) }
        ensures made { IfSome result (λ d. IsBidMade rows.now eps (state_of self.old) (state_of self.new)) }
        ensures high { IfNone result
            (IsTooHigh rows.now eps self.old.prices.items self.new.prices.items self.old.holders.items
            self.new.holders.items self.old.owns.items self.new.owns.items) }
        ensures kept { Kept rows.now self.new.prices.items lists.new.lists.items }
    {
        let prices = self.prices.as_slice();
        let best = lists.best(rows, rows.scale(), person, prices);
        let Some(bid) = bid_of(rows, eps, best, prices) else {
            return None;
        };
        Some(self.award(person, bid))
    }
}
