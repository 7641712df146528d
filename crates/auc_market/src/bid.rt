//! The bid of a person at the present prices.

ghost use Rattle.std.specs.Prelude.{◌≡◌, ◌*◌, ◌^◌, pos, ◌+ℤ◌, ◌-ℤ◌, ◌*ℤ◌, ◌≤ℤ◌, ◌<ℤ◌, ℕ, All, IfNone, IfSome};
ghost use Rattle.std.specs.Prelude.{length};
ghost use Rattle.auc_graph.specs.Dual.{price_at};
ghost use Rattle.auc_graph.specs.Price.{IsPrice};
ghost use Rattle.auc_letters.specs.Price.{IsEps};
ghost use Rattle.auc_rows.specs.Rows.{flat_row_of, scale_in};
ghost use Rattle.auc_market.specs.Bid.{IsOffer, IsRaise};
ghost use Rattle.auc_market.specs.Scan.{IsValue, endless, short_value};
ghost use Rattle.auc_market.specs.Shortlist.{IsBest};

use crate::best::Best;
use auc_graph::MOST_PRICE;
use auc_rows::{FlatRows, ShortArc};

/// A bid: its amount, in scaled costs, which becomes the object's price; and the arc that the bidder takes.
#[derive(Clone, Copy)]
pub(crate) struct Bid {
    pub(crate) amount: i64,
    pub(crate) arc: ShortArc,
}

/// The spread of all costs, scaled.
#[inline(always)]
pub(crate) fn scaled_spread(rows: &FlatRows) -> i64
    ensures is { result ≡ scale_in rows.now *ℤ rows.now.spread }
    ensures low { pos 0 ≤ℤ result }
    ensures high { result ≤ℤ pos (2 ^ 53) }
{
    rows.scale() * rows.spread()
}

/// How far the second-best value of a row is above the best one; the scaled spread of all costs where there is no
/// second arc.
#[inline(always)]
fn margin_of(rows: &FlatRows, best: Best) -> i64
    requires value { IsValue best.value }
    requires second { best.second <ℤ endless → IsValue best.second }
    requires order { best.value ≤ℤ best.second }
    ensures next { best.second <ℤ endless → result ≡ (best.second -ℤ best.value) }
    ensures only { endless ≤ℤ best.second → result ≡ scale_in rows.now *ℤ rows.now.spread }
    ensures low { pos 0 ≤ℤ result }
{
    if best.second < i64::MAX {
        best.second - best.value
    } else {
        scaled_spread(rows)
    }
}

/// The least bid: the price plus eps.
#[inline(always)]
fn least_of(price: i64, eps: i64) -> i64
    requires price { IsPrice price }
    requires eps { IsEps eps }
    ensures { result ≡ price +ℤ eps }
{
    price + eps
}

/// The least bid plus the margin to the second-best value, but no more than the greatest price.
#[inline(always)]
fn amount_of(least: i64, margin: i64) -> i64
    requires low { pos 0 ≤ℤ least }
    requires most { least ≤ℤ pos (2 ^ 61) }
    requires margin { pos 0 ≤ℤ margin }
    ensures whole { (least +ℤ margin) ≤ℤ pos (2 ^ 61) → result ≡ least +ℤ margin }
    ensures capped { pos (2 ^ 61) <ℤ (least +ℤ margin) → result ≡ pos (2 ^ 61) }
{
    if margin < MOST_PRICE - least {
        least + margin
    } else {
        MOST_PRICE
    }
}

/// The bid of a person whose best arc this is at these prices, indexed by object. It is on that arc, and so high that
/// the arc's value is then eps above the second-best value, but no higher than the greatest price. None where even the
/// least bid would be above that: the price plus eps. `eps` and `prices` are in scaled costs.
///
/// O(1): the best arc is found before. The method is the bid of the auction algorithm (Bertsekas, 1979).
#[inline(always)]
pub(crate) fn bid_of(rows: &FlatRows, eps: i64, best: Best, prices: &[i64]) -> Option<Bid>
    requires eps { IsEps eps }
    requires many { length prices.now ≡ rows.now.objects }
    requires prices { All IsPrice prices.now }
    requires best { (person : ℕ) × IsBest (short_value (scale_in rows.now) prices.now)
        (flat_row_of rows.now person) best }
    ensures raise { (person : ℕ) → IsBest (short_value (scale_in rows.now) prices.now)
        (flat_row_of rows.now person) best → IfSome result
        (λ b. IsRaise (scale_in rows.now) eps prices.now (flat_row_of rows.now person) b.arc b.amount) }
    ensures offer { (person : ℕ) → IsBest (short_value (scale_in rows.now) prices.now)
        (flat_row_of rows.now person) best → IfSome result
        (λ b. IsOffer (scale_in rows.now) rows.now.spread eps prices.now (flat_row_of rows.now person) b.arc b.amount) }
    ensures within { IfSome result (λ b. b.amount ≤ℤ pos (2 ^ 61)) }
    ensures above { IfNone result (pos (2 ^ 61) <ℤ (price_at prices.now best.arc.object +ℤ eps)) }
{
    // Read here, so that the proof has the invariant of the rows.
    let _ = rows.persons();
    let arc = best.arc;
    let least = least_of(prices[arc.object as usize], eps);
    if least > MOST_PRICE {
        return None;
    }
    let amount = amount_of(least, margin_of(rows, best));
    Some(Bid { amount, arc })
}
