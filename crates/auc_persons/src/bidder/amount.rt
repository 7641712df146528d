//! The amount of a bid.

ghost use Rattle.std.specs.Prelude.{◌≡◌, ◌*◌, ◌^◌, pos, ◌+ℤ◌, ◌-ℤ◌, ◌*ℤ◌, ◌≤ℤ◌};
ghost use Rattle.auc_graph.specs.declared.limits.TheConstants.{MOST_SCALE};
ghost use Rattle.auc_graph.specs.Bid.{IsBid};
ghost use Rattle.auc_graph.specs.Price.{IsPrice};
ghost use Rattle.auc_letters.specs.Price.{IsEps};
ghost use Rattle.auc_persons.specs.Scan.{copy_in, IsScan, IsValue};
ghost use Rattle.auc_persons.specs.Priced.{value_in};

use crate::bidder::priced_row::PricedRow;
use crate::bidder::scan::Scan;

/// The price plus the margin to the best other arc plus eps.
#[inline]
fn next_amount(price: i64, second: i64, value: i64, eps: i64) -> i64
    requires price { IsPrice price }
    requires value { IsValue value }
    requires second { IsValue second }
    requires eps { IsEps eps }
    ensures { result ≡ (price +ℤ (second -ℤ value)) +ℤ eps }
{
    price + (second - value) + eps
}

/// The price plus the scaled spread plus eps.
#[inline]
fn only_amount(price: i64, scaled_spread: i64, eps: i64) -> i64
    requires price { IsPrice price }
    requires spread_low { pos 0 ≤ℤ scaled_spread }
    requires spread_high { scaled_spread ≤ℤ pos (2 ^ 53) }
    requires eps { IsEps eps }
    ensures { result ≡ (price +ℤ scaled_spread) +ℤ eps }
{
    price + scaled_spread + eps
}

/// The spread of the costs, scaled.
#[inline]
pub(crate) fn scaled(scale: i64, spread: i64) -> i64
    requires scale_low { pos 1 ≤ℤ scale }
    requires scale_high { scale ≤ℤ MOST_SCALE }
    requires spread_low { pos 0 ≤ℤ spread }
    requires spread_high { spread ≤ℤ pos (2 * 10 ^ 9) }
    ensures is { result ≡ scale *ℤ spread }
    ensures low { pos 0 ≤ℤ result }
    ensures high { result ≤ℤ pos (2 ^ 53) }
{
    scale * spread
}

/// The amount of a bid on the best arc of a row, which a pass has found. `spread` is that of the costs of the file;
/// `eps` is in scaled costs.
///
/// Takes O(1) time and no memory. The method is the bid of the auction algorithm (Bertsekas, 1979).
pub(crate) fn amount_of(row: PricedRow, spread: i64, eps: i64, found: Scan) -> i64
    requires spread_low { pos 0 ≤ℤ spread }
    requires spread_high { spread ≤ℤ pos (2 * 10 ^ 9) }
    requires eps { IsEps eps }
    requires found { IsScan (value_in row) row.arcs.now found }
    ensures { IsBid row.entry.scale spread eps (copy_in row.entry.copies.now) row.entry.arcs.now found.best result }
{
    let price = row.copies[found.best.object as usize];
    if found.second < i64::MAX {
        return next_amount(price, found.second, found.value, eps);
    }
    only_amount(price, scaled(row.scale, spread), eps)
}
