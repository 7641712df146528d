//! The result of a pass over a row, and the values of arcs.

ghost use Rattle.std.specs.Prelude.{◌≡◌, ◌≤◌, ◌+◌, ◌^◌, pos, neg_ℤ, ◌+ℤ◌, ◌*ℤ◌, ◌≤ℤ◌};
ghost use Rattle.auc_graph.specs.declared.limits.TheConstants.{MOST_SCALE};
ghost use Rattle.auc_graph.specs.Price.{IsPrice};

use auc_graph::{MOST_PERSONS, RowArc};

/// The best arc so far, its value, and the least value of arcs to other objects (the greatest number where there is
/// none).
#[derive(Clone, Copy)]
pub(crate) struct Scan {
    pub value: i64,
    pub second: i64,
    pub best: RowArc,
}

/// The number of persons plus one, by which costs are scaled.
pub(crate) fn scale_of(persons: u32) -> i64
    requires { persons ≤ MOST_PERSONS }
    ensures is { result ≡ pos (persons + 1) }
    ensures low { pos 1 ≤ℤ result }
    ensures high { result ≤ℤ MOST_SCALE }
{
    persons as i64 + 1
}

/// The value of an arc at a price: its scaled cost plus the price.
#[inline]
pub(crate) fn value_of(scale: i64, cost: i32, price: i64) -> i64
    requires scale_low { pos 1 ≤ℤ scale }
    requires scale_high { scale ≤ℤ MOST_SCALE }
    requires cost_low { neg_ℤ (pos (10 ^ 9)) ≤ℤ cost }
    requires cost_high { cost ≤ℤ pos (10 ^ 9) }
    requires price { IsPrice price }
    ensures is { result ≡ (scale *ℤ cost) +ℤ price }
    ensures low { neg_ℤ (pos (2 ^ 52)) ≤ℤ result }
    ensures high { result ≤ℤ pos (2 ^ 61 + 2 ^ 52) }
{
    scale * i64::from(cost) + price
}
