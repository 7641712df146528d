//! The dual bound of some prices, and the least cost that it allows.

ghost use Rattle.std.specs.Prelude.{◌≡◌, ◌≤◌, ◌<◌, ◌+◌, ◌-◌, ◌^◌, ℕ, pos, neg_ℤ, ◌≤ℤ◌, length, slice_index_or, All};
ghost use Rattle.std.specs.Prelude.{IfOk};
ghost use Rattle.auc_graph.specs.Problem.{IsWithin};
ghost use Rattle.auc_graph.specs.declared.limits.TheConstants.{MOST_PERSONS, MOST_COST};
ghost use Rattle.auc_graph.specs.Assignment.{total};
ghost use Rattle.auc_graph.specs.Price.{IsPrice};
ghost use Rattle.auc_graph.specs.Dual.{EachHasArc, IsLower, arc_value, dual, is_lower, lowest, values};

use crate::arc::{Arc, ArcList};
use std::alloc::{AllocError, Global};

/// The value of an arc: its scaled cost plus the price of its object.
fn value_of(scale: u32, prices: &[i64], arc: Arc) -> i64
    requires scale { scale ≤ MOST_PERSONS + 1 }
    requires object { arc.object < length prices.now }
    requires cost_low { neg_ℤ MOST_COST ≤ℤ arc.cost }
    requires cost_high { arc.cost ≤ℤ MOST_COST }
    requires prices { All IsPrice prices.now }
    ensures { result ≡ arc_value scale prices.now arc }
{
    i64::from(scale) * arc.cost + prices[arc.object as usize]
}

/// The least value of each person's arcs; the greatest number for a person who has none.
fn least_values(
    alloc: Global,
    persons: u32,
    arcs: &[Arc],
    prices: &[i64],
) -> Result<Vec<i64>, AllocError>
    requires persons { persons ≤ MOST_PERSONS }
    requires arcs { All (IsWithin persons (length prices.now)) arcs.now }
    requires prices { All IsPrice prices.now }
    ensures len { IfOk result (λ v. length v.items ≡ persons) }
    ensures least { IfOk result
        (λ v. (i : ℕ) → i < persons → slice_index_or v.items i (pos 0) ≡ lowest (pos (2 ^ 63 - 1)) (values (arc_value
        (persons + 1) prices.now) arcs.now i)) }
{
    let scale = persons + 1;
    let mut least = vec![in alloc; i64::MAX; persons as usize]?;
    for arc in arcs {
        let person = arc.person as usize;
        let value = value_of(scale, prices, *arc);
        least[person] = least[person].min(value);
    }
    Ok(least)
}

/// The sum of some numbers.
fn total_of(numbers: &[i64]) -> i128
    requires { length numbers.now < 2 ^ 32 }
    ensures total { result ≡ total numbers.now }
    ensures low { neg_ℤ (pos (2 ^ 95)) ≤ℤ result }
    ensures high { result ≤ℤ pos (2 ^ 95) }
{
    let mut sum: i128 = 0;
    for number in numbers {
        sum += *number as i128;
    }
    sum
}

/// The dual bound of these prices, one of each object: the sum over the persons of the least value of their arcs, minus
/// the sum of all prices. No assignment costs less, scaled.
///
/// Prices and the bound are scaled costs, costs of the file times persons + 1; the value of an arc is its scaled cost
/// plus the price of its object. Takes one pass over the arcs, O(arcs + persons + objects) time, and 8 bytes of memory
/// a person. The bound is the objective of the dual problem (Bertsekas, 1988).
///
/// # Errors
///
/// Only where memory was refused.
pub fn dual_bound(alloc: Global, problem: &ArcList, prices: &[i64]) -> Result<i128, AllocError>
    requires arcs { EachHasArc problem.now }
    requires len { length prices.now ≡ problem.now.objects }
    requires prices { All IsPrice prices.now }
    ensures bound { IfOk result (λ d. d ≡ dual problem.now prices.now) }
    ensures low { IfOk result (λ d. neg_ℤ (pos (2 ^ 96)) ≤ℤ d) }
    ensures high { IfOk result (λ d. d ≤ℤ pos (2 ^ 96)) }
{
    let least = least_values(alloc, problem.persons(), problem.arcs(), prices)?;
    Ok(total_of(least.as_slice()) - total_of(prices))
}

/// Whether `lower`, a cost of the file, is the least one that reaches this bound, a scaled cost: whether it is
/// [`lower_of`] the bound. O(1), without division.
pub fn is_lower(scale: u32, bound: i128, lower: i64) -> bool
    requires low { neg_ℤ (pos (2 ^ 96)) ≤ℤ bound }
    requires high { bound ≤ℤ pos (2 ^ 96) }
    ensures { result ≡ is_lower scale bound lower }
{
    let scaled = scale as i128 * lower as i128;
    bound <= scaled && scaled < bound + scale as i128
}

/// The least cost of the file that reaches this bound, a scaled cost: the bound divided by the scale, rounded up, so -7
/// thirds give -2. For the dual bound of prices from 0 to 2^61, of which no more than persons are above 0, it is an i64
/// wherever there is an assignment ([`bounds_fit`](crate::bounds_fit)). O(1).
pub fn lower_of(scale: u32, bound: i128) -> i128
    requires some { 0 < scale }
    requires low { neg_ℤ (pos (2 ^ 96)) ≤ℤ bound }
    requires high { bound ≤ℤ pos (2 ^ 96) }
    ensures { IsLower scale bound result }
{
    let scale = scale as i128;
    let near = bound / scale;
    if scale * near < bound { near + 1 } else { near }
}
