//! Column reduction, for a run with as many objects as persons: prices at which the cheapest arcs of all columns have
//! the same value.

ghost use Rattle.std.specs.Prelude.{ℤ, ◌≡◌, ◌⊎◌, pos, length, IfOk};
ghost use Rattle.auc_graph.specs.Price.{IsPrice};
ghost use Rattle.auc_market.specs.Endings.{IsStart};
ghost use Rattle.auc_market.specs.Scan.{IsScale};

use auc_rows::{Columns, FlatRows};
use std::alloc::{AllocError, Global};

/// The greatest of the least costs of all columns; the least number where no object has an arc.
fn greatest_of(columns: &Columns, objects: u32) -> i32 {
    let mut greatest = i32::MIN;
    for object in 0..objects {
        if let Some(least) = columns.least_cost(object) {
            greatest = greatest.max(least);
        }
    }
    greatest
}

/// The price at which an arc of one cost has the same value as an arc of another cost at price 0; 0 where that one
/// costs less.
fn price_between(scale: i64, cost: i32, greatest: i32) -> i64
    requires { IsScale scale }
    ensures { IsPrice result }
{
    let more = i64::from(greatest) - i64::from(cost);
    if more <= 0 { 0 } else { scale * more }
}

/// Prices that a run may begin with, by column reduction (Jonker and Volgenant, 1987). With as many objects as persons
/// the cheapest arcs of all objects have the same value at them. The object whose cheapest arc costs most has price 0,
/// and so has an object with no arc. With more objects all prices are 0. O(objects).
pub(crate) fn start_prices(
    alloc: Global,
    rows: &FlatRows,
    columns: &Columns,
) -> Result<Vec<i64>, AllocError>
    ensures { (eps : ℤ) → (rows.now.objects ≡ length rows.now.rows) ⊎ (eps ≡ pos 1)
        → IfOk result (λ v. IsStart rows.now eps v.items) }
{
    let mut prices = vec![in alloc; 0; rows.objects() as usize]?;
    if rows.persons() < rows.objects() {
        return Ok(prices);
    }
    let scale = rows.scale();
    let greatest = greatest_of(columns, rows.objects());
    for object in 0..prices.len() {
        if let Some(least) = columns.least_cost(object as u32) {
            prices[object] = price_between(scale, least, greatest);
        }
    }
    Ok(prices)
}
