//! Prices by an auction with epsilon scaling (Bertsekas, 1979), from which few persons have to take a path.

use crate::gaps::{GAP_COST, Gap};
use crate::market::Market;
use crate::pause::{Budget, Pause};
use crate::table::{Table, row_of};

/// Eps is divided by this from phase to phase. From 4 to 16 whole runs take about as long.
pub const EPS_DIVISOR: i64 = 8;

/// How often a phase, and paths before phases, may pass over the table. Phases mostly take a quarter of it; in a table
/// with gaps prices may have far to rise.
pub const PASSES: u32 = 64;

/// The number of entries that paths may scan before phases are played.
pub(crate) fn scans_of_paths(table: &Table) -> u64 {
    let entries = u64::from(table.persons).saturating_mul(u64::from(table.objects));
    entries.saturating_mul(u64::from(PASSES))
}

/// The mean spread of a row at these keys, without gaps.
fn mean_spread<const G: bool>(table: &Table, gap: Gap<G>, keys: &[i64]) -> i64 {
    let mut sum: i64 = 0;
    for person in 0..table.persons {
        let row = row_of(table, person);
        let mut least = GAP_COST;
        let mut greatest = -GAP_COST;
        for object in 0..row.len().min(keys.len()) {
            let cost = gap.cost_of(row[object]);
            let value = cost.wrapping_add(keys[object] >> 1);
            let low = if cost == GAP_COST { -GAP_COST } else { value };
            least = if value < least { value } else { least };
            greatest = if greatest < low { low } else { greatest };
        }
        sum = sum.saturating_add(greatest.wrapping_sub(least).max(0));
    }
    sum.checked_div(i64::from(table.persons)).unwrap_or(0)
}

/// A phase, in which persons bid until each has an object.
fn play<P: Pause, const G: bool>(
    table: &Table,
    gap: Gap<G>,
    market: &mut Market,
    eps: i64,
    budget: &mut Budget<'_, P>,
) {
    market.release();
    let mut bidder = 0;
    let mut begun: u32 = 0;
    for _ in 0..u64::from(PASSES).saturating_mul(u64::from(table.persons)) {
        match market.bid(table, gap, bidder, eps) {
            Some(earlier) => bidder = earlier,
            None => {
                begun = begun.saturating_add(1);
                bidder = begun;
            }
        }
        if table.persons <= begun || budget.is_spent(market.scanned) {
            return;
        }
    }
}

/// How much neighbouring costs differ, where they are random, at this mean spread of a row.
fn difference_of(table: &Table, spread: i64) -> i64 {
    spread.checked_div(i64::from(table.objects)).unwrap_or(0)
}

/// The same at these keys.
pub(crate) fn difference_at<const G: bool>(table: &Table, gap: Gap<G>, keys: &[i64]) -> i64 {
    difference_of(table, mean_spread(table, gap, keys))
}

/// The least eps that is worth a phase, at this mean spread of a row.
fn last_eps(table: &Table, spread: i64) -> i64 {
    let difference = difference_of(table, spread);
    difference.checked_div(EPS_DIVISOR).unwrap_or(0)
}

/// Raises the prices of a market with as many objects as persons, after which nobody holds anything, unless the budget
/// is spent. Eps falls from an eighth of `from`, or of the mean spread of a row, until it isn't worth a phase; returns
/// it. At the end the spread is taken anew, at the prices of then: what a column costs everybody no longer counts
/// there.
pub(crate) fn raise_prices<P: Pause, const G: bool>(
    table: &Table,
    gap: Gap<G>,
    market: &mut Market,
    from: i64,
    budget: &mut Budget<'_, P>,
) -> i64 {
    let mut spread = mean_spread(table, gap, market.keys.as_slice());
    let mut eps = from.min(spread);
    for _ in 0..64 {
        eps = eps.checked_div(EPS_DIVISOR).unwrap_or(0).max(1);
        play(table, gap, market, eps, budget);
        if eps <= last_eps(table, spread) {
            spread = mean_spread(table, gap, market.keys.as_slice());
        }
        if budget.is_spent(market.scanned) {
            return eps;
        }
        if eps <= last_eps(table, spread) || eps <= 1 {
            break;
        }
    }
    market.release();
    eps
}
