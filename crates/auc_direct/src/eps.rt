//! The values of eps of the phases (epsilon scaling), in scaled costs.

ghost use Rattle.std.specs.Prelude.{◌≡◌, ◌^◌, pos, ◌<ℤ◌, ◌≤ℤ◌, IfSome, IfNone};
ghost use Rattle.auc_market.specs.Eps.{IsEpsOf};

use auc_graph::MOST_OBJECTS;
use auc_market::LAST_EPS;
use auc_rows::FlatRows;
use auc_table::EPS_DIVISOR;

/// The square root of the greatest number of objects, which a row is taken to have no more arcs than.
const MOST_ROOT: i64 = 2_048;

/// The mean number of arcs of a row.
fn mean_arcs(rows: &FlatRows) -> i64
    ensures low { pos 1 ≤ℤ result }
    ensures high { result ≤ℤ pos (2 ^ 22) }
{
    let mean = rows
        .arc_count()
        .checked_div(rows.persons() as usize)
        .unwrap_or(1)
        .clamp(1, MOST_OBJECTS as usize);
    mean as i64
}

/// The square root of a mean number of arcs, rounded up.
fn root_of(number: i64) -> i64
    ensures { pos 1 ≤ℤ result }
{
    for root in 1..MOST_ROOT {
        if root.saturating_mul(root) >= number {
            return root.max(1);
        }
    }
    MOST_ROOT
}

/// The mean spread of a row, divided by the mean number of its arcs, and at least 1. Where costs are random, this is
/// the difference between neighbouring costs.
pub(crate) fn fine_eps(rows: &FlatRows, spread: i64) -> i64
    requires { IsEpsOf rows.now spread }
    ensures { IsEpsOf rows.now result }
{
    (spread / mean_arcs(rows)).max(LAST_EPS)
}

/// The mean spread of a row, divided by the square root of the mean number of its arcs, and at least 1. It is for a run
/// whose first eps was too fine.
pub(crate) fn coarse_eps(rows: &FlatRows, spread: i64) -> i64
    requires { IsEpsOf rows.now spread }
    ensures { IsEpsOf rows.now result }
{
    (spread / root_of(mean_arcs(rows))).max(LAST_EPS)
}

/// An eighth of this eps, and at least 1; none after 1.
pub(crate) fn next_eps(eps: i64) -> Option<i64>
    requires { pos 1 ≤ℤ eps }
    ensures low { IfSome result (λ next. pos 1 ≤ℤ next) }
    ensures less { IfSome result (λ next. next <ℤ eps) }
    ensures last { IfNone result (eps ≡ pos 1) }
{
    if eps <= LAST_EPS {
        return None;
    }
    let eighth = eps / EPS_DIVISOR;
    Some(if eighth < LAST_EPS { LAST_EPS } else { eighth })
}
