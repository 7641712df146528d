//! The spread of the costs.

ghost use Rattle.std.specs.Prelude.{◌≤◌, ◌*◌, ◌^◌, All, pos, neg_ℤ, ◌≤ℤ◌};
ghost use Rattle.auc_graph.specs.Row.{IsSpread};

use crate::arc::Arc;
use crate::limits::MOST_COST;

/// The greatest minus the least cost, and 0 where there is no arc.
pub(crate) fn spread_of(arcs: &[Arc]) -> i64
    requires { All (λ a. (neg_ℤ MOST_COST ≤ℤ a.cost) × (a.cost ≤ℤ MOST_COST)) arcs.now }
    ensures is { IsSpread arcs.now result }
    ensures low { pos 0 ≤ℤ result }
    ensures high { result ≤ℤ pos (2 * 10 ^ 9) }
{
    let Some(first) = arcs.first() else {
        return 0;
    };
    let mut least = first.cost;
    let mut greatest = first.cost;
    for arc in arcs {
        least = least.min(arc.cost);
        greatest = greatest.max(arc.cost);
    }
    greatest - least
}
