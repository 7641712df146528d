//! Eps by phases (epsilon scaling): first an eighth of the scaled spread of all costs, then a fifth of the last eps,
//! down to 1.

ghost use Rattle.std.specs.Prelude.{◌≡◌, pos, ◌*◌, ◌^◌, ◌≤ℤ◌, ◌<ℤ◌, IfSome};
ghost use Rattle.auc_letters.specs.Price.{IsEps};
ghost use Rattle.auc_phases.specs.Eps.{first_eps, next_eps, scaled_spread};

use auc_graph::Rows;
use auc_letters::LAST_EPS;

/// The first eps is the scaled spread of all costs divided by this.
pub const FIRST_PART: i64 = 8;

/// The next eps is the last one divided by this.
pub const NEXT_PART: i64 = 5;

/// The spread of all costs, in scaled costs.
fn scaled_spread(rows: &Rows) -> i64
    ensures is { result ≡ scaled_spread rows.now }
    ensures low { pos 0 ≤ℤ result }
    ensures high { result ≤ℤ pos (2 ^ 53) }
{
    let scale = i64::from(rows.persons()) + 1;
    scale * rows.cost_spread()
}

/// The eps of the first phase, in scaled costs: an eighth of the scaled spread of all costs, rounded down, but not
/// below 1. Where there are more objects than persons it is 1, so that the first phase is the only one. A later phase
/// would begin with prices of objects that nobody holds, and leave some of them unsold. O(1).
pub fn first_eps(rows: &Rows) -> i64
    ensures is { result ≡ first_eps rows.now }
    ensures range { IsEps result }
{
    if rows.persons() < rows.objects() {
        return LAST_EPS;
    }
    LAST_EPS.max(scaled_spread(rows) / FIRST_PART)
}

/// The eps of the phase after one at `eps`, both in scaled costs: a fifth of it, rounded down, and at least 1. None
/// after the last phase, at 1 and below. O(1).
pub fn next_eps(eps: i64) -> Option<i64>
    ensures is { result ≡ next_eps eps }
    ensures range { IsEps eps → IfSome result IsEps }
    ensures falls { IfSome result (λ next. next <ℤ eps) }
{
    if eps <= LAST_EPS {
        return None;
    }
    Some(LAST_EPS.max(eps / NEXT_PART))
}
