//! An assignment of a table, written into the caller's memory.

ghost use Rattle.std.specs.Prelude.{◌≡◌, ◌+◌, pos, All, length, map};
ghost use Rattle.auc_graph.specs.declared.limits.TheConstants.{MOST_PERSONS};
ghost use Rattle.std.specs.Prelude.{◌≤◌};
ghost use Rattle.auc_dense.specs.Tried.{IsPlainPrice, scaled};

use crate::quick::Assignment;
use crate::trying::scale_of;
use auc_claim::Pick;

/// Writes the object of each pick.
fn put_objects(picks: &[Pick], choice: &mut [u32])
    requires { length choice.old ≡ length picks.now }
    ensures { choice.new ≡ map (λ pick. pick.object) picks.now }
{
    for person in 0..picks.len() {
        choice[person] = picks[person].object;
    }
}

/// Writes each price, scaled.
fn put_prices(scale: i64, plain: &[i64], prices: &mut [i64])
    requires plain { All (IsPlainPrice scale) plain.now }
    requires len { length prices.old ≡ length plain.now }
    ensures { prices.new ≡ map (scaled scale) plain.now }
{
    for object in 0..plain.len() {
        prices[object] = scale * plain[object];
    }
}

/// Writes the objects and the scaled prices of an assignment of so many persons.
pub(crate) fn hand_assignment(
    persons: u32,
    found: &Assignment,
    choice: &mut [u32],
    prices: &mut [i64],
)
    requires few { persons ≤ MOST_PERSONS }
    requires choice { length choice.old ≡ length found.now.picks.items }
    requires prices { length prices.old ≡ length found.now.prices.items }
    requires plain { All (IsPlainPrice (pos (persons + 1))) found.now.prices.items }
    ensures choice { choice.new ≡ map (λ pick. pick.object) found.now.picks.items }
    ensures prices { prices.new ≡ map (scaled (pos (persons + 1))) found.now.prices.items }
{
    put_objects(found.picks.as_slice(), choice);
    put_prices(scale_of(persons), found.prices.as_slice(), prices);
}
