//! Whether persons are within eps of the best (epsilon-complementary slackness). The pass over a row ends at the first
//! arc that is better.

ghost use Rattle.std.specs.Prelude.{◌≡◌, ◌≢◌, ◌<◌, ◌≤ℤ◌, false, All, Contains, IsTrue, length};
ghost use Rattle.auc_graph.specs.Price.{IsPrice};
ghost use Rattle.auc_letters.specs.Price.{IsEps};
ghost use Rattle.auc_letters.specs.declared.limits.TheConstants.{NOBODY};
ghost use Rattle.auc_rows.specs.declared.arc.ShortArc.{ShortArc};
ghost use Rattle.auc_rows.specs.Rows.{flat_row_of};
ghost use Rattle.auc_market.specs.Market.{IsSlack, Stands, own_at};
ghost use Rattle.auc_market.specs.Path.{IsWithin};
ghost use Rattle.auc_market.specs.Scan.{IsPricedRow, short_value};
ghost use Rattle.auc_market.specs.Starts.{any_eps};

use crate::holdings::Holdings;
use crate::scan::value_of;
use auc_letters::NOBODY;
use auc_rows::{FlatRows, ShortArc};

/// Whether no arc of a row has a value below this one.
#[inline(never)]
fn none_below(scale: i64, row: &[ShortArc], prices: &[i64], least: i64) -> bool
    requires { IsPricedRow scale prices.now row.now }
    ensures { IsTrue result → All (λ b. least ≤ℤ short_value scale prices.now b) row.now }
{
    for arc in row {
        if value_of(scale, *arc, prices) < least {
            return false;
        }
    }
    true
}

/// Whether an arc of a person's row is within eps of the best at these prices (epsilon-complementary slackness).
pub(crate) fn is_slack(
    rows: &FlatRows,
    eps: i64,
    prices: &[i64],
    person: u32,
    arc: ShortArc,
) -> bool
    requires person { person < length rows.now.rows }
    requires listed { Contains (flat_row_of rows.now person) arc }
    requires many { length prices.now ≡ rows.now.objects }
    requires prices { All IsPrice prices.now }
    requires eps { IsEps eps }
    ensures { IsTrue result → IsSlack rows.now eps prices.now person arc }
{
    let scale = rows.scale();
    let row = rows.row(person);
    let least = value_of(scale, arc, prices) - eps;
    none_below(scale, row, prices, least)
}

impl Holdings {
    /// Whether a person is within eps of the best, where the person has an object.
    pub(crate) fn is_within(&self, rows: &FlatRows, eps: i64, person: u32) -> bool
        requires eps { IsEps eps }
        requires stands { Stands rows.now any_eps self.now.prices.items self.now.holders.items self.now.owns.items }
        ensures yes { IsTrue result → IsWithin rows.now eps self.now.prices.items self.now.owns.items person }
        ensures no { result ≡ false → (own_at self.now.owns.items person).object ≢ NOBODY }
    {
        if person >= rows.persons() {
            return true;
        }
        let own = self.owns[person as usize];
        own.object == NOBODY || is_slack(rows, eps, self.prices.as_slice(), person, own)
    }

    /// Whether each person who has an object is within eps of the best. O(arcs).
    pub(crate) fn all_within(&self, rows: &FlatRows, eps: i64) -> bool
        requires eps { IsEps eps }
        requires stands { Stands rows.now any_eps self.now.prices.items self.now.holders.items self.now.owns.items }
        ensures { IsTrue result → Stands rows.now eps self.now.prices.items self.now.holders.items self.now.owns.items }
    {
        for person in 0..rows.persons() {
            if !self.is_within(rows, eps, person) {
                return false;
            }
        }
        true
    }
}
