//! The spread and the ties of a sample of the rows, at the present prices: by these eps is chosen.

ghost use Rattle.std.specs.Prelude.{◌<◌, length};
ghost use Rattle.auc_market.specs.Eps.{IsEpsOf};

use crate::bid::scaled_spread;
use crate::holdings::Holdings;
use crate::scan::wrapping_value_of;
use auc_letters::LAST_EPS;
use auc_rows::FlatRows;

/// The spread and the ties of a sample of the rows.
#[derive(Clone, Copy)]
pub struct Sample {
    /// The mean spread of a row, in scaled costs, and at least 1: eps of a phase may be as great.
    pub spread: i64,
    /// Whether most persons have two best arcs of the same value.
    pub has_ties: bool,
    /// The number of persons it is of,
    pub persons: u32,
    /// and of those whose best arc isn't of the least value of all.
    pub above: u32,
}

/// The least value of a row, the least of the other arcs, and the greatest.
#[derive(Clone, Copy)]
struct Ends {
    least: i64,
    second: i64,
    greatest: i64,
}

impl Holdings {
    /// The ends of a person's row.
    fn ends_of(&self, rows: &FlatRows, person: u32) -> Ends
        requires { person < length rows.now.rows }
    {
        let mut ends = Ends {
            least: i64::MAX,
            second: i64::MAX,
            greatest: i64::MIN,
        };
        for arc in rows.row(person) {
            let value = wrapping_value_of(rows.scale(), *arc, self.prices.as_slice());
            ends = Ends {
                least: ends.least.min(value),
                second: ends.second.min(value.max(ends.least)),
                greatest: ends.greatest.max(value),
            };
        }
        ends
    }

    /// The spread and the ties of the rows of at least `least` persons, or of all.
    pub(crate) fn sample(&self, rows: &FlatRows, least: u32) -> Sample
        ensures { IsEpsOf rows.now result.spread }
    {
        let apart = rows.persons().checked_div(least).unwrap_or(1).max(1);
        let mut sum = 0i64;
        let mut scanned = 0i64;
        let mut ties = 0i64;
        let mut lowest = i64::MAX;
        let mut above: u32 = 0;
        for person in 0..rows.persons() {
            if person % apart != 0 {
                continue;
            }
            let ends = self.ends_of(rows, person);
            sum = sum.saturating_add(ends.greatest.saturating_sub(ends.least).max(0));
            scanned = scanned.saturating_add(1);
            if ends.least == ends.second {
                ties = ties.saturating_add(1);
            }
            // All before are above a new lowest value.
            if ends.least < lowest {
                lowest = ends.least;
                above = u32::try_from(scanned).unwrap_or(0).saturating_sub(1);
            } else if ends.least > lowest {
                above = above.saturating_add(1);
            }
        }
        let mean = sum.checked_div(scanned).unwrap_or(0);
        Sample {
            spread: mean.min(scaled_spread(rows)).max(LAST_EPS),
            has_ties: ties > scanned / 2,
            above,
            persons: u32::try_from(scanned).unwrap_or(0),
        }
    }
}
