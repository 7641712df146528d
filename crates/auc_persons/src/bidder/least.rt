//! The least value of the arcs of a block.
//!
//! It is found in a pass of its own, with no branch: nearly always it shows that no arc of the block matters.

ghost use Rattle.std.specs.Prelude.{◌≤◌, ◌+◌, length};
ghost use Rattle.auc_persons.specs.Blocks.{Above};
ghost use Rattle.auc_persons.specs.Priced.{value_in};

use crate::bidder::bound::BLOCK;
use crate::bidder::priced_row::PricedRow;

/// A lower bound of the values of a whole block, which begins here.
#[inline(always)]
fn least_of_whole(row: PricedRow, from: usize) -> i64
    requires within { from + 16 ≤ length row.arcs.now }
    ensures { Above (value_in row.entry) row.entry.arcs.now from (from + 16) result }
{
    let mut least = i64::MAX;
    // A fixed number of arcs: LLVM unrolls the loop, which then has no test of an end.
    for number in 0..BLOCK {
        least = least.min(row.value(from + number));
    }
    least
}

/// A lower bound of the values of a row from one place to another.
fn least_of_part(row: PricedRow, from: usize, to: usize) -> i64
    requires within { to ≤ length row.arcs.now }
    ensures { Above (value_in row.entry) row.entry.arcs.now from to result }
{
    let mut least = i64::MAX;
    for place in from..to {
        least = least.min(row.value(place));
    }
    least
}

/// The least value of the arcs of the block that begins here; the last block of a row may be shorter.
// Inlined: else the row would go through memory at each block.
#[inline(always)]
pub(crate) fn least_of(row: PricedRow, from: usize) -> i64
    requires within { from ≤ length row.arcs.now }
    ensures { Above (value_in row.entry) row.entry.arcs.now from (from + 16) result }
{
    if row.arcs.len() - from >= BLOCK {
        return least_of_whole(row, from);
    }
    least_of_part(row, from, row.arcs.len())
}
