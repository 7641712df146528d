//! A person's best arc, in a pass over the row that skips blocks whose bound is too high.

ghost use Rattle.std.specs.Prelude.{◌≡◌, ◌<◌, ◌≤◌, ◌+◌, ◌<ℤ◌, ◌≤ℤ◌, length, slice_index_or, IfSome, ℕ};
ghost use Rattle.std.specs.List.{AllWithin};
ghost use Rattle.auc_graph.specs.Table.{row_of};
ghost use Rattle.auc_graph.specs.declared.rows.RowArc.{RowArc};
ghost use Rattle.auc_persons.specs.Blocks.{Above, AreNumbered, AreOfSame, AreRight};
ghost use Rattle.auc_persons.specs.Search.{Covers, IsFound, IsLimit};
ghost use Rattle.auc_persons.specs.Priced.{IsScanOf, arcs_of, value_in, value_to};

use crate::bidder::bound::{BLOCK, Blocked, Bound};
use crate::bidder::least::least_of;
use crate::bidder::person_row::PersonRow;
use crate::bidder::priced_row::PricedRow;
use crate::bidder::scan::Scan;
use crate::bidder::search::{Search, begun};
use auc_graph::Rows;
use std::snapshot::Snapshot;

/// A search with the arcs of a row from one place to another taken in.
#[inline]
fn with_part(row: PricedRow, begun: Search, from: usize, to: usize) -> Search
    requires within { to ≤ length row.arcs.now }
    requires found { IsFound (value_in row) row.arcs.now begun.scan }
    requires limit { IsLimit begun.scan begun.limit }
    ensures found { IsFound (value_in row.entry) row.entry.arcs.now result.scan }
    ensures limit { IsLimit result.scan result.limit }
    ensures kept { (b : RowArc) → Covers (value_in row.entry) begun.scan b → Covers (value_in row.entry) result.scan b }
    ensures covered { AllWithin (Covers (value_in row.entry) result.scan) row.entry.arcs.now from to }
{
    let mut search = begun;
    for place in from..to {
        let value = row.value(place);
        if value <= search.limit {
            search = search.with(row.arcs[place], value);
        }
    }
    search
}

/// A search with the arcs of a block taken in, none of which has a value below this one. Most blocks change nothing,
/// and are skipped by one test.
#[inline]
fn with_block(row: PricedRow, begun: Search, from: usize, least: i64) -> Search
    requires within { from ≤ length row.arcs.now }
    requires found { IsFound (value_in row) row.arcs.now begun.scan }
    requires limit { IsLimit begun.scan begun.limit }
    requires least { Above (value_in row) row.arcs.now from (from + 16) least }
    ensures found { IsFound (value_in row.entry) row.entry.arcs.now result.scan }
    ensures limit { IsLimit result.scan result.limit }
    ensures kept { (b : RowArc) → Covers (value_in row.entry) begun.scan b → Covers (value_in row.entry) result.scan b }
    ensures covered { (k : ℕ) (d : RowArc) → from ≤ k → k < from + 16 → k < length row.entry.arcs.now
        → Covers (value_in row.entry) result.scan (slice_index_or row.entry.arcs.now k d) }
{
    if least > begun.limit {
        return begun;
    }
    let to = from + BLOCK.min(row.arcs.len() - from);
    with_part(row, begun, from, to)
}

/// The next block from this one on whose bound is not above a limit; the number of blocks where there is none.
#[inline(always)]
pub(crate) fn next_within(
    bounds: &[Bound],
    start: usize,
    from: usize,
    count: usize,
    limit: i64,
) -> usize
    requires within { start + count ≤ length bounds.now }
    requires from { from ≤ count }
    ensures low { from ≤ result }
    ensures high { result ≤ count }
    ensures above { (b : ℕ) (d : Bound) → from ≤ b → b < result → limit
        <ℤ (slice_index_or bounds.now (start + b) d).least }
    ensures here { (d : Bound) → result < count → (slice_index_or bounds.now (start + result) d).least ≤ℤ limit }
{
    for block in from..count {
        if bounds[start + block].least <= limit {
            return block;
        }
    }
    count
}

/// The best arc of a person with a long row, in one pass over the blocks. It begins with what is known of some arcs of
/// the row. The bound of each block that is scanned becomes its least value.
// Not inlined, so that the loop has the registers for itself.
#[inline(never)]
pub(crate) fn scan_blocks(
    own: PersonRow,
    _made: &Snapshot<Rows>,
    blocked: Blocked,
    known: Option<Scan>,
    bounds: &mut [Bound],
) -> Option<Scan>
    requires long { 256 < length (arcs_of own) }
    requires same { row_of _made.now.value own.person ≡ arcs_of own }
    requires person { blocked.person ≡ own.person }
    requires arcs { blocked.arcs ≡ length (arcs_of own) }
    requires numbered { AreNumbered bounds.old blocked }
    requires right { AreRight _made.now.value own.rows.now own.copies.now bounds.old }
    requires known { IfSome known (IsFound (value_to own) (arcs_of own)) }
    ensures some { IfSome result (IsScanOf own.entry) }
    ensures right { AreRight _made.now.value own.entry.rows.now own.entry.copies.now bounds.new }
    ensures same { AreOfSame bounds.old bounds.new }
{
    let row = PricedRow::of(own);
    let start = blocked.start;
    let count = (row.arcs.len() - 1) / BLOCK + 1;
    // Never so; tested once, in place of a proof for each read of a bound.
    if start > bounds.len() || count > bounds.len() - start {
        return None;
    }
    let mut search = begun(row, known)?;
    let mut block = next_within(bounds, start, 0, count, search.limit);
    while block < count {
        let from = block * BLOCK;
        let least = least_of(row, from);
        bounds[start + block].least = least;
        search = with_block(row, search, from, least);
        block = next_within(bounds, start, block + 1, count, search.limit);
    }
    Some(search.scan)
}
