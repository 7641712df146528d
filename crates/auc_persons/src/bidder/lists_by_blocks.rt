//! A candidate list of a very long row, made by its blocks.
//!
//! The blocks have decided the bid, so the second-best value of the whole row is known. A block whose bound is not
//! below that of the new list has no arc for it.

ghost use Rattle.std.specs.Prelude.{true, false, ◌≡◌, ◌<◌, ◌≤◌, ◌+◌, ◌^◌, [], pos, neg_ℤ, ◌<ℤ◌, ◌≤ℤ◌, IfSome, length};
ghost use Rattle.std.specs.Prelude.{take};
ghost use Rattle.auc_graph.specs.Table.{row_of};
ghost use Rattle.auc_persons.specs.Blocks.{Above, AreNumbered, AreOfSame, AreRight};
ghost use Rattle.auc_persons.specs.Candidates.{Gathered, Keeps, KeepsListed};
ghost use Rattle.auc_persons.specs.Scan.{endless, IsValue};
ghost use Rattle.auc_persons.specs.Priced.{IsScanOf, arcs_of, value_in, value_to};

use crate::bidder::bound::{BLOCK, Blocked, Bound};
use crate::bidder::bounded::{next_within, scan_blocks};
use crate::bidder::least::least_of;
use crate::bidder::method::VERY_LONG_ROW;
use crate::bidder::person_row::PersonRow;
use crate::bidder::priced_row::PricedRow;
use crate::bidder::scan::Scan;
use crate::bidder::shortlist::Shortlist;
use auc_graph::Rows;
use std::snapshot::Snapshot;

impl Shortlist {
    /// Takes the arcs below a bound of the block that begins here, whose values are at least `least`; no arc at all
    /// where they are too many.
    #[inline]
    fn take_block(&mut self, row: PricedRow, bound: i64, from: usize, least: i64) -> bool
        requires within { from ≤ length row.arcs.now }
        requires least { Above (value_in row) row.arcs.now from (from + 16) least }
        requires gathered { Gathered (value_in row) (take from row.arcs.now) self.old.arcs bound }
        ensures taken { result ≡ true → Gathered (value_in row.entry) (take (from + 16) row.entry.arcs.now)
            self.new.arcs bound }
        ensures none { result ≡ false → self.new.arcs ≡ [] }
        ensures bound { self.new.bound ≡ self.old.bound }
        ensures person { self.new.person ≡ self.old.person }
    {
        if least >= bound {
            return true;
        }
        let to = from + BLOCK.min(row.arcs.len() - from);
        self.take_part(row, bound, from, to)
    }
}

/// Takes the arcs of a long row that are below a bound; none where they are too many. The bound of each block that is
/// scanned becomes its least value.
// Not inlined, so that the loop has the registers for itself.
#[inline(never)]
fn fill_by_blocks(
    own: PersonRow,
    _made: &Snapshot<Rows>,
    blocked: Blocked,
    bounds: &mut [Bound],
    list: &mut Shortlist,
    bound: i64,
) -> bool
    requires long { 256 < length (arcs_of own) }
    requires same { row_of _made.now.value own.person ≡ arcs_of own }
    requires person { blocked.person ≡ own.person }
    requires arcs { blocked.arcs ≡ length (arcs_of own) }
    requires numbered { AreNumbered bounds.old blocked }
    requires right { AreRight _made.now.value own.rows.now own.copies.now bounds.old }
    requires low { neg_ℤ (pos (2 ^ 52)) <ℤ bound }
    requires high { bound ≤ℤ pos (2 ^ 62) }
    ensures keeps { Keeps (value_to own.entry) (arcs_of own.entry) list.new.arcs list.new.bound }
    ensures owner { list.new.person ≡ list.old.person }
    ensures right { AreRight _made.now.value own.entry.rows.now own.entry.copies.now bounds.new }
    ensures same { AreOfSame bounds.old bounds.new }
{
    let row = PricedRow::of(own);
    let start = blocked.start;
    let count = (row.arcs.len() - 1) / BLOCK + 1;
    list.begin(bound);
    // Never so; tested once, in place of a proof for each read of a bound.
    if start > bounds.len() || count > bounds.len() - start {
        return false;
    }
    let limit = bound - 1;
    let mut block = next_within(bounds, start, 0, count, limit);
    while block < count {
        let from = block * BLOCK;
        let least = least_of(row, from);
        bounds[start + block].least = least;
        if !list.take_block(row, bound, from, least) {
            return false;
        }
        block = next_within(bounds, start, block + 1, count, limit);
    }
    true
}

/// Makes the list of a person with a very long row anew, with a bound above the second-best value of the row.
fn list_anew(
    own: PersonRow,
    made: &Snapshot<Rows>,
    blocked: Blocked,
    bounds: &mut [Bound],
    list: &mut Shortlist,
    second: i64,
)
    requires long { 256 < length (arcs_of own) }
    requires same { row_of made.now.value own.person ≡ arcs_of own }
    requires person { blocked.person ≡ own.person }
    requires arcs { blocked.arcs ≡ length (arcs_of own) }
    requires numbered { AreNumbered bounds.old blocked }
    requires right { AreRight made.now.value own.rows.now own.copies.now bounds.old }
    requires second { second <ℤ endless → IsValue second }
    requires owner { list.old.person ≡ own.person }
    requires keeps { KeepsListed own.rows.now own.copies.now list.old }
    ensures keeps { KeepsListed own.entry.rows.now own.entry.copies.now list.new }
    ensures right { AreRight made.now.value own.entry.rows.now own.entry.copies.now bounds.new }
    ensures same { AreOfSame bounds.old bounds.new }
{
    if blocked.arcs as usize <= VERY_LONG_ROW {
        return;
    }
    if second == i64::MAX {
        return;
    }
    let bound = list.bound_above(second);
    let fitted = fill_by_blocks(own, made, blocked, bounds, list, bound);
    list.adapt(fitted);
}

/// The best arc of a person with a long row, by the blocks. Where the row is very long, they make the list anew.
#[tactic(auto, using(crate::proofs::BlockNumbers::same_then))]
pub(crate) fn scan_and_list(
    own: PersonRow,
    made: &Snapshot<Rows>,
    blocked: Blocked,
    bounds: &mut [Bound],
    list: &mut Shortlist,
) -> Option<Scan>
    requires long { 256 < length (arcs_of own) }
    requires same { row_of made.now.value own.person ≡ arcs_of own }
    requires person { blocked.person ≡ own.person }
    requires arcs { blocked.arcs ≡ length (arcs_of own) }
    requires numbered { AreNumbered bounds.old blocked }
    requires right { AreRight made.now.value own.rows.now own.copies.now bounds.old }
    requires owner { list.old.person ≡ own.person }
    requires keeps { KeepsListed own.rows.now own.copies.now list.old }
    ensures some { IfSome result (IsScanOf own.entry) }
    ensures keeps { KeepsListed own.entry.rows.now own.entry.copies.now list.new }
    ensures right { AreRight made.now.value own.entry.rows.now own.entry.copies.now bounds.new }
    ensures same { AreOfSame bounds.old bounds.new }
{
    // The list's best and second-best values are bounds of the row's, by which more blocks are skipped.
    let known = list.listed(PricedRow::of(own));
    let found = scan_blocks(own, made, blocked, known, bounds)?;
    list_anew(own, made, blocked, bounds, list, found.second);
    Some(found)
}
