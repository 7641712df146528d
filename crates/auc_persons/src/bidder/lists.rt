//! The candidate lists of a shard's persons: each person with a long row has one.

ghost use Rattle.std.specs.Prelude.{◌≡◌, ◌<◌, List, ℤ, length, IfOk, IfSome};
ghost use Rattle.auc_persons.specs.Candidates.{Kept};
ghost use Rattle.auc_persons.specs.Priced.{KeptAt, IsScanOf};

use crate::bidder::amount::scaled;
use crate::bidder::method::SHORT_ROW;
use crate::bidder::person_row::PersonRow;
use crate::bidder::priced_row::PricedRow;
use crate::bidder::scan::{Scan, scale_of};
use crate::bidder::shortlist::Shortlist;
use auc_graph::Rows;
use std::alloc::{AllocError, Global};

/// The number of arcs that a list should have.
const WANTED_CANDIDATES: i64 = 11;

/// Whether a person is of shard number `shard` of `of`, and has a list.
pub(crate) fn has_list(rows: &Rows, person: u32, shard: u32, of: u32) -> bool
    requires known { person < length rows.now.rows }
    requires shard { shard < of }
{
    person % of == shard && rows.row(person).len() > SHORT_ROW
}

/// The number of persons of shard number `shard` of `of` who have lists.
pub(crate) fn lists_wanted(rows: &Rows, shard: u32, of: u32) -> usize
    requires { shard < of }
{
    let mut count = 0;
    for person in 0..rows.persons() {
        if has_list(rows, person, shard, of) {
            count += 1;
        }
    }
    count
}

/// How far the first bound of a person should be above the second-best value.
fn first_delta(rows: &Rows, person: u32) -> i64
    requires { person < length rows.now.rows }
{
    let arcs = rows.row(person).len() as i64;
    scaled(scale_of(rows.persons()), rows.cost_spread()) / (arcs + 1) * WANTED_CANDIDATES
}

/// Empty lists for the persons of shard number `shard` of `of`.
pub(crate) fn lists_of(
    alloc: Global,
    rows: &Rows,
    shard: u32,
    of: u32,
) -> Result<Vec<Shortlist>, AllocError>
    requires { shard < of }
    ensures kept { IfOk result (λ v. (copies : List ℤ) → Kept rows.now copies v.items) }
{
    let mut lists = Vec::with_capacity(alloc, lists_wanted(rows, shard, of))?;
    for person in 0..rows.persons() {
        if has_list(rows, person, shard, of) {
            lists.push(Shortlist::new(person, first_delta(rows, person)))?;
        }
    }
    Ok(lists)
}

/// The best arc of a person, where the list decides it. `place` is the place of the list.
// Inlined: the person, the rows and the copies stay in registers; `uniform 128` takes 0.94 of the instructions.
#[inline(always)]
pub(crate) fn scan_list(lists: &mut [Shortlist], own: PersonRow, place: u32) -> Option<Scan>
    requires kept { KeptAt own lists.old }
    ensures some { IfSome result (IsScanOf own.entry) }
    ensures kept { KeptAt own.entry lists.new }
    ensures length { length lists.new ≡ length lists.old }
{
    let place = place as usize;
    if place >= lists.len() {
        return None;
    }
    let row = PricedRow::of(own);
    let list = &mut lists[place];
    if list.person() != own.person {
        return None;
    }
    list.scan(row)
}
