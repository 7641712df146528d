//! The blocks of the long rows of a shard's persons.

ghost use Rattle.std.specs.Prelude.{◌≡◌, ◌<◌, ◌*◌, List, ℕ, ℤ, length, IfOk, IfSome};
ghost use Rattle.auc_persons.specs.Blocks.{AreAppended};
ghost use Rattle.auc_persons.specs.Candidates.{Kept};
ghost use Rattle.auc_persons.specs.Priced.{KeptAt, IsScanOf};

use crate::bidder::bound::{BLOCK, Blocked, Bound, NO_BOUND};
use crate::bidder::lists::{has_list, lists_wanted};
use crate::bidder::lists_by_blocks::scan_and_list;
use crate::bidder::method::LONG_ROW;
use crate::bidder::person_row::PersonRow;
use crate::bidder::scan::Scan;
use crate::bidder::shortlist::Shortlist;
use auc_graph::Rows;
use std::alloc::{AllocError, Global};
use std::marker::Model;
use std::snapshot::Snapshot;

/// A bound for each block of 16 arcs of the long rows. They are of the rows that they were made for, and stay right as
/// long as no copy falls.
#[derive(Drop)]
pub(crate) struct Blocks {
    // The rows that they were made for. A snapshot takes no bytes.
    made: Snapshot<Rows>,
    persons: Vec<Blocked>,
    bounds: Vec<Bound>,
}

impl Model for Blocks {
    ghost use Rattle.std.specs.Prelude.{List, All, map, ◌++◌};
    ghost use Rattle.auc_persons.specs.Blocks.{AreNumbered, HasArcs, of_blocked, of_bound};
    ghost use Rattle.auc_persons.specs.Candidates.{Listed};

    ghost Value = { List Listed };

    ghost view = { λ b. map (of_blocked b.made.value) b.persons.items ++ map (of_bound b.made.value) b.bounds.items };

    ghost invariant = { λ b. All (HasArcs b.made.value) b.persons.items
        × All (AreNumbered b.bounds.items) b.persons.items };
}

/// The number of blocks of a row of so many arcs.
fn blocks_of(arcs: usize) -> usize
    ensures each { (k : ℕ) → k < result → 16 * k < arcs }
    ensures all { (k : ℕ) → 256 < arcs → 16 * k < arcs → k < result }
{
    if arcs <= LONG_ROW {
        return 0;
    }
    (arcs - 1) / BLOCK + 1
}

/// Appends the bounds of a person's blocks, which nobody has scanned yet.
fn append_bounds(person: u32, blocks: usize, bounds: &mut Vec<Bound>) -> Result<(), AllocError>
    ensures { IfOk result (λ _. AreAppended person blocks bounds.old.items bounds.new.items) }
{
    for block in 0..blocks {
        bounds.push(Bound {
            least: NO_BOUND,
            person: Snapshot::of(&person),
            block: Snapshot::of(&block),
        })?;
    }
    Ok(())
}

impl Blocks {
    /// Blocks for the persons of shard number `shard` of `of` who have lists, with no bounds yet.
    pub(crate) fn make(
        alloc: Global,
        rows: &Rows,
        shard: u32,
        of: u32,
    ) -> Result<Blocks, AllocError>
        requires { shard < of }
        ensures kept { IfOk result (λ b. (copies : List ℤ) → Kept rows.now copies b) }
    {
        let mut persons = Vec::with_capacity(alloc, lists_wanted(rows, shard, of))?;
        let mut bounds = Vec::new(alloc);
        for person in 0..rows.persons() {
            if has_list(rows, person, shard, of) {
                let row = rows.row(person);
                persons.push(Blocked {
                    person,
                    arcs: row.len() as u32,
                    start: bounds.len(),
                })?;
                append_bounds(person, blocks_of(row.len()), &mut bounds)?;
            }
        }
        Ok(Blocks {
            made: Snapshot::of(rows),
            persons,
            bounds,
        })
    }

    /// The best arc of a person who has blocks; they make the list of a very long row anew. `place` is the place of the
    /// person's list.
    pub(crate) fn scan(
        &mut self,
        own: PersonRow,
        place: u32,
        lists: &mut [Shortlist],
    ) -> Option<Scan>
        requires kept { KeptAt own self.old }
        requires lists { KeptAt own lists.old }
        ensures some { IfSome result (IsScanOf own.entry) }
        ensures kept { KeptAt own.entry self.new }
        ensures lists { KeptAt own.entry lists.new }
        ensures length { length lists.new ≡ length lists.old }
    {
        let place = place as usize;
        if place >= self.persons.len() || place >= lists.len() {
            return None;
        }
        let blocked = self.persons[place];
        let arcs = own.rows.row(own.person).len();
        if blocked.person != own.person || blocked.arcs as usize != arcs || arcs <= LONG_ROW {
            return None;
        }
        let list = &mut lists[place];
        if list.person() != own.person {
            return None;
        }
        scan_and_list(own, &self.made, blocked, self.bounds.as_mut_slice(), list)
    }
}
