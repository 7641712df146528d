//! Persons of a table who together may have fewer objects than they number (a Hall violator): there is no assignment
//! then.
//!
//! Nothing is proved of the persons that a search proposes, so the objects that they may have are gone through anew.

ghost use Rattle.std.specs.Prelude.{◌≡◌, ℕ, ◌^◌, ◌<◌, ◌≤◌, List, ℤ, IfOk, IfSome, drop, length, take};
ghost use Rattle.auc_graph.specs.Problem.{IsProblem};
ghost use Rattle.auc_graph.specs.Reading.{problem};
ghost use Rattle.auc_dense.specs.Shortage.{AreRowsMarked, IsHallFound, IsRowMarked, ShowShortage};
ghost use Rattle.auc_dense.specs.Table.{IsTable, table_arcs};
ghost use Rattle.auc_dense.specs.Tried.{IsGiven};

use crate::reaching::reached_persons;
use crate::table::row_of;
use auc_call::{Solved, put_front};
use auc_hall::places_of;
use auc_table::{Proposal, Table};
use std::alloc::{AllocError, Global};

/// Persons who together may have fewer objects than they number, and these objects. Both are in rising order.
#[derive(Drop)]
pub(crate) struct Shortage {
    pub(crate) persons: Vec<u32>,
    pub(crate) objects: Vec<u32>,
}

/// Marks the objects that the person of a row may have.
// An entry isn't read where its object is marked.
fn mark_row(row: &[i64], gap: i64, known: &mut [bool])
    requires { length known.old ≡ length row.now }
    ensures { IsRowMarked gap row.now known.old known.new (length row.now) }
{
    for object in 0..row.len() {
        known[object] = known[object] || row[object] != gap;
    }
}

/// For each object, whether a person who is flagged may have it.
fn known_objects(
    alloc: Global,
    table: &Table,
    gap: i64,
    flags: &[bool],
) -> Result<Vec<bool>, AllocError>
    requires table { IsGiven table.now }
    requires flags { length flags.now ≡ table.now.persons }
    ensures { IfOk result (λ known. AreRowsMarked table.now.objects table.now.costs.now table.now.stride gap flags.now
        table.now.persons known.items) }
{
    let mut known = vec![in alloc; false; table.objects as usize]?;
    for person in 0..table.persons {
        if flags[person as usize] {
            let row = row_of(table.costs, table.stride, table.objects, person);
            mark_row(row, gap, known.as_mut_slice());
        }
    }
    Ok(known)
}

/// Persons who together may have fewer objects than they number, where a proposal has nothing for a person, or one
/// that the person may not have. None where there is no such person, or where what can be reached from the first one
/// shows no shortage. If the proposal has as few such persons as can be, each one shows a shortage.
///
/// Each row of a person reached is gone through twice. O(persons * objects) time at most, up to 16 bytes of memory a
/// person and 16 an object.
///
/// # Errors
///
/// Only where memory was refused.
pub(crate) fn find_shortage(
    alloc: Global,
    table: &Table,
    gap: i64,
    proposal: &Proposal,
) -> Result<Option<Shortage>, AllocError>
    requires { IsGiven table.now }
    ensures shown { IfOk result (λ o. IfSome o (λ short. ShowShortage table.now.persons table.now.objects
        table.now.costs.now table.now.stride gap short.persons.items short.objects.items)) }
    ensures persons { IfOk result (λ o. IfSome o (λ short. length short.persons.items ≤ table.now.persons)) }
    ensures fewer { IfOk result (λ o. IfSome o (λ short.
        length short.objects.items < length short.persons.items)) }
{
    let Some(flags) = reached_persons(alloc, table, gap, proposal.objects.as_slice())? else {
        return Ok(None);
    };
    if flags.len() != table.persons as usize {
        return Ok(None);
    }
    let known = known_objects(alloc, table, gap, flags.as_slice())?;
    let persons = places_of(alloc, flags.as_slice())?;
    let objects = places_of(alloc, known.as_slice())?;
    if persons.len() <= objects.len() {
        return Ok(None);
    }
    Ok(Some(Shortage { persons, objects }))
}

/// Writes the persons of a shortage to the front of `choice`, and its objects to the front of `set`.
pub(crate) fn hand_shortage(short: &Shortage, choice: &mut [u32], set: &mut [u32]) -> Solved
    requires persons { length short.now.persons.items ≤ length choice.old }
    requires objects { length short.now.objects.items ≤ length set.old }
    requires choice { length choice.old < 2 ^ 32 }
    requires set { length set.old < 2 ^ 32 }
    ensures { (persons objects : ℕ) (costs : List ℤ) (stride : ℕ) (gap : ℤ)
        → IsProblem (problem persons objects (table_arcs objects costs stride gap persons))
        → IsTable persons objects stride (length costs)
        → ShowShortage persons objects costs stride gap short.now.persons.items short.now.objects.items
        → IsHallFound (problem persons objects (table_arcs objects costs stride gap persons))
        choice.old choice.new set.old set.new result }
{
    let persons = short.persons.as_slice();
    let objects = short.objects.as_slice();
    put_front(persons, choice);
    put_front(objects, set);
    Solved::Infeasible {
        persons: persons.len() as u32,
        objects: objects.len() as u32,
    }
}
