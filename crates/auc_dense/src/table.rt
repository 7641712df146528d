//! The arcs of a table of costs.

ghost use Rattle.std.specs.Prelude.{◌≡◌, ◌↔◌, ◌≤◌, ◌<◌, ◌+◌, ◌*◌, ◌^◌, ◌++◌, ℕ, ℤ, List, None, Contains, length, IfOk};
ghost use Rattle.std.specs.Prelude.{IfErr, true};
ghost use Rattle.auc_graph.specs.declared.limits.TheConstants.{MOST_ARCS, MOST_PERSONS, MOST_OBJECTS};
ghost use Rattle.auc_graph.specs.declared.arc.Arc.{Arc};
ghost use Rattle.auc_graph.specs.InMemory.{first_fault};
ghost use Rattle.auc_dense.specs.Table.{IsEntry, IsTable, row_of, row_arcs, table_arcs};
ghost use Rattle.auc_dense.specs.Entries.{IsFirstFault, entry_fault};

use auc_graph::{Arc, ListFault, MOST_ARCS, MOST_COST};
use std::alloc::{AllocError, Global};

/// The greatest number of entries of all rows.
const MOST_ENTRIES: usize = 4_294_967_295;

/// Whether each row lies within so many entries, and all rows have no more than the most.
pub(crate) fn is_table(persons: u32, objects: u32, stride: usize, entries: usize) -> bool
    ensures { result ≡ true ↔ IsTable persons objects stride entries }
{
    let objects = objects as usize;
    if stride < objects {
        return false;
    }
    if persons == 0 {
        return true;
    }
    let Some(all) = objects.checked_mul(persons as usize) else {
        return false;
    };
    if MOST_ENTRIES < all {
        return false;
    }
    match stride.checked_mul(persons as usize - 1) {
        Some(before) => objects <= entries && before <= entries - objects,
        None => false,
    }
}

/// The row of a person.
pub(crate) fn row_of(costs: &[i64], stride: usize, objects: u32, person: u32) -> &[i64]
    requires { person * stride + objects ≤ length costs.now }
    ensures row { result.now ≡ row_of objects costs.now stride person }
    ensures len { length result.now ≡ objects }
{
    let start = person as usize * stride;
    &costs[start..start + objects as usize]
}

/// The fault of an entry, of which there is an arc at this place.
fn entry_fault(place: usize, entry: u32, cost: i64) -> Option<ListFault>
    ensures { result ≡ entry_fault place entry cost }
{
    if MOST_ARCS as usize <= place {
        return Some(ListFault::TooManyArcs);
    }
    if -MOST_COST <= cost && cost <= MOST_COST {
        return None;
    }
    Some(ListFault::Cost { arc: entry })
}

/// The place after a row's arcs, the first of which has the place `before`; or the first fault of one of them.
fn place_behind(
    persons: u32,
    row: &[i64],
    gap: i64,
    person: u32,
    before: usize,
) -> Result<usize, ListFault>
    requires objects { length row.now ≤ MOST_OBJECTS }
    requires entries { persons * length row.now < 2 ^ 32 }
    requires person { person < persons }
    requires before { before ≤ MOST_ARCS }
    ensures place { IfOk result (λ place. place ≡ before + length (row_arcs gap person 0 row.now)) }
    ensures few { IfOk result (λ place. place ≤ MOST_ARCS) }
    ensures faultless { IfOk result (λ place. first_fault persons (length row.now) before
        (row_arcs gap person 0 row.now) ≡ None) }
    ensures fault { IfErr result (IsFirstFault persons (length row.now) before (row_arcs gap person 0 row.now)) }
{
    let first = person * row.len() as u32;
    let mut place = before;
    for object in 0..row.len() {
        let cost = row[object];
        if cost != gap {
            if let Some(fault) = entry_fault(place, first + object as u32, cost) {
                return Err(fault);
            }
            place += 1;
        }
    }
    Ok(place)
}

/// How many arcs a table has; or the first fault of one of them.
pub(crate) fn count_arcs(
    persons: u32,
    objects: u32,
    costs: &[i64],
    stride: usize,
    gap: i64,
) -> Result<usize, ListFault>
    requires persons { persons ≤ MOST_PERSONS }
    requires objects { objects ≤ MOST_OBJECTS }
    requires table { IsTable persons objects stride (length costs.now) }
    ensures count { IfOk result (λ count. count ≡ length (table_arcs objects costs.now stride gap persons)) }
    ensures faultless { IfOk result (λ count. first_fault persons objects 0
        (table_arcs objects costs.now stride gap persons) ≡ None) }
    ensures fault { IfErr result (IsFirstFault persons objects 0 (table_arcs objects costs.now stride gap persons)) }
{
    let mut count = 0;
    for person in 0..persons {
        let row = row_of(costs, stride, objects, person);
        match place_behind(persons, row, gap, person, count) {
            Ok(place) => count = place,
            Err(fault) => return Err(fault),
        }
    }
    Ok(count)
}

fn arc_of(cost: i64, person: u32, object: u32) -> Arc
    ensures cost { result.cost ≡ cost }
    ensures person { result.person ≡ person }
    ensures object { result.object ≡ object }
{
    Arc {
        cost,
        person,
        object,
    }
}

/// Puts the arcs of a row after the others.
fn push_row(arcs: &mut Vec<Arc>, row: &[i64], gap: i64, person: u32) -> Result<(), AllocError>
    requires { length row.now ≤ MOST_OBJECTS }
    ensures { IfOk result (λ u. arcs.new.items ≡ arcs.old.items ++ row_arcs gap person 0 row.now) }
{
    for object in 0..row.len() {
        let cost = row[object];
        if cost != gap {
            arcs.push(arc_of(cost, person, object as u32))?;
        }
    }
    Ok(())
}

/// The arcs of a table, of which there are so many.
pub(crate) fn arcs_of_table(
    alloc: Global,
    persons: u32,
    objects: u32,
    costs: &[i64],
    stride: usize,
    gap: i64,
    count: usize,
) -> Result<Vec<Arc>, AllocError>
    requires objects { objects ≤ MOST_OBJECTS }
    requires table { IsTable persons objects stride (length costs.now) }
    ensures { IfOk result (λ arcs. arcs.items ≡ table_arcs objects costs.now stride gap persons) }
{
    let mut arcs = Vec::with_capacity(alloc, count)?;
    for person in 0..persons {
        push_row(
            &mut arcs,
            row_of(costs, stride, objects, person),
            gap,
            person,
        )?;
    }
    Ok(arcs)
}

/// The arcs of a table are those of its entries that are no gap, and no others: each has the person, the object and the
/// cost of its entry.
pub fn arcs_are_entries()
    ensures { (persons objects stride : ℕ) (costs : List ℤ) (gap : ℤ) (arc : Arc)
        → IsTable persons objects stride (length costs) → Contains (table_arcs objects costs stride gap persons) arc
        ↔ IsEntry persons objects costs stride gap arc }
{}
