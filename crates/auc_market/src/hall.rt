//! Hall violators: persons who together have arcs to fewer objects than they number, by flags of the persons. Nothing
//! is proved of who made the flags: the objects are counted.

ghost use Rattle.std.specs.Prelude.{◌≡◌, All, length, IfOk, IfSome};
ghost use Rattle.auc_rows.specs.Rows.{IsShort};
ghost use Rattle.auc_market.specs.Hall.{AreAdded, AreKnownTo, IsShortHallSet};

use auc_hall::places_of;
use auc_rows::{FlatRows, ShortArc};
use std::alloc::{AllocError, Global};

/// Persons who together have arcs to fewer objects than they number, and these objects, both in rising order.
#[derive(Drop)]
pub struct HallSet {
    pub persons: Vec<u32>,
    pub objects: Vec<u32>,
}

/// Sets the flag of each object of a row.
fn add_row(seen: &mut [bool], row: &[ShortArc])
    requires { All (IsShort (length seen.old)) row.now }
    ensures { AreAdded row.now (length row.now) seen.old seen.new }
{
    for arc in row {
        seen[arc.object as usize] = true;
    }
}

/// For each object, whether a flagged person has an arc to it. O(arcs).
fn known_to(alloc: Global, rows: &FlatRows, is_in: &[bool]) -> Result<Vec<bool>, AllocError>
    requires { length is_in.now ≡ length rows.now.rows }
    ensures { IfOk result (λ v. AreKnownTo rows.now is_in.now (length rows.now.rows) v.items) }
{
    let mut seen = vec![in alloc; false; rows.objects() as usize]?;
    for person in 0..rows.persons() {
        if is_in[person as usize] {
            add_row(seen.as_mut_slice(), rows.row(person));
        }
    }
    Ok(seen)
}

/// The flagged persons, with the objects that they have arcs to. None where these objects are not fewer than the
/// persons.
pub(crate) fn hall_set_of(
    alloc: Global,
    rows: &FlatRows,
    is_in: &[bool],
) -> Result<Option<HallSet>, AllocError>
    requires { length is_in.now ≡ length rows.now.rows }
    ensures { IfOk result (λ o. IfSome o (λ h. IsShortHallSet rows.now h.persons.items h.objects.items)) }
{
    // Read here, so that the proof has the invariant of the rows.
    let _ = rows.persons();
    let seen = known_to(alloc, rows, is_in)?;
    let persons = places_of(alloc, is_in)?;
    let objects = places_of(alloc, seen.as_slice())?;
    if objects.len() < persons.len() {
        Ok(Some(HallSet { persons, objects }))
    } else {
        Ok(None)
    }
}
