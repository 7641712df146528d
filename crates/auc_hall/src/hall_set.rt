//! The Hall violator of a search that found no free object: the persons that it reached, and the objects that it saw.

ghost use Rattle.std.specs.Prelude.{◌≡◌, ◌<◌, ◌^◌, length, IfOk};
ghost use Rattle.auc_hall.specs.Matching.{IsHall, IsMatching};
ghost use Rattle.auc_hall.specs.Search.{AreKnown, AreSeen, AreWalked};
ghost use Rattle.auc_hall.specs.Chosen.{places, AreReached, ArePersons};

use crate::matching::Matching;
use crate::search::Reached;
use auc_graph::{Indices, Rows};
use std::alloc::{AllocError, Global};

/// The places of the flags that are set, in rising order. O(flags) time, and memory of what is answered.
///
/// # Errors
///
/// Only where memory was refused.
pub fn places_of(alloc: Global, flags: &[bool]) -> Result<Vec<u32>, AllocError>
    requires { length flags.now < 2 ^ 32 }
    ensures { IfOk result (λ v. v.items ≡ places 0 flags.now) }
{
    let mut out = Vec::new(alloc);
    for i in 0..flags.len() {
        if !flags[i] {
            continue;
        }
        out.push(i as u32)?;
    }
    Ok(out)
}

/// For each of `persons` persons, whether the search reached that person.
fn reached_flags(alloc: Global, queue: &[Reached], persons: usize) -> Result<Vec<bool>, AllocError>
    requires { ArePersons queue.now persons }
    ensures { IfOk result (λ v. AreReached queue.now persons v.items) }
{
    let mut flags = vec![in alloc; false; persons]?;
    for entry in queue {
        flags[entry.person as usize] = true;
    }
    Ok(flags)
}

/// The persons that were reached, and the objects that were seen.
pub(crate) fn hall_set(
    alloc: Global,
    rows: &Rows,
    seen: &[bool],
    queue: &[Reached],
) -> Result<Matching, AllocError>
    requires persons { ArePersons queue.now (length rows.now.rows) }
    requires known { AreKnown rows.now queue.now }
    requires seen { AreSeen rows.now queue.now seen.now }
    requires walked { AreWalked rows.now queue.now seen.now (length queue.now) }
    requires few { length seen.now < 2 ^ 32 }
    ensures matching { IfOk result (IsMatching rows.now) }
    ensures hall { IfOk result IsHall }
{
    let flags = reached_flags(alloc, queue, rows.persons() as usize)?;
    let persons = places_of(alloc, flags.as_slice())?;
    let objects = places_of(alloc, seen)?;
    Ok(Matching::Hall {
        persons: Indices::new(persons),
        objects: Indices::new(objects),
    })
}
