//! Which persons alternating paths lead to, from one for whom a choice has nothing.
//!
//! A person may have the objects of the entries that are no gap. A path goes from a person to an object that the person
//! may have, and from there to its holder, if that person may have it. Nothing is proved of the search.

ghost use Rattle.std.specs.Prelude.{◌<◌};
ghost use Rattle.auc_dense.specs.Tried.{IsGiven};

use crate::table::row_of;
use auc_table::Table;
use std::alloc::{AllocError, Global};

/// The persons whom paths lead to.
#[derive(Drop)]
struct Reached {
    /// For each person, whether a path leads there.
    flags: Vec<bool>,
    /// These persons, in the order in which they were reached.
    queue: Vec<u32>,
}

impl Reached {
    /// Nobody of so many persons.
    fn new(alloc: Global, persons: usize) -> Result<Self, AllocError> {
        Ok(Reached {
            flags: vec![in alloc; false; persons]?,
            queue: Vec::with_capacity(alloc, persons)?,
        })
    }

    /// Reaches a person. False where there is no such person.
    fn reach(&mut self, person: u32) -> Result<bool, AllocError> {
        let place = person as usize;
        if place >= self.flags.len() {
            return Ok(false);
        }
        if !self.flags[place] {
            self.flags[place] = true;
            self.queue.push(person)?;
        }
        Ok(true)
    }

    /// Reaches the holders of the objects that a row's person may have, and marks these as seen. False where nobody
    /// holds one of them.
    fn reach_holders(
        &mut self,
        row: &[i64],
        gap: i64,
        holders: &[u32],
        seen: &mut [bool],
    ) -> Result<bool, AllocError> {
        let places = row.len().min(holders.len()).min(seen.len());
        for object in 0..places {
            if seen[object] || row[object] == gap {
                continue;
            }
            seen[object] = true;
            if !self.reach(holders[object])? {
                return Ok(false);
            }
        }
        Ok(true)
    }
}

/// The object that a choice gives a person, where the person may have it.
fn object_of(table: &Table, gap: i64, choice: &[u32], person: u32) -> Option<u32>
    requires table { IsGiven table.now }
    requires person { person < table.now.persons }
{
    let object = choice.get(person as usize).copied()?;
    let row = row_of(table.costs, table.stride, table.objects, person);
    match row.get(object as usize) {
        Some(cost) if *cost != gap => Some(object),
        _ => None,
    }
}

/// The first person who has no object that the person may have.
fn first_without(table: &Table, gap: i64, choice: &[u32]) -> Option<u32>
    requires { IsGiven table.now }
{
    for person in 0..table.persons {
        if object_of(table, gap, choice, person).is_none() {
            return Some(person);
        }
    }
    None
}

/// For each object the person who has it and may; a number above all persons where there is none.
fn holders_of(
    alloc: Global,
    table: &Table,
    gap: i64,
    choice: &[u32],
) -> Result<Vec<u32>, AllocError>
    requires { IsGiven table.now }
{
    let mut holders = vec![in alloc; u32::MAX; table.objects as usize]?;
    for person in 0..table.persons {
        let Some(object) = object_of(table, gap, choice, person) else {
            continue;
        };
        if (object as usize) < holders.len() {
            holders[object as usize] = person;
        }
    }
    Ok(holders)
}

/// For each person, whether alternating paths lead there from the first one who has no object that the person may have.
/// None where there is no such person, or a path leads to an object that has no holder.
///
/// Each row of a person reached is gone through once. O(persons * objects) time at most, 5 bytes of memory a person and
/// 5 an object.
///
/// # Errors
///
/// Only where memory was refused.
pub(crate) fn reached_persons(
    alloc: Global,
    table: &Table,
    gap: i64,
    choice: &[u32],
) -> Result<Option<Vec<bool>>, AllocError>
    requires { IsGiven table.now }
{
    let Some(first) = first_without(table, gap, choice) else {
        return Ok(None);
    };
    let holders = holders_of(alloc, table, gap, choice)?;
    let mut seen = vec![in alloc; false; table.objects as usize]?;
    let mut reached = Reached::new(alloc, table.persons as usize)?;
    if !reached.reach(first)? {
        return Ok(None);
    }
    // Each person is reached once, so there are no more turns than persons.
    for turn in 0..table.persons as usize {
        let Some(person) = reached.queue.get(turn).copied() else {
            break;
        };
        if person >= table.persons {
            return Ok(None);
        }
        let row = row_of(table.costs, table.stride, table.objects, person);
        if !reached.reach_holders(row, gap, holders.as_slice(), seen.as_mut_slice())? {
            return Ok(None);
        }
    }
    Ok(Some(reached.flags))
}
