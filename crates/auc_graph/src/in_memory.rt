//! The problem of a list of arcs that is in memory already.

ghost use Rattle.std.specs.Prelude.{◌≡◌, ◌↔◌, None, IsOk};
ghost use Rattle.auc_graph.specs.Problem.{IsProblem};
ghost use Rattle.auc_graph.specs.InMemory.{fault_at, first_fault, list_fault, listed, objects_or, problem_from};

use crate::arc::{Arc, ArcList};
use crate::limits::{MOST_ARCS, MOST_COST, MOST_OBJECTS, MOST_PERSONS};
use crate::list_faults::ListFault;

/// The number of objects, where 0 means as many as persons.
pub fn objects_or(wanted: u32, persons: u32) -> u32
    ensures { result ≡ objects_or wanted persons }
{
    if wanted == 0 { persons } else { wanted }
}

/// The fault of the arc at this place, where it has one.
fn fault_at(persons: u32, objects: u32, place: usize, arc: Arc) -> Option<ListFault>
    ensures { result ≡ fault_at persons objects place arc }
{
    if MOST_ARCS as usize <= place {
        return Some(ListFault::TooManyArcs);
    }
    let place = place as u32;
    if persons <= arc.person {
        return Some(ListFault::Person { arc: place });
    }
    if objects <= arc.object {
        return Some(ListFault::Object { arc: place });
    }
    if -MOST_COST <= arc.cost && arc.cost <= MOST_COST {
        return None;
    }
    Some(ListFault::Cost { arc: place })
}

fn first_fault(persons: u32, objects: u32, arcs: &[Arc]) -> Option<ListFault>
    ensures { result ≡ first_fault persons objects 0 arcs.now }
{
    for i in 0..arcs.len() {
        let fault = fault_at(persons, objects, i, arcs[i]);
        if fault.is_some() {
            return fault;
        }
    }
    None
}

/// The first fault of these numbers of persons and objects and these arcs, or None where they are a problem; `objects`
/// 0 means as many as persons.
///
/// Faults are searched for in the order in which a text would be read: the number of persons, that of objects, and then
/// each arc. Of an arc it is first whether it is one too many, then its person, its object and its cost. Takes O(arcs)
/// time.
pub fn list_fault(persons: u32, objects: u32, arcs: &[Arc]) -> Option<ListFault>
    ensures exact { result ≡ list_fault persons objects arcs.now }
    ensures none { result ≡ None ↔ IsProblem (problem_from persons objects arcs.now) }
{
    let objects = objects_or(objects, persons);
    if persons < 1 || MOST_PERSONS < persons {
        return Some(ListFault::Persons);
    }
    if objects < persons || MOST_OBJECTS < objects {
        return Some(ListFault::Objects);
    }
    first_fault(persons, objects, arcs)
}

impl ArcList {
    /// The problem of these numbers of persons and objects and these arcs, in their order; `objects` 0 means as many as
    /// persons. Persons and objects are numbered from 0. The same pair listed twice is two arcs, and no arc at all is a
    /// lawful list. Takes O(arcs) time and no memory.
    ///
    /// # Errors
    ///
    /// The first fault, as [`list_fault`] finds it; the arcs are dropped.
    pub fn from_arcs(persons: u32, objects: u32, arcs: Vec<Arc>) -> Result<ArcList, ListFault>
        ensures exact { result ≡ listed persons objects arcs.items }
        ensures ok { IsOk result ↔ IsProblem (problem_from persons objects arcs.items) }
    {
        match list_fault(persons, objects, arcs.as_slice()) {
            Some(fault) => Err(fault),
            None => Ok(ArcList::make(persons, objects_or(objects, persons), arcs)),
        }
    }
}
