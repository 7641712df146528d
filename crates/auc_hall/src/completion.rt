//! The completion of a partial assignment.

ghost use Rattle.std.specs.Prelude.{◌≡◌, map, IfOk};
ghost use Rattle.auc_hall.specs.Assignment.{number_of};
ghost use Rattle.auc_hall.specs.Partial.{IsFor};
ghost use Rattle.auc_hall.specs.Matching.{IsMatching};
ghost use Rattle.auc_hall.specs.Matched.{IsMatched};
ghost use Rattle.auc_hall.specs.Chosen.{chosen};
ghost use Rattle.auc_hall.specs.Completion.{HasGrown};

use crate::exchange::exchange;
use crate::hall_set::hall_set;
use crate::matching::Matching;
use crate::partial::Partial;
use crate::search::Search;
use auc_graph::{Indices, RowArc, Rows};
use std::alloc::{AllocError, Global};

/// The numbers of the arcs of the persons who have one.
fn numbers_of(alloc: Global, choice: &[Option<RowArc>]) -> Result<Vec<u32>, AllocError>
    ensures { IfOk result (λ v. v.items ≡ map number_of (chosen choice.now)) }
{
    let mut out = Vec::with_capacity(alloc, choice.len())?;
    for picked in choice {
        match picked {
            None => continue,
            Some(arc) => {
                out.push(arc.arc)?;
            }
        }
    }
    Ok(out)
}

/// `complete`, over the arcs of the persons and the holders of the objects.
fn complete_parts(
    alloc: Global,
    rows: &Rows,
    choice: &mut [Option<RowArc>],
    holder: &mut [Option<u32>],
) -> Result<Matching, AllocError>
    requires { IsMatched rows.now choice.old holder.old }
    ensures matching { IfOk result (IsMatching rows.now) }
    ensures grown { IfOk result (HasGrown rows.now choice.old) }
{
    let mut search = Search {
        seen: vec![in alloc; false; rows.objects() as usize]?,
        scanned: vec![in alloc; 0; rows.persons() as usize]?,
        queue: Vec::with_capacity(alloc, rows.persons() as usize)?,
    };
    for person in 0..rows.persons() {
        if choice[person as usize].is_some() {
            continue;
        }
        match search.find(rows, holder, person)? {
            None => {
                return hall_set(alloc, rows, search.seen.as_slice(), search.queue.as_slice());
            }
            Some(found) => {
                exchange(choice, holder, search.queue.as_slice(), found);
            }
        }
    }
    Ok(Matching::Full(Indices::new(numbers_of(alloc, choice)?)))
}

/// Gives an arc to each person who has none, or returns a Hall violator.
///
/// Each person without an arc, in rising order, starts a breadth-first search for a free object, over the arcs in the
/// order of the list. Along the path to it each person gives up an object to the person before on the path. So all who
/// had an object keep one.
///
/// Where a search finds no free object, the persons that it reached have arcs only to objects that it saw. Each of
/// these objects is held by one of them, but the starting person holds none.
///
/// This is the augmenting path method (Kuhn 1955, after Kőnig and Egerváry), and the set is Hall's (1935).
///
/// `partial` is used up in every case. O(persons * arcs) time, O(persons + objects) memory, all of it taken before the
/// first search or after the last.
///
/// # Errors
///
/// Only where memory was refused.
pub fn complete(alloc: Global, rows: &Rows, partial: Partial) -> Result<Matching, AllocError>
    requires { IsFor rows.now partial }
    ensures matching { IfOk result (IsMatching rows.now) }
    // A full assignment keeps its arcs, but for the exchanges that place the other persons.
    ensures grown { IfOk result (HasGrown rows.now partial.choice) }
{
    let (mut choice, mut holder) = partial.into_parts();
    complete_parts(alloc, rows, choice.as_mut_slice(), holder.as_mut_slice())
}
