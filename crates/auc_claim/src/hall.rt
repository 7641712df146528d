//! Whether persons and objects are a Hall violator.

ghost use Rattle.std.specs.Prelude.{◌≡◌, ◌<◌, ◌||◌, not, false, length, All, IfOk, slice_index_or};
ghost use Rattle.std.specs.List.{list_all};
ghost use Rattle.auc_graph.specs.Problem.{IsWithin};
ghost use Rattle.auc_claim.specs.Claim.{are_below, AreListed, is_hall};

use auc_graph::{Arc, ArcList};
use std::alloc::{AllocError, Global};

fn are_below(numbers: &[u32], end: u32) -> bool
    ensures { result ≡ are_below end numbers.now }
{
    numbers.iter().all(|number| *number < end)
}

/// A flag for each number below `end`: whether it is listed.
fn listed_flags(alloc: Global, end: usize, numbers: &[u32]) -> Result<Vec<bool>, AllocError>
    requires { All (λ k. k < end) numbers.now }
    ensures size { IfOk result (λ v. length v.items ≡ end) }
    ensures flags { IfOk result (λ v. AreListed numbers.now v.items) }
{
    let mut flags = vec![in alloc; false; end]?;
    for number in numbers {
        flags[*number as usize] = true;
    }
    Ok(flags)
}

/// Whether each arc of a flagged person leads to a flagged object.
fn stay_within(arcs: &[Arc], persons: &[bool], objects: &[bool]) -> bool
    requires { All (IsWithin (length persons.now) (length objects.now)) arcs.now }
    ensures { result ≡ list_all
        (λ a. not (slice_index_or persons.now a.person false) || slice_index_or objects.now a.object false) arcs.now }
{
    for arc in arcs {
        if persons[arc.person as usize] && !objects[arc.object as usize] {
            return false;
        }
    }
    true
}

/// Whether these are persons and objects of the problem, fewer objects than persons, and all arcs of the persons lead
/// to the objects.
pub(crate) fn is_hall(
    alloc: Global,
    problem: &ArcList,
    persons: &[u32],
    objects: &[u32],
) -> Result<bool, AllocError>
    ensures { IfOk result (λ b. b ≡ is_hall problem.now persons.now objects.now) }
{
    if persons.len() <= objects.len()
        || !are_below(persons, problem.persons())
        || !are_below(objects, problem.objects())
    {
        return Ok(false);
    }
    let listed = listed_flags(alloc, problem.persons() as usize, persons)?;
    let known = listed_flags(alloc, problem.objects() as usize, objects)?;
    Ok(stay_within(problem.arcs(), listed.as_slice(), known.as_slice()))
}
