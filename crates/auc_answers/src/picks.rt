//! Picks by arcs: those of holders, and those of a full matching.

ghost use Rattle.std.specs.Prelude.{◌≡◌, ◌<◌, List, length, map, Contains, All, Some, None, IfOk, IfSome, IfNone};
ghost use Rattle.auc_graph.specs.declared.arc.Arc.{Arc};
ghost use Rattle.auc_graph.specs.Assignment.{IsAssignment};
ghost use Rattle.auc_graph.specs.Problem.{IsProblem};
ghost use Rattle.auc_claim.specs.Claim.{chosen};
ghost use Rattle.auc_hall.specs.OfProblem.{IsFullOf};
ghost use Rattle.auc_answers.specs.Claims.{IsChoiceOf, pick_at};

use auc_claim::Pick;
use auc_graph::{Arc, ArcList, Indices};
use auc_letters::Held;
use std::alloc::{AllocError, Global};

/// All the picks, or None where one is missing.
fn all_of(alloc: Global, found: &[Option<Pick>]) -> Result<Option<Vec<Pick>>, AllocError>
    ensures some { IfOk result (λ o. IfSome o (λ picks. map Some picks.items ≡ found.now)) }
    ensures none { IfOk result (λ o. IfNone o (Contains found.now None)) }
{
    let mut picks = Vec::with_capacity(alloc, found.len())?;
    for pick in found {
        let Some(pick) = pick else {
            return Ok(None);
        };
        picks.push(*pick)?;
    }
    Ok(Some(picks))
}

/// The pick of each person by the arc with which the person holds an object. None where a holder's arc isn't one of the
/// holder's, a person holds two objects, or a person holds none.
pub(crate) fn picks_of_holders(
    alloc: Global,
    problem: &ArcList,
    holders: &[Option<Held>],
) -> Result<Option<Vec<Pick>>, AllocError>
    ensures some { IfOk result (λ o. IfSome o (λ picks. IsChoiceOf problem.now holders.now (chosen 0 picks.items))) }
    ensures none { IfOk result (λ o. IfNone o ((choice : List Arc) → IsChoiceOf problem.now holders.now choice → ⊥)) }
    ensures each { IfOk result (λ o. IfSome o (λ picks. length picks.items ≡ problem.now.persons)) }
    ensures problem { IsProblem problem.now }
{
    let arcs = problem.arcs();
    let mut found = vec![in alloc; None; problem.persons() as usize]?;
    for holder in holders {
        let Some(held) = holder else {
            continue;
        };
        let place = held.arc as usize;
        if place >= arcs.len() {
            return Ok(None);
        }
        let arc = arcs[place];
        if arc.person != held.person {
            return Ok(None);
        }
        let person = arc.person as usize;
        if found[person].is_some() {
            return Ok(None);
        }
        found[person] = Some(Pick {
            cost: arc.cost,
            object: arc.object,
        });
    }
    all_of(alloc, found.as_slice())
}

/// The places of the holders' arcs in the problem's list, indexed by person; 0 for a person who holds nothing.
pub(crate) fn places_of_holders(
    alloc: Global,
    persons: u32,
    holders: &[Option<Held>],
) -> Result<Indices, AllocError> {
    let mut places = vec![in alloc; 0; persons as usize]?;
    for holder in holders {
        let Some(held) = holder else {
            continue;
        };
        let person = held.person as usize;
        if person < places.len() {
            places[person] = held.arc;
        }
    }
    Ok(Indices::new(places))
}

/// The picks by the arcs of these numbers.
fn picks_by(alloc: Global, arcs: &[Arc], numbers: &[u32]) -> Result<Vec<Pick>, AllocError>
    requires { All (λ n. n < length arcs.now) numbers.now }
    ensures { IfOk result (λ v. v.items ≡ map (pick_at arcs.now) numbers.now) }
{
    let mut picks = Vec::with_capacity(alloc, numbers.len())?;
    for number in numbers {
        let arc = arcs[*number as usize];
        picks.push(Pick {
            object: arc.object,
            cost: arc.cost,
        })?;
    }
    Ok(picks)
}

/// The pick of each person by the arcs of a full matching, which are given by their places in the list of arcs. Takes
/// O(persons) time and memory.
///
/// # Errors
///
/// Only where memory was refused.
pub fn picks_of_matching(
    alloc: Global,
    problem: &ArcList,
    numbers: &[u32],
) -> Result<Vec<Pick>, AllocError>
    requires { IsFullOf problem.now numbers.now }
    ensures assignment { IfOk result (λ picks. IsAssignment problem.now (chosen 0 picks.items)) }
    ensures numbered { IfOk result (λ picks. picks.items ≡ map (pick_at problem.now.arcs) numbers.now) }
    ensures each { IfOk result (λ picks. length picks.items ≡ problem.now.persons) }
    ensures problem { IsProblem problem.now }
{
    let picks = picks_by(alloc, problem.arcs(), numbers)?;
    Ok(picks)
}
