//! The holders of a phase that was stopped, as a partial assignment.

ghost use Rattle.std.specs.Prelude.{◌≡◌, ◌<◌, length, false, IsTrue, IfOk, IfSome, IfNone};
ghost use Rattle.auc_graph.specs.declared.arc.Arc.{Arc};
ghost use Rattle.auc_graph.specs.Problem.{IsProblem};
ghost use Rattle.auc_graph.specs.Table.{IsTableOf};
ghost use Rattle.auc_hall.specs.Partial.{IsFor};
ghost use Rattle.auc_answers.specs.Claims.{AreHoldersArcs, ArePlaceable, HoldsAt};

use auc_graph::{ArcList, Rows};
use auc_hall::Partial;
use auc_letters::Held;
use std::alloc::{AllocError, Global};

/// Whether the holder has the object by one of the holder's arcs to it.
fn holds_rightly(problem: &ArcList, object: u32, held: Held) -> bool
    ensures right { IsTrue result → (a : Arc) × HoldsAt problem.now object held a }
    ensures wrong { result ≡ false → (a : Arc) → HoldsAt problem.now object held a → ⊥ }
    ensures problem { IsProblem problem.now }
{
    let arcs = problem.arcs();
    let place = held.arc as usize;
    if place >= arcs.len() {
        return false;
    }
    let arc = arcs[place];
    arc.person == held.person && arc.object == object
}

/// The partial assignment in which each holder has the object held, placed in rising order of objects. None where a
/// holder's arc isn't one of the holder's to that object, or a person holds two.
pub(crate) fn place_holders(
    alloc: Global,
    problem: &ArcList,
    rows: &Rows,
    holders: &[Option<Held>],
) -> Result<Option<Partial>, AllocError>
    requires rows { IsTableOf problem.now rows.now }
    requires holders { length holders.now ≡ problem.now.objects }
    ensures placed { IfOk result (λ o. IfSome o (λ partial. IsFor rows.now partial
        × ArePlaceable problem.now holders.now)) }
    ensures holders { IfOk result (λ o. IfSome o (λ partial. AreHoldersArcs holders.now partial.choice)) }
    ensures unplaced { IfOk result (λ o. IfNone o (ArePlaceable problem.now holders.now → ⊥)) }
{
    let mut partial = Partial::new(alloc, rows)?;
    for object in 0..problem.objects() {
        let Some(held) = holders[object as usize] else {
            continue;
        };
        if !holds_rightly(problem, object, held) {
            return Ok(None);
        }
        if !partial.place(rows, held.person, held.arc) {
            return Ok(None);
        }
    }
    Ok(Some(partial))
}
