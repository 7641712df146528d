//! The picks that places of arcs mean.

ghost use Rattle.std.specs.Prelude.{◌≡◌, ◌<◌, ◌^◌, length, IfOk, IfErr};
ghost use Rattle.auc_claim.specs.Claim.{chosen, pick_of};
ghost use Rattle.auc_call.specs.Memory.{AreAt};
ghost use Rattle.auc_call.specs.Checking.{IsMisplaced};

use auc_claim::Pick;
use auc_graph::Arc;
use std::alloc::{AllocError, Global};

fn pick_of(arc: Arc) -> Pick
    ensures { result ≡ pick_of arc }
{
    Pick {
        cost: arc.cost,
        object: arc.object,
    }
}

/// The picks of the persons, or the first person whose place is none of the list or that of another one's arc.
pub(crate) fn picks_at(
    alloc: Global,
    arcs: &[Arc],
    choice: &[u32],
) -> Result<Result<Vec<Pick>, u32>, AllocError>
    requires { length choice.now < 2 ^ 32 }
    ensures placed { IfOk result (λ r. IfOk r (λ picks. AreAt arcs.now choice.now (chosen 0 picks.items))) }
    ensures misplaced { IfOk result (λ r. IfErr r (IsMisplaced arcs.now choice.now)) }
{
    let mut picks = Vec::with_capacity(alloc, choice.len())?;
    for i in 0..choice.len() {
        let person = i as u32;
        let place = choice[i] as usize;
        if place >= arcs.len() || arcs[place].person != person {
            return Ok(Err(person));
        }
        picks.push(pick_of(arcs[place]))?;
    }
    Ok(Ok(picks))
}
