//! Objects in place of arcs.

ghost use Rattle.std.specs.Prelude.{◌≡◌, ◌<◌, length, All};
ghost use Rattle.auc_dense.specs.Naming.{objects_at};
ghost use Rattle.auc_dense.specs.TableSolving.{AreNamed, named};

use auc_call::Solved;
use auc_graph::Arc;

/// Replaces each place by the object of the arc at it.
fn take_objects(arcs: &[Arc], choice: &mut [u32])
    requires { All (λ place. place < length arcs.now) choice.old }
    ensures { choice.new ≡ objects_at arcs.now choice.old }
{
    for place in choice.iter_mut() {
        *place = arcs[*place as usize].object;
    }
}

/// Puts objects in place of the arcs of an assignment.
pub(crate) fn name_objects(arcs: &[Arc], solved: Solved, choice: &mut [u32])
    requires { AreNamed arcs.now solved choice.old }
    ensures { choice.new ≡ named arcs.now solved choice.old }
{
    match solved {
        Solved::Optimal { .. } => take_objects(arcs, choice),
        Solved::Bracket { .. } => take_objects(arcs, choice),
        Solved::Infeasible { .. } => {}
    }
}
