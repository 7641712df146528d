//! The exchange along an augmenting path that a search has found.

ghost use Rattle.std.specs.Prelude.{◌≡◌, ℕ, Some, slice_get};
ghost use Rattle.auc_graph.specs.Table.{Table};
ghost use Rattle.auc_hall.specs.declared.search.Reached.{Reached};
ghost use Rattle.auc_hall.specs.Matched.{IsPlaced, IsMatched};
ghost use Rattle.auc_hall.specs.Search.{IsAugmentingPath};
ghost use Rattle.auc_hall.specs.Completion.{IsExchange};

use crate::search::{PathEnd, Reached};
use auc_graph::RowArc;

/// Gives the free object to the person who found it, that person's object to the one before on the path, and so on to
/// the first, who had none. Nobody loses a place. The rows are not read, so contracts speak of any table of which this
/// is an augmenting path.
pub(crate) fn exchange(
    choice: &mut [Option<RowArc>],
    holder: &mut [Option<u32>],
    queue: &[Reached],
    found: PathEnd,
)
    requires { (t : Table) × IsAugmentingPath t choice.old holder.old queue.now found.at found.arc }
    ensures matched { (t : Table) → IsAugmentingPath t choice.old holder.old queue.now found.at found.arc
        → IsMatched t choice.new holder.new }
    ensures first { (e : Reached) → slice_get queue.now 0 ≡ Some e → IsPlaced choice.new e.person }
    ensures exchange { (t : Table) → IsAugmentingPath t choice.old holder.old queue.now found.at found.arc
        → IsExchange t choice.new choice.old found.arc.object }
    ensures kept { (i : ℕ) → IsPlaced choice.old i → IsPlaced choice.new i }
{
    let mut at = found.at;
    let mut arc = found.arc;
    while at > 0 {
        let step = queue[at];
        choice[step.person as usize] = Some(arc);
        holder[arc.object as usize] = Some(step.person);
        // The old object is free until the person before takes it, so no object ever has two holders.
        holder[step.arc.object as usize] = None;
        arc = step.arc;
        at = step.parent;
    }
    let first = queue[0];
    choice[first.person as usize] = Some(arc);
    holder[arc.object as usize] = Some(first.person);
}
