//! The best arc so far of a row in rising order of objects, in a pass that has no branch by the values.
//!
//! In a short row the best and the second best change every few arcs, and in a price war the processor can't predict
//! where. With selects alone nothing is mispredicted. In rising order, as in a sorted file, the first of equal arcs is
//! the one to the lowest object, and no two arcs lead to the same object. So the values alone decide.

ghost use Rattle.auc_persons.specs.Rising.{Drawn};

use auc_graph::RowArc;

/// The least value so far, the least value of the other arcs, and the best arc itself, so that a pass counts nothing
/// but its place. Where there are no other arcs, the second is the greatest number.
#[derive(Clone, Copy)]
pub(crate) struct Nearest<'a> {
    pub value: i64,
    pub second: i64,
    pub best: &'a RowArc,
}

impl<'a> Nearest<'a> {
    /// With one more arc, of this value.
    #[inline(always)]
    pub(crate) fn with(self, value: i64, arc: &'a RowArc) -> Nearest<'a>
        ensures { Drawn self.entry value arc.now result }
    {
        let is_less = value < self.value;
        // Each number by an `if` of its own, of which LLVM makes selects. In price wars a branch here would be
        // mispredicted some ten times a bid.
        let second = if is_less {
            self.value
        } else if value < self.second {
            value
        } else {
            self.second
        };
        let best = if is_less { arc } else { self.best };
        let value = if is_less { value } else { self.value };
        Nearest {
            value,
            second,
            best,
        }
    }
}
