//! An arc in eight bytes.

use auc_graph::{Kept, RowArc};

/// An arc without its person, and without its place in the problem's list: the object that it leads to, numbered from
/// 0, and its cost, in costs of the file.
#[derive(Clone, Copy, Debug, Default, PartialEq, Eq)]
pub struct ShortArc {
    pub object: u32,
    pub cost: i32,
}

impl Kept for ShortArc {
    ghost use Rattle.auc_rows.specs.Rows.{short};

    ghost of = { short };

    #[inline(always)]
    fn of(arc: RowArc) -> ShortArc {
        ShortArc {
            object: arc.object,
            cost: arc.cost,
        }
    }
}
