//! The least cost of each column. No clause depends on it: a caller that takes start prices from it may start from any.

use crate::arc::ShortArc;
use std::alloc::{AllocError, Global};

/// Of an object with no arc: above all costs.
const UNKNOWN: i32 = 2_147_483_647;

/// For each object the least cost of the arcs that lead to it. It is taken while rows are built, and not kept with
/// them.
#[derive(Drop)]
pub struct Columns {
    least: Vec<i32>,
}

impl Columns {
    /// With no arc yet.
    ///
    /// # Errors
    ///
    /// Only where memory was refused.
    pub fn new(alloc: Global, objects: u32) -> Result<Columns, AllocError> {
        let least = vec![in alloc; UNKNOWN; objects as usize]?;
        Ok(Columns { least })
    }

    /// Takes in one more arc.
    #[inline(always)]
    pub(crate) fn note(&mut self, arc: ShortArc) {
        let object = arc.object as usize;
        if object < self.least.len() && arc.cost < self.least[object] {
            self.least[object] = arc.cost;
        }
    }

    /// The least cost of the arcs that lead to an object, in costs of the file; none where there are none. No clause
    /// says which it is: prices of any kind serve to begin with. O(1).
    #[inline]
    pub fn least_cost(&self, object: u32) -> Option<i32> {
        let least = *self.least.get(object as usize)?;
        if least == UNKNOWN { None } else { Some(least) }
    }
}
