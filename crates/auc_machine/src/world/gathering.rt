//! The result of a phase: the holder of each object, and its price.

ghost use Rattle.std.specs.Prelude.{◌<◌, All, IfOk};
ghost use Rattle.auc_graph.specs.Price.{IsPrice};
ghost use Rattle.auc_machine.specs.Gathering.{IsGathered};

use crate::world::World;
use auc_answers::Gathered;
use std::alloc::{AllocError, Global};

impl<'a> World<'a> {
    /// The present holder of each object, if there is one, and the true prices. Takes O(objects) time and memory.
    ///
    /// # Errors
    ///
    /// Only where memory was refused.
    pub fn gather(&self, alloc: Global) -> Result<Gathered, AllocError>
        ensures gathered { IfOk result (λ g. IsGathered self.now g.holders.items g.prices.items) }
        ensures range { IfOk result (λ g. All IsPrice g.prices.items) }
    {
        let objects = self.object_count();
        let mut holders = Vec::with_capacity(alloc, objects as usize)?;
        let mut prices = Vec::with_capacity(alloc, objects as usize)?;
        for object in 0..objects {
            holders.push_reserved(self.holder(object));
            prices.push_reserved(self.price(object));
        }
        Ok(Gathered { holders, prices })
    }
}
