//! A shard of the objects beside the number of its objects.

ghost use Rattle.std.specs.Prelude.{◌≡◌, length, All, IfSome};
ghost use Rattle.auc_graph.specs.Price.{IsPrice};
ghost use Rattle.auc_objects.specs.Objects.{IsBidIn};

use arrayvec::ArrayVec;
use auc_letters::{Bid, Held, Letter, Out};
use auc_objects::ObjectShard;
use std::test::*;

/// The only shard of the objects, for two persons in one shard, at eps 1.
#[derive(Drop)]
pub struct Stall {
    objects: usize,
    shard: ObjectShard,
    ghost all: { length shard.prices ≡ objects },
    ghost only: { shard.of ≡ 1 },
    ghost first: { shard.shard ≡ 0 },
    ghost persons: { shard.person_shards ≡ 1 },
}

impl Stall {
    /// The shard with these prices, and no holders.
    pub fn new(rt: &HostRuntime, prices: &[i64]) -> Option<Stall>
        requires { All IsPrice prices.now }
    {
        let shard = ObjectShard::make(rt.alloc(), 0, 1, 1, 2, prices).ok()?;
        Some(Stall {
            objects: prices.len(),
            shard,
        })
    }

    /// The answer to a bid; nothing where its object or its amount is out of range.
    pub fn bid(&mut self, person: u32, arc: u32, object: u32, amount: i64) -> ArrayVec<Out, 4> {
        let letter = Letter::Bid {
            person,
            arc,
            object,
            amount,
        };
        let Some(bid) = self.bid_in(letter) else {
            return ArrayVec::new();
        };
        self.shard
            .on_bid(bid.person, bid.arc, bid.object, bid.amount, 1)
    }

    /// The bid in a letter, if it fits.
    pub fn bid_in(&self, letter: Letter) -> Option<Bid>
        ensures { IfSome result (IsBidIn self.now.shard letter) }
    {
        self.shard.bid_in(letter)
    }

    /// The present price of an object.
    pub fn price(&self, object: u32) -> Option<i64> {
        if (object as usize) < self.objects {
            Some(self.shard.price(object))
        } else {
            None
        }
    }

    /// The holder of an object.
    pub fn holder(&self, object: u32) -> Option<Held> {
        if (object as usize) < self.objects {
            self.shard.holder(object)
        } else {
            None
        }
    }

    /// The price of an object as a letter to the only shard of the persons; the blank letter where there is no such
    /// object.
    pub fn tell(&self, object: u32) -> Out {
        if (object as usize) < self.objects {
            self.shard.tell(object, 0)
        } else {
            Out::default()
        }
    }
}
