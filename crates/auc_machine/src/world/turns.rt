//! The turns of a world.

ghost use Rattle.auc_machine.specs.Making.{KeepsUnheld};
ghost use Rattle.auc_machine.specs.Parts.{SamePhase, phase, world_of};
ghost use Rattle.auc_model.specs.Schedule.{Reached, Turned};

use crate::world::World;
use auc_model::{Turn, TurnReply};

impl<'a> World<'a> {
    /// Takes one turn. O(arcs of the person) for a bid, and O(1) beside it and the mail's own calls; no memory.
    ///
    /// The reply is `Nothing` where nothing can move, for one of these causes. There is no such shard, box or object;
    /// the outbox isn't empty, or is; no letter waits; nobody is free; the box is closed. Then the world is unchanged.
    ///
    /// The price of an object that nobody holds is the one with which the world was made: clause `unheld`, turn by
    /// turn.
    pub fn turn(&mut self, turn: Turn) -> TurnReply
        ensures turn { Turned (phase self.old) (world_of self.old) turn result (world_of self.new) }
        ensures phase { SamePhase self.old self.new }
        ensures reached { Reached (phase self.old) (world_of self.old) → Reached (phase self.new) (world_of self.new) }
        ensures unheld { KeepsUnheld self.old self.new }
    {
        self.take_turn(turn)
    }

    /// One turn.
    #[inline]
    fn take_turn(&mut self, turn: Turn) -> TurnReply
        ensures turn { Turned (phase self.old) (world_of self.old) turn result (world_of self.new) }
        ensures phase { SamePhase self.old self.new }
    {
        match turn {
            Turn::Bid { shard } => self.bid(shard),
            Turn::PersonPost { shard } => self.person_post(shard),
            Turn::ObjectPost { shard } => self.object_post(shard),
            Turn::PersonTake { shard } => self.person_take(shard),
            Turn::ObjectTake { shard } => self.object_take(shard),
            Turn::Tell { shard, object, to } => self.tell(shard, object, to),
            Turn::HubTake => self.hub_take(),
            Turn::HubClose { mail, at } => self.hub_close(mail, at),
        }
    }
}
