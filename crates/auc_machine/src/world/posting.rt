//! Posting: a shard posts the first letter of its outbox.

ghost use Rattle.std.specs.Prelude.{◌≡◌, ◌<◌, ◌*◌};
ghost use Rattle.auc_model.specs.Mails.{Shard, number};
ghost use Rattle.auc_model.specs.Posting.{PostTurn};
ghost use Rattle.auc_machine.specs.Parts.{SamePhase, phase, world_of, sender_of};

use crate::post_office::Posted;
use crate::world::World;
use auc_model::{End, TurnReply};

impl<'a> World<'a> {
    /// A sender posts the first letter of its outbox. Inlined, since in a round an outbox is nearly always empty.
    #[inline]
    fn post_first(&mut self, sender: u32) -> TurnReply
        requires known { sender < 2 * self.old.shards }
        ensures turn { (h : Shard) → sender_of self.old h ≡ sender → number h < self.old.shards
            → PostTurn (phase self.old) (world_of self.old) h result (world_of self.new) }
        ensures phase { SamePhase self.old self.new }
    {
        match self.post.post_first(sender) {
            Posted::Nothing => TurnReply::Nothing,
            Posted::Left => TurnReply::Moved,
            Posted::Stays { why } => {
                self.end_with(End::Stopped { why });
                TurnReply::Moved
            }
        }
    }

    /// A shard of the persons posts the first letter of its outbox.
    #[inline]
    pub(crate) fn person_post(&mut self, shard: u32) -> TurnReply
        ensures turn { PostTurn (phase self.old) (world_of self.old) (Shard.PersonShard shard) result
            (world_of self.new) }
        ensures phase { SamePhase self.old self.new }
    {
        if !self.is_shard(shard) {
            return TurnReply::Nothing;
        }
        self.post_first(shard)
    }

    /// A shard of the objects posts the first letter of its outbox.
    #[inline]
    pub(crate) fn object_post(&mut self, shard: u32) -> TurnReply
        ensures turn { PostTurn (phase self.old) (world_of self.old) (Shard.ObjectShard shard) result
            (world_of self.new) }
        ensures phase { SamePhase self.old self.new }
    {
        if !self.is_shard(shard) {
            return TurnReply::Nothing;
        }
        self.post_first(self.shards() + shard)
    }
}
