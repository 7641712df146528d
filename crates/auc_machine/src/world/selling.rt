//! Selling: a shard of the objects answers a bid, or sends a price.

ghost use Rattle.std.specs.Prelude.{◌≡◌, ◌<◌, ◌+◌, [], ◌∷◌, length, slice_set, All, IfSome, IfNone, IsTrue, ◌↔◌};
ghost use Rattle.auc_letters.specs.Award.{answers};
ghost use Rattle.auc_graph.specs.Price.{IsPrice};
ghost use Rattle.auc_letters.specs.Routing.{price_told};
ghost use Rattle.auc_model.specs.Selling.{FitsBid, ObjectTakeTurn, TellTurn};
ghost use Rattle.auc_model.specs.declared.turn.Turn.{Turn};
ghost use Rattle.auc_objects.specs.Answers.{letters_of};
ghost use Rattle.auc_objects.specs.Objects.{IsBidIn, Owns, after_bid, price_of, sale_of};
ghost use Rattle.auc_phases.specs.Boxes.{Reaches};
ghost use Rattle.auc_machine.specs.Parts.{AreParts, MayAnswer, OwnsObject, SamePhase, objects_at, phase, world_of};
ghost use Rattle.auc_machine.specs.Rounds.{Plays};

use crate::world::World;
use crate::world::rounds::has_moved;
use auc_letters::{Bid, Letter, Out, Why};
use auc_model::{End, MailName, TurnReply};
use auc_objects::Answers;

impl<'a> World<'a> {
    /// Whether there is such a shard of the objects, and its outbox is empty.
    #[inline]
    fn may_answer(&self, shard: u32) -> bool
        ensures is { IsTrue result ↔ MayAnswer self.now shard }
        ensures sound { AreParts self.now }
    {
        shard < self.shards && self.post.has_posted_all(self.shards + shard)
    }

    /// The bid in a letter to a shard of the objects, where it fits: the object is the shard's, and the amount is in
    /// range.
    #[inline]
    fn bid_in(&self, shard: u32, letter: Letter) -> Option<Bid>
        requires { shard < self.now.shards }
        ensures some { IfSome result (IsBidIn (objects_at self.now shard) letter) }
        ensures none { IfNone result (FitsBid (phase self.now) shard letter → ⊥) }
    {
        let objects = &self.objects[shard as usize];
        objects.bid_in(letter)
    }

    /// Answers a bid on an object of a shard.
    #[inline]
    fn answer(&mut self, shard: u32, offer: Bid) -> Answers
        requires known { shard < self.old.shards }
        requires owns { Owns (objects_at self.old shard) offer.object }
        requires amount { IsPrice offer.amount }
        ensures award { objects_at self.new shard ≡ after_bid (objects_at self.old shard) self.old.eps offer }
        ensures letters { letters_of result ≡ answers self.old.shards self.old.eps
            (sale_of (objects_at self.old shard) offer.object) offer }
        ensures rest { self.new ≡ record self.old {
          objects = slice_set self.old.objects shard (objects_at self.new shard);
        } }
        ensures reach { All (Reaches self.old.shards) (letters_of result) }
    {
        let eps = self.eps;
        let objects = &mut self.objects[shard as usize];
        objects.answer(offer, eps)
    }

    /// The price of an object, as a letter to a shard of the persons.
    #[inline]
    fn price_letter(&self, shard: u32, object: u32, to: u32) -> Out
        requires known { shard < self.now.shards }
        requires owns { OwnsObject self.now shard object }
        requires to { to < self.now.shards }
        ensures { result ≡ price_told (length self.now.table.rows) to object
            (price_of (objects_at self.now shard) object) }
    {
        let objects = &self.objects[shard as usize];
        objects.tell(object, to)
    }

    /// A shard of the objects takes a bid and answers it into its outbox. A letter that fits no bid on an object of the
    /// shard ends the phase.
    #[inline]
    pub(crate) fn object_take(&mut self, shard: u32) -> TurnReply
        ensures turn { ObjectTakeTurn (phase self.old) (world_of self.old) shard result (world_of self.new) }
        ensures phase { SamePhase self.old self.new }
    {
        if !self.may_answer(shard) {
            return TurnReply::Nothing;
        }
        let Some(letter) = self.post.take(MailName::Objects, shard) else {
            return TurnReply::Nothing;
        };
        let Some(bid) = self.bid_in(shard, letter) else {
            self.end_with(End::Stopped { why: Why::Stray });
            return TurnReply::Moved;
        };
        let answers = self.answer(shard, bid);
        self.post.put_all(self.shards + shard, answers.into_list());
        TurnReply::Moved
    }

    /// A shard of the objects puts a price into its outbox.
    pub(crate) fn tell(&mut self, shard: u32, object: u32, to: u32) -> TurnReply
        ensures turn { TellTurn (phase self.old) (world_of self.old) shard object to result (world_of self.new) }
        ensures phase { SamePhase self.old self.new }
    {
        if !self.may_answer(shard) || !self.is_shard(to) || !self.owns(shard, object) {
            return TurnReply::Nothing;
        }
        let out = self.price_letter(shard, object, to);
        self.post.put(self.shards + shard, out);
        TurnReply::Moved
    }

    /// A shard of the objects takes a bid and posts its answers, by three turns. Returns whether anything moved.
    pub(crate) fn take_and_post(&mut self, shard: u32) -> bool
        ensures plays { Plays (phase self.old) (world_of self.old)
            (Turn.ObjectTake shard ∷ Turn.ObjectPost shard ∷ Turn.ObjectPost shard ∷ []) result (world_of self.new) }
        ensures phase { SamePhase self.old self.new }
    {
        let takes = has_moved(self.object_take(shard));
        let first = has_moved(self.object_post(shard));
        let second = has_moved(self.object_post(shard));
        takes | (first | second)
    }
}
