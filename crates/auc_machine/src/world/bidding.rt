//! Bidding: a shard of the persons asks the person who has been free longest for a bid.

ghost use Rattle.std.specs.Prelude.{◌≡◌, ◌<◌, ◌↔◌, true, [], ◌∷◌, slice_set, IsTrue};
ghost use Rattle.auc_model.specs.Bidding.{BidTurn};
ghost use Rattle.auc_model.specs.declared.turn.Turn.{Turn};
ghost use Rattle.auc_persons.specs.Persons.{NextBid};
ghost use Rattle.auc_machine.specs.Parts.{AreParts, MayAskForBid, SamePhase, persons_at, phase, world_of};
ghost use Rattle.auc_machine.specs.Rounds.{Plays};

use crate::world::World;
use crate::world::rounds::has_moved;
use auc_letters::{Letter, Out, To};
use auc_model::TurnReply;
use auc_persons::Bidding;

impl<'a> World<'a> {
    /// Whether a shard of the persons may bid: it exists, its outbox is empty, and it has made no Stop.
    #[inline]
    fn may_bid(&self, shard: u32) -> bool
        ensures is { IsTrue result ↔ MayAskForBid self.now shard }
        ensures sound { AreParts self.now }
    {
        shard < self.shards && self.post.has_posted_all(shard) && !self.stopped[shard as usize]
    }

    /// Asks a shard of the persons for its next bid.
    #[inline]
    fn next_bid(&mut self, shard: u32) -> Bidding
        requires { shard < self.old.shards }
        ensures bid { NextBid self.old.table self.old.eps (persons_at self.old shard) result
            (persons_at self.new shard) }
        ensures rest { self.new ≡ record self.old {
          persons = slice_set self.old.persons shard (persons_at self.new shard);
        } }
    {
        let rows = self.rows;
        let eps = self.eps;
        let place = shard as usize;
        let persons = &mut self.persons[place];
        let bidder = &mut self.bidders[place];
        persons.next_bid_by(rows, eps, bidder)
    }

    /// Notes that a shard of the persons has made a Stop.
    #[inline]
    fn note_stop(&mut self, shard: u32)
        requires { shard < self.old.shards }
        ensures { self.new ≡ record self.old { stopped = slice_set self.old.stopped shard true } }
    {
        self.stopped[shard as usize] = true;
    }

    /// A shard of the persons puts its next bid, or the reason why there is none, into its outbox.
    #[inline]
    pub(crate) fn bid(&mut self, shard: u32) -> TurnReply
        ensures turn { BidTurn (phase self.old) (world_of self.old) shard result (world_of self.new) }
        ensures phase { SamePhase self.old self.new }
    {
        if !self.may_bid(shard) {
            return TurnReply::Nothing;
        }
        match self.next_bid(shard) {
            Bidding::Idle => TurnReply::Nothing,
            Bidding::Stop { why } => {
                self.note_stop(shard);
                self.post.put(
                    shard,
                    Out {
                        letter: Letter::Stop { why },
                        to: To::Hub,
                        reserve: 0,
                    },
                );
                TurnReply::Moved
            }
            Bidding::Out { out } => {
                self.post.put(shard, out);
                TurnReply::Moved
            }
        }
    }

    /// A shard of the persons bids and posts, by two turns. Returns whether anything moved.
    pub(crate) fn bid_and_post(&mut self, shard: u32) -> bool
        ensures plays { Plays (phase self.old) (world_of self.old) (Turn.Bid shard ∷ Turn.PersonPost shard ∷ [])
            result (world_of self.new) }
        ensures phase { SamePhase self.old self.new }
    {
        let bids = has_moved(self.bid(shard));
        let posts = has_moved(self.person_post(shard));
        bids | posts
    }
}
