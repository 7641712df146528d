//! The serial schedule: whole rounds in which every shard has its turns, until the phase has ended.

ghost use Rattle.std.specs.Prelude.{ℕ, ◌≡◌, IfNone};
ghost use Rattle.auc_model.specs.Still.{Rests};
ghost use Rattle.auc_machine.specs.Parts.{phase, world_of};
ghost use Rattle.auc_machine.specs.Rounds.{Plays, Rounds, answers_of, bids_of, has_moved, hearings_of, round_of};

use crate::world::World;
use auc_model::{End, TurnReply};

/// Whether a turn moved anything.
#[inline]
pub(crate) fn has_moved(reply: TurnReply) -> bool
    ensures { result ≡ has_moved reply }
{
    match reply {
        TurnReply::Moved => true,
        TurnReply::Nothing => false,
    }
}

impl<'a> World<'a> {
    /// Each shard of the persons bids and posts. Returns whether anything moved.
    fn bid_all(&mut self) -> bool
        ensures plays { Plays (phase self.old) (world_of self.old) (bids_of self.old.shards) result
            (world_of self.new) }
        ensures phase { phase self.new ≡ phase self.old }
    {
        let mut moved = false;
        for shard in 0..self.shards() {
            let here = self.bid_and_post(shard);
            moved = moved | here;
        }
        moved
    }

    /// Each shard of the objects takes a bid and posts its answers. Returns whether anything moved.
    fn answer_all(&mut self) -> bool
        ensures plays { Plays (phase self.old) (world_of self.old) (answers_of self.old.shards) result
            (world_of self.new) }
        ensures phase { phase self.new ≡ phase self.old }
    {
        let mut moved = false;
        for shard in 0..self.shards() {
            let here = self.take_and_post(shard);
            moved = moved | here;
        }
        moved
    }

    /// Each shard of the persons hears a letter. Returns whether anything moved.
    fn hear_all(&mut self) -> bool
        ensures plays { Plays (phase self.old) (world_of self.old) (hearings_of self.old.shards) result
            (world_of self.new) }
        ensures phase { phase self.new ≡ phase self.old }
    {
        let mut moved = false;
        for shard in 0..self.shards() {
            let take = has_moved(self.person_take(shard));
            moved = moved | take;
        }
        moved
    }

    /// One round: each shard of the persons bids, each of the objects answers, each of the persons hears, and the hub
    /// counts. Returns whether anything moved.
    #[inline]
    fn round(&mut self) -> bool
        ensures plays { Plays (phase self.old) (world_of self.old) (round_of self.old.shards) result
            (world_of self.new) }
        ensures phase { phase self.new ≡ phase self.old }
    {
        let bids = self.bid_all();
        let answers = self.answer_all();
        let hearings = self.hear_all();
        let count = has_moved(self.hub_take());
        bids | answers | hearings | count
    }

    /// Takes rounds until the phase has ended, and returns how; None where a round moved nothing.
    ///
    /// Each turn that moves uses up a bid, a Stop or a letter, or sets the end: so the rounds end.
    pub fn run(&mut self) -> Option<End>
        ensures rounds { (n : ℕ) × Rounds (phase self.old) (world_of self.old) n (world_of self.new) }
        ensures phase { phase self.new ≡ phase self.old }
        ensures end { result ≡ (world_of self.new).end }
        ensures rests { IfNone result (Rests (phase self.new) (world_of self.new)) }
    {
        while self.end().is_none() {
            if !self.round() {
                return None;
            }
        }
        self.end()
    }
}
