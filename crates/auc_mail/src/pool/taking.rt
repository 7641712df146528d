//! Taking.

ghost use Rattle.std.specs.Prelude.{[], slice_index_or, ◌≢◌};
ghost use Rattle.auc_mail.specs.Mail.{HasBox, NothingWaits, blank_lane};
ghost use Rattle.auc_mail.specs.Pool.{IsLaneOf};
ghost use Rattle.auc_mail.specs.Step.{Fits, Step};

use crate::boxes::{lane_in_turn, note_take, sender_of};
use crate::call::{Call, Reply, Taken};
use crate::pool::MailPool;

impl<T: Copy> MailPool<T> {
    /// Takes the first waiting letter of one of the box's lanes; where none has one, says whether one may still come.
    ///
    /// The contract leaves open which lane: it is the first with a letter, in rotating order from the one after the
    /// last giver. Takes O(1) time where all letters of the box wait in one lane, or none waits, and else O(senders).
    #[inline(always)]
    pub fn take(&mut self, at: u32) -> Taken<T>
        requires { Fits self.old (Call.Take at) }
        ensures { Step self.old (Call.Take at) (Reply.Took result) self.new }
    {
        if self.boxes[at as usize].waiting == 0 {
            return self.none_waits(at);
        }
        // Where the newest letter's lane has all that wait, no other lane is tested.
        let lane = self.boxes[at as usize].last;
        if self.lists.len(lane) == self.boxes[at as usize].waiting {
            return self.take_from(at, lane);
        }
        self.take_in_turn(at)
    }

    // The result of a take where no letter waits in the box.
    #[inline]
    fn none_waits(&self, at: u32) -> Taken<T>
        requires at { HasBox self.now at }
        requires none { NothingWaits self.now at }
        ensures { Step self.now (Call.Take at) (Reply.Took result) self.now }
    {
        if self.boxes[at as usize].accepting {
            Taken::Empty
        } else {
            Taken::Over
        }
    }

    // Takes the first letter of a lane of the box.
    #[inline(always)]
    fn take_from(&mut self, at: u32, lane: u32) -> Taken<T>
        requires at { HasBox self.old at }
        requires lane { IsLaneOf self.old.senders at lane }
        requires some { (slice_index_or self.old.lanes lane blank_lane).waiting ≢ [] }
        ensures { Step self.old (Call.Take at) (Reply.Took result) self.new }
    {
        let sender = sender_of(self.senders, at, lane);
        let before = self.posted[lane as usize] - u64::from(self.lists.len(lane));
        let Some(item) = self.lists.pop_front(lane) else {
            unreachable!();
        };
        note_take(&mut self.boxes, at, lane);
        Taken::Letter {
            sender,
            number: before + 1,
            item,
        }
    }

    // Takes the first letter of the lane whose turn it is. Inlined, so that no letter goes through memory: the search
    // for the lane is rare, and stays out of the callers.
    #[inline(always)]
    fn take_in_turn(&mut self, at: u32) -> Taken<T>
        requires { HasBox self.old at }
        ensures { Step self.old (Call.Take at) (Reply.Took result) self.new }
    {
        let giver = self.boxes[at as usize].giver;
        match lane_in_turn(&self.lists, self.senders, at, giver) {
            Some(lane) => self.take_from(at, lane),
            None => self.none_waits(at),
        }
    }
}
