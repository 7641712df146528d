//! Posting.

ghost use Rattle.auc_mail.specs.Step.{Fits, Step, reply_to_post};

use crate::boxes::{lane_number, note_post};
use crate::call::{Call, PostRefused, Reply};
use crate::pool::MailPool;

impl<T: Copy> MailPool<T> {
    /// Posts `item` from `sender` to the box `to`, and returns the letter's number in its lane, from 1.
    ///
    /// Refused, in this order: `Closed` where the box is closed; `Spent` where the lane had all its posts; `Full` where
    /// no more than `reserve` letters are free. A refused post changes nothing. Takes O(1) time.
    #[inline(always)]
    pub fn post(&mut self, sender: u32, to: u32, item: T, reserve: u32) -> Result<u64, PostRefused>
        requires { Fits self.old (Call.Post sender to item reserve) }
        ensures { Step self.old (Call.Post sender to item reserve) (reply_to_post result) self.new }
    {
        if !self.boxes[to as usize].accepting {
            return Err(PostRefused::Closed);
        }
        let lane = lane_number(self.senders, to, sender);
        let posted = self.posted[lane as usize];
        if posted == self.most {
            return Err(PostRefused::Spent);
        }
        if self.lists.free() <= reserve {
            return Err(PostRefused::Full);
        }
        // The law that bounds how many letters wait.
        self.lists.every_pool_is_sound();
        match self.lists.push_back(lane, item) {
            Ok(()) => {
                self.posted[lane as usize] += 1;
                note_post(&mut self.boxes, to, lane);
                Ok(posted + 1)
            }
            Err(_) => Err(PostRefused::Full),
        }
    }
}
