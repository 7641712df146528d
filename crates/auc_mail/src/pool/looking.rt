//! The calls that report on a mail and don't change it.

ghost use Rattle.std.specs.Prelude.{◌≡◌, ◌<◌, ◌↔◌, IsTrue};
ghost use Rattle.auc_mail.specs.Mail.{HasBox, HasLane, IsClosed, free_of, lane_of, posted_of, waiting_at};
ghost use Rattle.auc_mail.specs.Step.{Fits};

use crate::boxes::lane_number;
use crate::call::Call;
use crate::pool::MailPool;

impl<T: Copy> MailPool<T> {
    /// Whether the call's box and sender exist. Takes O(1) time.
    pub fn fits(&self, call: &Call<T>) -> bool
        ensures { IsTrue result ↔ Fits self.now call.now }
    {
        match *call {
            Call::Post { sender, to, .. } => {
                sender < self.senders && (to as usize) < self.boxes.len()
            }
            Call::Take { at } | Call::Close { at } => (at as usize) < self.boxes.len(),
        }
    }

    /// Whether the box is closed. Takes O(1) time.
    #[inline]
    pub fn is_closed(&self, at: u32) -> bool
        requires { HasBox self.now at }
        ensures { IsTrue result ↔ IsClosed self.now at }
    {
        !self.boxes[at as usize].accepting
    }

    /// The number of letters that may still be added, in all boxes together. Takes O(1) time.
    #[inline]
    pub fn free(&self) -> u32
        ensures { result ≡ free_of self.now }
    {
        self.lists.free()
    }

    /// The number of letters of the sender that were posted to the box, those taken since among them. Takes O(1) time.
    #[inline]
    pub fn posted(&self, at: u32, sender: u32) -> u64
        requires { HasLane self.now at sender }
        ensures { result ≡ posted_of self.now at sender }
    {
        self.posted[lane_number(self.senders, at, sender) as usize]
    }

    /// The number of letters of the sender that were taken out of the box. Takes O(1) time.
    pub fn taken(&self, at: u32, sender: u32) -> u64
        requires { HasLane self.now at sender }
        ensures { result ≡ (lane_of self.now at sender).taken }
    {
        let lane = lane_number(self.senders, at, sender);
        self.posted[lane as usize] - u64::from(self.lists.len(lane))
    }

    /// The number of letters that wait in the box, of all senders. Takes O(1) time.
    pub fn waiting(&self, at: u32) -> u32
        requires { HasBox self.now at }
        ensures { result ≡ waiting_at self.now at }
    {
        self.boxes[at as usize].waiting
    }

    /// Whether a letter waits in the box, of any sender. Takes O(1) time.
    #[inline]
    pub fn has_letter(&self, at: u32) -> bool
        requires { HasBox self.now at }
        ensures { IsTrue result ↔ (0 < waiting_at self.now at) }
    {
        self.boxes[at as usize].waiting > 0
    }
}
