//! A shared mail while a worker has its lock.

ghost use Rattle.std.specs.Prelude.{◌≡◌, ◌<◌};
ghost use Rattle.auc_mail.specs.declared.call.Call.TheVariants as Call;
ghost use Rattle.auc_book.specs.Replies.{close_reply, post_reply, take_reply};
ghost use Rattle.auc_book.specs.State.{Calls};
ghost use Rattle.auc_book.specs.Seat.{SeatCalls};

use crate::bell::Bell;
use crate::brand::MailBrand;
use crate::error::{CallRefused, TrailFull};
use crate::locked_mail::LockedMail;
use crate::seat::Seat;
use auc_mail::Taken;
use std::marker::Model;
use std::sync::MutexGuard;

/// A shared mail while a worker has its lock. The worker makes calls one after another, each a step with a line of its
/// own, and nobody else calls in between.
///
/// It can't be dropped: [`HeldMail::release`] releases the lock. Contracts see it as the `State` under the lock.
pub struct HeldMail<'b, T: Copy, N: MailBrand> {
    locked: MutexGuard<'b, LockedMail<T, N>>,
    bells: &'b [Bell],
    // The boxes from `first` to before `end` are rung when the lock is released: those that something was posted to,
    // and the boxes between them.
    first: usize,
    end: usize,
}

impl<'b, T: Copy, N: MailBrand> Model for HeldMail<'b, T, N> {
    ghost use Rattle.auc_book.specs.State.{State};

    ghost Value = { State T };

    ghost view = { λ h. h.locked.value };
}

impl<'b, T: Copy, N: MailBrand> HeldMail<'b, T, N> {
    // The mail while its lock is held.
    pub(crate) fn new(
        locked: MutexGuard<'b, LockedMail<T, N>>,
        bells: &'b [Bell],
    ) -> HeldMail<'b, T, N>
        ensures { result ≡ locked.entry.value }
    {
        HeldMail {
            locked,
            bells,
            first: bells.len(),
            end: 0,
        }
    }

    // This box is to be rung.
    fn ring(&mut self, at: u32)
        ensures { self.new ≡ self.old }
    {
        let place = at as usize;
        if place < self.first {
            self.first = place;
        }
        if place >= self.end {
            self.end = place + 1;
        }
    }

    /// Posts as `SharedMail::post` does.
    pub fn post(
        &mut self,
        seat: &mut Seat<T, N>,
        to: u32,
        item: T,
        reserve: u32,
    ) -> Result<u64, CallRefused>
        requires { to < N.boxes }
        ensures calls { Calls self.old seat.old.worker (Call.Post seat.old.worker to item reserve)
            (post_reply result) self.new }
        ensures seat { SeatCalls N.room seat.old (Call.Post seat.old.worker to item reserve)
            (post_reply result) seat.new }
    {
        let answer = self.locked.post(seat, to, item, reserve);
        if answer.is_ok() {
            self.ring(to);
        }
        answer
    }

    /// Takes as `SharedMail::try_take` does.
    pub fn take(&mut self, seat: &mut Seat<T, N>, at: u32) -> Result<Taken<T>, TrailFull>
        requires { at < N.boxes }
        ensures calls { Calls self.old seat.old.worker (Call.Take at) (take_reply result) self.new }
        ensures seat { SeatCalls N.room seat.old (Call.Take at) (take_reply result) seat.new }
    {
        self.locked.take(seat, at)
    }

    /// Closes as `SharedMail::close` does.
    pub fn close(&mut self, seat: &mut Seat<T, N>, at: u32) -> Result<bool, TrailFull>
        requires { at < N.boxes }
        ensures calls { Calls self.old seat.old.worker (Call.Close at) (close_reply result) self.new }
        ensures seat { SeatCalls N.room seat.old (Call.Close at) (close_reply result) seat.new }
    {
        let answer = self.locked.close(seat, at);
        self.ring(at);
        answer
    }

    /// Releases the lock, and then wakes the threads that can go on. These are the threads that wait at a box that was
    /// posted to or closed. Where no more calls can be noted, they are all that wait at this mail, since that ends each
    /// wait.
    pub fn release(self) {
        let HeldMail {
            locked,
            bells,
            first,
            end,
        } = self;
        let is_full = locked.state().is_full();
        drop(locked);
        let (first, end) = if is_full {
            (0, bells.len())
        } else {
            (first, end)
        };
        for place in first..end {
            if let Some(bell) = bells.get(place) {
                bell.ring();
            }
        }
    }
}
