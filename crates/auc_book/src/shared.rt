//! A mail that threads share.

ghost use Rattle.std.specs.Prelude.{◌≡◌, ◌≢◌, ◌<◌, IfOk, OnOk, IfErr, map, vec_len, Ok};
ghost use Rattle.std.specs.List.{range_with_len};
ghost use Rattle.auc_mail.specs.declared.call.Call.TheVariants as Call;
ghost use Rattle.auc_mail.specs.Equality.{EqualIsSame};
ghost use Rattle.auc_mail.specs.Limits.{LanesFit, NodesFit};
ghost use Rattle.auc_book.specs.Limits.{RoomFits, IsRefusedWithRoom};
ghost use Rattle.auc_book.specs.Replies.{close_reply, post_reply, take_reply};
ghost use Rattle.auc_book.specs.Seat.{new_account, SeatCalls};
ghost use Rattle.auc_book.specs.LockedMail.{IsNumbered, IsWaiting};
ghost use Rattle.auc_book.specs.Settling.{IsSettled, IsUnsettled};

use crate::bell::{Bell, new_bells};
use crate::brand::MailBrand;
use crate::error::{CallRefused, SettleError, TrailFull};
use crate::held_mail::HeldMail;
use crate::locked_mail::LockedMail;
use crate::seat::Seat;
use crate::settling;
use crate::state::MailState;
use crate::trail::Trail;
use auc_mail::{MailError, Taken};
use std::alloc::{AllocError, Global};
use std::sync::ledger::{Blank, Share};
use std::sync::{Mutex, MutexGuard, Wait};

/// A mail that threads share: a `MailState` under a lock.
///
/// Each call is made while the lock is held, and is noted in the trail under the lock and in the seat of its worker.
/// Its name `N` fixes its numbers and the ledger of its calls.
///
/// Nothing is said of whether a thread ever gets the lock, or of whether one that waits is ever woken.
#[derive(Drop)]
pub struct SharedMail<T: Copy, N: MailBrand> {
    locked: Mutex<LockedMail<T, N>>,
    // A bell for each box.
    bells: Vec<Bell>,
    workers: u32,
    ghost workers_are: { workers ≡ N.workers },
    ghost bells_are: { vec_len bells ≡ N.boxes },
}

// A seat for each worker, in order.
fn new_seats<T: Copy, N: MailBrand>(
    alloc: Global,
    workers: u32,
    room: u32,
    shares: Share<N>,
) -> Result<Vec<Seat<T, N>>, AllocError>
    requires number { workers ≡ N.workers }
    requires room { room ≡ N.room }
    requires shares { (shares.parts ≡ workers) × (shares.amount ≡ 0) }
    ensures { IfOk result (λ seats. seats.items ≡ map new_account (range_with_len 0 workers)) }
{
    let mut shares = shares;
    let mut seats = Vec::with_capacity(alloc, workers as usize)?;
    for worker in 0..workers {
        let share = shares.split_off(1, 0);
        seats.push_reserved(Seat::new(alloc, worker, room, share)?);
    }
    Ok(seats)
}

impl<T: Copy, N: MailBrand> SharedMail<T, N> {
    /// The empty mail with nothing noted, and a seat for each worker, in order.
    ///
    /// The numbers are those of `MailState::make`, and each seat has places for `room` lines of its own. `ledger` is an
    /// unopened one, with a part for each worker. The conditions tie the name in the type to these arguments: a caller
    /// of code that is generic over the name picks it so.
    ///
    /// Errors: those of `MailState::make`, in the same order.
    ///
    /// Takes the time of `MailState::make` and O(boxes + workers), and its memory, that for `workers * room` lines, and
    /// 128 bytes a box.
    pub fn make(
        alloc: Global,
        boxes: u32,
        workers: u32,
        nodes: u32,
        most: u64,
        blank: T,
        room: u32,
        ledger: Blank,
    ) -> Result<(SharedMail<T, N>, Vec<Seat<T, N>>), MailError>
        requires name { ledger.name ≡ N.name }
        requires parts { (ledger.parts ≡ N.parts) × (N.parts ≡ workers) }
        requires numbers { (boxes ≡ N.boxes) × (workers ≡ N.workers) × (nodes ≡ N.nodes) × (most ≡ N.most)
            × (room ≡ N.room) }
        requires some_worker { 0 < workers }
        ensures seats { IfOk result (λ r. r.1.items ≡ map new_account (range_with_len 0 workers)) }
        ensures within { OnOk result (LanesFit boxes workers × NodesFit nodes × RoomFits room) }
        ensures refused { IfErr result (IsRefusedWithRoom boxes workers nodes room) }
    {
        let state = MailState::make(alloc, boxes, workers, nodes, most, blank, room)?;
        let (total, shares) = ledger.open::<N>();
        let Ok(seats) = new_seats(alloc, workers, room, shares) else {
            return Err(MailError::NoMemory);
        };
        let Ok(bells) = new_bells(alloc, boxes) else {
            return Err(MailError::NoMemory);
        };
        let mail = SharedMail {
            locked: Mutex::new(LockedMail::new(state, total)),
            bells,
            workers,
        };
        Ok((mail, seats))
    }

    /// Takes the lock, for any number of calls, until [`HeldMail::release`] releases it; until then all others wait.
    /// This is no call.
    pub fn hold<'b, R: Wait>(&'b self, rt: &R) -> HeldMail<'b, T, N>
        ensures { IsNumbered N.boxes N.workers N.nodes N.most N.room result }
    {
        let locked = self.locked.lock(rt);
        // Read here, so that the proof has the invariant of the state under the lock.
        let _ = locked.state();
        HeldMail::new(locked, self.bells.as_slice())
    }

    /// Takes the lock once a take from the box would give a letter, say that none will come, or be refused. To wait is
    /// no call.
    ///
    /// It looks for a while before it sleeps.
    pub fn hold_for<'b, R: Wait>(&'b self, rt: &R, at: u32) -> HeldMail<'b, T, N>
        requires { at < N.boxes }
        ensures numbers { IsNumbered N.boxes N.workers N.nodes N.most N.room result }
        ensures ready { ¬ (IsWaiting result at) }
    {
        let locked = self.lock_for(rt, at);
        let locked = self.bells[at as usize]
            .changed
            .wait_while(rt, locked, |locked| locked.is_waiting(at));
        let _ = locked.state();
        HeldMail::new(locked, self.bells.as_slice())
    }

    /// Posts `item` to the box `to` in the name of the seat's worker, and returns the letter's number (from 1) in its
    /// lane. Wakes the threads that wait at this box, and all that wait at this mail where the trail has no place left
    /// for more calls.
    ///
    /// Refused as by `MailState::post`; after `TrailFull` the seat counts one call more that was turned away. Takes
    /// O(1) time under the lock, and no memory.
    pub fn post<R: Wait>(
        &self,
        rt: &R,
        seat: &mut Seat<T, N>,
        to: u32,
        item: T,
        reserve: u32,
    ) -> Result<u64, CallRefused>
        requires { to < N.boxes }
        ensures { SeatCalls N.room seat.old (Call.Post seat.old.worker to item reserve) (post_reply result) seat.new }
    {
        let mut held = self.hold(rt);
        let answer = held.post(seat, to, item, reserve);
        held.release();
        answer
    }

    /// Takes the first waiting letter of one of the box's lanes; where none has one, says whether one may still come.
    ///
    /// Refused where no more calls can be noted: the seat counts that, and all threads that wait at this mail are
    /// woken. Takes the time of `MailPool::take` under the lock, and no memory.
    pub fn try_take<R: Wait>(
        &self,
        rt: &R,
        seat: &mut Seat<T, N>,
        at: u32,
    ) -> Result<Taken<T>, TrailFull>
        requires { at < N.boxes }
        ensures { SeatCalls N.room seat.old (Call.Take at) (take_reply result) seat.new }
    {
        let mut held = self.hold(rt);
        let answer = held.take(seat, at);
        held.release();
        answer
    }

    /// Takes the first waiting letter of one of the box's lanes, and waits until there is one or the box is closed. To
    /// wait is no call.
    ///
    /// Refused where no more calls can be noted, which is tested each time it has the lock. Then the seat counts that,
    /// and all threads that wait at this mail are woken. It looks for a while before it sleeps. Takes the time of
    /// `MailPool::take` each time it has the lock, and no memory.
    pub fn take<R: Wait>(
        &self,
        rt: &R,
        seat: &mut Seat<T, N>,
        at: u32,
    ) -> Result<Taken<T>, TrailFull>
        requires { at < N.boxes }
        ensures seat { SeatCalls N.room seat.old (Call.Take at) (take_reply result) seat.new }
        ensures waited { result ≢ Ok Taken.Empty }
    {
        let mut held = self.hold_for(rt, at);
        let answer = held.take(seat, at);
        held.release();
        answer
    }

    /// Closes the box, and returns whether it was still open. Its waiting letters stay. Wakes the threads that wait at
    /// it.
    ///
    /// Refused where no more calls can be noted: the seat counts that, and all threads that wait at this mail are
    /// woken. Takes O(1) time under the lock, and no memory.
    pub fn close<R: Wait>(&self, rt: &R, seat: &mut Seat<T, N>, at: u32) -> Result<bool, TrailFull>
        requires { at < N.boxes }
        ensures { SeatCalls N.room seat.old (Call.Close at) (close_reply result) seat.new }
    {
        let mut held = self.hold(rt);
        let answer = held.close(seat, at);
        held.release();
        answer
    }

    /// The result of `f` on the present state, while nobody else calls. This is no call, and is not noted. `f` may be
    /// called on every state.
    pub fn look<R: Wait, A, F: FnOnce(&MailState<T>) -> A>(&self, rt: &R, f: F) -> A
        requires { F.IsAlwaysCallable f }
        ensures { (state : _) × F.post f state result × IsNumbered N.boxes N.workers N.nodes N.most N.room state.now }
    {
        let locked = self.locked.lock(rt);
        f(locked.state())
    }

    /// Ends the mail and returns the trail, where these hold:
    ///
    /// - Each worker's seat is among these, and its lines are the trail's lines of that worker, in order and with the
    ///   same answers.
    /// - A seat counts calls that were turned away only where the trail has no place left.
    ///
    /// Errors are tested in this order: `NoTrail` where the mail was made with no room for one; `Missing` where a
    /// worker's seat isn't among these; `Differs`. The mail and the seats are used up in every case.
    ///
    /// Takes O(workers * (lines + seats)) time and no memory. The condition on `==` of items holds for numbers, and for
    /// letters of the solver.
    pub fn settle(self, seats: Vec<Seat<T, N>>) -> Result<Trail<T>, SettleError>
    where
        T: Eq,
        requires { EqualIsSame T.eq }
        ensures settled { IfOk result (IsSettled N.boxes N.workers N.nodes N.most N.room seats.items) }
        ensures unsettled { IfErr result (IsUnsettled N.workers N.room seats.items) }
    {
        let SharedMail {
            locked,
            bells: _,
            workers,
        } = self;
        settling::settle(locked.into_inner(), workers, seats)
    }
    // Takes the lock. Where a take from the box would find nothing yet, looks for a while first, without the lock.
    fn lock_for<R: Wait>(&self, rt: &R, at: u32) -> MutexGuard<'_, LockedMail<T, N>>
        requires { at < N.boxes }
    {
        let locked = self.locked.lock(rt);
        if !locked.is_waiting(at) {
            return locked;
        }
        let bell = &self.bells[at as usize];
        let heard = bell.rung();
        drop(locked);
        bell.look(heard);
        self.locked.lock(rt)
    }
}
