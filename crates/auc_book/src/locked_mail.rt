//! The state under the lock of a shared mail, and the calls that are made there.

ghost use Rattle.std.specs.Prelude.{◌≡◌, ◌<◌, ◌↔◌, false, true, All, IsTrue};
ghost use Rattle.auc_mail.specs.Mail.{empty_mail};
ghost use Rattle.auc_mail.specs.Run.{Run};
ghost use Rattle.auc_mail.specs.Step.{FitsIn};
ghost use Rattle.auc_book.specs.Trail.{events_of, IsOwn};
ghost use Rattle.auc_book.specs.Replies.{close_reply, post_reply, take_reply};
ghost use Rattle.auc_book.specs.State.{Calls};
ghost use Rattle.auc_book.specs.Seat.{SeatCalls};
ghost use Rattle.auc_book.specs.LockedMail.{IsNumbered, IsWaiting};

use crate::brand::MailBrand;
use crate::error::{CallRefused, TrailFull};
use crate::line::TrailLine;
use crate::seat::Seat;
use crate::state::MailState;
use auc_mail::{Call, PostRefused, Reply, Taken};
use std::marker::Model;
use std::sync::ledger::Book;

// The state under the lock of a shared mail, and the total of the seats' shares.
#[derive(Drop)]
pub struct LockedMail<T: Copy, N: MailBrand> {
    state: MailState<T>,
    total: Book<N>,
}

impl<T: Copy, N: MailBrand> Model for LockedMail<T, N> {
    ghost use Rattle.auc_book.specs.State.{State};
    ghost use Rattle.auc_book.specs.LockedMail.{IsLockedMail};

    ghost Value = { State T };

    ghost view = { λ d. d.state };

    ghost invariant = { λ d. IsLockedMail N.boxes N.workers N.nodes N.most N.room d.state d.total.total };
}

impl<T: Copy, N: MailBrand> LockedMail<T, N> {
    // The locked mail of a new state, with no call counted in any share.
    pub(crate) fn new(state: MailState<T>, total: Book<N>) -> LockedMail<T, N>
        requires numbers { IsNumbered N.boxes N.workers N.nodes N.most N.room state }
        requires counted { total.total ≡ state.count }
        ensures { result ≡ state }
    {
        LockedMail { state, total }
    }

    // The state.
    pub(crate) fn state(&self) -> &MailState<T>
        ensures state { result.now ≡ self.now }
        ensures numbers { IsNumbered N.boxes N.workers N.nodes N.most N.room result.now }
    {
        &self.state
    }

    // Makes the call of the seat's worker, and notes it in the trail and in the seat. None where no more can be noted:
    // then the seat counts that it was turned away.
    #[tactic(auto, using(crate::proofs::LockedMailLaws::place_left))]
    fn note(&mut self, seat: &mut Seat<T, N>, call: Call<T>) -> Option<Reply<T>>
        requires fits { FitsIn N.workers N.boxes call }
        requires own { IsOwn seat.old.worker call }
        ensures calls { Calls self.old seat.old.worker call result self.new }
        ensures seat { SeatCalls N.room seat.old call result seat.new }
    {
        // The law that says the trail is as long as the count, so that the seat has a place where the trail has one.
        self.state.every_state_is_noted();
        let worker = seat.worker();
        let Some(reply) = self.state.note(worker, call) else {
            seat.turn_away(call);
            return None;
        };
        seat.note(
            &mut self.total,
            TrailLine {
                worker,
                call,
                reply,
            },
        );
        Some(reply)
    }

    // Posts in the worker's name.
    pub(crate) fn post(
        &mut self,
        seat: &mut Seat<T, N>,
        to: u32,
        item: T,
        reserve: u32,
    ) -> Result<u64, CallRefused>
        requires { to < N.boxes }
        ensures calls { Calls self.old seat.old.worker (Call.Post seat.old.worker to item reserve)
            (post_reply result) self.new }
        ensures seat { SeatCalls N.room seat.old (Call.Post seat.old.worker to item reserve)
            (post_reply result) seat.new }
    {
        let sender = seat.worker();
        match self.note(
            seat,
            Call::Post {
                sender,
                to,
                item,
                reserve,
            },
        ) {
            None => Err(CallRefused::TrailFull),
            Some(Reply::Posted(number)) => Ok(number),
            Some(Reply::Refused(PostRefused::Closed)) => Err(CallRefused::Closed),
            Some(Reply::Refused(PostRefused::Spent)) => Err(CallRefused::Spent),
            Some(Reply::Refused(PostRefused::Full)) => Err(CallRefused::Full),
            Some(_) => unreachable!(),
        }
    }

    // Takes a letter of the box.
    pub(crate) fn take(&mut self, seat: &mut Seat<T, N>, at: u32) -> Result<Taken<T>, TrailFull>
        requires { at < N.boxes }
        ensures calls { Calls self.old seat.old.worker (Call.Take at) (take_reply result) self.new }
        ensures seat { SeatCalls N.room seat.old (Call.Take at) (take_reply result) seat.new }
    {
        match self.note(seat, Call::Take { at }) {
            None => Err(TrailFull),
            Some(Reply::Took(taken)) => Ok(taken),
            Some(_) => unreachable!(),
        }
    }

    // Closes the box.
    pub(crate) fn close(&mut self, seat: &mut Seat<T, N>, at: u32) -> Result<bool, TrailFull>
        requires { at < N.boxes }
        ensures calls { Calls self.old seat.old.worker (Call.Close at) (close_reply result) self.new }
        ensures seat { SeatCalls N.room seat.old (Call.Close at) (close_reply result) seat.new }
    {
        match self.note(seat, Call::Close { at }) {
            None => Err(TrailFull),
            Some(Reply::WasOpen(was_open)) => Ok(was_open),
            Some(_) => unreachable!(),
        }
    }

    // Whether a take would find nothing yet. Not where it would be refused.
    pub(crate) fn is_waiting(&self, at: u32) -> bool
        requires { at < N.boxes }
        ensures { IsTrue result ↔ IsWaiting self.now at }
    {
        let pool = self.state.pool();
        if self.state.is_full() || pool.is_closed(at) {
            return false;
        }
        !pool.has_letter(at)
    }

    // The number of lines that the trail has room for.
    pub(crate) fn room(&self) -> u32
        ensures { result ≡ N.room }
    {
        self.state.room()
    }

    // The lines of the trail, from an empty mail on.
    pub(crate) fn into_lines(self) -> Vec<TrailLine<T>>
        ensures lines { result.items ≡ self.trail }
        ensures run { 0 < N.room → (last : _) × Run (empty_mail N.boxes N.workers N.nodes N.most)
            (events_of result.items) last }
        ensures own { All (λ l. (l.worker < N.workers) × IsOwn l.worker l.call) result.items }
    {
        self.state.every_state_is_noted();
        let LockedMail { state, total: _ } = self;
        state.into_lines()
    }
}
