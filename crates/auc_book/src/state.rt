//! A mail with a trail of its calls, for one thread.

ghost use Rattle.std.specs.Prelude.{◌≡◌, ◌<◌, ◌↔◌, length, IsTrue, IfOk, OnOk, IfErr, All};
ghost use Rattle.auc_mail.specs.Mail.{HasLane, IsEmpty};
ghost use Rattle.auc_mail.specs.Step.{Fits};
ghost use Rattle.auc_mail.specs.Run.{Run};
ghost use Rattle.auc_mail.specs.Limits.{LanesFit, NodesFit};
ghost use Rattle.auc_book.specs.Limits.{RoomFits, IsRefusedWithRoom};
ghost use Rattle.auc_book.specs.Trail.{events_of, IsOwn};
ghost use Rattle.auc_book.specs.Replies.{close_reply, post_reply, take_reply};
ghost use Rattle.auc_book.specs.State.{new_state, start_of, Calls, IsFull, IsNoted};

use crate::error::{CallRefused, TrailFull};
use crate::limits::{MOST_CALLS, MOST_ROOM};
use crate::line::TrailLine;
use auc_mail::{Call, MailError, MailPool, PostRefused, Reply, Taken};
use std::alloc::{AllocError, Global};
use std::marker::Model;

/// A mail with a count of its calls and, where it was made with room for them, a trail: a line for each call.
///
/// Workers are numbered from 0, and are the senders: worker `k` posts as sender `k`. Where there is a trail, its calls
/// lead from the empty mail to this one, and the count is its length. No call but `make` takes memory.
///
/// Contracts see it as the `State` of `specs/State.antt`.
#[derive(Drop)]
pub struct MailState<T: Copy> {
    pool: MailPool<T>,
    lines: Vec<TrailLine<T>>,
    calls: u64,
    places: u32,
}

impl<T: Copy> Model for MailState<T> {
    ghost use Rattle.std.specs.Prelude.{vec_capacity, ◌≤◌};
    ghost use Rattle.auc_book.specs.State.{State, IsNoted};

    ghost Value = { State T };

    ghost view = { λ s. record { mail = s.pool; count = s.calls; room = s.places; trail = s.lines.items } };

    ghost invariant = { λ s. IsNoted (record { mail = s.pool; count = s.calls; room = s.places; trail = s.lines.items })
        × (s.places ≤ vec_capacity s.lines) };
}

impl<T: Copy> MailState<T> {
    /// The empty mail, with nothing counted and nothing noted.
    ///
    /// `boxes`, `nodes`, `most` and `blank` are those of `MailPool::make`, and `workers` its senders. The trail has
    /// room for `room` lines; with 0 there is none.
    ///
    /// Errors, in this order: those of `MailPool::make` of its limits; `TooMuchRoom` above `MOST_ROOM`; `NoMemory`
    /// where memory was refused.
    ///
    /// Takes the time and memory of `MailPool::make`, and memory for `room` lines.
    pub fn make(
        alloc: Global,
        boxes: u32,
        workers: u32,
        nodes: u32,
        most: u64,
        blank: T,
        room: u32,
    ) -> Result<MailState<T>, MailError>
        ensures made { IfOk result (λ state. state ≡ new_state boxes workers nodes most room) }
        ensures within { OnOk result (LanesFit boxes workers × NodesFit nodes × RoomFits room) }
        ensures refused { IfErr result (IsRefusedWithRoom boxes workers nodes room) }
    {
        match MailPool::make(alloc, boxes, workers, nodes, most, blank) {
            Err(MailError::TooManyLanes) => Err(MailError::TooManyLanes),
            Err(MailError::TooManyNodes) => Err(MailError::TooManyNodes),
            _ if room > MOST_ROOM => Err(MailError::TooMuchRoom),
            Err(_) => Err(MailError::NoMemory),
            Ok(pool) => MailState::with_room(alloc, pool, room),
        }
    }

    // The empty mail, with places for the lines.
    fn with_room(alloc: Global, pool: MailPool<T>, room: u32) -> Result<MailState<T>, MailError>
        requires { IsEmpty pool }
        ensures made { IfOk result (λ state. state ≡ new_state (length pool.accepting) pool.senders pool.nodes pool.most
            room) }
        ensures refused { IfErr result (λ e. e ≡ MailError.NoMemory) }
    {
        match Vec::with_capacity(alloc, room as usize) {
            Ok(lines) => Ok(MailState {
                pool,
                lines,
                calls: 0,
                places: room,
            }),
            Err(_) => Err(MailError::NoMemory),
        }
    }

    /// The present mail. Takes O(1) time.
    pub fn pool(&self) -> &MailPool<T>
        ensures { result.now ≡ self.now.mail }
    {
        &self.pool
    }

    /// The number of calls that were made. Takes O(1) time.
    pub fn count(&self) -> u64
        ensures { result ≡ self.now.count }
    {
        self.calls
    }

    // The number of lines that the trail has room for.
    pub(crate) fn room(&self) -> u32
        ensures { result ≡ self.now.room }
    {
        self.places
    }

    // Whether no more calls can be noted.
    pub(crate) fn is_full(&self) -> bool
        ensures { IsTrue result ↔ IsFull self.now }
    {
        (self.places > 0 && self.lines.len() == self.places as usize) || self.calls == MOST_CALLS
    }

    // Makes the worker's call, and counts and notes it. None where no more can be noted.
    pub(crate) fn note(&mut self, worker: u32, call: Call<T>) -> Option<Reply<T>>
        requires fits { Fits self.old.mail call }
        requires worker { worker < self.old.mail.senders }
        requires own { IsOwn worker call }
        ensures { Calls self.old worker call result self.new }
    {
        if self.is_full() {
            return None;
        }
        let reply = self.pool.answer(call);
        self.calls += 1;
        if self.places > 0 {
            self.lines.push_reserved(TrailLine {
                worker,
                call,
                reply,
            });
        }
        Some(reply)
    }

    /// Posts `item` to the box `to` in the worker's name, and returns the letter's number in its lane, from 1.
    ///
    /// Refused, in this order: `TrailFull` where no more calls can be noted, with nothing changed and nothing noted;
    /// `Closed`, `Spent` and `Full` as by `MailPool::post`, which are noted. Takes O(1) time.
    pub fn post(&mut self, worker: u32, to: u32, item: T, reserve: u32) -> Result<u64, CallRefused>
        requires { HasLane self.old.mail to worker }
        ensures { Calls self.old worker (Call.Post worker to item reserve) (post_reply result) self.new }
    {
        match self.note(
            worker,
            Call::Post {
                sender: worker,
                to,
                item,
                reserve,
            },
        ) {
            None => Err(CallRefused::TrailFull),
            Some(Reply::Posted(number)) => Ok(number),
            Some(Reply::Refused(PostRefused::Closed)) => Err(CallRefused::Closed),
            Some(Reply::Refused(PostRefused::Spent)) => Err(CallRefused::Spent),
            Some(Reply::Refused(PostRefused::Full)) => Err(CallRefused::Full),
            Some(_) => unreachable!(),
        }
    }

    /// Takes the first waiting letter of one of the box's lanes, as `MailPool::take` does, in its time.
    ///
    /// Refused where no more calls can be noted, with nothing changed and nothing noted.
    pub fn take(&mut self, worker: u32, at: u32) -> Result<Taken<T>, TrailFull>
        requires { HasLane self.old.mail at worker }
        ensures { Calls self.old worker (Call.Take at) (take_reply result) self.new }
    {
        match self.note(worker, Call::Take { at }) {
            None => Err(TrailFull),
            Some(Reply::Took(taken)) => Ok(taken),
            Some(_) => unreachable!(),
        }
    }

    /// Closes the box, and returns whether it was still open. Its waiting letters stay. Takes O(1) time.
    ///
    /// Refused where no more calls can be noted, with nothing changed and nothing noted.
    pub fn close(&mut self, worker: u32, at: u32) -> Result<bool, TrailFull>
        requires { HasLane self.old.mail at worker }
        ensures { Calls self.old worker (Call.Close at) (close_reply result) self.new }
    {
        match self.note(worker, Call::Close { at }) {
            None => Err(TrailFull),
            Some(Reply::WasOpen(was_open)) => Ok(was_open),
            Some(_) => unreachable!(),
        }
    }

    /// The invariant of every state: where there is a trail, it is a run from the empty mail to this one. This is a
    /// law, and does nothing: proofs above cite it.
    pub fn every_state_is_noted(&self)
        ensures { IsNoted self.now }
    {
        let _ = &self.calls;
    }

    // The lines of the trail.
    pub(crate) fn into_lines(self) -> Vec<TrailLine<T>>
        ensures lines { result.items ≡ self.trail }
    {
        self.lines
    }
}
