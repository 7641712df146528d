//! The seat of a worker at a shared mail.

ghost use Rattle.std.specs.Prelude.{◌≡◌, ◌+◌, ◌<◌, length, IfOk, None, Some};
ghost use Rattle.auc_book.specs.declared.limits.TheConstants.{MOST_CALLS};
ghost use Rattle.auc_book.specs.Seat.{new_account, SeatCalls};

use crate::brand::MailBrand;
use crate::line::TrailLine;
use auc_mail::Call;
use std::alloc::{AllocError, Global};
use std::marker::Model;
use std::sync::ledger::{Book, Share};

/// A worker's seat at a shared mail: it counts the worker's calls, and notes them where the mail keeps a trail. Calls
/// that are turned away are counted separately.
///
/// Its count is the worker's share of the ledger of all calls, whose total is under the mail's lock. So it rises only
/// where a call was made there.
///
/// Contracts see it as the `Account` of `specs/Seat.antt`.
#[derive(Drop)]
pub struct Seat<T: Copy, N: MailBrand> {
    own: Vec<TrailLine<T>>,
    calls: u64,
    turned: u64,
    number: u32,
    places: u32,
    share: Share<N>,
}

impl<T: Copy, N: MailBrand> Model for Seat<T, N> {
    ghost use Rattle.std.specs.Prelude.{vec_capacity};
    ghost use Rattle.auc_book.specs.Seat.{Account, IsSeated};

    ghost Value = { Account T };

    ghost view = { λ s. record { worker = s.number; count = s.calls; turned_away = s.turned; lines = s.own.items } };

    ghost invariant = { λ s. IsSeated N.workers N.room (record
        { worker = s.number; count = s.calls; turned_away = s.turned; lines = s.own.items }) s.places
        (vec_capacity s.own) s.share.parts
        s.share.amount };
}

impl<T: Copy, N: MailBrand> Seat<T, N> {
    // The seat of a worker who made no call, with places for the worker's lines.
    pub(crate) fn new(
        alloc: Global,
        worker: u32,
        room: u32,
        share: Share<N>,
    ) -> Result<Seat<T, N>, AllocError>
        requires number { worker < N.workers }
        requires room { room ≡ N.room }
        requires share { (share.parts ≡ 1) × (share.amount ≡ 0) }
        ensures { IfOk result (λ seat. seat ≡ new_account worker) }
    {
        Ok(Seat {
            own: Vec::with_capacity(alloc, room as usize)?,
            calls: 0,
            turned: 0,
            number: worker,
            places: room,
            share,
        })
    }

    /// The worker of the seat, from 0. Takes O(1) time.
    pub fn worker(&self) -> u32
        ensures number { result ≡ self.now.worker }
        ensures in_range { result < N.workers }
    {
        self.number
    }

    /// The number of calls that the worker made. Takes O(1) time.
    pub fn count(&self) -> u64
        ensures { result ≡ self.now.count }
    {
        self.calls
    }

    /// The number of the worker's calls that were turned away, since no more could be noted. It stops at its last
    /// value. Takes O(1) time.
    pub fn turned_away(&self) -> u64
        ensures { result ≡ self.now.turned_away }
    {
        self.turned
    }

    // The number of lines that the trail has room for.
    pub(crate) fn room(&self) -> u32
        ensures { result ≡ N.room }
    {
        self.places
    }

    /// The lines of the worker's calls, the first one first; none where the mail keeps no trail. Takes O(1) time.
    pub fn lines(&self) -> &[TrailLine<T>]
        ensures lines { result.now ≡ self.now.lines }
        ensures counted { 0 < N.room → self.now.count ≡ length self.now.lines }
    {
        self.own.as_slice()
    }

    // Counts a call that was turned away.
    pub(crate) fn turn_away(&mut self, call: Call<T>)
        ensures { SeatCalls N.room self.old call None self.new }
    {
        self.turned = self.turned.saturating_add(1);
    }

    // Counts a call, here and in the total, and notes its line where there is room for lines.
    pub(crate) fn note(&mut self, total: &mut Book<N>, line: TrailLine<T>)
        requires count { total.old.total < MOST_CALLS }
        requires place { 0 < N.room → total.old.total < N.room }
        requires whose { line.worker ≡ self.old.worker }
        ensures total { total.new.total ≡ total.old.total + 1 }
        ensures seat { SeatCalls N.room self.old line.call (Some line.reply) self.new }
    {
        total.audit(&mut self.share);
        total.add(&mut self.share, 1);
        self.calls += 1;
        if self.places > 0 {
            self.own.push_reserved(line);
        }
    }
}
