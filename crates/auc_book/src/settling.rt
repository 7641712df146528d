//! The comparison of all seats with the trail.

ghost use Rattle.std.specs.Prelude.{◌≡◌, ◌≢◌, ◌↔◌, IfOk, IfErr, IsTrue, MatchOption, All};
ghost use Rattle.auc_mail.specs.Equality.{EqualIsSame};
ghost use Rattle.auc_book.specs.Seats.{IsPlaceOf, TakesSeat};
ghost use Rattle.auc_book.specs.Settling.{Differ, IsSettled, IsTrueOf, IsUnsettled, IsUnseated};

use crate::brand::MailBrand;
use crate::error::SettleError;
use crate::line::{TrailLine, same_lines};
use crate::locked_mail::LockedMail;
use crate::seat::Seat;
use crate::trail::Trail;

// The place of a seat of the worker in the list.
fn place_of<T: Copy, N: MailBrand>(seats: &[Seat<T, N>], worker: u32) -> Option<usize>
    ensures { MatchOption result (IsUnseated seats.now worker) (λ i. IsPlaceOf worker seats.now i) }
{
    for (i, seat) in seats.iter().enumerate() {
        if seat.worker() == worker {
            return Some(i);
        }
    }
    None
}

// Takes a seat of the worker out of the list.
fn take_seat<T: Copy, N: MailBrand>(seats: &mut Vec<Seat<T, N>>, worker: u32) -> Option<Seat<T, N>>
    ensures { MatchOption result (IsUnseated seats.old.items worker × (seats.new.items ≡ seats.old.items))
        (λ seat. TakesSeat worker seats.old.items seat seats.new.items) }
{
    match place_of(seats.as_slice(), worker) {
        None => None,
        Some(place) => Some(seats.remove(place)),
    }
}

// Whether the seat agrees with the trail: its lines are those of its worker, and no call was turned away while a place
// was left.
fn is_true_of<T: Copy + Eq, N: MailBrand>(seat: &Seat<T, N>, lines: &[TrailLine<T>]) -> bool
    requires { EqualIsSame T.eq }
    ensures { IsTrue result ↔ IsTrueOf N.room lines.now seat.now }
{
    if seat.turned_away() > 0 && lines.len() < seat.room() as usize {
        return false;
    }
    same_lines(lines, seat.worker(), seat.lines())
}

// Compares the seats with the trail. They are taken out in the workers' order, whatever order they came in, and none
// may be left.
pub(crate) fn settle<T: Copy + Eq, N: MailBrand>(
    locked: LockedMail<T, N>,
    workers: u32,
    seats: Vec<Seat<T, N>>,
) -> Result<Trail<T>, SettleError>
    requires workers { workers ≡ N.workers }
    requires same { EqualIsSame T.eq }
    ensures settled { IfOk result (IsSettled N.boxes N.workers N.nodes N.most N.room seats.items) }
    ensures trail { IfOk result (λ trail. trail ≡ locked.trail) }
    ensures unsettled { IfErr result (IsUnsettled N.workers N.room seats.items) }

    // `SharedMail::settle` can't say this, since the state under a lock has no name in a contract
    ensures differs { IfErr result (λ e. e ≡ SettleError.Differs → Differ N.workers N.room seats.items locked.trail) }
{
    if locked.room() == 0 {
        return Err(SettleError::NoTrail);
    }
    let lines = locked.into_lines();
    let mut seats = seats;
    let mut same = true;
    for worker in 0..workers {
        let Some(seat) = take_seat(&mut seats, worker) else {
            return Err(SettleError::Missing);
        };
        same = same && is_true_of(&seat, lines.as_slice());
    }
    if !same || !seats.is_empty() {
        return Err(SettleError::Differs);
    }
    Ok(Trail::new(lines))
}
