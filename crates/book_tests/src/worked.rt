//! One box and two workers, call by call, and what the seats settle to.

ghost use Rattle.std.specs.Prelude.{◌≡◌};

use crate::same::assert_same;
use auc_book::{MailBrand, MailState, Seat, SettleError, SharedMail, Trail, TrailFull, TrailLine};
use auc_mail::{Call, Reply, Taken};
use std::alloc::Global;
use std::marker::Brand;
use std::process::Abort;
use std::sync::Wait;
use std::sync::ledger::Blank;
use std::test::*;

fn post(worker: u32, item: i64) -> TrailLine<i64> {
    TrailLine {
        worker,
        call: Call::Post {
            sender: worker,
            to: 0,
            item,
            reserve: 0,
        },
        reply: Reply::Posted(1),
    }
}

const FIRST_LETTER: Taken<i64> = Taken::Letter {
    sender: 0,
    number: 1,
    item: 5,
};

const FIRST_TAKE: TrailLine<i64> = TrailLine {
    worker: 0,
    call: Call::Take { at: 0 },
    reply: Reply::Took(FIRST_LETTER),
};

// Both workers post, the first one takes, and no place is left for the second one's take.
fn four_calls<N: MailBrand, R: Wait + Abort>(
    rt: &R,
    mail: &SharedMail<i64, N>,
    first: &mut Seat<i64, N>,
    second: &mut Seat<i64, N>,
) -> Result<(), Fail>
    requires { N.boxes ≡ 1 }
{
    assert_same(rt, (first.worker(), second.worker()), (0, 1));
    assert_same(rt, mail.post(rt, first, 0, 5, 0), Ok(1));
    assert_same(rt, mail.post(rt, second, 0, 6, 0), Ok(1));
    assert_same(rt, mail.take(rt, first, 0), Ok(FIRST_LETTER));
    assert_same(rt, mail.try_take(rt, second, 0), Err(TrailFull));
    assert_same(rt, mail.look(rt, |state: &MailState<i64>| state.count()), 3);
    assert_same(
        rt,
        mail.look(rt, |state: &MailState<i64>| state.pool().free()),
        3,
    );
    assert_same(rt, (first.count(), second.count()), (2, 1));
    assert_same(rt, first.lines(), [post(0, 5), FIRST_TAKE].as_slice());
    assert_same(rt, second.lines(), [post(1, 6)].as_slice());
    Ok(())
}

// The result of settling after these calls, with the seats of both workers, the second one's first, or with the first
// one's alone.
fn settled<N: MailBrand, R: Wait + Abort>(
    rt: &R,
    alloc: Global,
    ledger: Blank,
    both: bool,
) -> Result<Result<Trail<i64>, SettleError>, Fail>
    requires name { ledger.name ≡ N.name }
    requires parts { (ledger.parts ≡ N.parts) × (N.parts ≡ 2) }
    requires numbers { (N.boxes ≡ 1) × (N.workers ≡ 2) × (N.nodes ≡ 4) × (N.most ≡ 9) × (N.room ≡ 3) }
{
    let (mail, mut seats) = SharedMail::<i64, N>::make(alloc, 1, 2, 4, 9, 0, 3, ledger)?;
    assert!(rt; seats.len() == 2);
    let mut first = seats.remove(0);
    let mut second = seats.remove(0);
    four_calls(rt, &mail, &mut first, &mut second)?;
    if both {
        seats.push(second)?;
    }
    seats.push(first)?;
    Ok(mail.settle(seats))
}

#[test]
fn both_seats_settle(rt: HostRuntime) -> Result<(), Fail> {
    let trail = settled::<Brand, _>(&rt, rt.alloc(), Blank::new(2), true)??;
    let expected = [post(0, 5), post(1, 6), FIRST_TAKE];
    assert_same(&rt, trail.lines(), expected.as_slice());
    Ok(())
}

#[test]
fn one_seat_is_missing(rt: HostRuntime) -> Result<(), Fail> {
    let settled = settled::<Brand, _>(&rt, rt.alloc(), Blank::new(2), false)?;
    assert_same(&rt, settled.err(), Some(SettleError::Missing));
    Ok(())
}

#[test]
fn no_trail_was_kept(rt: HostRuntime) -> Result<(), Fail> {
    untold::<Brand, _>(&rt, rt.alloc(), Blank::new(2))
}

// No trail comes before a missing seat.
fn untold<N: MailBrand, R: Wait + Abort>(rt: &R, alloc: Global, ledger: Blank) -> Result<(), Fail>
    requires name { ledger.name ≡ N.name }
    requires parts { (ledger.parts ≡ N.parts) × (N.parts ≡ 2) }
    requires numbers { (N.boxes ≡ 1) × (N.workers ≡ 2) × (N.nodes ≡ 4) × (N.most ≡ 9) × (N.room ≡ 0) }
{
    let (mail, seats) = SharedMail::<i64, N>::make(alloc, 1, 2, 4, 9, 0, 0, ledger)?;
    assert!(rt; seats.len() == 2);
    assert_same(rt, mail.settle(seats).err(), Some(SettleError::NoTrail));
    Ok(())
}

#[test]
fn calls_without_a_trail(rt: HostRuntime) -> Result<(), Fail> {
    calls_untold::<Brand, _>(&rt, rt.alloc(), Blank::new(1))
}

// Calls are counted and not noted. No trail comes before a missing seat.
fn calls_untold<N: MailBrand, R: Wait + Abort>(
    rt: &R,
    alloc: Global,
    ledger: Blank,
) -> Result<(), Fail>
    requires name { ledger.name ≡ N.name }
    requires parts { (ledger.parts ≡ N.parts) × (N.parts ≡ 1) }
    requires numbers { (N.boxes ≡ 1) × (N.workers ≡ 1) × (N.nodes ≡ 4) × (N.most ≡ 9) × (N.room ≡ 0) }
{
    let (mail, mut seats) = SharedMail::<i64, N>::make(alloc, 1, 1, 4, 9, 0, 0, ledger)?;
    assert!(rt; seats.len() == 1);
    let mut seat = seats.remove(0);
    assert_same(rt, mail.try_take(rt, &mut seat, 0), Ok(Taken::Empty));
    assert_same(rt, mail.post(rt, &mut seat, 0, 5, 0), Ok(1));
    assert_same(rt, mail.close(rt, &mut seat, 0), Ok(true));
    assert_same(rt, mail.take(rt, &mut seat, 0), Ok(FIRST_LETTER));
    assert_same(rt, mail.take(rt, &mut seat, 0), Ok(Taken::Over));
    assert_same(rt, seat.count(), 5);
    assert!(rt; seat.lines().is_empty());
    assert_same(rt, mail.look(rt, |state: &MailState<i64>| state.count()), 5);
    assert_same(rt, mail.settle(seats).err(), Some(SettleError::NoTrail));
    Ok(())
}
