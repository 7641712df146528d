//! A trail with no place left ends each wait at its mail, whatever call took the last place.

ghost use Rattle.std.specs.Prelude.{◌≡◌, ◌<◌};

use crate::same::assert_same;
use auc_book::{CallRefused, MailBrand, Seat, SharedMail, TrailFull};
use auc_mail::Taken;
use std::alloc::Global;
use std::marker::Brand;
use std::process::Abort;
use std::sync::Wait;
use std::sync::ledger::Blank;
use std::test::*;
use std::thread::{Threads, join, yield_now};

/// How often the others may run before the call that takes the last place: until then those that wait sleep.
const TURNS: u32 = 20_000;

/// The result of a wait.
type Waited = Result<Taken<u64>, TrailFull>;

// Nobody waits at the third box.
#[test]
fn a_letter_to_another_box(rt: HostRuntime) -> Result<(), Fail> {
    let posted = wakes_all::<Brand, _>(&rt, rt.alloc(), Blank::new(3), 2, 4)?;
    assert_same(&rt, posted, Ok(1));
    Ok(())
}

// The letter that one of them waits for: that worker doesn't get it any more.
#[test]
fn a_letter_to_one_of_them(rt: HostRuntime) -> Result<(), Fail> {
    let posted = wakes_all::<Brand, _>(&rt, rt.alloc(), Blank::new(3), 1, 4)?;
    assert_same(&rt, posted, Ok(1));
    Ok(())
}

// No letter may wait in this mail.
#[test]
fn a_refused_letter_to_one_of_them(rt: HostRuntime) -> Result<(), Fail> {
    let posted = wakes_all::<Brand, _>(&rt, rt.alloc(), Blank::new(3), 0, 0)?;
    assert_same(&rt, posted, Err(CallRefused::Full));
    Ok(())
}

// Two workers wait at two boxes, and a third one's post takes the only place of the trail: both waits end.
fn wakes_all<N: MailBrand + Send + Sync, R: Wait + Threads + Abort + Sync>(
    rt: &R,
    alloc: Global,
    ledger: Blank,
    to: u32,
    nodes: u32,
) -> Result<Result<u64, CallRefused>, Fail>
    requires name { ledger.name ≡ N.name }
    requires parts { (ledger.parts ≡ N.parts) × (N.parts ≡ 3) }
    requires numbers { (N.boxes ≡ 3) × (N.workers ≡ 3) × (nodes ≡ N.nodes) × (N.most ≡ 9) × (N.room ≡ 1) }
    requires known { to < 3 }
{
    let (mail, mut seats) = SharedMail::<u64, N>::make(alloc, 3, 3, nodes, 9, 0, 1, ledger)?;
    assert!(rt; seats.len() == 3);
    let first = seats.remove(0);
    let second = seats.remove(0);
    let third = seats.remove(0);
    let (waited, posted) = join(
        rt,
        || -> (Waited, Waited)
            requires { 1 < N.boxes }
        { wait_at_both(rt, &mail, first, second) },
        || -> Result<u64, CallRefused>
            requires { to < N.boxes }
        { post_late(rt, &mail, third, to) },
    );
    assert_same(rt, waited, (Err(TrailFull), Err(TrailFull)));
    Ok(posted)
}

// Each of the two waits for a letter of a box of its own.
fn wait_at_both<N: MailBrand + Send + Sync, R: Wait + Threads + Sync>(
    rt: &R,
    mail: &SharedMail<u64, N>,
    first: Seat<u64, N>,
    second: Seat<u64, N>,
) -> (Waited, Waited)
    requires { 1 < N.boxes }
{
    join(
        rt,
        || -> Waited
            requires { 0 < N.boxes }
        { wait_at(rt, mail, first, 0) },
        || -> Waited
            requires { 1 < N.boxes }
        { wait_at(rt, mail, second, 1) },
    )
}

fn wait_at<N: MailBrand, R: Wait>(
    rt: &R,
    mail: &SharedMail<u64, N>,
    seat: Seat<u64, N>,
    at: u32,
) -> Waited
    requires { at < N.boxes }
{
    let mut seat = seat;
    mail.take(rt, &mut seat, at)
}

// Lets the others run, and posts.
fn post_late<N: MailBrand, R: Wait>(
    rt: &R,
    mail: &SharedMail<u64, N>,
    seat: Seat<u64, N>,
    to: u32,
) -> Result<u64, CallRefused>
    requires { to < N.boxes }
{
    let mut seat = seat;
    for _turn in 0..TURNS {
        yield_now();
    }
    mail.post(rt, &mut seat, to, 7, 0)
}
