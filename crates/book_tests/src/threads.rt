//! Workers in threads of their own: what they post and take, whatever order their calls come in.

ghost use Rattle.std.specs.Prelude.{◌≡◌, ◌<◌};

use crate::same::assert_same;
use auc_book::{MailBrand, Seat, SharedMail, TrailFull, TrailLine};
use auc_mail::{Reply, Taken};
use std::alloc::Global;
use std::marker::Brand;
use std::process::Abort;
use std::sync::Wait;
use std::sync::ledger::Blank;
use std::test::*;
use std::thread::{Threads, join};

// The letter with this number that the worker posts in these examples.
fn item_of(worker: u32, number: u64) -> u64 {
    u64::from(worker).wrapping_mul(10).wrapping_add(number)
}

// The number of letters in the lines, and whether each is the one of its sender with its number.
fn letters(lines: &[TrailLine<u64>]) -> (u32, bool) {
    let mut count: u32 = 0;
    let mut right = true;
    for line in lines {
        if let Reply::Took(
            Taken::Letter {
                sender,
                number,
                item,
            },
        ) = line.reply
        {
            count = count.wrapping_add(1);
            right = right && item == item_of(sender, number);
        }
    }
    (count, right)
}

#[test]
fn one_posts_and_one_takes(rt: HostRuntime) -> Result<(), Fail> {
    trade::<Brand, _>(&rt, rt.alloc(), Blank::new(2))
}

fn trade<N: MailBrand + Send + Sync, R: Wait + Threads + Abort + Sync>(
    rt: &R,
    alloc: Global,
    ledger: Blank,
) -> Result<(), Fail>
    requires name { ledger.name ≡ N.name }
    requires parts { (ledger.parts ≡ N.parts) × (N.parts ≡ 2) }
    requires numbers { (N.boxes ≡ 1) × (N.workers ≡ 2) × (N.nodes ≡ 4) × (N.most ≡ 9) × (N.room ≡ 100) }
{
    let (mail, mut seats) = SharedMail::<u64, N>::make(alloc, 1, 2, 4, 9, 0, 100, ledger)?;
    assert!(rt; seats.len() == 2);
    let first = seats.remove(0);
    let second = seats.remove(0);
    let (first, second) = join(
        rt,
        || -> Seat<u64, N>
            requires { 0 < N.boxes }
        { posts_and_closes(rt, &mail, first) },
        || -> Seat<u64, N>
            requires { 0 < N.boxes }
        { takes_all(rt, &mail, second) },
    );
    assert_same(rt, (first.count(), second.count()), (4, 4));
    assert_same(rt, letters(second.lines()), (3, true));
    assert_same(
        rt,
        second.lines().last().map(|line| line.reply),
        Some(Reply::Took(Taken::Over)),
    );
    seats.push(first)?;
    seats.push(second)?;
    let trail = mail.settle(seats)?;
    assert_same(rt, trail.lines().len(), 8);
    assert_same(rt, letters(trail.lines()), (3, true));
    Ok(())
}

// Posts three letters to the first box, and closes it.
fn posts_and_closes<N: MailBrand, R: Wait>(
    rt: &R,
    mail: &SharedMail<u64, N>,
    seat: Seat<u64, N>,
) -> Seat<u64, N>
    requires { 0 < N.boxes }
{
    let mut seat = seat;
    for number in 1..4 {
        let item = item_of(seat.worker(), number);
        let _ = mail.post(rt, &mut seat, 0, item, 0);
    }
    let _ = mail.close(rt, &mut seat, 0);
    seat
}

// Takes until the box is over, or no more can be noted.
fn takes_all<N: MailBrand, R: Wait>(
    rt: &R,
    mail: &SharedMail<u64, N>,
    seat: Seat<u64, N>,
) -> Seat<u64, N>
    requires { 0 < N.boxes }
{
    let mut seat = seat;
    for _ in rt.forever() {
        match mail.take(rt, &mut seat, 0) {
            Ok(Taken::Letter { .. }) => {}
            _ => break,
        }
    }
    seat
}

#[test]
fn a_full_trail_ends_a_wait(rt: HostRuntime) -> Result<(), Fail> {
    fill::<Brand, _>(&rt, rt.alloc(), Blank::new(2))
}

// The first box stays empty and open; the calls on the second one fill the trail, which ends the wait at the first.
fn fill<N: MailBrand + Send + Sync, R: Wait + Threads + Abort + Sync>(
    rt: &R,
    alloc: Global,
    ledger: Blank,
) -> Result<(), Fail>
    requires name { ledger.name ≡ N.name }
    requires parts { (ledger.parts ≡ N.parts) × (N.parts ≡ 2) }
    requires numbers { (N.boxes ≡ 2) × (N.workers ≡ 2) × (N.nodes ≡ 4) × (N.most ≡ 9) × (N.room ≡ 2) }
{
    let (mail, mut seats) = SharedMail::<u64, N>::make(alloc, 2, 2, 4, 9, 0, 2, ledger)?;
    assert!(rt; seats.len() == 2);
    let mut first = seats.remove(0);
    let second = seats.remove(0);
    let (refused, second) = join(
        rt,
        || -> Result<bool, TrailFull>
            requires { 1 < N.boxes }
        {
            let _ = mail.try_take(rt, &mut first, 1);
            let _ = mail.close(rt, &mut first, 1);
            mail.close(rt, &mut first, 1)
        },
        || -> Seat<u64, N>
            requires { 0 < N.boxes }
        { takes_all(rt, &mail, second) },
    );
    assert_same(rt, refused, Err(TrailFull));
    assert_same(
        rt,
        (first.count(), first.turned_away(), second.count()),
        (2, 1, 0),
    );
    seats.push(first)?;
    seats.push(second)?;
    let trail = mail.settle(seats)?;
    assert_same(rt, trail.lines().len(), 2);
    Ok(())
}
