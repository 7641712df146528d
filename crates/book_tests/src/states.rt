//! A mail with its trail in one thread: answers, the order of refusals, and the state after them.

ghost use Rattle.std.specs.Prelude.{◌↔◌, IsTrue};
ghost use Rattle.auc_mail.specs.Mail.{HasLane};

use crate::same::assert_same;
use auc_book::{CallRefused, MailState, TrailFull};
use auc_mail::{Call, Taken};
use std::process::Abort;
use std::test::*;

// Whether the first box and the worker exist.
fn is_lane(state: &MailState<i64>, worker: u32) -> bool
    ensures { IsTrue result ↔ HasLane state.now.mail 0 worker }
{
    state.pool().fits(&Call::Post {
        sender: worker,
        to: 0,
        item: 0,
        reserve: 0,
    })
}

fn post(
    rt: &impl Abort,
    state: &mut MailState<i64>,
    worker: u32,
    item: i64,
    reserve: u32,
) -> Result<u64, CallRefused> {
    assert!(rt; is_lane(state, worker));
    state.post(worker, 0, item, reserve)
}

fn take(rt: &impl Abort, state: &mut MailState<i64>, worker: u32) -> Result<Taken<i64>, TrailFull> {
    assert!(rt; is_lane(state, worker));
    state.take(worker, 0)
}

fn close(rt: &impl Abort, state: &mut MailState<i64>, worker: u32) -> Result<bool, TrailFull> {
    assert!(rt; is_lane(state, worker));
    state.close(worker, 0)
}

#[test]
fn the_fourth_call_finds_no_place(rt: HostRuntime) -> Result<(), Fail> {
    let mut state = MailState::make(rt.alloc(), 1, 2, 4, 9, 0i64, 3)?;
    let letter = Taken::Letter {
        sender: 0,
        number: 1,
        item: 5,
    };
    assert_same(&rt, post(&rt, &mut state, 0, 5, 0), Ok(1));
    assert_same(&rt, post(&rt, &mut state, 1, 6, 0), Ok(1));
    assert_same(&rt, take(&rt, &mut state, 0), Ok(letter));
    assert_same(&rt, take(&rt, &mut state, 1), Err(TrailFull));
    assert_same(&rt, state.count(), 3);
    assert_same(&rt, state.pool().free(), 3);
    state.every_state_is_noted();
    Ok(())
}

// Where there are several causes, the first one is returned. All refusals but that of a full trail are calls.
#[test]
fn a_full_trail_before_closed_before_spent_before_full(rt: HostRuntime) -> Result<(), Fail> {
    let mut state = MailState::make(rt.alloc(), 1, 2, 1, 1, 0i64, 6)?;
    assert_same(&rt, post(&rt, &mut state, 0, 5, 0), Ok(1));
    assert_same(&rt, post(&rt, &mut state, 1, 6, 0), Err(CallRefused::Full));
    assert_same(&rt, post(&rt, &mut state, 0, 7, 0), Err(CallRefused::Spent));
    assert_same(&rt, close(&rt, &mut state, 1), Ok(true));
    assert_same(
        &rt,
        post(&rt, &mut state, 0, 8, 0),
        Err(CallRefused::Closed),
    );
    assert_same(&rt, close(&rt, &mut state, 0), Ok(false));
    assert_same(
        &rt,
        post(&rt, &mut state, 0, 9, 0),
        Err(CallRefused::TrailFull),
    );
    assert_same(&rt, take(&rt, &mut state, 0), Err(TrailFull));
    assert_same(&rt, close(&rt, &mut state, 0), Err(TrailFull));
    assert_same(&rt, state.count(), 6);
    Ok(())
}
