//! Turns that nobody should take: out of range, with nothing to move, and far too many.

use crate::moves::{
    BID, HUB_TAKE, OBJECT_POST, OBJECT_TAKE, PERSON_POST, PERSON_TAKE, closes, tells,
};
use crate::problems::TWO;
use crate::same::assert_same;
use crate::telling::Step::{Look, Round, Rounds};
use crate::telling::{Step, told};
use auc_model::{MailName, Turn};
use auc_world::Limits;
use std::test::*;

/// Each turn of a shard or a box of this number, where there are two shards of each kind, two objects and one hub.
fn steps_at(beyond: u32) -> [Step; 13] {
    [
        Step::Take(Turn::Bid { shard: beyond }),
        Step::Take(Turn::PersonPost { shard: beyond }),
        Step::Take(Turn::PersonTake { shard: beyond }),
        Step::Take(Turn::ObjectTake { shard: beyond }),
        Step::Take(Turn::ObjectPost { shard: beyond }),
        tells(beyond, 0, 0),
        tells(beyond, 1, 1),
        tells(0, beyond, 0),
        tells(1, beyond, 0),
        tells(0, 0, beyond),
        closes(MailName::Objects, beyond),
        closes(MailName::Persons, beyond),
        closes(MailName::Hub, beyond),
    ]
}

/// Turns out of range at the start, in the middle of each of six rounds, where letters wait everywhere, and after the
/// end. There are 29 each time, with objects of another shard. The state of the world is taken before and after them.
fn out_of_range_steps(rt: &HostRuntime) -> Result<Vec<Step>, Fail> {
    let mut steps = Vec::new(rt.alloc());
    for _ in 0..6 {
        steps.push(Look)?;
        steps.extend_from_slice(&steps_at(2))?;
        steps.extend_from_slice(&steps_at(u32::MAX))?;
        steps.extend_from_slice(&[tells(0, 1, 0), tells(1, 0, 0), closes(MailName::Hub, 1)])?;
        steps.extend_from_slice(&[Look, Round, BID, OBJECT_TAKE])?;
    }
    steps.push(Look)?;
    Ok(steps)
}

/// Whether the state of the world is written before and after each run of these marks, and is the same.
fn stands_as_before(told: &str, marks: &str) -> bool {
    let mut before = None;
    for part in told.split(marks) {
        if let Some(before) = before {
            match part.strip_prefix('[') {
                Some(behind) if behind.starts_with(before) => {}
                _ => return false,
            }
        }
        before = part.rsplit('[').next();
    }
    true
}

#[test]
fn out_of_range(rt: HostRuntime) -> Result<(), Fail> {
    let steps = out_of_range_steps(&rt)?;
    let told = told(&rt, TWO, Limits::usual(2), steps.as_slice())?;
    // None of them moved anything, nor changed the state of the world; the two turns after a round may get any reply.
    let none = ".............................";
    assert_same(&rt, told.as_str().matches(none).count(), 6);
    assert!(rt; stands_as_before(told.as_str(), none), "{told}");
    assert!(rt; told.as_str().ends_with("[2:7 1:5 Some(All)]"));
    Ok(())
}

/// A world whose state after the marks differs from that before is found.
#[test]
fn changes_are_seen(rt: HostRuntime) {
    assert!(rt; stands_as_before("[-:0 None]..[-:0 None]m[1:4 None]..[1:4 None]", ".."));
    assert!(rt; !stands_as_before("[-:0 None]..[-:1 None]m[1:4 None]..[1:4 None]", ".."));
    assert!(rt; !stands_as_before("[-:0 None]..[-:0 None]m[1:4 None]..[-:4 None]", ".."));
    assert!(rt; !stands_as_before("[-:0 None]..m[-:0 None]", ".."));
}

/// Where nothing waits, nothing is taken or posted; after the end it is so again, and nobody is free to bid.
#[test]
fn nothing_waits(rt: HostRuntime) -> Result<(), Fail> {
    let empty = [PERSON_POST, PERSON_TAKE, OBJECT_TAKE, OBJECT_POST, HUB_TAKE];
    let mut steps = Vec::new(rt.alloc());
    steps.extend_from_slice(&empty)?;
    steps.extend_from_slice(&[Rounds, Look, Round, Round, Round, Round, Round, Round])?;
    steps.extend_from_slice(&empty)?;
    steps.push(BID)?;
    let told = told(&rt, TWO, Limits::usual(1), steps.as_slice())?;
    assert_same(&rt, told.as_str(), ".....[2:7 1:5 Some(All)]......");
    Ok(())
}

/// Sends a price, again and again (`tell`). The persons' mail has room for eight letters, and keeps four of it from
/// prices: so four wait, and the others are dropped. One price waits in the outbox until it is posted.
#[test]
fn tells_beyond_the_room(rt: HostRuntime) -> Result<(), Fail> {
    let mut steps = Vec::new(rt.alloc());
    for _ in 0..20 {
        steps.extend_from_slice(&[tells(0, 1, 0), OBJECT_POST])?;
    }
    steps.extend_from_slice(&[PERSON_TAKE; 5])?;
    steps.extend_from_slice(&[tells(0, 0, 0), tells(0, 1, 0)])?;
    let told = told(&rt, TWO, Limits::usual(1), steps.as_slice())?;
    let expected = "mmmmmmmmmmmmmmmmmmmmmmmmmmmmmmmmmmmmmmmmmmmm.m.";
    assert_same(&rt, told.as_str(), expected);
    Ok(())
}

/// Rounds, before each of which the mail is filled with prices.
fn told_rounds(rt: &HostRuntime) -> Result<Vec<Step>, Fail> {
    let mut steps = Vec::new(rt.alloc());
    for _ in 0..40 {
        for _ in 0..9 {
            steps.extend_from_slice(&[tells(0, 0, 0), OBJECT_POST])?;
        }
        steps.push(Round)?;
    }
    steps.push(Look)?;
    Ok(steps)
}

/// In a world whose mail is filled with prices again and again, the phase ends all the same.
#[test]
fn tells_hinder_nobody(rt: HostRuntime) -> Result<(), Fail> {
    let steps = told_rounds(&rt)?;
    for shards in [1, 2] {
        let told = told(&rt, TWO, Limits::usual(shards), steps.as_slice())?;
        assert!(rt; told.as_str().ends_with("[2:7 1:5 Some(All)]"), "{shards}");
    }
    Ok(())
}
