//! Closed boxes, and turns after the end.

use crate::limits::{bids, posts};
use crate::moves::{
    BID, CLOSE_HUB, CLOSE_OBJECTS, CLOSE_OTHER_OBJECTS, CLOSE_OTHER_PERSONS, CLOSE_PERSONS,
    HUB_TAKE, OBJECT_POST, OBJECT_TAKE, OTHER_BID, OTHER_OBJECT_POST, OTHER_OBJECT_TAKE,
    OTHER_PERSON_POST, PERSON_POST, PERSON_TAKE, tells,
};
use crate::problems::{THREE, TWO};
use crate::same::assert_same;
use crate::telling::Step::{Look, Rounds};
use crate::telling::{Step, told};
use auc_world::Limits;
use std::test::*;

/// Each box of two shards of each kind.
const CLOSE_ALL: [Step; 5] = [
    CLOSE_OBJECTS,
    CLOSE_OTHER_OBJECTS,
    CLOSE_PERSONS,
    CLOSE_OTHER_PERSONS,
    CLOSE_HUB,
];

/// No box is closed before the end, and each one once after it. A price for a closed box leaves the outbox.
#[test]
fn boxes_close_once(rt: HostRuntime) -> Result<(), Fail> {
    let mut steps = Vec::new(rt.alloc());
    steps.extend_from_slice(&CLOSE_ALL)?;
    steps.push(Rounds)?;
    steps.extend_from_slice(&CLOSE_ALL)?;
    steps.extend_from_slice(&CLOSE_ALL)?;
    for _ in 0..2 {
        steps.extend_from_slice(&[tells(1, 1, 0), OTHER_OBJECT_POST])?;
    }
    steps.extend_from_slice(&[OTHER_OBJECT_POST, Look])?;
    let told = told(&rt, TWO, Limits::usual(2), steps.as_slice())?;
    assert_same(
        &rt,
        told.as_str(),
        ".....mmmmm.....mmmm.[2:7 1:5 Some(All)]",
    );
    Ok(())
}

/// A bid, and the Stop of a shard that may make no more bids; it makes only one Stop. Then an award and a First into
/// closed boxes: nobody gets them, and the person holds the object all the same.
const SWALLOWED: [Step; 17] = [
    BID,
    PERSON_POST,
    OBJECT_TAKE,
    BID,
    PERSON_POST,
    HUB_TAKE,
    Look,
    BID,
    PERSON_POST,
    CLOSE_PERSONS,
    OBJECT_POST,
    CLOSE_HUB,
    OBJECT_POST,
    OBJECT_POST,
    PERSON_TAKE,
    HUB_TAKE,
    Look,
];

#[test]
fn closed_boxes_swallow_awards(rt: HostRuntime) -> Result<(), Fail> {
    let told = told(&rt, TWO, bids(1), &SWALLOWED)?;
    let stopped = "[1:4 -:0 Some(Stopped { why: Bids })]";
    let expected = format!(in rt.alloc(); "mmmmmm{stopped}..mmmm...{stopped}")?;
    assert_same(&rt, told.as_str(), expected.as_str());
    Ok(())
}

/// The first two persons both bid for the second object, with one bid for each shard. The first shard stops while its
/// bid waits, and the bid of the second one finds its box closed. A closed box keeps the bid that waits there, and
/// takes no other; the shards go on after the end.
const KEPT: [Step; 18] = [
    BID,
    PERSON_POST,
    BID,
    PERSON_POST,
    HUB_TAKE,
    OTHER_BID,
    CLOSE_OTHER_OBJECTS,
    OTHER_PERSON_POST,
    OTHER_PERSON_POST,
    OTHER_OBJECT_TAKE,
    OTHER_OBJECT_POST,
    OTHER_OBJECT_POST,
    PERSON_TAKE,
    HUB_TAKE,
    OTHER_OBJECT_TAKE,
    OTHER_BID,
    Look,
    OTHER_BID,
];

#[test]
fn closed_boxes_keep_what_waits(rt: HostRuntime) -> Result<(), Fail> {
    let limits = Limits {
        bids: 1,
        ..Limits::usual(2)
    };
    let told = told(&rt, THREE, limits, &KEPT)?;
    let expected = "mmmmmmmm.mmmmm..[-:0 1:9 -:0 Some(Stopped { why: Bids })].";
    assert_same(&rt, told.as_str(), expected);
    Ok(())
}

/// A letter for which its lane has no post left stays, and may be tried again and again, until its box is closed.
#[test]
fn spent_lanes(rt: HostRuntime) -> Result<(), Fail> {
    let steps = [
        BID,
        PERSON_POST,
        PERSON_POST,
        PERSON_POST,
        Look,
        OBJECT_TAKE,
        CLOSE_OBJECTS,
        PERSON_POST,
        PERSON_POST,
    ];
    let told = told(&rt, TWO, posts(0), &steps)?;
    assert_same(
        &rt,
        told.as_str(),
        "mmmm[-:0 -:0 Some(Stopped { why: Posts })].mm.",
    );
    Ok(())
}
