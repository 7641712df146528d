//! Schedules that are worked by hand, from the start of a phase, with the reply to each turn.

use crate::moves::{
    BID, CLOSE_OBJECTS, HUB_TAKE, OBJECT_POST, OBJECT_TAKE, OTHER_BID, OTHER_OBJECT_POST,
    OTHER_OBJECT_TAKE, OTHER_PERSON_POST, OTHER_PERSON_TAKE, PERSON_POST, PERSON_TAKE, TELL,
};
use crate::problems::TWO;
use crate::same::assert_same;
use crate::telling::Step::Look;
use crate::telling::{Step, told};
use auc_world::Limits;
use std::test::*;

/// The first person bids 4 for the first object, and holds it before the letter of that comes.
#[test]
fn first_bid(rt: HostRuntime) -> Result<(), Fail> {
    let steps = [BID, PERSON_POST, OBJECT_TAKE, OBJECT_POST, Look];
    let told = told(&rt, TWO, Limits::usual(1), &steps)?;
    assert_same(&rt, told.as_str(), "mmmm[1:4 -:0 None]");
    Ok(())
}

/// Both persons bid for the first object, 4 and 7, before either has heard anything. The second one gets it, and the
/// award waits in the outbox. The first one gets the letters of an award, of the price 4 and of being outbid, and bids
/// 5 for the second object.
const OUTBID_BEFORE_HE_HEARS: [Step; 30] = [
    BID,
    PERSON_POST,
    BID,
    PERSON_POST,
    OBJECT_TAKE,
    OBJECT_TAKE,
    OBJECT_POST,
    OBJECT_POST,
    TELL,
    OBJECT_POST,
    OBJECT_TAKE,
    OBJECT_POST,
    PERSON_TAKE,
    PERSON_TAKE,
    PERSON_TAKE,
    CLOSE_OBJECTS,
    Look,
    OBJECT_POST,
    PERSON_TAKE,
    BID,
    PERSON_POST,
    OBJECT_TAKE,
    OBJECT_POST,
    OBJECT_POST,
    HUB_TAKE,
    Look,
    HUB_TAKE,
    Look,
    CLOSE_OBJECTS,
    CLOSE_OBJECTS,
];

#[test]
fn outbid_before_he_hears(rt: HostRuntime) -> Result<(), Fail> {
    let told = told(&rt, TWO, Limits::usual(1), &OUTBID_BEFORE_HE_HEARS)?;
    let expected = "mmmmm.mmmmmmmmm.[2:7 -:0 None]mmmmmmmm[2:7 1:5 None]m[2:7 1:5 Some(All)]m.";
    assert_same(&rt, told.as_str(), expected);
    Ok(())
}

/// The same persons and objects, each in a shard of its own. The second person bids for the first object and gets it;
/// the first one, whose shard has the old price, is refused.
const FIRST_OBJECT: [Step; 11] = [
    OTHER_BID,
    OTHER_PERSON_POST,
    OBJECT_TAKE,
    OBJECT_POST,
    OBJECT_POST,
    BID,
    PERSON_POST,
    OBJECT_TAKE,
    OBJECT_POST,
    OTHER_PERSON_TAKE,
    PERSON_TAKE,
];

/// Then nothing can move but the first person, who is free again.
const STILL: [Step; 8] = [
    OTHER_BID,
    PERSON_POST,
    OBJECT_TAKE,
    OBJECT_POST,
    OTHER_OBJECT_TAKE,
    PERSON_TAKE,
    OTHER_PERSON_TAKE,
    Look,
];

/// That person bids for the second object and gets it, and the hub counts both. The last award is heard after the end.
const SECOND_OBJECT: [Step; 11] = [
    BID,
    PERSON_POST,
    OTHER_OBJECT_TAKE,
    OTHER_OBJECT_POST,
    OTHER_OBJECT_POST,
    HUB_TAKE,
    HUB_TAKE,
    Look,
    PERSON_TAKE,
    PERSON_TAKE,
    HUB_TAKE,
];

#[test]
fn two_shards_of_each_kind(rt: HostRuntime) -> Result<(), Fail> {
    let mut steps = Vec::new(rt.alloc());
    steps.extend_from_slice(&FIRST_OBJECT)?;
    steps.extend_from_slice(&STILL)?;
    steps.extend_from_slice(&SECOND_OBJECT)?;
    let told = told(&rt, TWO, Limits::usual(2), steps.as_slice())?;
    let expected = "mmmmmmmmmmm.......[2:7 -:0 None]mmmmmmm[2:7 1:5 Some(All)]m..";
    assert_same(&rt, told.as_str(), expected);
    Ok(())
}
