//! Bids of persons, and letters to them.

use crate::desk::Desk;
use crate::same::assert_same;
use auc_letters::{Letter, Out, PersonState, To, Why};
use auc_persons::{Bidding, PersonFault};
use std::test::*;

/// The greatest price.
const TOP: i64 = 2_305_843_009_213_693_952;

const TWO_PERSONS: &str = "2 1 1 1 1 2 2 2 1 1 2 2 3";

fn bid(person: u32, arc: u32, object: u32, amount: i64) -> Bidding {
    Bidding::Out {
        out: Out {
            letter: Letter::Bid {
                person,
                arc,
                object,
                amount,
            },
            to: To::Object { shard: 0 },
            reserve: 0,
        },
    }
}

/// Two persons bid for the same object, and the one who is refused bids for the other.
#[test]
fn two_persons_bid(rt: HostRuntime) {
    let text = TWO_PERSONS;
    let mut desk = Desk::new(&rt, text, 1, &[0, 0], 5).expect(&rt, "memory");
    assert_same(&rt, desk.asks(1), bid(0, 0, 0, 4));
    assert_same(&rt, desk.asks(1), bid(1, 2, 0, 7));
    assert_same(&rt, desk.asks(1), Bidding::Idle);
    let refused = Letter::Refused {
        person: 0,
        object: 0,
        price: 7,
    };
    assert_same(&rt, desk.hears(refused), Ok(()));
    assert_same(&rt, desk.state(0), Some(PersonState::Free));
    assert_same(&rt, desk.copy(0), Some(7));
    let fallen = Letter::Price {
        object: 0,
        price: 6,
    };
    assert_same(&rt, desk.hears(fallen), Err(PersonFault::Fell));
    let outbid = Letter::Outbid {
        person: 1,
        object: 0,
        price: 8,
    };
    assert_same(&rt, desk.hears(outbid), Err(PersonFault::Stray));
    assert_same(&rt, desk.asks(1), bid(0, 1, 1, 5));
}

/// A bid of the greatest price goes out, and one above it stops the shard.
#[test]
fn greatest_price(rt: HostRuntime) {
    let text = "1 1 1 -7";
    let mut below = Desk::new(&rt, text, 1, &[TOP - 1], 5).expect(&rt, "memory");
    assert_same(&rt, below.asks(1), bid(0, 0, 0, TOP));
    let mut at_top = Desk::new(&rt, text, 1, &[TOP], 5).expect(&rt, "memory");
    assert_same(&rt, at_top.asks(1), Bidding::Stop { why: Why::Ceiling });
}

/// All arcs to one object, no bids left, and no arc.
#[test]
fn one_object_and_stops(rt: HostRuntime) {
    let text = "2 1 1 4 1 1 2 1 2 6";
    let mut desk = Desk::new(&rt, text, 1, &[0, 0], 5).expect(&rt, "memory");
    assert_same(&rt, desk.asks(1), bid(0, 1, 0, 13));
    assert_same(&rt, desk.asks(1), Bidding::Stop { why: Why::Stuck });
    let mut spent = Desk::new(&rt, text, 1, &[0, 0], 0).expect(&rt, "memory");
    assert_same(&rt, spent.asks(1), Bidding::Stop { why: Why::Bids });
}

fn is_stray(desk: &mut Desk, letter: Letter) -> bool {
    desk.hears(letter) == Err(PersonFault::Stray)
}

/// Letters that fit no person are refused, and change nothing.
#[test]
fn hostile_letters(rt: HostRuntime) {
    let text = TWO_PERSONS;
    // The shard has only person 0 of the two.
    let mut desk = Desk::new(&rt, text, 2, &[0, 0], 5).expect(&rt, "memory");
    let award = |person: u32, object: u32, price: i64| Letter::Award {
        person,
        object,
        price,
    };
    assert!(rt;
        is_stray(&mut desk, award(0, 0, 4)),
        "an award to a free person"
    );
    assert_same(&rt, desk.asks(1), bid(0, 0, 0, 4));
    let other = Letter::Refused {
        person: 0,
        object: 1,
        price: 4,
    };
    assert!(rt; is_stray(&mut desk, other), "an answer for another object");
    let outbid = Letter::Outbid {
        person: 0,
        object: 0,
        price: 4,
    };
    assert!(rt; is_stray(&mut desk, outbid), "an outbid to one who waits");
    assert!(rt; is_stray(&mut desk, Letter::First { object: 0 }), "a first");
    assert!(rt;
        is_stray(&mut desk, Letter::Stop { why: Why::Bids }),
        "a stop"
    );
    let sent = Letter::Bid {
        person: 0,
        arc: 0,
        object: 0,
        amount: 4,
    };
    assert!(rt; is_stray(&mut desk, sent), "a bid");
    assert!(rt;
        is_stray(&mut desk, award(0, 0, TOP + 1)),
        "a price that is too great"
    );
    assert!(rt; is_stray(&mut desk, award(0, 0, -1)), "a negative price");
    assert!(rt;
        is_stray(&mut desk, award(1, 0, 4)),
        "a person of another shard"
    );
    assert!(rt;
        is_stray(&mut desk, award(2, 0, 4)),
        "a person out of range"
    );
    assert!(rt;
        is_stray(
            &mut desk,
            Letter::Price {
                object: 2,
                price: 4
            }
        ),
        "an object out of range"
    );
    assert_same(&rt, desk.state(0), Some(PersonState::Waits { object: 0 }));
    assert_same(&rt, desk.copy(0), Some(0));
    assert_same(&rt, desk.copy(1), Some(0));
    assert_same(&rt, desk.hears(award(0, 0, 4)), Ok(()));
    assert_same(&rt, desk.state(0), Some(PersonState::Holds { object: 0 }));
}
