//! Bids on objects.

use crate::same::assert_same;
use crate::stall::Stall;
use auc_letters::{Bid, Held, Letter, Out, To, equal_letters_are_same, shard_of};
use std::test::*;

fn to_person(letter: Letter) -> Out {
    Out {
        letter,
        to: To::Person { shard: 0 },
        reserve: 0,
    }
}

/// The first bid is accepted, one as high is too low, and one above the price by eps outbids.
#[test]
fn two_bidders(rt: HostRuntime) {
    let mut stall = Stall::new(&rt, &[0, 0]).expect(&rt, "memory");
    let first = stall.bid(0, 0, 0, 4);
    let award = to_person(Letter::Award {
        person: 0,
        object: 0,
        price: 4,
    });
    let counted = Out {
        letter: Letter::First { object: 0 },
        to: To::Hub,
        reserve: 0,
    };
    assert_same(&rt, first.as_slice(), [award, counted].as_slice());
    let low = stall.bid(1, 2, 0, 4);
    let refused = to_person(Letter::Refused {
        person: 1,
        object: 0,
        price: 4,
    });
    assert_same(&rt, low.as_slice(), [refused].as_slice());
    let second = stall.bid(1, 2, 0, 7);
    let outbid = to_person(Letter::Outbid {
        person: 0,
        object: 0,
        price: 7,
    });
    let given = to_person(Letter::Award {
        person: 1,
        object: 0,
        price: 7,
    });
    assert_same(&rt, second.as_slice(), [outbid, given].as_slice());
    assert_same(&rt, stall.price(0), Some(7));
    assert_same(&rt, stall.price(1), Some(0));
    assert_same(&rt, stall.holder(0), Some(Held { person: 1, arc: 2 }));
    assert_same(&rt, stall.holder(1), None);
    let told = Out {
        letter: Letter::Price {
            object: 0,
            price: 7,
        },
        to: To::Person { shard: 0 },
        reserve: 4,
    };
    assert_same(&rt, stall.tell(0), told);
}

/// A letter is a bid for the shard where its object exists and its amount is from 0 to the greatest price.
#[test]
fn bids_in_letters(rt: HostRuntime) {
    let stall = Stall::new(&rt, &[0, 0]).expect(&rt, "memory");
    let letter = |object: u32, amount: i64| Letter::Bid {
        person: 1,
        arc: 3,
        object,
        amount,
    };
    let bid = |amount: i64| Bid {
        person: 1,
        arc: 3,
        object: 1,
        amount,
    };
    let top = 2_305_843_009_213_693_952;
    assert_same(&rt, stall.bid_in(letter(1, 0)), Some(bid(0)));
    assert_same(&rt, stall.bid_in(letter(1, top)), Some(bid(top)));
    assert_same(&rt, stall.bid_in(letter(1, top + 1)), None);
    assert_same(&rt, stall.bid_in(letter(1, -1)), None);
    assert_same(&rt, stall.bid_in(letter(2, 4)), None);
    assert_same(&rt, stall.bid_in(Letter::First { object: 1 }), None);
}

#[test]
fn letters_and_shards(rt: HostRuntime) {
    equal_letters_are_same();
    assert_same(&rt, shard_of(7, 3), 1);
    assert_same(&rt, Out::default().reserve, 0);
    assert!(rt; Letter::First { object: 0 } != Letter::First { object: 1 });
}
