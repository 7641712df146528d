//! The bid of a person by a `Bidder` alone, with no shard.

ghost use Rattle.std.specs.Prelude.{All};
ghost use Rattle.auc_graph.specs.Price.{IsPrice};
ghost use Rattle.auc_letters.specs.Price.{IsEps};

use crate::desk::rows_of;
use crate::same::assert_same;
use auc_letters::{Bid, Letter, Out, To};
use auc_persons::Bidder;
use std::test::*;

/// The greatest price.
const TOP: i64 = 2_305_843_009_213_693_952;

/// Two persons, with two arcs each.
const TWO_PERSONS: &str = "2 1 1 1 1 2 2 2 1 1 2 2 3";

/// The bid of a person of a problem at these prices; None where the text is no such problem.
fn bid_at(
    rt: &HostRuntime,
    text: &str,
    eps: i64,
    person: u32,
    prices: &[i64],
) -> Option<Option<Bid>>
    requires eps { IsEps eps }
    requires prices { All IsPrice prices.now }
{
    let rows = rows_of(rt, text)?;
    if person >= rows.persons() || prices.len() != rows.objects() as usize {
        return None;
    }
    let Ok(mut bidder) = Bidder::make(rt.alloc(), &rows, 0, 1) else {
        return None;
    };
    Some(bidder.bid(&rows, eps, person, prices))
}

fn bid(person: u32, arc: u32, object: u32, amount: i64) -> Option<Option<Bid>> {
    Some(Some(Bid {
        person,
        arc,
        object,
        amount,
    }))
}

/// A bid has its true amount, also where that is above the greatest price; a person with no arc makes none.
#[test]
fn a_bid_without_a_shard(rt: HostRuntime) {
    assert_same(
        &rt,
        bid_at(&rt, TWO_PERSONS, 1, 0, &[0, 0]),
        bid(0, 0, 0, 4),
    );
    assert_same(
        &rt,
        bid_at(&rt, TWO_PERSONS, 5, 1, &[0, 0]),
        bid(1, 2, 0, 11),
    );
    let far = bid_at(&rt, TWO_PERSONS, 1, 1, &[TOP, 0]);
    assert_same(&rt, far, bid(1, 3, 1, TOP - 5));
    let above = bid_at(&rt, TWO_PERSONS, 1, 1, &[TOP, TOP]);
    assert_same(&rt, above, bid(1, 2, 0, TOP + 7));
    assert_same(&rt, bid_at(&rt, "2 1 1 1", 1, 1, &[0, 0]), Some(None));
}

/// The letter of a bid goes to the shard of its object.
#[test]
fn a_bid_becomes_a_letter(rt: HostRuntime) {
    let bid = Bid {
        person: 4,
        arc: 3,
        object: 11,
        amount: 7,
    };
    let letter = Letter::Bid {
        person: 4,
        arc: 3,
        object: 11,
        amount: 7,
    };
    let out = Out {
        letter,
        to: To::Object { shard: 2 },
        reserve: 0,
    };
    assert_same(&rt, bid.into_out(3), out);
}
