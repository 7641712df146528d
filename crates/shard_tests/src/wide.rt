//! Bids by a `Bidder` beside a shard are those of a whole pass. The rows have each length that has a method of its own,
//! in any order and in rising order.

ghost use Rattle.std.specs.Prelude.{◌<◌};
ghost use Rattle.auc_letters.specs.Price.{IsEps};
ghost use Rattle.shard_tests.specs.Twins.{AreTwins};

use crate::desk::rows_of;
use crate::twins::Twins;
use auc_graph::Rows;
use auc_letters::Letter;
use auc_persons::Bidding;
use std::alloc::AllocError;
use std::test::*;

/// The numbers of arcs of the persons of the first shard.
const LENGTHS: [u32; 8] = [1, 2, 3, 64, 65, 256, 257, 600];
/// The `way` of making rows in which each row is in rising order.
const RISING: u32 = 4;
/// The `way` in which the costs of each row have two levels, and it is in rising order.
const LEVELS: u32 = 5;
/// The number of arcs of each person then.
const ARCS_WITH_LEVELS: u32 = 20;

/// The cost of the arc of a person at a place of the row, in one of six ways:
///
/// - All arcs cost the same.
/// - There are a few levels.
/// - Costs are products.
/// - Costs look random, for objects in any order or in rising order (two ways).
/// - Two of five cost 4, in rising order, and the others 1.
fn cost_of(way: u32, person: u32, place: u32) -> u32 {
    match way {
        0 => 5,
        1 => place.wrapping_mul(7) % 5,
        2 => person.wrapping_add(1).wrapping_mul(place.wrapping_add(1)),
        LEVELS => if place.wrapping_add(person) % 5 < 3 {
            1
        } else {
            4
        },
        _ => place.wrapping_mul(7_919).wrapping_add(person) % 1_000,
    }
}

/// The object of the arc at a place: places and objects are in different orders, but in the last two ways. With a few
/// levels two arcs each lead to one object.
fn object_of(way: u32, place: u32) -> u32
    ensures { result < 600 }
{
    if way == RISING || way == LEVELS {
        return place % 600;
    }
    let place = if way == 1 { place / 2 } else { place };
    place.wrapping_mul(367) % 600
}

/// The number of arcs of a person: those of the first shard differ, all others have one; with two levels all have as
/// many.
fn arcs_of(way: u32, person: u32) -> u32
    requires { person < 600 }
{
    if way == LEVELS {
        ARCS_WITH_LEVELS
    } else if person % 75 == 0 {
        LENGTHS[(person / 75) as usize]
    } else {
        1
    }
}

/// The text of a problem of 600 persons.
fn text_of(rt: &HostRuntime, way: u32) -> Result<String, AllocError> {
    let mut text = String::new(rt.alloc());
    text.push_str("600\n")?;
    for person in 0..600 {
        let number = person + 1;
        for place in 0..arcs_of(way, person) {
            let object = object_of(way, place) + 1;
            let cost = cost_of(way, number, place);
            let line = format!(in rt.alloc(); "{number} {object} {cost}\n")?;
            text.push_str(line.as_str())?;
        }
    }
    Ok(text)
}

/// Whether a bid of each is the same; it is refused, and another price rises to its amount.
fn bids_alike(rows: &Rows, twins: &mut Twins, eps: i64, other: u32) -> bool
    requires twins { AreTwins rows.now twins.old.whole twins.old.listed twins.old.bidder }
    requires eps { IsEps eps }
    ensures { AreTwins rows.now twins.new.whole twins.new.listed twins.new.bidder }
{
    let Some(Bidding::Out { out }) = twins.asks(rows, eps) else {
        return false;
    };
    let Letter::Bid {
        person,
        object,
        amount,
        ..
    } = out.letter
    else {
        return false;
    };
    let refused = Letter::Refused {
        person,
        object,
        price: amount,
    };
    let price = Letter::Price {
        object: other,
        price: amount,
    };
    twins.hears(rows, refused) && twins.hears(rows, price)
}

/// Whether 400 bids of each are the same.
fn stay_alike(rows: &Rows, twins: &mut Twins) -> bool
    requires { AreTwins rows.now twins.old.whole twins.old.listed twins.old.bidder }
{
    for round in 0..400 {
        if !bids_alike(rows, twins, 1 + round as i64, object_of(0, round + 11)) {
            return false;
        }
    }
    true
}

/// Whether bids of two shards are the same, at costs of one way.
fn are_alike(rt: &HostRuntime, way: u32) -> bool {
    let Ok(text) = text_of(rt, way) else {
        return false;
    };
    let Some(rows) = rows_of(rt, text.as_str()) else {
        return false;
    };
    let Some(mut twins) = Twins::new(rt, &rows) else {
        return false;
    };
    stay_alike(&rows, &mut twins)
}

#[test]
fn same_bids_at_one_cost(rt: HostRuntime) {
    assert!(rt; are_alike(&rt, 0), "one cost");
}

#[test]
fn same_bids_at_a_few_levels(rt: HostRuntime) {
    assert!(rt; are_alike(&rt, 1), "levels");
}

#[test]
fn same_bids_at_products(rt: HostRuntime) {
    assert!(rt; are_alike(&rt, 2), "products");
}

#[test]
fn same_bids_at_costs_like_drawn(rt: HostRuntime) {
    assert!(rt; are_alike(&rt, 3), "costs like drawn");
}

#[test]
fn same_bids_where_rows_rise(rt: HostRuntime) {
    assert!(rt; are_alike(&rt, RISING), "rising");
}

/// At first the cheap arcs decide each bid. Their prices rise until arcs of high cost are bid on, too.
#[test]
fn same_bids_at_two_levels(rt: HostRuntime) {
    assert!(rt; are_alike(&rt, LEVELS), "two levels");
}
