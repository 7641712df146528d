//! The search over a table by itself, of which nothing is proved but that it ends.

use crate::same::assert_same;
use auc_table::{Pause, Proposal, Table, complete, propose};
use std::test::*;

/// No entry is where this number is.
const GAP: i64 = -7;

/// Never ends a search.
#[derive(Clone, Copy)]
struct Endless;

impl Pause for Endless {
    fn goes_on(&mut self, _scanned: u64) -> bool {
        true
    }
}

/// More looks than a table of three rows takes.
const ENOUGH: u64 = 1_000;

/// Three objects of persons; a number above all objects where a person has nothing.
type Objects = (u32, u32, u32);

/// The objects of three persons.
fn objects_of(found: &Proposal) -> Option<Objects> {
    let objects = found.objects.as_slice();
    if objects.len() != 3 {
        return None;
    }
    Some((objects[0], objects[1], objects[2]))
}

/// The objects that are proposed for three persons.
fn proposed(
    rt: &HostRuntime,
    objects: u32,
    costs: &[i64],
    gap: Option<i64>,
    looks: u64,
) -> Option<Objects> {
    let table = Table {
        persons: 3,
        objects,
        stride: objects as usize,
        costs,
    };
    let found = propose(rt.alloc(), &table, gap, &[], 1, looks, &mut Endless).ok()??;
    objects_of(&found)
}

/// The objects of three persons, where the first one holds the first object at this price, and the others are filled
/// up.
fn completed(rt: &HostRuntime, costs: &[i64], gap: Option<i64>, price: i64) -> Option<Objects> {
    let table = Table {
        persons: 3,
        objects: 3,
        stride: 3,
        costs,
    };
    let nobody = u32::MAX;
    let proposal = Proposal {
        objects: vec![in rt.alloc(); 0, nobody, nobody].ok()?,
        holders: vec![in rt.alloc(); 0, nobody, nobody].ok()?,
        prices: vec![in rt.alloc(); price, 0, 0].ok()?,
    };
    let found = complete(rt.alloc(), &table, gap, proposal).ok()?;
    if found.prices.as_slice() != [price, 0, 0].as_slice() {
        return None;
    }
    objects_of(&found)
}

/// 1 and 2 and 2; and what costs least of products, the greatest by the least.
#[test]
fn square(rt: HostRuntime) {
    let costs = [4, 1, 3, 2, 0, 5, 3, 2, 2];
    let told = proposed(&rt, 3, &costs, None, ENOUGH);
    assert_same(&rt, told, Some((1, 0, 2)));
    let costs = [1, 2, 3, 2, 4, 6, 3, 6, 9];
    let told = proposed(&rt, 3, &costs, None, ENOUGH);
    assert_same(&rt, told, Some((2, 1, 0)));
}

/// All want the first object; 1 and 5 and 3 cost least.
#[test]
fn wide_with_gaps(rt: HostRuntime) {
    let costs = [1, 9, 9, GAP, 1, GAP, 5, 9, 1, 3, GAP, 9];
    let told = proposed(&rt, 4, &costs, Some(GAP), ENOUGH);
    assert_same(&rt, told, Some((0, 2, 1)));
}

/// With no looks.
#[test]
fn spent(rt: HostRuntime) {
    let costs = [4, 1, 3, 2, 0, 5, 3, 2, 2];
    assert_same(&rt, proposed(&rt, 3, &costs, None, 0), None);
}

/// What is held is held still. The last person's one object is taken, so a path leads to it.
#[test]
fn filled_up(rt: HostRuntime) {
    let costs = [4, 1, 3, 2, 0, 5, 3, 2, 2];
    assert_same(&rt, completed(&rt, &costs, None, 9), Some((0, 1, 2)));
    let costs = [1, 2, GAP, 2, 3, 9, 1, GAP, GAP];
    let told = completed(&rt, &costs, Some(GAP), 3);
    assert_same(&rt, told, Some((1, 2, 0)));
    let costs = [1, GAP, GAP, 2, GAP, GAP, 1, 2, 3];
    assert_same(
        &rt,
        is_short(3, &costs, completed(&rt, &costs, Some(GAP), 0)),
        true,
    );
}

/// Whether one of three persons is proposed nothing, or a gap, in a table of so many objects.
fn is_short(objects: u32, costs: &[i64], told: Option<Objects>) -> bool {
    let Some(told) = told else {
        return false;
    };
    let mut is_short = false;
    let each = [told.0, told.1, told.2];
    for person in 0..each.len() {
        let place = person * objects as usize + (each[person] % 4) as usize;
        is_short = is_short
            || each[person] >= objects
            || place >= costs.len()
            || costs[place] == GAP;
    }
    is_short
}

/// With fewer objects than persons, with a row that doesn't lie within the costs, and where two persons want one
/// object.
#[test]
fn short(rt: HostRuntime) {
    let costs = [4, 1, 3, 2, 0, 5, 3, 2, 2];
    let told = proposed(&rt, 2, &costs, None, ENOUGH);
    assert_same(&rt, is_short(2, &costs, told), true);
    let told = proposed(&rt, 3, &costs[..8], None, ENOUGH);
    assert_same(&rt, is_short(3, &costs[..8], told), true);
    let told = proposed(&rt, 3, &costs, None, ENOUGH);
    assert_same(&rt, is_short(3, &costs, told), false);
    let costs = [1, GAP, GAP, 2, GAP, GAP, 1, 2, 3];
    let told = proposed(&rt, 3, &costs, Some(GAP), ENOUGH);
    assert_same(&rt, is_short(3, &costs, told), true);
}

/// How many rows the table of products has: so many that paths alone would pass over it too often, and the auction is
/// played.
const PRODUCTS: u32 = 320;

/// What is proposed for the table of products, from these prices times two.
fn of_products(rt: &HostRuntime, start: &[i64], looks: u64) -> Option<Proposal> {
    let many = PRODUCTS as usize;
    let mut costs = vec![in rt.alloc(); 0; many * many].ok()?;
    for person in 0..many {
        for object in 0..many {
            costs[person * many + object] = ((person + 1) * (object + 1)) as i64;
        }
    }
    let table = Table {
        persons: PRODUCTS,
        objects: PRODUCTS,
        stride: many,
        costs: costs.as_slice(),
    };
    propose(rt.alloc(), &table, None, start, 2, looks, &mut Endless).ok()?
}

/// The first person has the last object, and so on.
fn is_opposite(found: &Proposal) -> bool {
    let mut is = true;
    for person in 0..found.objects.len() {
        is = is && found.objects[person] as usize + person + 1 == PRODUCTS as usize;
    }
    is && found.objects.len() == PRODUCTS as usize
}

/// Products, by phases of an auction.
#[test]
fn by_phases(rt: HostRuntime) {
    let found = of_products(&rt, &[], u64::MAX);
    assert_same(&rt, found.is_some_and(|found| is_opposite(&found)), true);
}

/// From the prices found before, four passes are enough, but not from others.
#[test]
fn from_prices(rt: HostRuntime) {
    let looks = 4 * 102_400;
    assert_same(&rt, of_products(&rt, &[], looks).is_some(), false);
    let mut start = [0; 320];
    if let Some(before) = of_products(&rt, &[], u64::MAX) {
        for object in 0..before.prices.len().min(320) {
            start[object] = before.prices[object].wrapping_mul(2);
        }
    }
    let found = of_products(&rt, &start, looks);
    assert_same(&rt, found.is_some_and(|found| is_opposite(&found)), true);
    start.reverse();
    let found = of_products(&rt, &start, looks);
    assert_same(&rt, found.is_some(), false);
}
