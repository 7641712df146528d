//! A phase of bids over a table, of which no arcs are made: so many bids from prices 0, in costs of the table.

ghost use Rattle.std.specs.Prelude.{◌≡◌, ◌⊎◌, ◌+◌, ◌^◌, ◌<◌, ◌≤◌, pos, neg_ℤ, ◌+ℤ◌, ◌≤ℤ◌};
ghost use Rattle.std.specs.Prelude.{All, IsTrue, IfOk, IfSome, length, replicate};
ghost use Rattle.auc_graph.specs.Price.{IsPrice};
ghost use Rattle.auc_graph.specs.Problem.{IsProblem};
ghost use Rattle.auc_graph.specs.Reading.{problem};
ghost use Rattle.auc_letters.specs.declared.limits.TheConstants.{NOBODY};
ghost use Rattle.auc_dense.specs.Bidding.{AreCosts, AreTwoCosts, HaveBid, IsAwarded, IsBid, IsCost, IsFound, IsLowered};
ghost use Rattle.auc_dense.specs.Bidding.{IsMargin, IsOffer, IsOther, IsOtherIn, IsPhase, IsTurn, IsWorth, endless};
ghost use Rattle.auc_dense.specs.Table.{table_arcs};
ghost use Rattle.auc_dense.specs.Tried.{IsGiven};

use crate::table::row_of;
use crate::trying::{is_plain, scale_of};
use auc_letters::NOBODY;
use auc_table::Table;
use std::alloc::{AllocError, Global};

/// The least worth of some entries, its place, and the second least; the greatest number where there is none.
#[derive(Clone, Copy)]
struct Found {
    place: usize,
    least: i64,
    second: i64,
}

/// With one more worth, of the entry at this place.
#[inline(always)]
fn lowered(found: Found, place: usize, worth: i64) -> Found
    ensures { IsLowered found place worth result }
{
    if worth < found.least {
        return Found {
            place,
            least: worth,
            second: found.least,
        };
    }
    if worth < found.second {
        return Found {
            place: found.place,
            least: found.least,
            second: worth,
        };
    }
    found
}

/// What an entry costs with the price of its object.
#[inline(always)]
fn worth_of(cost: i64, price: i64) -> i64
    requires cost { IsCost cost }
    requires price { IsPrice price }
    ensures is { result ≡ (cost +ℤ price) }
    ensures range { IsWorth result }
{
    cost + price
}

/// The least worth of a row and the second least.
fn found_in(row: &[i64], gap: i64, prices: &[i64]) -> Found
    requires len { length prices.now ≡ length row.now }
    requires prices { All IsPrice prices.now }
    requires costs { AreCosts gap row.now }
    ensures { IsFound gap row.now prices.now (length row.now) result }
{
    let mut found = Found {
        place: 0,
        least: i64::MAX,
        second: i64::MAX,
    };
    for object in 0..row.len() {
        let cost = row[object];
        if cost != gap {
            found = lowered(found, object, worth_of(cost, prices[object]));
        }
    }
    found
}

/// By how much the second is more than the least; 0 where there is no second.
fn margin_of(found: Found) -> i64
    requires least { IsWorth found.least }
    requires second { (found.second ≡ endless) ⊎ IsWorth found.second }
    ensures { IsMargin found result }
{
    if found.second == i64::MAX {
        0
    } else {
        found.second - found.least
    }
}

/// An object, and what a bid for it adds to its price besides 1.
#[derive(Clone, Copy)]
struct Offer {
    object: usize,
    margin: i64,
}

/// The best entry of a row, and by how much the next one is worse. None where all entries are gaps.
fn best_offer(row: &[i64], gap: i64, prices: &[i64]) -> Option<Offer>
    requires len { length prices.now ≡ length row.now }
    requires prices { All IsPrice prices.now }
    requires costs { AreCosts gap row.now }
    ensures { IfSome result (IsOffer gap row.now prices.now) }
{
    let found = found_in(row, gap, prices);
    if found.least == i64::MAX {
        return None;
    }
    let object = found.place;
    let margin = margin_of(found);
    Some(Offer { object, margin })
}

/// A bidder, and the number of persons who have begun then.
#[derive(Clone, Copy)]
struct Turn {
    person: u32,
    begun: u32,
}

/// The displaced person, or else the next one in order. None where all have begun, and nobody is displaced.
fn next_turn(persons: u32, displaced: u32, begun: u32) -> Option<Turn>
    requires { begun ≤ persons }
    ensures { IfSome result (IsTurn persons displaced begun) }
{
    if displaced < begun {
        let person = displaced;
        return Some(Turn { person, begun });
    }
    if begun < persons {
        let person = begun;
        let begun = begun + 1;
        return Some(Turn { person, begun });
    }
    None
}

/// A phase between two bids. The persons from `begun` on haven't bid yet. The last bid has displaced one, or nobody.
#[derive(Drop)]
pub(crate) struct Phase {
    pub(crate) prices: Vec<i64>,
    pub(crate) holders: Vec<u32>,
    displaced: u32,
    begun: u32,
}

/// All prices are 0, and no object has a holder.
fn start_phase(alloc: Global, objects: u32) -> Result<Phase, AllocError>
    ensures prices { IfOk result (λ phase. phase.prices.items ≡ replicate objects (pos 0)) }
    ensures holders { IfOk result (λ phase. phase.holders.items ≡ replicate objects NOBODY) }
    ensures displaced { IfOk result (λ phase. phase.displaced ≡ NOBODY) }
    ensures begun { IfOk result (λ phase. phase.begun ≡ 0) }
{
    let prices = vec![in alloc; 0i64; objects as usize]?;
    let holders = vec![in alloc; NOBODY; objects as usize]?;
    Ok(Phase {
        prices,
        holders,
        displaced: NOBODY,
        begun: 0,
    })
}

/// Gives the object to the bidder, at this price.
fn award(phase: &mut Phase, turn: Turn, object: usize, price: i64)
    requires prices { object < length phase.old.prices.items }
    requires holders { object < length phase.old.holders.items }
    ensures { IsAwarded phase.old turn object price phase.new }
{
    phase.displaced = phase.holders[object];
    phase.begun = turn.begun;
    phase.prices[object] = price;
    phase.holders[object] = turn.person;
}

/// The price after a bid.
fn price_after(price: i64, margin: i64) -> i64
    requires price { IsPrice price }
    requires low { pos 0 ≤ℤ margin }
    requires high { margin ≤ℤ pos (2 ^ 62) }
    ensures { result ≡ ((price +ℤ margin) +ℤ pos 1) }
{
    price + margin + 1
}

/// Lets the next person bid. False where there is none, where his row has gaps alone, or where the price would be too
/// high.
fn bid(table: &Table, gap: i64, phase: &mut Phase) -> bool
    requires table { IsGiven table.now }
    requires problem { IsProblem (problem table.now.persons table.now.objects
        (table_arcs table.now.objects table.now.costs.now table.now.stride gap table.now.persons)) }
    requires phase { IsPhase table.now.persons table.now.objects phase.old }
    ensures { IsTrue result → IsBid table.now.persons table.now.objects table.now.costs.now table.now.stride gap
        phase.old phase.new }
{
    let Some(turn) = next_turn(table.persons, phase.displaced, phase.begun) else {
        return false;
    };
    let row = row_of(table.costs, table.stride, table.objects, turn.person);
    let Some(offer) = best_offer(row, gap, phase.prices.as_slice()) else {
        return false;
    };
    let price = price_after(phase.prices[offer.object], offer.margin);
    if !is_plain(scale_of(table.persons), price) {
        return false;
    }
    award(phase, turn, offer.object, price);
    true
}

/// A cost of a row that is no gap, and isn't this one.
fn other_in(row: &[i64], gap: i64, cost: i64) -> Option<i64>
    ensures { IfSome result (IsOtherIn gap row.now cost) }
{
    for object in 0..row.len() {
        let other = row[object];
        if other != gap && other != cost {
            return Some(other);
        }
    }
    None
}

/// The same of a table.
fn other_cost(table: &Table, gap: i64, cost: i64) -> Option<i64>
    requires { IsGiven table.now }
    ensures { IfSome result (IsOther table.now.persons table.now.objects table.now.costs.now table.now.stride gap
        cost) }
{
    for person in 0..table.persons {
        let row = row_of(table.costs, table.stride, table.objects, person);
        if let Some(other) = other_in(row, gap, cost) {
            return Some(other);
        }
    }
    None
}

/// Whether the table has two costs that differ.
fn has_two_costs(table: &Table, gap: i64) -> bool
    requires { IsGiven table.now }
    ensures { IsTrue result → AreTwoCosts table.now.persons table.now.objects table.now.costs.now table.now.stride gap }
{
    match other_cost(table, gap, gap) {
        Some(one) => other_cost(table, gap, one).is_some(),
        None => false,
    }
}

/// A phase after exactly so many bids from prices 0. None where all costs are the same, where the persons have objects
/// before so many bids are made, or where a bid can't be made.
pub(crate) fn bid_out(
    alloc: Global,
    table: &Table,
    gap: i64,
    bids: u64,
) -> Result<Option<Phase>, AllocError>
    requires table { IsGiven table.now }
    requires problem { IsProblem (problem table.now.persons table.now.objects
        (table_arcs table.now.objects table.now.costs.now table.now.stride gap table.now.persons)) }
    ensures { IfOk result (λ o. IfSome o (λ phase. HaveBid table.now.persons table.now.objects table.now.costs.now
        table.now.stride gap bids phase.prices.items)) }
{
    if !has_two_costs(table, gap) {
        return Ok(None);
    }
    let mut phase = start_phase(alloc, table.objects)?;
    for _made in 0..bids {
        if !bid(table, gap, &mut phase) {
            return Ok(None);
        }
    }
    Ok(Some(phase))
}
