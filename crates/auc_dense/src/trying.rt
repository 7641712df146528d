//! Whether what was proposed for a table shows a least assignment of it. Nothing is known of a proposal, so all of it
//! is looked at.

ghost use Rattle.std.specs.Prelude.{◌≡◌, ◌≢◌, ◌<◌, ◌≤◌, ◌+◌, ◌^◌, pos, neg_ℤ, ◌+ℤ◌, ◌≤ℤ◌, All, IsTrue, IfOk, IfSome};
ghost use Rattle.std.specs.Prelude.{length};
ghost use Rattle.auc_graph.specs.declared.limits.TheConstants.{MOST_PERSONS};
ghost use Rattle.auc_dense.specs.Tried.{AreBest, AreHeldApart, AreOthersFree, ArePicks, IsBestIn, IsGiven};
ghost use Rattle.auc_dense.specs.Tried.{IsNoneBelow, IsPickIn, IsPlainPrice, IsWhole};
ghost use Rattle.auc_graph.specs.Price.{IsPrice};
ghost use Rattle.auc_dense.specs.Tried.{ShowLeast};

use crate::table::row_of;
use auc_claim::Pick;
use auc_graph::{MOST_COST, MOST_PRICE};
use auc_table::{Proposal, Table};
use std::alloc::{AllocError, Global};

/// By what costs are multiplied: one more than the persons.
pub(crate) fn scale_of(persons: u32) -> i64
    requires { persons ≤ MOST_PERSONS }
    ensures { result ≡ pos (persons + 1) }
{
    i64::from(persons) + 1
}

/// Whether this is a price in costs of the table, which is a price still where it is scaled.
#[inline]
pub(crate) fn is_plain(scale: i64, price: i64) -> bool
    ensures { IsTrue result → IsPlainPrice scale price }
{
    if price < 0 || MOST_PRICE < price {
        return false;
    }
    match scale.checked_mul(price) {
        Some(scaled) => 0 <= scaled && scaled <= MOST_PRICE,
        None => false,
    }
}

/// Whether all prices are such.
fn are_plain(scale: i64, prices: &[i64]) -> bool
    ensures plain { IsTrue result → All (IsPlainPrice scale) prices.now }
    ensures prices { IsTrue result → All IsPrice prices.now }
{
    for price in prices {
        if !is_plain(scale, *price) {
            return false;
        }
    }
    true
}

/// Whether an entry is a gap, or has at least this value with its price.
#[inline(always)]
fn is_no_better(cost: i64, gap: i64, price: i64, least: i64) -> bool
    requires price { IsPrice price }
    requires low { neg_ℤ (pos (2 ^ 62)) ≤ℤ least }
    requires high { least ≤ℤ pos (2 ^ 62) }
    ensures { IsTrue result → cost ≢ gap → least ≤ℤ (cost +ℤ price) }
{
    cost == gap || least - price <= cost
}

/// Whether no entry of a row that is no gap has a lower value than this.
// It goes through the whole row, so that the compiler takes several entries at a time.
#[inline(never)]
fn is_none_below(row: &[i64], gap: i64, prices: &[i64], least: i64) -> bool
    requires len { length prices.now ≡ length row.now }
    requires prices { All IsPrice prices.now }
    requires low { neg_ℤ (pos (2 ^ 62)) ≤ℤ least }
    requires high { least ≤ℤ pos (2 ^ 62) }
    ensures { IsTrue result → IsNoneBelow gap row.now prices.now least (length row.now) }
{
    let mut is_none = true;
    for object in 0..row.len() {
        let is_no_better = is_no_better(row[object], gap, prices[object], least);
        is_none = is_none && is_no_better;
    }
    is_none
}

/// The pick of an object, where its entry is no gap.
fn pick_in(row: &[i64], gap: i64, object: u32) -> Option<Pick>
    ensures { IfSome result (IsPickIn gap row.now) }
{
    if object as usize >= row.len() {
        return None;
    }
    let cost = row[object as usize];
    if cost == gap || cost < -MOST_COST || MOST_COST < cost {
        return None;
    }
    Some(Pick { cost, object })
}

/// The pick of an object, where its entry is no gap, and none of the row is better.
fn best_pick(row: &[i64], gap: i64, prices: &[i64], object: u32) -> Option<Pick>
    requires len { length prices.now ≡ length row.now }
    requires prices { All IsPrice prices.now }
    ensures { IfSome result (IsBestIn gap row.now prices.now) }
{
    let Some(pick) = pick_in(row, gap, object) else {
        return None;
    };
    let least = pick.cost + prices[pick.object as usize];
    if !is_none_below(row, gap, prices, least) {
        return None;
    }
    Some(pick)
}

/// The picks of these objects, where each is an entry of its row that is no gap.
pub(crate) fn picks_in(
    alloc: Global,
    table: &Table,
    gap: i64,
    choice: &[u32],
) -> Result<Option<Vec<Pick>>, AllocError>
    requires table { IsGiven table.now }
    requires choice { length choice.now ≡ table.now.persons }
    ensures { IfOk result (λ o. IfSome o (λ picks. ArePicks table.now.objects table.now.costs.now table.now.stride gap
        table.now.persons picks.items)) }
{
    let mut picks = Vec::with_capacity(alloc, choice.len())?;
    for person in 0..choice.len() {
        let row = row_of(table.costs, table.stride, table.objects, person as u32);
        match pick_in(row, gap, choice[person]) {
            Some(pick) => picks.push(pick)?,
            None => return Ok(None),
        }
    }
    Ok(Some(picks))
}

/// The picks of these objects, where each is the best of its row.
pub(crate) fn best_picks(
    alloc: Global,
    table: &Table,
    gap: i64,
    choice: &[u32],
    prices: &[i64],
) -> Result<Option<Vec<Pick>>, AllocError>
    requires table { IsGiven table.now }
    requires choice { length choice.now ≡ table.now.persons }
    requires len { length prices.now ≡ table.now.objects }
    requires prices { All IsPrice prices.now }
    ensures { IfOk result (λ o. IfSome o (λ picks. AreBest table.now.objects table.now.costs.now table.now.stride gap
        prices.now table.now.persons picks.items)) }
{
    let mut picks = Vec::with_capacity(alloc, choice.len())?;
    for person in 0..choice.len() {
        let row = row_of(table.costs, table.stride, table.objects, person as u32);
        match best_pick(row, gap, prices, choice[person]) {
            Some(pick) => picks.push(pick)?,
            None => return Ok(None),
        }
    }
    Ok(Some(picks))
}

/// Whether each object that is picked is held by who picks it.
pub(crate) fn are_held_apart(picks: &[Pick], holders: &[u32]) -> bool
    requires { length picks.now ≤ MOST_PERSONS }
    ensures { IsTrue result → AreHeldApart picks.now holders.now }
{
    for person in 0..picks.len() {
        let object = picks[person].object as usize;
        if object >= holders.len() || holders[object] as usize != person {
            return false;
        }
    }
    true
}

/// Whether each object that has a price is picked, by who holds it.
pub(crate) fn are_others_free(picks: &[Pick], holders: &[u32], prices: &[i64]) -> bool
    ensures { IsTrue result → AreOthersFree picks.now prices.now }
{
    for object in 0..prices.len() {
        if prices[object] != 0 {
            if object >= holders.len() {
                return false;
            }
            let holder = holders[object] as usize;
            if holder >= picks.len() || picks[holder].object as usize != object {
                return false;
            }
        }
    }
    true
}

/// Whether a proposal has an object for each person, and for each object a price, which is one still where it is
/// scaled.
pub(crate) fn is_whole(table: &Table, proposal: &Proposal) -> bool
    requires { IsGiven table.now }
    ensures { IsTrue result → IsWhole table.now proposal.now }
{
    if proposal.objects.len() != table.persons as usize {
        return false;
    }
    if proposal.prices.len() != table.objects as usize {
        return false;
    }
    are_plain(scale_of(table.persons), proposal.prices.as_slice())
}

/// The picks of a whole proposal, where with its prices they show a least assignment of the table.
pub(crate) fn try_out(
    alloc: Global,
    table: &Table,
    gap: i64,
    proposal: &Proposal,
) -> Result<Option<Vec<Pick>>, AllocError>
    requires table { IsGiven table.now }
    requires whole { IsWhole table.now proposal.now }
    ensures { IfOk result (λ o. IfSome o (λ picks. ShowLeast table.now.persons table.now.objects table.now.costs.now
        table.now.stride gap picks.items proposal.now.prices.items)) }
{
    let prices = proposal.prices.as_slice();
    let holders = proposal.holders.as_slice();
    let choice = proposal.objects.as_slice();
    let Some(picks) = best_picks(alloc, table, gap, choice, prices)? else {
        return Ok(None);
    };
    if !are_held_apart(picks.as_slice(), holders) {
        return Ok(None);
    }
    if !are_others_free(picks.as_slice(), holders, prices) {
        return Ok(None);
    }
    Ok(Some(picks))
}
