//! What a search over a table leaves that was ended: an assignment, and a bound of what any costs. Nothing is known of
//! its proposal, so all of it is looked at.

ghost use Rattle.std.specs.Prelude.{◌≡◌, ◌<◌, ◌≤◌, ◌^◌, All, IfOk, IfSome, length};
ghost use Rattle.auc_graph.specs.declared.limits.TheConstants.{MOST_PERSONS};
ghost use Rattle.auc_dense.specs.Tried.{IsGiven, IsWhole, ShowBracket, lower_at};

use crate::table::row_of;
use crate::trying::{are_held_apart, are_others_free, best_picks, picks_in};
use auc_claim::Pick;
use auc_table::{Proposal, Table};
use std::alloc::{AllocError, Global};

/// The first object whose entry, with its price, is the least of its row's that are no gaps. Nothing is proved of it.
fn best_object(row: &[i64], gap: i64, prices: &[i64]) -> u32 {
    let mut best = 0;
    let mut least = i64::MAX;
    for object in 0..row.len().min(prices.len()) {
        let worth = row[object].wrapping_add(prices[object]);
        if worth < least && row[object] != gap {
            least = worth;
            best = object;
        }
    }
    u32::try_from(best).unwrap_or(0)
}

/// An object for each person, which should be the best at these prices.
fn best_objects(
    alloc: Global,
    table: &Table,
    gap: i64,
    prices: &[i64],
) -> Result<Vec<u32>, AllocError>
    requires { IsGiven table.now }
    ensures { IfOk result (λ best. length best.items ≡ table.now.persons) }
{
    let mut best = Vec::with_capacity(alloc, table.persons as usize)?;
    for person in 0..table.persons {
        let row = row_of(table.costs, table.stride, table.objects, person);
        best.push(best_object(row, gap, prices))?;
    }
    Ok(best)
}

/// The bound that prices give (weak duality): what the best picks cost with their prices, less all prices. None where
/// it has more than 64 bits.
fn lower_of(bests: &[Pick], prices: &[i64]) -> Option<i64>
    requires few { length bests.now ≤ MOST_PERSONS }
    requires many { length prices.now < 2 ^ 32 }
    requires inside { All (λ pick. pick.object < length prices.now) bests.now }
    ensures { IfSome result (λ lower. lower ≡ lower_at prices.now bests.now) }
{
    let mut lower: i128 = 0;
    for pick in bests {
        lower += pick.cost as i128;
        lower += prices[pick.object as usize] as i128;
    }
    for price in prices {
        lower -= *price as i128;
    }
    match i64::try_from(lower) {
        Ok(lower) => Some(lower),
        Err(_) => None,
    }
}

/// An assignment of a table, and a bound of what any costs.
#[derive(Drop)]
pub(crate) struct Bounded {
    pub(crate) picks: Vec<Pick>,
    pub(crate) lower: i64,
}

/// What a whole proposal shows that has no gaps, whether or not it is best. With more objects than persons, those that
/// nobody has must have price 0.
pub(crate) fn bound(
    alloc: Global,
    table: &Table,
    gap: i64,
    proposal: &Proposal,
) -> Result<Option<Bounded>, AllocError>
    requires table { IsGiven table.now }
    requires whole { IsWhole table.now proposal.now }
    ensures { IfOk result (λ o. IfSome o (λ bounded. ShowBracket table.now.persons table.now.objects
        table.now.costs.now table.now.stride gap bounded.picks.items proposal.now.prices.items bounded.lower)) }
{
    let prices = proposal.prices.as_slice();
    let holders = proposal.holders.as_slice();
    let Some(picks) = picks_in(alloc, table, gap, proposal.objects.as_slice())? else {
        return Ok(None);
    };
    if !are_held_apart(picks.as_slice(), holders) {
        return Ok(None);
    }
    if table.objects != table.persons && !are_others_free(picks.as_slice(), holders, prices) {
        return Ok(None);
    }
    let best = best_objects(alloc, table, gap, prices)?;
    let Some(bests) = best_picks(alloc, table, gap, best.as_slice(), prices)? else {
        return Ok(None);
    };
    match lower_of(bests.as_slice(), prices) {
        Some(lower) => Ok(Some(Bounded { picks, lower })),
        None => Ok(None),
    }
}
