//! A full table, solved by a search over its costs. Nothing is proved of the search: the market tries its proposal
//! before it is taken.

ghost use Rattle.std.specs.Prelude.{◌≡◌, pos, length, IfErr, IfOk, IfSome};
ghost use Rattle.auc_direct.specs.Adopted.{IsFullTable, IsSearched};
ghost use Rattle.auc_market.specs.Market.{HaveObjects, Stands};
ghost use Rattle.auc_market.specs.Starts.{ArePricesOf};

use crate::pausing::{Pausing, ask_after};
use crate::rules::scans_of_table;
use auc_graph::MOST_PRICE;
use auc_market::{Holdings, Watch, tried};
use auc_rows::FlatRows;
use auc_table::{Pause, Proposal, Table, propose};
use std::alloc::{AllocError, Global};

/// The costs of all rows, one row after another. None where the rows aren't a full table. No clause says that they are,
/// so each arc is looked at.
fn costs_of(alloc: Global, rows: &FlatRows) -> Result<Option<Vec<i64>>, AllocError>
    ensures { IfOk result (λ o. IfSome o (λ costs. IsFullTable rows.now)) }
{
    let objects = rows.objects() as usize;
    let mut costs = Vec::with_capacity(alloc, rows.arc_count())?;
    for person in 0..rows.persons() {
        let row = rows.row(person);
        if row.len() != objects {
            return Ok(None);
        }
        for object in 0..row.len() {
            let arc = row[object];
            if arc.object as usize != object {
                return Ok(None);
            }
            costs.push(i64::from(arc.cost))?;
        }
    }
    Ok(Some(costs))
}

/// Proposed prices, scaled. None where there isn't one for each object, or where one, scaled, is no price.
fn scaled_prices(rows: &FlatRows, mut prices: Vec<i64>) -> Option<Vec<i64>>
    ensures { IfSome result (λ scaled. ArePricesOf rows.now scaled.items) }
{
    if prices.len() != rows.objects() as usize {
        return None;
    }
    let scale = rows.scale();
    for object in 0..prices.len() {
        let Some(price) = scale.checked_mul(prices[object]) else {
            return None;
        };
        if price < 0 || MOST_PRICE < price {
            return None;
        }
        prices[object] = price;
    }
    Some(prices)
}

/// Solves a full table by a search that may scan as much as `scans_of_table` says, and tries its proposal. The search
/// begins at scaled start prices, where there are such. None where the rows aren't a full table, where the proposal
/// doesn't show a least assignment, or after a no. Takes O(persons * objects) time and 8 bytes of memory an arc beside
/// the search.
///
/// # Errors
///
/// Only where memory was refused.
fn adopted<P: Pause>(
    alloc: Global,
    rows: &FlatRows,
    start: &[i64],
    pause: &mut P,
) -> Result<Option<Holdings>, AllocError>
    ensures stands { IfOk result (λ o. IfSome o (λ m. Stands rows.now (pos 1) m.prices.items m.holders.items
        m.owns.items)) }
    ensures have { IfOk result (λ o. IfSome o (λ m. HaveObjects (length rows.now.rows) m.owns.items)) }
    ensures full { IfOk result (λ o. IfSome o (λ m. IsFullTable rows.now)) }
{
    let Some(costs) = costs_of(alloc, rows)? else {
        return Ok(None);
    };
    let objects = rows.objects();
    let table = Table {
        persons: rows.persons(),
        objects,
        stride: objects as usize,
        costs: costs.as_slice(),
    };
    let scale = rows.scale();
    let Some(proposal) = propose(
        alloc,
        &table,
        None,
        start,
        scale,
        scans_of_table(rows),
        pause,
    )?
    else {
        return Ok(None);
    };
    let Proposal {
        objects,
        prices,
        ..
    } = proposal;
    let Some(start) = scaled_prices(rows, prices) else {
        return Ok(None);
    };
    tried(alloc, rows, start.as_slice(), objects.as_slice())
}

/// What a search over a full table has come to.
#[derive(Drop)]
pub(crate) enum Searched {
    /// What persons hold in a least assignment.
    Adopted(Holdings),
    /// The watch has said no.
    Ended,
    /// The rows aren't a full table, or the proposal doesn't show a least assignment.
    Nothing,
}

/// Searches a full table as a table ([`adopted`]), unless the watch has said no. With more objects than persons the
/// phase from a start is short, and the search can't begin there, so from a start there is none.
///
/// # Errors
///
/// Only where memory was refused.
pub(crate) fn search_table<W: Watch>(
    alloc: Global,
    rows: &FlatRows,
    start: &[i64],
    watch: &mut W,
) -> Result<Searched, AllocError>
    ensures searched { IfOk result (IsSearched rows.now (W.has_stopped watch.old) (W.has_stopped watch.new)
        (W.was_asked watch.new)) }
    ensures halt { IfErr result (λ e. W.has_stopped watch.new ≡ W.has_stopped watch.old) }
{
    let is_wide = rows.persons() != rows.objects();
    if !rows.is_full() || is_wide && !start.is_empty() || watch.has_said_no() {
        return Ok(Searched::Nothing);
    }
    let mut pausing = Pausing::new(rows.objects(), watch);
    let found = adopted(alloc, rows, start, &mut pausing);
    if !ask_after(watch, rows.persons()) {
        return Ok(Searched::Ended);
    }
    match found? {
        Some(holdings) => Ok(Searched::Adopted(holdings)),
        None => Ok(Searched::Nothing),
    }
}
