//! What is found of a table by a search over the table itself, of which no arcs are made.

ghost use Rattle.std.specs.Prelude.{◌≡◌, ℕ, ℤ, List, [], None, IfOk, IfSome, true, length};
ghost use Rattle.auc_graph.specs.Problem.{IsProblem};
ghost use Rattle.auc_graph.specs.Reading.{problem};
ghost use Rattle.auc_call.specs.Start.{start_fault};
ghost use Rattle.auc_dense.specs.Bidding.{HaveBid};
ghost use Rattle.auc_dense.specs.Quick.{IsFound, IsQuick};
ghost use Rattle.auc_dense.specs.Table.{IsTable, table_arcs};
ghost use Rattle.auc_dense.specs.Tried.{IsGiven, IsShown};

use crate::bidding::{Phase, bid_out};
use crate::bounding::{Bounded, bound};
use crate::shortage::{Shortage, find_shortage};
use crate::trying::{is_whole, scale_of, try_out};
use auc_call::{Pausing, Run, Solved, Watch, ask_after, prices_fault};
use auc_claim::{Pick, Reason, cost_of};
use auc_table::{Proposal, Table, complete, propose};
use std::alloc::{AllocError, Global};

/// Picks of a table, and what they show with the prices of a proposal.
#[derive(Drop)]
struct Shown {
    picks: Vec<Pick>,
    solved: Solved,
}

/// An assignment of a table at prices in its costs, and what it is.
#[derive(Drop)]
pub(crate) struct Assignment {
    pub(crate) picks: Vec<Pick>,
    pub(crate) prices: Vec<i64>,
    pub(crate) solved: Solved,
}

/// What is found of a table without its arcs.
#[derive(Drop)]
pub(crate) enum Quick {
    Assigned(Assignment),
    /// There is no assignment.
    Short(Shortage),
}

/// What a proposal shows: a least assignment; or where that may be, an assignment and a bound.
fn show(
    alloc: Global,
    table: &Table,
    gap: i64,
    proposal: &Proposal,
    may_bound: bool,
) -> Result<Option<Shown>, AllocError>
    requires table { IsGiven table.now }
    ensures { IfOk result (λ o. IfSome o (λ shown. IsShown table.now.persons table.now.objects table.now.costs.now
        table.now.stride gap may_bound proposal.now.prices.items shown.picks.items shown.solved)) }
{
    if !is_whole(table, proposal) {
        return Ok(None);
    }
    if let Some(picks) = try_out(alloc, table, gap, proposal)? {
        let Ok(cost) = i64::try_from(cost_of(picks.as_slice())) else {
            return Ok(None);
        };
        let solved = Solved::Optimal { cost };
        return Ok(Some(Shown { picks, solved }));
    }
    if !may_bound {
        return Ok(None);
    }
    let Some(bounded) = bound(alloc, table, gap, proposal)? else {
        return Ok(None);
    };
    let Bounded { picks, lower } = bounded;
    let Ok(cost) = i64::try_from(cost_of(picks.as_slice())) else {
        return Ok(None);
    };
    let reason = Reason::Bids;
    let solved = Solved::Bracket {
        reason,
        lower,
        cost,
    };
    Ok(Some(Shown { picks, solved }))
}

/// The same, or that there is no assignment.
fn conclude(
    alloc: Global,
    table: &Table,
    gap: i64,
    proposal: Proposal,
    may_bound: bool,
) -> Result<Option<Quick>, AllocError>
    requires table { IsGiven table.now }
    ensures { IfOk result (λ o. IfSome o (IsQuick table.now gap may_bound proposal.prices.items)) }
{
    if let Some(shown) = show(alloc, table, gap, &proposal, may_bound)? {
        let Proposal { prices, .. } = proposal;
        let Shown { picks, solved } = shown;
        return Ok(Some(Quick::Assigned(Assignment {
            picks,
            prices,
            solved,
        })));
    }
    match find_shortage(alloc, table, gap, &proposal)? {
        Some(short) => Ok(Some(Quick::Short(short))),
        None => Ok(None),
    }
}

/// The object of each person; the greatest number where the person holds none.
fn objects_of(alloc: Global, persons: u32, holders: &[u32]) -> Result<Vec<u32>, AllocError> {
    let mut objects = vec![in alloc; u32::MAX; persons as usize]?;
    for object in 0..holders.len() {
        let holder = holders[object] as usize;
        if holder < objects.len() {
            objects[holder] = u32::try_from(object).unwrap_or(u32::MAX);
        }
    }
    Ok(objects)
}

/// What a table comes to by so few bids: an assignment, which is filled up, and a bound by the prices after them; or
/// that there is none.
fn bid_quickly(
    alloc: Global,
    table: &Table,
    gap: i64,
    gaps: Option<i64>,
    bids: u64,
) -> Result<Option<Quick>, AllocError>
    requires table { IsGiven table.now }
    requires problem { IsProblem (problem table.now.persons table.now.objects
        (table_arcs table.now.objects table.now.costs.now table.now.stride gap table.now.persons)) }
    ensures { IfOk result (λ o. IfSome o (λ quick. (prices : List ℤ) × IsQuick table.now gap true prices quick
        × HaveBid table.now.persons table.now.objects table.now.costs.now table.now.stride gap bids prices)) }
{
    let Some(phase) = bid_out(alloc, table, gap, bids)? else {
        return Ok(None);
    };
    let Phase {
        prices,
        holders,
        ..
    } = phase;
    let proposal = Proposal {
        objects: objects_of(alloc, table.persons, holders.as_slice())?,
        holders,
        prices: prices.as_slice().to_vec(alloc)?,
    };
    let Proposal {
        objects,
        holders,
        ..
    } = complete(alloc, table, gaps, proposal)?;
    let filled = Proposal {
        objects,
        holders,
        prices,
    };
    conclude(alloc, table, gap, filled, true)
}

/// What is found of a table of so many arcs, where the start has no fault: a least assignment, if the search comes to
/// it soon enough, or that there is none. Where the watch ends it, or there are too few bids and no start, an
/// assignment and a bound. The watch is asked. None where the arcs have to be looked at.
pub(crate) fn search_quickly<W: Watch>(
    alloc: Global,
    table: &Table,
    gap: i64,
    count: usize,
    run: &mut Run<'_, W>,
) -> Result<Option<Quick>, AllocError>
    requires problem { IsProblem (problem table.now.persons table.now.objects
        (table_arcs table.now.objects table.now.costs.now table.now.stride gap table.now.persons)) }
    requires table { IsTable table.now.persons table.now.objects table.now.stride (length table.now.costs.now) }
    ensures start { IfOk result (λ o. IfSome o (λ quick. start_fault (problem table.now.persons table.now.objects
        (table_arcs table.now.objects table.now.costs.now table.now.stride gap table.now.persons))
        run.old.start.now ≡ None)) }
    ensures found { IfOk result (λ o. IfSome o
        (IsFound table.now gap run.old.start.now run.old.bids (W.has_stopped run.new.watch))) }
    ensures asked { IfOk result (λ o. IfSome o (λ quick. W.was_asked run.new.watch ≡ true)) }
    ensures kept { (run.new.start.now ≡ run.old.start.now) × (run.new.bids ≡ run.old.bids) }
{
    let Table {
        persons,
        objects,
        ..
    } = *table;
    if !run.start.is_empty() && prices_fault(objects, run.start).is_some() {
        return Ok(None);
    }
    let has_gaps = count < (persons as usize).saturating_mul(objects as usize);
    let gaps = if has_gaps { Some(gap) } else { None };
    // To look over a row counts as a bid.
    let scans = u64::from(objects).saturating_mul(run.bids);
    let scale = scale_of(persons);
    let mut pausing = Pausing::new(objects, &mut run.watch);
    let found = propose(alloc, table, gaps, run.start, scale, scans, &mut pausing)?;
    ask_after(&mut run.watch, persons);
    if let Some(found) = found {
        let is_ended = run.watch.has_said_no();
        return conclude(alloc, table, gap, found, is_ended);
    }
    if !run.start.is_empty() {
        return Ok(None);
    }
    let Some(quick) = bid_quickly(alloc, table, gap, gaps, run.bids)? else {
        return Ok(None);
    };
    Ok(Some(quick))
}
