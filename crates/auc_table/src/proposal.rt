//! The proposal of the search.

use crate::gaps::Gap;
use crate::market::Market;
use crate::paths::Search;
use crate::pause::{Budget, Pause};
use crate::phases::{difference_at, raise_prices, scans_of_paths};
use crate::start::start_keys;
use crate::table::Table;
use std::alloc::{AllocError, Global};

/// The number of bids of a chain of displaced persons. The person displaced by the last one takes a path.
const CHAIN_BIDS: u64 = 4;

/// An assignment, and prices that should show that none costs less; where the search ended early, how much less one may
/// cost. Where some person has nothing, that there is no assignment.
#[derive(Drop)]
pub struct Proposal {
    /// The object of each person; a number above all objects where the person has nothing.
    pub objects: Vec<u32>,
    /// For each object the person who has it; a number above all persons where nobody does.
    pub holders: Vec<u32>,
    /// The price of each object, in costs of the table.
    pub prices: Vec<i64>,
}

/// Each person bids once in order, and the persons displaced bid a few times (row reduction). Returns how many persons
/// have nothing then.
fn reduce_rows<P: Pause, const G: bool>(
    table: &Table,
    gap: Gap<G>,
    market: &mut Market,
    budget: &mut Budget<'_, P>,
) -> u32 {
    for person in 0..table.persons {
        if budget.is_spent(market.scanned) {
            break;
        }
        market.bid_in_chain(table, gap, person, 0, CHAIN_BIDS);
    }
    market.count_free()
}

/// Where a search ends early: gives an object to each person who has nothing, by a few passes over the table; returns
/// keys that bound what any assignment costs. These are of a row reduction. Then bids by what neighbouring costs differ
/// by find most persons an object that is near their best, and the others take the best of what nobody has, or a path
/// to it where gaps are in the way. Where a person has no path, that person keeps nothing.
fn fill_up<const G: bool>(
    alloc: Global,
    table: &Table,
    gap: Gap<G>,
    market: &mut Market,
    search: &mut Search<G>,
) -> Result<Vec<i64>, AllocError> {
    for person in 0..table.persons {
        if market.has_nothing(person) {
            market.bid_in_chain(table, gap, person, 0, CHAIN_BIDS);
        }
    }
    let keys = Vec::from_slice(alloc, market.keys.as_slice())?;
    let eps = difference_at(table, gap, market.keys.as_slice()).max(1);
    let mut bids = CHAIN_BIDS.saturating_mul(u64::from(table.persons));
    for person in 0..table.persons {
        if market.has_nothing(person) {
            bids = market.bid_in_chain(table, gap, person, eps, bids);
        }
    }
    market.leave_gaps(table, gap);
    for person in 0..table.persons {
        if market.has_nothing(person) {
            market.take_free(table, gap, person);
        }
    }
    for person in 0..table.persons {
        if market.has_nothing(person) && !search.go(table, market, person)? {
            break;
        }
    }
    Ok(keys)
}

/// What the paths of all persons who have nothing have come to.
#[derive(Clone, Copy, PartialEq, Eq)]
enum Paths {
    /// Each person has an object.
    Taken,
    /// They are long, or the budget is spent.
    Long,
    /// Some person has no path to a free object: there is no assignment.
    Missing,
}

/// The persons who have nothing, so many, each take a path. Once paths have scanned a quarter of what is left of
/// `scans`, they are given up where others as long as their mean, and as the last one, would come to more than that.
/// The first ones may be long.
fn augment<P: Pause, const G: bool>(
    table: &Table,
    market: &mut Market,
    search: &mut Search<G>,
    free: u32,
    scans: u64,
    budget: &mut Budget<'_, P>,
) -> Result<Paths, AllocError> {
    let all = u64::from(free);
    let before = market.scanned;
    let left = scans.saturating_sub(before);
    let mut last: u64 = 0;
    let mut done: u64 = 0;
    for person in 0..table.persons {
        if !market.has_nothing(person) {
            continue;
        }
        let taken = market.scanned.saturating_sub(before);
        let are_long = taken.saturating_mul(all) > left.saturating_mul(done)
            && last.saturating_mul(all.saturating_sub(done)) > left;
        let is_over = left < taken || left / 4 < taken && are_long;
        if is_over || budget.is_spent(market.scanned) {
            return Ok(Paths::Long);
        }
        let earlier = market.scanned;
        if !search.go(table, market, person)? {
            return Ok(Paths::Missing);
        }
        last = market.scanned.saturating_sub(earlier);
        done = done.saturating_add(1);
    }
    Ok(Paths::Taken)
}

/// Gives each person an object, where there are as many objects as persons. Where paths are long, an auction raises the
/// prices. Then they may scan as much as all before them has; where that doesn't do, eps falls further.
fn assign_square<P: Pause, const G: bool>(
    table: &Table,
    gap: Gap<G>,
    market: &mut Market,
    search: &mut Search<G>,
    budget: &mut Budget<'_, P>,
) -> Result<Paths, AllocError> {
    let mut scans = scans_of_paths(table);
    let mut eps = i64::MAX;
    for _ in 0..64 {
        let free = reduce_rows(table, gap, market, budget);
        let most = if eps <= 1 {
            budget.scans
        } else {
            scans.min(budget.scans)
        };
        let paths = augment(table, market, search, free, most, budget)?;
        if paths != Paths::Long || eps <= 1 || budget.is_spent(market.scanned) {
            return Ok(paths);
        }
        eps = raise_prices(table, gap, market, eps, budget);
        scans = market.scanned.saturating_mul(2);
    }
    Ok(Paths::Long)
}

/// Gives each person an object. With more objects than persons no auction raises prices, since what nobody takes has to
/// keep price 0.
fn assign_all<P: Pause, const G: bool>(
    table: &Table,
    gap: Gap<G>,
    market: &mut Market,
    search: &mut Search<G>,
    budget: &mut Budget<'_, P>,
) -> Result<Paths, AllocError> {
    if table.persons == table.objects {
        return assign_square(table, gap, market, search, budget);
    }
    let free = reduce_rows(table, gap, market, budget);
    let scans = budget.scans;
    augment(table, market, search, free, scans, budget)
}

/// Searches a table with such gaps.
fn propose_by<P: Pause, const G: bool>(
    alloc: Global,
    table: &Table,
    gap: Gap<G>,
    start: &[i64],
    scale: i64,
    mut budget: Budget<'_, P>,
) -> Result<Option<Proposal>, AllocError> {
    let keys = start_keys(alloc, table, gap, start, scale)?;
    let mut market = Market::new(alloc, table.persons, keys)?;
    let mut search = Search::new(alloc, gap, table.objects)?;
    let paths = assign_all(table, gap, &mut market, &mut search, &mut budget)?;
    if paths == Paths::Long {
        if !budget.is_refused {
            return Ok(None);
        }
        market.keys = fill_up(alloc, table, gap, &mut market, &mut search)?;
    }
    let Market {
        keys,
        holders,
        owns,
        ..
    } = market;
    let mut prices = keys;
    for object in 0..prices.len() {
        prices[object] = prices[object] >> 1;
    }
    Ok(Some(Proposal {
        objects: owns,
        holders,
        prices,
    }))
}

/// Fills a proposal up in a table with such gaps.
fn complete_by<const G: bool>(
    alloc: Global,
    table: &Table,
    gap: Gap<G>,
    proposal: Proposal,
) -> Result<Proposal, AllocError> {
    let Proposal {
        objects,
        holders,
        prices,
    } = proposal;
    let keys = Vec::from_slice(alloc, prices.as_slice())?;
    let mut market = Market::held(keys, holders, objects);
    let mut search = Search::new(alloc, gap, table.objects)?;
    fill_up(alloc, table, gap, &mut market, &mut search)?;
    let Market {
        holders,
        owns: objects,
        ..
    } = market;
    Ok(Proposal {
        objects,
        holders,
        prices,
    })
}

/// Gives each person who has nothing an object, by a few passes over the table and by paths. Each object that somebody
/// holds is held still, if by another, unless its person leaves it since the entry is a gap. Prices stay as they were.
/// It is as [`propose`] ends after a no.
///
/// # Errors
///
/// Only where memory was refused.
pub fn complete(
    alloc: Global,
    table: &Table,
    gap: Option<i64>,
    proposal: Proposal,
) -> Result<Proposal, AllocError> {
    match gap {
        Some(gap) => complete_by(alloc, table, Gap::<true>(gap), proposal),
        None => complete_by(alloc, table, Gap::<false>(0), proposal),
    }
}

/// Searches for a least assignment of a table that has no fewer objects than persons, where an entry that equals `gap`
/// is a gap. It scans some more than `scans` entries at most, and returns None where that doesn't suffice.
///
/// `pause` is asked before each bid outside of a chain and before each path. After its no, persons who have nothing get
/// an object by a few more passes and by paths. The proposal is that assignment then, which need not be least. Its
/// prices bound what any costs.
///
/// Where some person has no path to an object that nobody has, there is no assignment, and that person has nothing, or
/// a gap.
///
/// Where `start` has a price for each object, in costs of the table times `scale`, and there are as many objects as
/// persons, the search starts from these prices if they give a greater lower bound than prices of 0 (weak duality).
/// Else it starts from 0.
///
/// **The caller tries the proposal**, as nothing is proved of it. Where there is an assignment and costs are from -10^9
/// to 10^9, it should be a least one without gaps. Its prices should be from 0 up, in costs of the table. At them no
/// object should be better for a person than the person's own, and an object that nobody has should have price 0.
///
/// The method is a row reduction, which is an auction at eps 0 that gives up early, and then shortest augmenting paths.
/// Source: Jonker and Volgenant, "A shortest augmenting path algorithm for dense and sparse linear assignment
/// problems", Computing 38, 1987. With as many objects as persons, where that takes long, it begins anew from the
/// prices of an auction with epsilon scaling.
///
/// Takes O(persons^2 * objects) time at most, and at most 53 bytes of memory an object and 12 a person.
///
/// # Errors
///
/// Only where memory was refused.
pub fn propose<P: Pause>(
    alloc: Global,
    table: &Table,
    gap: Option<i64>,
    start: &[i64],
    scale: i64,
    scans: u64,
    pause: &mut P,
) -> Result<Option<Proposal>, AllocError> {
    let budget = Budget::new(scans, pause);
    match gap {
        Some(gap) => propose_by(alloc, table, Gap::<true>(gap), start, scale, budget),
        None => propose_by(alloc, table, Gap::<false>(0), start, scale, budget),
    }
}
