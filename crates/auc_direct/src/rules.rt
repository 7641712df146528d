//! The rules by which a run chooses its phases. They see only numbers of bids and arcs, so no answer depends on them.
//!
//! 1. **Scaled costs.** Costs are multiplied by the persons plus one. So an assignment in which each person is within 1
//!    of the best at the end has the least cost.
//! 2. **A bid is an award** (Gauss-Seidel). A person without an object takes the best one at once, and the person whom
//!    this displaces bids next. Two such chains take turns.
//! 3. **Bid or search** (`auc_market`, `Pace`). In the last phase a chain that has taken as long as the latest searches
//!    did ends by a shortest augmenting path. Before the last phase chains mostly end by themselves. There a chain may
//!    take some times as long. The first search comes early, since it shows how long one takes. Where no free object
//!    can be reached, the persons reached are a Hall violator.
//! 4. **Phases** (epsilon scaling). Columns are reduced. Eps begins at the mean spread of a row divided by the mean
//!    number of its arcs, and is divided by 8 from phase to phase. Prices stay, and nobody keeps an object.
//! 5. **Apart, ties, too fine, or calm.** Where nineteen persons in twenty of a sample have the cheapest arc of
//!    some object, persons hold what is best for them at the reduced columns before any bid, and the last phase is
//!    tried first. So it is tried where most rows have two best arcs of the same value. After three bids a person
//!    it is given up where more than one person in twenty is free: bids that met free objects by chance would leave
//!    so many. Else it may make a bid a person more for each halving of the spread of all costs. The first phase is
//!    given up once it has made more bids for each person than eps can be halved before it is 1. Eps then begins
//!    anew, at the mean spread of a row divided by the square root of the mean number of its arcs. After a phase of
//!    fewer than two bids a person the last phase is tried at once. It may make a bid a person for each phase from
//!    there on.
//! 6. **More objects than persons.** One phase at the last eps, from prices of 0, since an object that nobody holds has
//!    to have price 0.

use crate::tuning::{
    CACHED_ENTRIES, CALM_BIDS_PER_PERSON, FREE_DIVISOR, SAMPLED_ROWS, START_BIDS_PER_PERSON,
    TABLE_PASSES, TIES_BIDS_PER_PERSON,
};
use auc_market::{Attempt, LAST_EPS, Sample};
use auc_rows::FlatRows;
use auc_table::{EPS_DIVISOR, PASSES};

/// How often eps is divided by this number until it is 1.
fn divisions(eps: i64, divisor: i64) -> u64 {
    let mut left = eps;
    let mut many: u64 = 0;
    for _ in 0..64 {
        if left <= LAST_EPS {
            break;
        }
        left = left.checked_div(divisor).unwrap_or(0);
        many = many.saturating_add(1);
    }
    many
}

/// So many bids for each person, in an attempt that is given up after them.
fn attempt_of(rows: &FlatRows, bids: u64) -> Attempt {
    Attempt {
        bids: for_each(rows, bids),
        free: 0,
        more: 0,
    }
}

/// So many bids for each person.
fn for_each(rows: &FlatRows, bids: u64) -> u64 {
    u64::from(rows.persons()).saturating_mul(bids)
}

/// The first phase, at this eps.
pub(crate) fn attempt_of_first(rows: &FlatRows, eps: i64) -> Attempt {
    attempt_of(rows, divisions(eps, 2).max(1))
}

/// The last phase before its turn: after a phase of `made` bids and before a phase at this eps.
pub(crate) fn attempt_ahead(rows: &FlatRows, made: u64, eps: i64) -> Attempt {
    if eps <= LAST_EPS || made >= for_each(rows, CALM_BIDS_PER_PERSON) {
        return attempt_of(rows, 0);
    }
    attempt_of(rows, divisions(eps, EPS_DIVISOR).saturating_add(1))
}

/// The last phase before all others, where there are ties.
pub(crate) fn attempt_with_ties(rows: &FlatRows, are_there: bool) -> Attempt {
    if !are_there {
        return attempt_of(rows, 0);
    }
    Attempt {
        bids: for_each(rows, TIES_BIDS_PER_PERSON),
        free: rows.persons() / FREE_DIVISOR,
        more: for_each(
            rows,
            divisions(rows.scale().saturating_mul(rows.spread()), 2),
        ),
    }
}

/// Whether it is worth a sample whether persons may hold objects before the first phase. Not where it would be of all
/// rows, nor in a full table, which is searched as a table.
pub(crate) fn may_hold_first(rows: &FlatRows) -> bool {
    let entries = (rows.persons() as usize).saturating_mul(rows.objects() as usize);
    rows.persons() >= 2 * SAMPLED_ROWS && rows.arc_count() < entries
}

/// Whether, at reduced columns, nearly each person has the cheapest arc of some object. So far apart are their best
/// arcs that nearly each can hold one.
pub(crate) fn are_apart(sample: Sample) -> bool {
    sample.above <= sample.persons / FREE_DIVISOR
}

/// The last phase, in which persons keep what they hold: from start prices, or from reduced columns.
pub(crate) fn attempt_of_held(rows: &FlatRows, held: u32, is_start: bool) -> Attempt {
    if is_start {
        return attempt_of(rows, START_BIDS_PER_PERSON);
    }
    attempt_with_ties(rows, held > 0)
}

/// The number of entries that the search of a full table may scan: of one in the cache as many as paths and a phase of
/// its own may. With more objects than persons it is any number: one phase at the last eps would take far longer.
pub(crate) fn scans_of_table(rows: &FlatRows) -> u64 {
    if rows.persons() < rows.objects() {
        return u64::MAX;
    }
    let entries = rows.arc_count() as u64;
    let passes = if entries <= CACHED_ENTRIES {
        2 * PASSES
    } else {
        TABLE_PASSES
    };
    u64::from(passes).saturating_mul(entries)
}
