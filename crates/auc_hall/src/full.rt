//! Whether there is a full assignment: a search proposes one, and the proposal is checked.

ghost use Rattle.std.specs.Prelude.{◌<◌, IsTrue, IfOk, length};
ghost use Rattle.auc_hall.specs.Full.{HasRowAssignment, HoldsOne};

use crate::labels::Labels;
use auc_graph::Rows;
use std::alloc::{AllocError, Global};

/// Whether the arc at the person's place of the row leads to an object that the person holds.
fn holds_at(rows: &Rows, proposal: &Labels<'_>, person: u32) -> bool
    requires { person < length rows.now.rows }
    ensures { IsTrue result → HoldsOne rows.now proposal.now.holders.items person }
{
    let row = rows.row(person);
    let Some(place) = proposal.places.get(person as usize) else {
        return false;
    };
    let Some(arc) = row.get(*place as usize) else {
        return false;
    };
    match proposal.holders.get(arc.object as usize) {
        Some(Some(holder)) => *holder == person,
        _ => false,
    }
}

/// Whether each person holds an object by the arc at the person's place of the row. No object has two holders, so no
/// two persons share one.
fn hold_all(rows: &Rows, proposal: &Labels<'_>) -> bool
    ensures { IsTrue result → HasRowAssignment rows.now }
{
    for person in 0..rows.persons() {
        if !holds_at(rows, proposal, person) {
            return false;
        }
    }
    true
}

/// Whether a quick search finds an assignment, of any cost. False says nothing: there may still be one, and
/// [`complete`](crate::complete) decides.
///
/// The search works by labels of the objects (push and relabel, Goldberg and Tarjan 1988). It gives up after 16 times
/// as many scans of arcs as there are arcs, or where it finds that there is no assignment. The proposal is checked in
/// one pass over the persons before true is returned.
///
/// O(arcs + persons + objects) time, O(persons + objects) memory, all of it taken before the search.
///
/// # Errors
///
/// Only where memory was refused.
pub fn has_full_matching(alloc: Global, rows: &Rows) -> Result<bool, AllocError>
    ensures { IfOk result (λ found. IsTrue found → HasRowAssignment rows.now) }
{
    let mut proposal = Labels::new(alloc, rows)?;
    Ok(proposal.search() && hold_all(rows, &proposal))
}
