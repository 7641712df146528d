//! What the calls take.

use auc_call::{GivenArcs, Onward, Run};
use auc_graph::Arc;

/// So many persons, so many objects and these arcs.
pub(crate) fn given_arcs(persons: u32, objects: u32, arcs: &[Arc]) -> GivenArcs<'_> {
    GivenArcs {
        persons,
        objects,
        arcs,
    }
}

/// A run from these prices with so many bids, which nobody ends.
pub(crate) fn run_of(start: &[i64], bids: u64) -> Run<'_, Onward> {
    Run {
        start,
        bids,
        watch: Onward,
    }
}
