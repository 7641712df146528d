//! What a caller asks: a problem in its memory, and a run.

use auc_graph::Arc;

/// A problem of a list of arcs. Persons and objects are numbered from 0.
#[derive(Clone, Copy)]
pub struct GivenArcs<'a> {
    /// How many persons there are.
    pub persons: u32,
    /// How many objects there are; 0 means as many as persons.
    pub objects: u32,
    /// The arcs.
    pub arcs: &'a [Arc],
}

/// Where a run starts, how long it may take, and what may end it before that.
#[derive(Drop)]
pub struct Run<'a, W> {
    /// The prices to start from, indexed by object, from 0 to 2^60 on the scale of costs times persons + 1, as an
    /// earlier call has left them in `prices`. None at all are a start from nothing.
    pub start: &'a [i64],
    /// The most bids of a phase.
    pub bids: u64,
    /// What is asked whether the run goes on: see [`auc_direct::Watch`]. [`auc_direct::Onward`] never ends it.
    pub watch: W,
}
