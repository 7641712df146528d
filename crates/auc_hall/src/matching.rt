//! The result of a completion.

use auc_graph::Indices;

/// A full assignment, or a Hall violator.
#[derive(Debug, Drop)]
pub enum Matching {
    /// The number of the arc of each person, indexed by person: its place in the list of arcs.
    Full(Indices),
    /// Persons, and all objects that they have arcs to, which are fewer than the persons. Both in rising order.
    Hall { persons: Indices, objects: Indices },
}
