//! The result of a phase.

use auc_letters::Held;

/// The holder of each object, and its price in scaled costs, both indexed by object.
#[derive(Debug, Drop)]
pub struct Gathered {
    pub holders: Vec<Option<Held>>,
    pub prices: Vec<i64>,
}
