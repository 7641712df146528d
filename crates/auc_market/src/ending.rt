//! How a chain of bids, and a phase, have ended.

use auc_claim::Reason;

/// How a chain of bids has ended, or two such chains that take turns. Each bid of a chain after the first is by the
/// person whom the bid before has displaced.
#[derive(Clone, Copy, Debug, PartialEq, Eq)]
pub(crate) enum Chain {
    /// Nobody was displaced.
    Placed,
    /// The bids of the phase have run out.
    Bids,
    /// A bid would be above the greatest price.
    Ceiling,
}

/// How a phase has ended.
#[derive(Clone, Copy, Debug, PartialEq, Eq)]
pub enum Ending {
    /// Each person has an object.
    Sold,
    /// A limit has ended it.
    Stopped(Reason),
}
