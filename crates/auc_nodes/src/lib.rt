//! Linked lists that share one vector of nodes: each node has an item and the number of the next node. Nodes that were
//! used and are free are one more list; those that never were used are only counted.
//!
//! Each call but `make` takes O(1) time. Proved: contracts see a pool as a list of lists (`specs/Lists.antt`); each
//! call is the plain list operation, and the other lists don't change.
#![tactic(auto)]

mod error;
mod laws;
mod limits;
mod links;
mod pool;

pub use error::PoolError;
pub use laws::limits_are;
pub use limits::{MOST_LISTS, MOST_NODES};
pub use pool::NodePool;
