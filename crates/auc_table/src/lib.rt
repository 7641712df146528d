//! Proposes a least assignment of a dense table of costs, read as it lies in memory.
//!
//! The method is row reduction and shortest augmenting paths (Jonker and Volgenant, 1987), in O(persons^2 * objects)
//! time at most. Where that takes long, an auction with epsilon scaling gives the prices to begin at.
//!
//! [`propose`] gives each person an object, no object twice, and each object a price at which no person should prefer
//! another object; or it leaves a person with nothing or a gap, where there should be no assignment. **Nothing is
//! proved of the proposal**, but that the search ends and reads nothing outside of the table. The caller tries a
//! proposal first, which takes one pass over the table. So the search may use sums that wrap, and needs no care for
//! overflow.
#![tactic(auto)]

mod gaps;
mod market;
mod passes;
mod paths;
mod pause;
mod phases;
mod proposal;
mod start;
mod table;

pub use pause::Pause;
pub use phases::{EPS_DIVISOR, PASSES};
pub use proposal::{Proposal, complete, propose};
pub use table::Table;
