//! What all drivers by messages share, whatever plays their phases: limits, eps by phases (epsilon scaling), reasons to
//! stop, and the hub.
//!
//! [`first_eps`] and [`next_eps`] say which phases there are. What comes before the first phase, and how a run ends, is
//! in `auc_answers`.
#![tactic(auto)]

mod eps;
mod hub;
mod limits;
mod reasons;

pub use auc_letters::LAST_EPS;
pub use eps::{first_eps, next_eps};
pub use hub::Hub;
pub use limits::{Limits, USUAL_BIDS, nodes_or};
pub use reasons::{reason_for, reason_to_stop};
