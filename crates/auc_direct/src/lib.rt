//! The direct solver: which move of the market is made when, and the answer that comes of it.
//!
//! [`solve_direct`] answers as `auc_world::solve_serial` does, with no shards, letters or mails: by certificates in
//! which the checker finds no fault.
//!
//! The method is the Gauss-Seidel auction with epsilon scaling (Bertsekas, 1979; Bertsekas and Eckstein, 1988).
//! Shortest augmenting paths (Edmonds and Karp, 1972) and column reduction (Jonker and Volgenant, 1987) speed it up. A
//! bid takes O(arcs of the person), a path at most O(arcs * log arcs).
//!
//! Proved: what each answer says, and that no phase makes more bids than it may. Not proved: speed, or that a path is
//! taken at all.
//!
//! `run.rt` makes moves of an [`auc_market::Market`]; `rules.rt` and `tuning.rt` choose which, and no answer depends on
//! these two. A run begins in `reduce.rt` and `adopt.rt`; `solving.rt` makes an answer of its result.
#![tactic(auto)]

mod adopt;
mod eps;
mod gathering;
mod onward;
mod pausing;
mod reduce;
mod rules;
mod run;
mod solving;
mod tuning;

pub use auc_market::{Best, Progress, Watch};
pub use onward::Onward;
pub use pausing::{Pausing, ask_after};
pub use solving::{
    DirectLimits, may_start, solve_direct, solve_direct_from, solve_direct_watched,
    solve_direct_watched_from,
};
