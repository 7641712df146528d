//! The kernel of the direct solver: prices, holders, and all moves that change them.
//!
//! The method is the auction algorithm (Bertsekas, 1979) in its Gauss-Seidel form: a bid is an award at once. Shortest
//! augmenting paths by Dijkstra's search are moves too.
//!
//! A bid takes O(arcs of the person), or O(1) by a candidate list; a path at most O(arcs * log arcs).
//!
//! Proved: each move keeps the nine laws on [`Market`]. Nothing is proved of what a search proposes; a move tries it.
//! Which moves are made, and when, is the caller's choice. No law depends on it.
//!
//! `market.rt` has the laws and the moves between phases, `phase.rt` a phase. Chains of bids are in `turns.rt` and
//! `chain.rt`, a bid in `step.rt`, and `pace.rt` says when a search ends a chain. `path.rt` takes augmenting paths,
//! and `starts.rt` seats persons at start prices.
#![tactic(auto)]

mod augmented;
mod best;
mod bid;
mod chain;
mod ending;
mod hall;
mod halt;
mod holdings;
mod incumbent;
mod lists;
mod market;
mod pace;
mod path;
mod phase;
mod sample;
mod scan;
mod search;
mod shortlist;
mod slack;
mod starts;
mod step;
mod turns;
mod watch;

pub use auc_letters::LAST_EPS;
pub use ending::Ending;
pub use hall::HallSet;
pub use halt::Halt;
pub use holdings::Holdings;
pub use market::Market;
pub use pace::{Pace, Pacing};
pub use phase::Attempt;
pub use sample::Sample;
pub use starts::tried;
pub use watch::{Best, Progress, Watch};
