//! The solver by messages in threads: a thread for each shard of the persons and of the objects, over three mails that
//! they share.
//!
//! The method is the auction algorithm with epsilon scaling (Bertsekas, 1979 and 1988), with shards that bid at copies
//! of prices. A bid takes O(arcs of the person).
//!
//! Proved: each claim in an answer of [`solve_threads`] has passed the checker. Nothing is said of whether a phase
//! ends.
#![tactic(auto)]

mod bidding;
mod calls;
mod dealing;
mod error;
mod gate;
mod gathering;
mod hearing;
mod hub;
mod mails;
mod object_threads;
mod object_worker;
mod person_threads;
mod person_worker;
mod phase;
mod running;
mod saying;
mod settling;
mod solving;
mod stopping;
mod task;
mod verdict;

pub use error::RunError;
pub use gate::{FreeGate, Gate};
pub use mails::{Ledgers, Mails, WorkerSeats};
pub use phase::{PhaseEnd, phase_threads};
pub use settling::Trails;
pub use solving::{Solved, solve_threads, solve_threads_from};
pub use verdict::{Verdict, verdict_of};
