//! The serial solver by messages: epsilon scaling over phases, each played by a machine of one shard of each kind, or
//! by the world of `auc_machine`.
//!
//! The method is the auction algorithm with epsilon scaling (Bertsekas, 1979 and 1988). A bid takes O(arcs of the
//! person).
//!
//! Proved: [`solve_serial`] answers a least-cost assignment, a Hall violator, or after a limit a bracket: a certificate
//! in which the checker finds no fault. Both ways to play a phase are schedules of the plain machine of `auc_model`, in
//! whole rounds.
#![tactic(auto)]

mod single_shard;
mod solving;

pub use auc_answers::{Answer, Gathered, Guard, Prepared, finish, picks_of_matching, prepare};
pub use auc_machine::{World, laws, play};
pub use auc_model::{End, MailName, Turn, TurnReply};
pub use auc_phases::{LAST_EPS, Limits, USUAL_BIDS, first_eps, next_eps, nodes_or};
pub use solving::{solve_serial, solve_serial_from};
