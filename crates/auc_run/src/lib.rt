//! The jobs of the program, over any two readers and any writer: what is written, and the status, are right for the
//! bytes that were read.
//!
//! A problem is read piece by piece, and none of its text is kept. A certificate and a script are read whole, and take
//! as much memory as they have bytes.
#![tactic(auto)]

mod claim;
mod command;
mod direct;
mod ending;
mod found;
mod hall;
mod input;
mod laws;
mod lines;
mod mail;
mod performing;
mod problem;
mod refusal;
mod report;
mod solve;
mod start;
pub mod status;
mod valid;
mod verdict;

pub use auc_direct::{Onward, Progress, Watch};
pub use auc_script::{
    Calls, MOST_CALLS, MOST_ITEM, MOST_SCRIPT_BOXES, MOST_SCRIPT_NODES, MOST_SCRIPT_POSTS, Replies,
    Script, ScriptError, read_script,
};
pub use auc_threads::{
    FreeGate, Gate, Ledgers, Mails, PhaseEnd, RunError, Solved, Trails, WorkerSeats, phase_threads,
    solve_threads, solve_threads_from,
};
pub use auc_world::USUAL_BIDS;
pub use command::{Job, MOST_BIDS};
pub use ending::Ending;
pub use found::Found;
pub use input::{ReadFault, read_all};
pub use laws::limits_are;
pub use performing::{Threading, perform, run_command, run_plain};
pub use refusal::Refusal;
pub use report::Report;
pub use valid::Valid;
