//! The solver and the checker over a caller's memory: what a C program holds goes in, and a status comes out.
//!
//! [`solve_call`], [`solve_by_messages_call`], [`check_call`] and [`check_hall_call`] are what the crate `sigdorf_c`
//! exports. Each says by its status which of its promises holds of what it has written. No call keeps anything after
//! its return. Of [`solve_problem`], [`put_front`] and [`tell_solved`] the crate `auc_dense` makes the call over a
//! table.
#![tactic(auto)]

mod calls;
mod checked;
mod checking;
mod codes;
mod driver;
mod found;
mod given;
mod handing;
mod picking;
mod places;
mod solved;
mod solving;
mod start;
mod status;
mod telling;

pub use auc_direct::{Onward, Pausing, Progress, Watch, ask_after};
pub use calls::{check_call, check_hall_call, solve_by_messages_call, solve_call};
pub use driver::Driver;
pub use found::Found;
pub use given::{GivenArcs, Run};
pub use handing::put_front;
pub use solved::{Failed, Solved};
pub use solving::solve_problem;
pub use start::{StartFault, prices_fault};
pub use status::{BRACKET, INFEASIBLE, INVALID, MEMORY, OPTIMAL, REFUSED, SIZES, START};
pub use telling::tell_solved;
