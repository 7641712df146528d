//! The solver over a table in a caller's memory: [`solve_table_call`] is what the crate `sigdorf_c` exports for it.
//!
//! A search over the table comes first, and what it proposes is tried. Mostly that is an answer, a least assignment or
//! that there is none; or an assignment and a bound, where a limit has ended the search. Else the table's arcs are
//! written out, and `auc_call` solves them. The statuses are those of `auc_call`.
#![tactic(auto)]

mod bidding;
mod bounding;
mod given;
mod handing;
mod naming;
mod quick;
mod reaching;
mod shortage;
mod table;
mod table_call;
mod table_solving;
mod trying;

pub use given::GivenTable;
pub use table::arcs_are_entries;
pub use table_call::solve_table_call;
