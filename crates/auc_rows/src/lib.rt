//! The rows of a problem, with only what a bid needs: eight bytes an arc, one row after another in one vector.
//!
//! [`FlatRows::build`] makes them in O(arcs + persons), in one pass where the arcs are in the order of their persons. A
//! caller that needs the place of an arc in the problem's list looks for it there.
//!
//! Proved: a row has the person's arcs in the order of the list, and no others. Nothing is proved of the least costs,
//! nor of whether the rows are a full table.
#![tactic(auto)]

mod arc;
mod columns;
mod rows;

pub use arc::ShortArc;
pub use columns::Columns;
pub use rows::FlatRows;
