//! Sparse assignment problems, and their reader.
//!
//! Reading takes one pass over the bytes of the text, whole or piece by piece, with no copy of it, and 16 bytes of
//! memory an arc.
//!
//! Proved: the list of arcs is exactly the problem that the text reads as. Persons, objects, tokens and arcs are
//! numbered from 0.
#![tactic(auto)]

mod arc;
mod dual;
mod front;
mod in_memory;
mod in_order;
mod indices;
mod laws;
mod layout;
mod limits;
mod line;
mod list_faults;
mod number;
mod pieces;
mod read_error;
mod reading;
mod rows;
mod spread;
mod stage;
mod tokens;
mod unfinished;

pub use arc::{Arc, ArcList};
pub use dual::{dual_bound, is_lower, lower_of};
pub use in_memory::{list_fault, objects_or};
pub use indices::Indices;
pub use laws::{
    assigned_persons_have_arcs, assignments_leave_no_price, bounds_fit, limits_are, prices_are_few,
    prices_bound_costs, slack_right_costs_least, wanted_objects_are_read,
};
pub use layout::{Kept, LaidOut, laid_out};
pub use limits::{
    MOST_ARCS, MOST_COST, MOST_OBJECTS, MOST_PERSONS, MOST_PRICE, MOST_READS, MOST_SCALE,
    TEXT_ARCS, TEXT_OBJECTS, TEXT_PERSONS,
};
pub use list_faults::ListFault;
pub use number::{Number, number_of};
pub use read_error::ReadError;
pub use reading::{ReadLimits, read_arcs, read_arcs_from};
pub use rows::{RowArc, Rows};
pub use tokens::{Token, token_at};
