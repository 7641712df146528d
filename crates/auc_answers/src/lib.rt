//! What all drivers of the auction share, by messages or not: what comes before the first phase, and how a run ends.
//!
//! [`prepare`] builds the rows and finds where there is no assignment. [`finish`] makes the answer from the result of
//! the last phase, a certificate in which the checker finds no fault. What happens in between is the driver's.
#![tactic(auto)]

mod answer;
pub mod finish;
mod gathered;
mod picks;
mod placing;
mod preparing;

pub use answer::{Answer, Guard};
pub use gathered::Gathered;
pub use picks::picks_of_matching;
pub use preparing::{Prepared, prepare};
