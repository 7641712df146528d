//! The letters between persons and objects: their content, their receivers, and their effects.
//!
//! Persons, objects, arcs and shards are numbered from 0. All types are small `Copy` values. The award rule, and the
//! shard that a letter goes to, are defined in `specs/Award.antt` and `specs/Routing.antt`.
//!
//! Proved: bids never lower a price, and an object that nobody holds after them is unchanged.
#![tactic(auto)]

mod law;
mod letter;
mod limits;
mod out;
mod state;

pub use law::{awards_raise_prices, equal_letters_are_same, limits_are};
pub use letter::{Bid, Letter, Why};
pub use limits::{LAST_EPS, MOST_EPS, MOST_SHARDS, NOBODY};
pub use out::{Out, To, shard_of};
pub use state::{Held, PersonState};
