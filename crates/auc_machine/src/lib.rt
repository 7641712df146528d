//! The world of one phase: shards of persons and of objects, a post office for their letters, and a hub.
//!
//! It has any number of shards, and takes its turns in any order ([`play`]) or in whole rounds. A bid takes O(arcs of
//! the person). No turn takes memory: only what makes a world or gathers its holders does.
//!
//! Proved: each turn of a [`World`] is one of the plain machine of `auc_model`, so the laws of every schedule hold of
//! this code ([`laws`]).
#![tactic(auto)]

pub mod laws;
mod making;
mod playing;
mod post_office;
mod world;

pub use making::new_bidders;
pub use playing::play;
pub use world::World;
