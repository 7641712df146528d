//! The shards of the objects in the distributed auction: prices, holders, and the answers to bids.
//!
//! A shard sells its objects one bid at a time, by the award rule. It is pure code, with no mail, no lock and no
//! thread. A bid takes O(1). The rule and its letters are defined in `auc_letters` (`specs/Award.antt`).
//!
//! Proved: a bid leaves exactly the state and the letters of the award.
#![tactic(auto)]

mod answers;
mod law;
mod packed_sale;
mod shard;

pub use answers::Answers;
pub use auc_letters::{Bid, Held};
pub use law::letters_sell_by_their_bids;
pub use shard::ObjectShard;
