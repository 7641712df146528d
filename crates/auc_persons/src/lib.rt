//! The shards of the persons in the distributed auction: bids of persons, and the letters that answer them. Copies of
//! prices never fall.
//!
//! The method is the auction algorithm (Bertsekas, 1979). A shard bids for its persons one at a time, each on the best
//! arc at the shard's copies of the prices, and takes the answers. It is pure code, with no mail, no lock and no
//! thread. A bid takes O(arcs of the person), a letter O(1).
//!
//! Proved: the bid is exactly that of `auc_graph` (`specs/Bid.antt`), and each call leaves exactly the state defined in
//! `specs/Persons.antt`. With a [`Bidder`] beside the shard, or beside a caller's own prices, the bids are the same and
//! found sooner ([`Bidder::bid`], [`PersonShard::next_bid_by`]).
//!
//! A short row is scanned as it is or as a sorted copy (`specs/Sorted.antt`). A longer one has a candidate list
//! (`specs/Candidates.antt`), above 256 arcs also blocks with bounds (`specs/Blocks.antt`). See `bidder/method.rt`.
#![tactic(auto)]

mod bidder;
mod bidding;
mod shard;

pub use auc_letters::{Bid, PersonState};
pub use bidder::{Bidder, lists_stay_right};
pub use bidding::{Bidding, PersonFault};
pub use shard::PersonShard;
