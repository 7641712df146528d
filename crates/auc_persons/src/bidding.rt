//! The result of a question for a bid, and of a letter.

use auc_letters::{Out, Why};

/// The result of a question for the next bid.
#[derive(Clone, Copy, Debug, PartialEq, Eq)]
pub enum Bidding {
    /// Nobody is free.
    Idle,
    /// The person who has been free longest can't bid, for this reason: Bids, Stuck or Ceiling.
    Stop { why: Why },
    /// The person's bid, to be posted; the person waits for its answer.
    Out { out: Out },
}

/// The reason why a letter is refused.
#[derive(Clone, Copy, Debug, PartialEq, Eq)]
pub enum PersonFault {
    /// The letter doesn't fit.
    Stray,
    /// The letter fits, and its price is below the copy.
    Fell,
}
