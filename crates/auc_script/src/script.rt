//! Scripts: a mail, and the calls that are made on it.

ghost use Rattle.std.specs.Prelude.{◌≡◌};

use auc_mail::Call;
use std::marker::Model;

/// The greatest number of boxes of a script's mail, and of senders.
pub const MOST_SCRIPT_BOXES: u32 = 1_000;

/// The greatest number of letters that may wait in a script's mail, and the greatest reserve of a post.
pub const MOST_SCRIPT_NODES: u32 = 1_000_000;

/// The greatest number of posts of a lane of a script's mail.
pub const MOST_SCRIPT_POSTS: i64 = 1_000_000_000_000;

/// The greatest magnitude of an item.
pub const MOST_ITEM: i64 = 1_000_000_000_000_000_000;

/// The greatest number of calls of a script.
pub const MOST_CALLS: u32 = 1_000_000;

/// The calls of a script, in order. Contracts see them as a list.
#[derive(Debug, Drop)]
pub struct Calls {
    calls: Vec<Call<i64>>,
}

impl Model for Calls {
    ghost use Rattle.std.specs.Prelude.{List, ℤ};
    ghost use Rattle.auc_mail.specs.declared.call.Call.{Call};

    ghost Value = { List (Call ℤ) };

    ghost view = { λ a. a.calls.items };
}

impl Calls {
    /// These calls. Takes no memory.
    pub fn new(calls: Vec<Call<i64>>) -> Self
        ensures { result ≡ calls.items }
    {
        Calls { calls }
    }

    /// The calls, in order.
    pub fn as_slice(&self) -> &[Call<i64>]
        ensures { result.now ≡ self.now }
    {
        self.calls.as_slice()
    }
}

/// A mail with these numbers of boxes, senders, waiting letters and posts for each lane, and the calls that are made on
/// it. Boxes and senders of the calls are numbered from 0.
#[derive(Debug, Drop)]
pub struct Script {
    pub boxes: u32,
    pub senders: u32,
    pub nodes: u32,
    pub most: u64,
    pub calls: Calls,
}
