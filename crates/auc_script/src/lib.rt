//! Scripts of a mail: their text is read, their calls are made on a new mail, and the replies are written. Reading
//! takes O(length) time.
//!
//! Proved: by [`replies_to`] each box returns, of a sender's items, a prefix of what that sender posted, and accepts
//! nothing after a close.
#![tactic(auto)]

mod command_word;
mod replies;
mod script;
mod script_error;
mod script_reading;

pub use replies::{Replies, replies_to, write_replies};
pub use script::{
    Calls, MOST_CALLS, MOST_ITEM, MOST_SCRIPT_BOXES, MOST_SCRIPT_NODES, MOST_SCRIPT_POSTS, Script,
};
pub use script_error::ScriptError;
pub use script_reading::read_script;
