//! Mailboxes with a lane for each sender.
//!
//! A call changes the mail by one step (`specs/Step.antt`). A script of calls is a run of such steps. A post takes O(1)
//! time, a take O(senders) at most.
//!
//! Proved: what a box hands out of one sender's letters is a prefix of what that sender posted there, and a closed box
//! accepts nothing more. A run of calls keeps both laws.
#![tactic(auto)]

mod boxes;
mod call;
mod equality;
mod error;
mod laws;
mod limits;
mod pool;
mod script;

pub use auc_nodes::MOST_NODES;
pub use call::{Call, PostRefused, Reply, Taken};
pub use equality::{same_call, same_reply, same_taken};
pub use error::MailError;
pub use laws::{
    calls_of_a_run_fit, closed_box_accepts_nothing, lanes_keep_their_order,
    only_the_sender_is_free, runs_keep_mails_sound,
};
pub use limits::{MOST_BOXES, MOST_LANES, MOST_SENDERS};
pub use pool::MailPool;
pub use script::run_script;
