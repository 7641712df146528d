//! A mail that threads share, with a trail of its calls.
//!
//! A `MailState` is a mail with its trail, for one thread. A `SharedMail` has one under a lock. Each worker calls it by
//! a `Seat`, which notes the worker's calls and their answers. `settle` ends the mail, and compares the seats with the
//! trail.
//!
//! Proved: where all seats settle, the trail is a run of the mail, and has each worker's calls in order, with the
//! answers that the worker got. A call may wait for the lock, and nothing is said of whether it ever gets it.
#![tactic(auto)]

mod bell;
mod brand;
mod error;
mod held_mail;
mod limits;
mod line;
mod locked_mail;
mod seat;
mod settling;
mod shared;
mod state;
mod trail;

pub use brand::MailBrand;
pub use error::{CallRefused, SettleError, TrailFull};
pub use held_mail::HeldMail;
pub use limits::{MOST_CALLS, MOST_ROOM};
pub use line::TrailLine;
pub use seat::Seat;
pub use shared::SharedMail;
pub use state::MailState;
pub use trail::Trail;
