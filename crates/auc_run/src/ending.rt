//! How a job ended.

use crate::refusal::Refusal;
use auc_claim::Reason;

/// How a job ended, beside what it wrote.
#[derive(Clone, Copy, Debug, PartialEq, Eq)]
pub struct Ending {
    /// One of [`crate::status`].
    pub status: u8,
    /// Why the job was refused, where it was; also where the line that says so was not written.
    pub refusal: Option<Refusal>,
    /// Which limit ended the search, where the answer is an assignment and a bound; also where it was not written.
    pub reason: Option<Reason>,
}
