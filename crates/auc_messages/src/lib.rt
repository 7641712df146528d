//! What the program says on standard error about a job that didn't end with status 0: one sentence on one line, which
//! names the input, the place in it, what is there, what was wanted, and what to do; of a file in another form that
//! is known, which form it is. And which words ask for a page about the program in place of a job.
#![tactic(auto)]

mod forms;
mod naming;
mod pages;
mod phrases;
mod remark;
mod shown;
mod spot;
mod texts;
mod writing;

pub use naming::write_name;
pub use pages::{Page, page_of};
pub use remark::{Remark, remark_at, remark_of};
pub use spot::{Spot, Subject};
pub use writing::write_remark;
