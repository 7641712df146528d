//! The job of a mail: a script is read, and its calls are made.

ghost use Rattle.auc_run.specs.Replies.{AreReplies};

use crate::input::read_all;
use crate::refusal::Refusal;
use auc_graph::MOST_READS;
use auc_script::{Replies, read_script, replies_to};
use std::alloc::Global;
use std::io::Read;

/// The replies to the calls of the script that the reader has.
pub(crate) fn replies_of<R: Read>(alloc: Global, reader: &mut R) -> Result<Replies, Refusal>
    ensures { AreReplies (R.remaining reader.old) result }
{
    let bytes = read_all(alloc, reader, MOST_READS)?;
    let script = read_script(alloc, bytes.as_slice())?;
    drop(bytes);
    let replies = replies_to(alloc, &script)?;
    Ok(replies)
}
