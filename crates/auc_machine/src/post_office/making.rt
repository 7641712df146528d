//! The parts of a new post office.

ghost use Rattle.std.specs.Prelude.{◌≡◌, ◌≤◌, ◌+◌, ◌*◌, [], length, All, IfOk};
ghost use Rattle.auc_mail.specs.Mail.{empty_mail};

use crate::post_office::outbox::Outbox;
use auc_letters::Letter;
use auc_mail::MailPool;
use std::alloc::{AllocError, Global};

/// This many empty outboxes.
pub(crate) fn new_outboxes(alloc: Global, count: u32) -> Result<Vec<Outbox>, AllocError>
    ensures many { IfOk result (λ v. length v.items ≡ count) }
    ensures each { IfOk result (λ v. All (λ x. x ≡ []) v.items) }
{
    let mut made = Vec::with_capacity(alloc, count as usize)?;
    for _outbox in 0..count {
        made.push(Outbox::new())?;
    }
    Ok(made)
}

/// A mail with no letters, from the shards of both kinds and the hub.
pub(crate) fn new_mail(
    alloc: Global,
    boxes: u32,
    shards: u32,
    nodes: u32,
    posts: u64,
) -> Result<MailPool<Letter>, AllocError>
    requires boxes { boxes ≤ 16 }
    requires shards { shards ≤ 16 }
    requires nodes { nodes ≤ 16777216 }
    ensures { IfOk result (λ mail. mail ≡ empty_mail boxes (2 * shards + 1) nodes posts) }
{
    let blank = Letter::First { object: 0 };
    // All numbers are in range, so only memory can be refused.
    match MailPool::make(alloc, boxes, 2 * shards + 1, nodes, posts, blank) {
        Ok(mail) => Ok(mail),
        Err(_) => Err(AllocError),
    }
}
