//! The post office of a world: the outbox of each shard, and the three mails.

ghost use Rattle.std.specs.Prelude.{◌≡◌, ◌≤◌, ◌<◌, ◌+◌, ◌*◌, [], ◌∷◌, length, slice_set, All, IsTrue, ◌↔◌, IfOk};
ghost use Rattle.auc_graph.specs.declared.limits.TheConstants.{MOST_PERSONS};
ghost use Rattle.auc_mail.specs.Mail.{empty_mail};
ghost use Rattle.auc_phases.specs.Limits.{AreLimits, nodes_or};
ghost use Rattle.auc_machine.specs.Mails.{outbox_of};

mod boxes;
mod making;
mod outbox;
mod posting;

use crate::post_office::making::{new_mail, new_outboxes};
use crate::post_office::outbox::Outbox;
pub(crate) use crate::post_office::posting::Posted;
use arrayvec::ArrayVec;
use auc_letters::{Letter, Out};
use auc_mail::MailPool;
use auc_phases::{Limits, nodes_or};
use std::alloc::{AllocError, Global};
use std::marker::Model;

/// The letters of a world: an outbox for each sender, which is each shard of either kind, and three mails. The boxes of
/// the objects' and of the persons' mail are their shards; the hub's mail has one box.
///
/// Contracts see the outboxes as lists.
#[derive(Drop)]
pub(crate) struct PostOffice {
    // By sender: those of the shards of the persons, and after them those of the shards of the objects.
    outboxes: Vec<Outbox>,
    // Bids.
    objects: MailPool<Letter>,
    // Answers and prices.
    persons: MailPool<Letter>,
    hub: MailPool<Letter>,
}

impl Model for PostOffice {
    ghost use Rattle.auc_machine.specs.Mails.{Letters};

    ghost Value = { Letters };

    ghost view = { λ p. record {
      outboxes = p.outboxes.items;
      mails = record { objects = p.objects; persons = p.persons; hub = p.hub };
    } };
}

impl PostOffice {
    /// A post office with no letters, with the room that these limits give where there are `persons` persons.
    ///
    /// # Errors
    ///
    /// Only where memory was refused.
    pub(crate) fn make(
        alloc: Global,
        limits: &Limits,
        persons: u32,
    ) -> Result<PostOffice, AllocError>
        requires limits { AreLimits limits.now }
        requires persons { persons ≤ MOST_PERSONS }
        ensures outboxes { IfOk result (λ p. length p.outboxes ≡ 2 * limits.now.shards) }
        ensures empty { IfOk result (λ p. All (λ x. x ≡ []) p.outboxes) }
        ensures objects { IfOk result
            (λ p. p.mails.objects ≡ empty_mail limits.now.shards (2 * limits.now.shards + 1) (nodes_or
            limits.now.nodes persons) limits.now.posts) }
        ensures persons { IfOk result
            (λ p. p.mails.persons ≡ empty_mail limits.now.shards (2 * limits.now.shards + 1) (nodes_or
            limits.now.nodes (4 * persons)) limits.now.posts) }
        ensures hub { IfOk result
            (λ p. p.mails.hub ≡ empty_mail 1 (2 * limits.now.shards + 1) (nodes_or limits.now.nodes (persons + 2 *
            limits.now.shards)) limits.now.posts) }
    {
        let Limits {
            shards,
            posts,
            nodes,
            ..
        } = *limits;
        let objects_nodes = nodes_or(nodes, persons);
        let persons_nodes = nodes_or(nodes, 4 * persons);
        let hub_nodes = nodes_or(nodes, persons + 2 * shards);
        Ok(PostOffice {
            outboxes: new_outboxes(alloc, 2 * shards)?,
            objects: new_mail(alloc, shards, shards, objects_nodes, posts)?,
            persons: new_mail(alloc, shards, shards, persons_nodes, posts)?,
            hub: new_mail(alloc, 1, shards, hub_nodes, posts)?,
        })
    }

    /// Whether a sender has posted all its letters.
    #[inline]
    pub(crate) fn has_posted_all(&self, sender: u32) -> bool
        requires { sender < length self.now.outboxes }
        ensures { IsTrue result ↔ (outbox_of self.now sender ≡ []) }
    {
        self.outboxes[sender as usize].is_empty()
    }

    /// Puts a letter into the empty outbox of a sender.
    #[inline]
    pub(crate) fn put(&mut self, sender: u32, out: Out)
        requires known { sender < length self.old.outboxes }
        requires empty { outbox_of self.old sender ≡ [] }
        ensures { self.new ≡ record self.old { outboxes = slice_set self.old.outboxes sender (out ∷ []) } }
    {
        let outbox = &mut self.outboxes[sender as usize];
        outbox.put(out);
    }

    /// Puts letters into the outbox of a sender, in place of all that it has.
    #[inline]
    pub(crate) fn put_all(&mut self, sender: u32, letters: ArrayVec<Out, 4>)
        requires { sender < length self.old.outboxes }
        ensures { self.new ≡ record self.old { outboxes = slice_set self.old.outboxes sender letters.items } }
    {
        let outbox = &mut self.outboxes[sender as usize];
        outbox.replace(letters);
    }
}
