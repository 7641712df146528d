//! Posting: the first letter of an outbox goes into its mail.

ghost use Rattle.std.specs.Prelude.{◌≡◌, ◌<◌, length, IfSome, IfNone};
ghost use Rattle.auc_mail.specs.Step.{Fits, Step, reply_to_post};
ghost use Rattle.auc_letters.specs.declared.out.Out.{Out};
ghost use Rattle.auc_phases.specs.Boxes.{name_of};
ghost use Rattle.auc_machine.specs.Mails.{with_named};
ghost use Rattle.auc_machine.specs.Posting.{Leaves, Posts, StandsFirst, Stays, mail_for, post_of};

use crate::post_office::PostOffice;
use auc_letters::{Out, To, Why};
use auc_mail::PostRefused;
use auc_phases::reason_to_stop;

/// The outcome of a post of the first letter of an outbox.
#[derive(Clone, Copy)]
pub(crate) enum Posted {
    /// There was no letter.
    Nothing,
    /// The letter has left the outbox: it waits in its mail, or was refused there and may be dropped.
    Left,
    /// It was refused and stays in the outbox, so the phase has to end, for this reason.
    Stays { why: Why },
}

impl PostOffice {
    /// Posts the first letter of a sender's outbox, if there is one. Inlined, since in a round an outbox is nearly
    /// always empty.
    #[inline]
    pub(crate) fn post_first(&mut self, sender: u32) -> Posted
        requires known { sender < length self.old.outboxes }
        requires fits { (o : Out) → StandsFirst self.old sender o → Fits (mail_for self.old.mails o)
            (post_of sender o) }
        ensures { Posts self.old sender result self.new }
    {
        match self.outboxes[sender as usize].first() {
            None => Posted::Nothing,
            Some(out) => self.post_out(sender, out),
        }
    }

    /// Posts this letter, the first of a sender's outbox.
    fn post_out(&mut self, sender: u32, out: Out) -> Posted
        requires known { sender < length self.old.outboxes }
        requires first { StandsFirst self.old sender out }
        requires fits { Fits (mail_for self.old.mails out) (post_of sender out) }
        ensures { Posts self.old sender result self.new }
    {
        match self.try_post(sender, out) {
            None => {
                let outbox = &mut self.outboxes[sender as usize];
                outbox.drop_first();
                Posted::Left
            }
            Some(why) => Posted::Stays { why },
        }
    }

    /// Posts a letter. Returns why it has to stay in its outbox, where it is refused and has to.
    #[inline]
    fn try_post(&mut self, sender: u32, out: Out) -> Option<Why>
        requires { Fits (mail_for self.old.mails out) (post_of sender out) }
        ensures leaves { IfNone result (Leaves self.old.mails sender out self.new.mails) }
        ensures stays { IfSome result (Stays self.old.mails sender out) }
        ensures same { IfSome result (λ why. self.new ≡ self.old) }
        ensures rest { self.new ≡ record self.old { mails = self.new.mails } }
    {
        match self.post(sender, out) {
            Ok(_) => None,
            Err(refused) => reason_to_stop(refused, out.letter),
        }
    }

    /// Posts a letter into the mail that it goes to.
    #[inline]
    fn post(&mut self, sender: u32, out: Out) -> Result<u64, PostRefused>
        requires { Fits (mail_for self.old.mails out) (post_of sender out) }
        ensures step { Step (mail_for self.old.mails out) (post_of sender out) (reply_to_post result)
            (mail_for self.new.mails out) }
        ensures rest { self.new ≡ record self.old {
          mails = with_named self.old.mails (name_of out.to) (mail_for self.new.mails out);
        } }
    {
        match out.to {
            To::Person { shard } => self.persons.post(sender, shard, out.letter, out.reserve),
            To::Object { shard } => self.objects.post(sender, shard, out.letter, out.reserve),
            To::Hub => self.hub.post(sender, 0, out.letter, out.reserve),
        }
    }
}
