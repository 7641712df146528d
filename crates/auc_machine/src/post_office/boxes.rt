//! The boxes of a post office: a letter is taken out of one, and one is closed.

ghost use Rattle.std.specs.Prelude.{◌≡◌, true, IsTrue, ◌↔◌, IfSome, IfNone};
ghost use Rattle.auc_mail.specs.Mail.{HasBox, IsOpen};
ghost use Rattle.auc_mail.specs.Step.{Step};
ghost use Rattle.auc_mail.specs.declared.call.Call.{Call};
ghost use Rattle.auc_mail.specs.declared.call.Reply.{Reply};
ghost use Rattle.auc_model.specs.Mails.{TakesNone};
ghost use Rattle.auc_machine.specs.Mails.{TakesOne, named, with_named};

use crate::post_office::PostOffice;
use auc_letters::Letter;
use auc_mail::Taken;
use auc_model::MailName;

impl PostOffice {
    /// Takes a letter out of a box, if one waits there.
    #[inline]
    pub(crate) fn take(&mut self, mail: MailName, at: u32) -> Option<Letter>
        requires { HasBox (named self.old.mails mail) at }
        ensures some { IfSome result (λ l. TakesOne (named self.old.mails mail) at l (named self.new.mails mail)) }
        ensures none { IfNone result (TakesNone (named self.old.mails mail) at) }
        ensures still { IfNone result (self.new ≡ self.old) }
        ensures rest { self.new ≡ record self.old {
          mails = with_named self.old.mails mail (named self.new.mails mail);
        } }
    {
        match self.taken(mail, at) {
            Taken::Letter { item, .. } => Some(item),
            Taken::Empty => None,
            Taken::Over => None,
        }
    }

    /// The result of a take from a box.
    #[inline]
    fn taken(&mut self, mail: MailName, at: u32) -> Taken<Letter>
        requires { HasBox (named self.old.mails mail) at }
        ensures step { Step (named self.old.mails mail) (Call.Take at) (Reply.Took result) (named self.new.mails mail) }
        ensures rest { self.new ≡ record self.old {
          mails = with_named self.old.mails mail (named self.new.mails mail);
        } }
    {
        match mail {
            MailName::Objects => self.objects.take(at),
            MailName::Persons => self.persons.take(at),
            MailName::Hub => self.hub.take(at),
        }
    }

    /// Whether a box is open.
    #[inline]
    pub(crate) fn is_open(&self, mail: MailName, at: u32) -> bool
        requires { HasBox (named self.now.mails mail) at }
        ensures { IsTrue result ↔ IsOpen (named self.now.mails mail) at }
    {
        match mail {
            MailName::Objects => !self.objects.is_closed(at),
            MailName::Persons => !self.persons.is_closed(at),
            MailName::Hub => !self.hub.is_closed(at),
        }
    }

    /// Closes a box that is open.
    #[inline]
    pub(crate) fn close(&mut self, mail: MailName, at: u32)
        requires known { HasBox (named self.old.mails mail) at }
        requires open { IsOpen (named self.old.mails mail) at }
        ensures step { Step (named self.old.mails mail) (Call.Close at) (Reply.WasOpen true)
            (named self.new.mails mail) }
        ensures rest { self.new ≡ record self.old {
          mails = with_named self.old.mails mail (named self.new.mails mail);
        } }
    {
        let _ = match mail {
            MailName::Objects => self.objects.close(at),
            MailName::Persons => self.persons.close(at),
            MailName::Hub => self.hub.close(at),
        };
    }
}
