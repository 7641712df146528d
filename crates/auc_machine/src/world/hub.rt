//! The hub of a world: it takes letters, and closes boxes once the phase has ended.

ghost use Rattle.std.specs.Prelude.{◌↔◌, IsTrue};
ghost use Rattle.auc_model.specs.Hub.{HubCloseTurn, HubTakeTurn};
ghost use Rattle.auc_machine.specs.Mails.{named};
ghost use Rattle.auc_machine.specs.Parts.{IsOpenBox, SamePhase, phase, world_of};

use crate::world::World;
use auc_model::{MailName, TurnReply};

impl<'a> World<'a> {
    /// Whether there is such a box, and it is open.
    #[inline]
    fn is_open(&self, mail: MailName, at: u32) -> bool
        ensures { IsTrue result ↔ IsOpenBox (named self.now.mails mail) at }
    {
        let boxes = match mail {
            MailName::Objects | MailName::Persons => self.shards,
            MailName::Hub => 1,
        };
        at < boxes && self.post.is_open(mail, at)
    }

    /// The hub takes a letter and hears it.
    #[inline]
    pub(crate) fn hub_take(&mut self) -> TurnReply
        ensures turn { HubTakeTurn (phase self.old) (world_of self.old) result (world_of self.new) }
        ensures phase { SamePhase self.old self.new }
    {
        let Some(letter) = self.post.take(MailName::Hub, 0) else {
            return TurnReply::Nothing;
        };
        self.hub.hear(letter, self.rows.persons());
        TurnReply::Moved
    }

    /// The hub closes a box, once the phase has ended.
    pub(crate) fn hub_close(&mut self, mail: MailName, at: u32) -> TurnReply
        ensures turn { HubCloseTurn (world_of self.old) mail at result (world_of self.new) }
        ensures phase { SamePhase self.old self.new }
    {
        if self.end().is_none() || !self.is_open(mail, at) {
            return TurnReply::Nothing;
        }
        self.post.close(mail, at);
        TurnReply::Moved
    }
}
