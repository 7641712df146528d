//! Hearing: a shard of the persons takes a letter.

ghost use Rattle.std.specs.Prelude.{◌≡◌, ◌<◌, slice_set};
ghost use Rattle.auc_model.specs.Hearing.{PersonTakeTurn};
ghost use Rattle.auc_persons.specs.Persons.{OnLetter};
ghost use Rattle.auc_machine.specs.Parts.{SamePhase, persons_at, phase, world_of};

use crate::world::World;
use auc_letters::Letter;
use auc_model::{End, MailName, TurnReply};
use auc_persons::PersonFault;
use auc_phases::reason_for;

impl<'a> World<'a> {
    /// A shard of the persons hears a letter.
    #[inline]
    fn hear(&mut self, shard: u32, letter: Letter) -> Result<(), PersonFault>
        requires { shard < self.old.shards }
        ensures heard { OnLetter (persons_at self.old shard) letter result (persons_at self.new shard) }
        ensures rest { self.new ≡ record self.old {
          persons = slice_set self.old.persons shard (persons_at self.new shard);
        } }
    {
        let persons = &mut self.persons[shard as usize];
        persons.on_letter(letter)
    }

    /// A shard of the persons takes a letter and hears it.
    #[inline]
    pub(crate) fn person_take(&mut self, shard: u32) -> TurnReply
        ensures turn { PersonTakeTurn (phase self.old) (world_of self.old) shard result (world_of self.new) }
        ensures phase { SamePhase self.old self.new }
    {
        if !self.is_shard(shard) {
            return TurnReply::Nothing;
        }
        let Some(letter) = self.post.take(MailName::Persons, shard) else {
            return TurnReply::Nothing;
        };
        if let Err(fault) = self.hear(shard, letter) {
            self.end_with(End::Stopped {
                why: reason_for(fault),
            });
        }
        TurnReply::Moved
    }
}
