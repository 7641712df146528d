//! Schedules of turns.

ghost use Rattle.std.specs.Prelude.{ℕ, ◌≡◌, ◌≤ℤ◌};
ghost use Rattle.auc_model.specs.Schedule.{Reached, Schedule};
ghost use Rattle.auc_machine.specs.Making.{KeepsUnheld};
ghost use Rattle.auc_machine.specs.Parts.{phase, world_of};

use crate::world::World;
use auc_model::Turn;

/// Takes these turns, one after another, whatever each reply is. No copy of a price falls. Takes the time of its turns,
/// and no memory.
pub fn play(world: &mut World, turns: &[Turn])
    ensures schedule { Schedule (phase world.old) (world_of world.old) turns.now (world_of world.new) }
    ensures phase { phase world.new ≡ phase world.old }
    ensures reached { Reached (phase world.old) (world_of world.old) → Reached (phase world.new) (world_of world.new) }
    ensures unheld { KeepsUnheld world.old world.new }
    ensures copies { (s j : ℕ) → (world_of world.old).copy s j ≤ℤ (world_of world.new).copy s j }
{
    for turn in turns {
        let _ = world.turn(*turn);
    }
}
