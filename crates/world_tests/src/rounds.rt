//! Whole rounds of turns.

use auc_model::{End, Turn};
use auc_world::World;

/// More rounds than any phase of these tests takes.
const MOST_ROUNDS: u32 = 5000;

/// One whole round, with this number of shards of each kind.
pub fn play_round(world: &mut World, shards: u32) {
    for shard in 0..shards {
        let _ = world.turn(Turn::Bid { shard });
        let _ = world.turn(Turn::PersonPost { shard });
    }
    for shard in 0..shards {
        let _ = world.turn(Turn::ObjectTake { shard });
        let _ = world.turn(Turn::ObjectPost { shard });
        let _ = world.turn(Turn::ObjectPost { shard });
    }
    for shard in 0..shards {
        let _ = world.turn(Turn::PersonTake { shard });
    }
    let _ = world.turn(Turn::HubTake);
}

/// Whole rounds until the phase has ended; returns how.
pub fn play_rounds(world: &mut World, shards: u32) -> Option<End> {
    for _ in 0..MOST_ROUNDS {
        if world.end().is_some() {
            break;
        }
        play_round(world, shards);
    }
    world.end()
}
