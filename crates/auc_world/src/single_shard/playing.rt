//! A phase with one shard of each kind, played from its beginning to its end.

ghost use Rattle.std.specs.Prelude.{◌≡◌, IfOk};
ghost use Rattle.auc_letters.specs.Price.{IsEps};
ghost use Rattle.auc_phases.specs.Begins.{ArePrices};
ghost use Rattle.auc_phases.specs.Limits.{AreLimits};
ghost use Rattle.auc_answers.specs.Prepared.{NobodyStuck};
ghost use Rattle.auc_world.specs.SinglePhase.{MayPlaySingleShard};
ghost use Rattle.auc_machine.specs.Lists.{MayKeep};
ghost use Rattle.auc_world.specs.Phases.{ComesOf, StayKept};

use crate::single_shard::kept::SingleShard;
use crate::single_shard::rounds::Played;
use crate::single_shard::task::Task;
use crate::solving::Outcome;
use auc_graph::Rows;
use auc_persons::Bidder;
use auc_phases::Limits;
use std::alloc::{AllocError, Global};

/// Plays a phase in whole rounds by the single-shard machine, where it may. Where all is sold, the bidder is kept for
/// the next phase.
///
/// Takes 68 bytes of memory for each person and 24 for each object, and the holders and prices that it leaves.
///
/// # Errors
///
/// Only where memory was refused.
pub(crate) fn play_single_shard(
    alloc: Global,
    rows: &Rows,
    limits: &Limits,
    prices: &[i64],
    eps: i64,
    bidders: &mut Vec<Bidder>,
) -> Result<Outcome, AllocError>
    requires limits { AreLimits limits.now }
    requires single_shard { MayPlaySingleShard limits.now }
    requires prices { ArePrices rows.now prices.now }
    requires eps { IsEps eps }
    requires arcs { NobodyStuck rows.now }
    requires kept { MayKeep rows.now limits.now.shards prices.now bidders.old.items }
    ensures comes { IfOk result (ComesOf rows.now limits.now prices.now eps) }
    ensures kept { IfOk result (StayKept rows.now limits.now.shards bidders.new.items) }
{
    let task = Task::new(rows, limits, prices, eps);
    let begun = SingleShard::make(alloc, &task)?;
    let bidder = &mut bidders[0];
    let Played { world, stopped } = begun.run(&task, bidder);
    let gathered = world.gather(alloc)?;
    match stopped {
        None => Ok(Outcome::Sold(gathered)),
        Some(reason) => Ok(Outcome::Stopped { reason, gathered }),
    }
}
