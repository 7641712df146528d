//! Worlds of several shards.

ghost use Rattle.std.specs.Prelude.{◌≡◌, IfOk};
ghost use Rattle.auc_phases.specs.Begins.{ArePrices};
ghost use Rattle.auc_threads.specs.Naming.{AreThreadLimits};

use crate::marks::refuse_one;
use crate::problems::{THREE, problem_of};
use crate::same::assert_same;
use auc_book::MOST_ROOM;
use auc_graph::Rows;
use auc_letters::MOST_SHARDS;
use auc_mail::MOST_NODES;
use auc_world::{Limits, World};
use std::alloc::{AllocError, Global};
use std::test::*;

/// The usual limits, with these numbers of shards of each kind and of places in each trail.
pub fn limits_of(shards: u32, audit: u32) -> Result<Limits, Fail>
    ensures range { IfOk result AreThreadLimits }
    ensures shards { IfOk result (λ l. l.shards ≡ shards) }
{
    let limits = Limits {
        audit,
        ..Limits::usual(shards)
    };
    if shards == 0 || shards > MOST_SHARDS || audit > MOST_ROOM || limits.nodes > MOST_NODES {
        return Err(Fail::new("limits out of range"));
    }
    Ok(limits)
}

/// Whether a new world goes on and has the prices that it was made with.
fn gathers(alloc: Global, rows: &Rows, limits: &Limits, prices: &[i64]) -> Result<bool, AllocError>
    requires limits { AreThreadLimits limits.now }
    requires prices { ArePrices rows.now prices.now }
{
    let world = World::make(alloc, rows, limits, prices, 1)?;
    let gathered = world.gather(alloc)?;
    Ok(world.end().is_none() && gathered.prices.as_slice() == prices)
}

/// A world, and the holders and prices gathered of it. Where memory was refused, another one is made.
#[test]
fn worlds(rt: HostRuntime) -> Result<(), Fail> {
    let rows = Rows::build(rt.alloc(), &problem_of(rt.alloc(), THREE)?)?;
    let limits = limits_of(2, 0)?;
    let prices = vec![in rt.alloc(); 0; rows.objects() as usize]?;
    let prices = prices.as_slice();
    let mark = refuse_one(rt.alloc())?;
    let mut stands = gathers(rt.alloc(), &rows, &limits, prices);
    drop(mark);
    if stands.is_err() {
        stands = gathers(rt.alloc(), &rows, &limits, prices);
    }
    assert_same(&rt, stands, Ok(true));
    Ok(())
}
