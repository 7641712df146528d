//! Problems, and what is built from them.

ghost use Rattle.std.specs.Prelude.{◌≡◌, All, IfOk};
ghost use Rattle.auc_graph.specs.Price.{IsPrice};
ghost use Rattle.auc_phases.specs.Limits.{AreLimits};

use auc_graph::{ArcList, ReadLimits, Rows, read_arcs};
use auc_letters::MOST_SHARDS;
use auc_mail::MOST_NODES;
use auc_world::{Limits, World};
use std::test::*;

/// One person, one object.
pub const ONE: &str = "1\n1 1 -7\n";

/// Two persons, two objects; both prefer the first one.
pub const TWO: &str = "2\n1 1 1\n1 2 2\n2 1 1\n2 2 3\n";

/// Three persons, three objects.
pub const THREE: &str = "3\n1 1 4 1 2 1 1 3 3\n2 1 2 2 2 0 2 3 5\n3 1 3 3 2 2 3 3 2\n";

/// Two persons who both have an arc to the first object only.
pub const ONE_OBJECT: &str = "2\n1 1 5\n2 1 7\n";

/// The second person has no arc.
pub const NO_OBJECT: &str = "2\n1 1 1\n";

/// The problem that a text reads as.
pub fn problem_of(rt: &HostRuntime, text: &str) -> Result<ArcList, Fail> {
    Ok(read_arcs(rt.alloc(), text.as_bytes(), ReadLimits::usual())?)
}

/// The rows of the problem that a text reads as.
pub fn rows_of(rt: &HostRuntime, text: &str) -> Result<Rows, Fail> {
    Ok(Rows::build(rt.alloc(), &problem_of(rt, text)?)?)
}

/// Limits that are in range.
pub fn in_range(limits: Limits) -> Result<Limits, Fail>
    ensures { IfOk result AreLimits }
{
    if limits.shards == 0 || limits.shards > MOST_SHARDS || limits.nodes > MOST_NODES {
        return Err(Fail::new("limits out of range"));
    }
    Ok(limits)
}

/// The world of a phase at eps 1 that begins with these prices, one for each object.
pub fn world_at<'a>(
    rt: &HostRuntime,
    rows: &'a Rows,
    limits: Limits,
    prices: &[i64],
) -> Result<World<'a>, Fail>
    requires { All IsPrice prices.now }
{
    let limits = in_range(limits)?;
    if prices.len() != rows.objects() as usize {
        return Err(Fail::new("a price for each object"));
    }
    Ok(World::make(rt.alloc(), rows, &limits, prices, 1)?)
}

/// The world of a phase at eps 1 that begins with prices of 0.
pub fn world_of<'a>(rt: &HostRuntime, rows: &'a Rows, limits: Limits) -> Result<World<'a>, Fail> {
    let prices = vec![in rt.alloc(); 0; rows.objects() as usize]?;
    world_at(rt, rows, limits, prices.as_slice())
}
