//! A report of a world, as one line: its replies to the steps that it takes, and its state.
//!
//! Only the functions of this file have a world at hand: a test that has one is slow to prove.

ghost use Rattle.std.specs.Prelude.{All};
ghost use Rattle.auc_graph.specs.Price.{IsPrice};

use crate::problems::{rows_of, world_at};
use crate::rounds::{play_round, play_rounds};
use auc_letters::Held;
use auc_model::{Turn, TurnReply};
use auc_world::{Limits, World};
use std::test::*;

/// A step of a world, or a look at its state.
#[derive(Clone, Copy)]
pub enum Step {
    /// It takes a turn: reported as `m` where that moved anything, and as `.` where it didn't.
    Take(Turn),
    /// It takes a whole round of turns. Nothing is reported.
    Round,
    /// It takes whole rounds until the phase has ended. Nothing is reported.
    Rounds,
    /// Its state is reported: for each object its holder, from 1, and its price, and then the end.
    Look,
}

fn mark(reply: TurnReply) -> &'static str {
    match reply {
        TurnReply::Moved => "m",
        TurnReply::Nothing => ".",
    }
}

/// The holder, from 1, and the price of an object.
fn sale_text(rt: &HostRuntime, holder: &Option<Held>, price: i64) -> Result<String, Fail> {
    match holder {
        None => Ok(format!(in rt.alloc(); "-:{price} ")?),
        Some(held) => {
            let person = u64::from(held.person) + 1;
            Ok(format!(in rt.alloc(); "{person}:{price} ")?)
        }
    }
}

/// The state of a world.
fn stand(rt: &HostRuntime, world: &World) -> Result<String, Fail> {
    let gathered = world.gather(rt.alloc())?;
    let mut text = String::new(rt.alloc());
    for (holder, price) in gathered.holders.iter().zip(gathered.prices.iter()) {
        let sale = sale_text(rt, holder, *price)?;
        text.push_str(sale.as_str())?;
    }
    let end = world.end();
    Ok(format!(in rt.alloc(); "[{text}{end:?}]")?)
}

/// Takes a step, and reports it.
fn take(
    rt: &HostRuntime,
    world: &mut World,
    shards: u32,
    step: Step,
    line: &mut String,
) -> Result<(), Fail> {
    match step {
        Step::Take(turn) => line.push_str(mark(world.turn(turn)))?,
        Step::Round => play_round(world, shards),
        Step::Rounds => {
            let _ = play_rounds(world, shards);
        }
        Step::Look => {
            let stand = stand(rt, world)?;
            line.push_str(stand.as_str())?;
        }
    }
    Ok(())
}

/// The report of a world that begins with these prices and takes these steps.
pub fn told_at(
    rt: &HostRuntime,
    text: &str,
    limits: Limits,
    prices: &[i64],
    steps: &[Step],
) -> Result<String, Fail>
    requires { All IsPrice prices.now }
{
    let rows = rows_of(rt, text)?;
    let mut line = String::new(rt.alloc());
    let mut world = world_at(rt, &rows, limits, prices)?;
    for step in steps {
        take(rt, &mut world, limits.shards, *step, &mut line)?;
    }
    Ok(line)
}

/// The same where all prices are 0 at first.
pub fn told(rt: &HostRuntime, text: &str, limits: Limits, steps: &[Step]) -> Result<String, Fail> {
    let objects = rows_of(rt, text)?.objects();
    let prices = vec![in rt.alloc(); 0; objects as usize]?;
    told_at(rt, text, limits, prices.as_slice(), steps)
}
