//! Long schedules of all kinds of turns, mixed without any order.

ghost use Rattle.std.specs.Prelude.{◌≡◌, ◌≤◌};

use crate::numbers::Numbers;
use crate::problems::{THREE, TWO, in_range, problem_of, world_of};
use crate::rounds::play_rounds;
use auc_claim::CertParts;
use auc_graph::{ArcList, Rows};
use auc_letters::Held;
use auc_model::{End, MailName, Turn};
use auc_world::finish::optimal;
use auc_world::{Answer, Limits, World, solve_serial};
use std::test::*;

/// The number of turns of a schedule before the whole rounds.
const TURNS: u32 = 600;

/// The holders and the prices are checked each time after this number of turns.
const LOOK: u32 = 20;

/// The number of kinds of turns.
const KINDS: u32 = 8;

/// One person has a single object, by two arcs.
const ONE_BY_TWO: &str = "2\n1 1 4 1 1 2\n2 1 0 2 2 5\n";

/// Costs below 0, an arc twice, and two least-cost assignments.
const BELOW_0: &str = "3\n1 1 -5 1 1 -6 1 2 4\n2 1 -6 2 2 3 2 3 0\n3 3 -2 3 1 -9\n";

/// Three persons fight for two objects, and another object costs the loser much more.
const FIGHT: &str =
    "4\n1 1 0 1 2 1 1 3 20\n2 1 1 2 2 0 2 4 25\n3 1 0 3 3 15 3 4 14\n4 2 0 4 4 30 4 1 2\n";

/// The next turn: in about one of four cases its shard or its object doesn't exist. Never one of the starved kind, if
/// there is such a kind. All numbers are drawn first.
fn next_turn(numbers: &mut Numbers, shards: u32, starved: u32) -> Turn
    requires { shards ≤ 16 }
{
    let shard = numbers.below(shards + 1);
    let to = numbers.below(shards + 1);
    let kind = kind_of(numbers.below(KINDS), starved);
    let object = numbers.below(5);
    let mail = mail_of(numbers.below(3));
    turn_of(kind, shard, object, to, mail)
}

/// The kind that was drawn, or the one after it where that one is starved.
fn kind_of(drawn: u32, starved: u32) -> u32 {
    if drawn == starved {
        drawn.wrapping_add(1) % KINDS
    } else {
        drawn
    }
}

fn turn_of(kind: u32, shard: u32, object: u32, to: u32, mail: MailName) -> Turn {
    match kind {
        0 => Turn::Bid { shard },
        1 => Turn::PersonPost { shard },
        2 => Turn::PersonTake { shard },
        3 => Turn::ObjectTake { shard },
        4 => Turn::ObjectPost { shard },
        5 => Turn::HubTake,
        6 => Turn::Tell { shard, object, to },
        _ => Turn::HubClose { mail, at: shard },
    }
}

fn mail_of(number: u32) -> MailName {
    match number {
        0 => MailName::Objects,
        1 => MailName::Persons,
        _ => MailName::Hub,
    }
}

/// How many objects a person holds.
fn held_by(holders: &[Option<Held>], person: u32) -> u32 {
    let mut held = 0u32;
    for holder in holders {
        if let Some(other) = holder {
            if other.person == person {
                held = held.saturating_add(1);
            }
        }
    }
    held
}

/// Whether a person holds two objects.
fn holds_two(holders: &[Option<Held>]) -> bool {
    for holder in holders {
        if let Some(held) = holder {
            if held_by(holders, held.person) > 1 {
                return true;
            }
        }
    }
    false
}

/// Whether a price is below what it was.
fn has_fallen(before: &[i64], after: &[i64]) -> bool {
    for place in 0..before.len().min(after.len()) {
        if after[place] < before[place] {
            return true;
        }
    }
    false
}

/// The cost of a least assignment, if this is the certificate of one.
fn least_cost(answer: &Answer) -> Option<i64> {
    let Answer::Optimal(cert) = answer else {
        return None;
    };
    match cert.parts() {
        CertParts::Optimal { cost, .. } => Some(*cost),
        CertParts::Infeasible { .. } | CertParts::Bracket { .. } => None,
    }
}

/// Whether the phase goes on or has sold everything: no limit and no guard has ended it.
fn is_well(world: &World) -> bool {
    matches!(world.end(), None | Some(End::All))
}

/// Takes some turns; returns whether all was well after each.
fn takes_well(world: &mut World, shards: u32, starved: u32, numbers: &mut Numbers) -> bool
    requires { shards ≤ 16 }
{
    for _ in 0..LOOK {
        let _ = world.turn(next_turn(numbers, shards, starved));
        if !is_well(world) {
            return false;
        }
    }
    true
}

/// Takes a mixed schedule of turns; returns whether all was well: no price has fallen, and nobody held two objects.
fn plays_well(
    rt: &HostRuntime,
    world: &mut World,
    shards: u32,
    starved: u32,
    numbers: &mut Numbers,
) -> Result<bool, Fail>
    requires { shards ≤ 16 }
{
    let mut before = world.gather(rt.alloc())?;
    for _ in 0..TURNS / LOOK {
        let went_on = takes_well(world, shards, starved, numbers);
        let now = world.gather(rt.alloc())?;
        let has_fallen = has_fallen(before.prices.as_slice(), now.prices.as_slice());
        if !went_on || has_fallen || holds_two(now.holders.as_slice()) {
            return Ok(false);
        }
        before = now;
    }
    Ok(true)
}

/// Takes a mixed schedule from the start of a phase, and whole rounds from there. Returns the cost of the holders then,
/// if all was well and the checker finds that nothing costs less.
fn cost_after(
    rt: &HostRuntime,
    problem: &ArcList,
    shards: u32,
    starved: u32,
    numbers: &mut Numbers,
) -> Result<Option<i64>, Fail>
    requires { shards ≤ 16 }
{
    let rows = Rows::build(rt.alloc(), problem)?;
    let mut world = world_of(rt, &rows, Limits::usual(shards))?;
    let was_well = plays_well(rt, &mut world, shards, starved, numbers)?;
    if !was_well || play_rounds(&mut world, shards) != Some(End::All) {
        return Ok(None);
    }
    let answer = optimal(rt.alloc(), problem, world.gather(rt.alloc())?)?;
    Ok(least_cost(&answer))
}

/// The cost of the serial solver's assignment.
fn serial_cost(rt: &HostRuntime, problem: &ArcList) -> Result<Option<i64>, Fail> {
    let answer = solve_serial(rt.alloc(), problem, &in_range(Limits::usual(1))?)?;
    Ok(least_cost(&answer))
}

/// Whether schedules of each kind lead to an assignment of this cost.
fn all_cost(
    rt: &HostRuntime,
    problem: &ArcList,
    shards: u32,
    numbers: &mut Numbers,
    cost: i64,
) -> Result<bool, Fail>
    requires { shards ≤ 16 }
{
    for starved in 0..KINDS + 1 {
        if cost_after(rt, problem, shards, starved, numbers)? != Some(cost) {
            return Ok(false);
        }
    }
    Ok(true)
}

/// Whether schedules with up to three shards of each kind lead to assignments of this cost, as the serial solver does.
fn cost_this(rt: &HostRuntime, numbers: &mut Numbers, text: &str, cost: i64) -> Result<bool, Fail> {
    let problem = problem_of(rt, text)?;
    let one = all_cost(rt, &problem, 1, numbers, cost)?;
    let two = all_cost(rt, &problem, 2, numbers, cost)?;
    let three = all_cost(rt, &problem, 3, numbers, cost)?;
    let serial = serial_cost(rt, &problem)?;
    Ok(one && two && three && serial == Some(cost))
}

/// Whatever was played before, whole rounds lead to a least assignment from there.
#[test]
fn mixed_schedules(rt: HostRuntime) -> Result<(), Fail> {
    let mut numbers = Numbers::new(2026);
    assert!(rt; cost_this(&rt, &mut numbers, TWO, 3)?);
    assert!(rt; cost_this(&rt, &mut numbers, THREE, 5)?);
    assert!(rt; cost_this(&rt, &mut numbers, ONE_BY_TWO, 7)?);
    assert!(rt; cost_this(&rt, &mut numbers, BELOW_0, -5)?);
    assert!(rt; cost_this(&rt, &mut numbers, FIGHT, 35)?);
    Ok(())
}
