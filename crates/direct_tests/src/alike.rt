//! Random problems: the claim of the direct solver is that of the solver by messages.

ghost use Rattle.std.specs.Prelude.{IfOk};
ghost use Rattle.auc_phases.specs.Limits.{AreLimits};

use crate::texts::{AMPLE, answered, text_of};
use auc_graph::{Arc, ArcList};
use auc_letters::MOST_SHARDS;
use auc_mail::MOST_NODES;
use auc_phases::Limits;
use auc_world::solve_serial;
use std::test::*;

/// Numbers that look random, always the same ones.
#[derive(Drop)]
struct Dice {
    state: u64,
}

impl Dice {
    /// The next number below another one, which isn't 0.
    fn below(&mut self, most: u32) -> u32 {
        self.state = self
            .state
            .wrapping_mul(6_364_136_223_846_793_005)
            .wrapping_add(1_442_695_040_888_963_407);
        ((self.state >> 33) as u32).checked_rem(most).unwrap_or(0)
    }
}

/// The number of problems, the least number of persons, the number of objects above that of persons, the number of
/// different costs, and whether these differ much.
#[derive(Clone, Copy)]
struct Shape {
    problems: u32,
    least: u32,
    more: u32,
    costs: u32,
    is_wide: bool,
}

/// Some persons, each of whom has arcs to few objects.
const SMALL: Shape = Shape {
    problems: 100,
    least: 1,
    more: 0,
    costs: 100,
    is_wide: false,
};

/// So many persons that each has arcs to some 60 objects, and so a candidate list.
const LONG: Shape = Shape {
    problems: 5,
    least: 90,
    more: 0,
    costs: 1_000,
    is_wide: false,
};

/// A problem of such a shape, of up to 7 persons more.
fn problem_of(rt: &HostRuntime, dice: &mut Dice, shape: Shape) -> Result<ArcList, Fail> {
    let persons = shape.least % 1_000 + dice.below(8) % 8;
    let objects = persons + shape.more % 4;
    let mut arcs = Vec::new(rt.alloc());
    for person in 0..persons {
        for object in 0..objects {
            if dice.below(3) > 0 {
                let drawn = i64::from(dice.below(shape.costs));
                let apart = if shape.is_wide { 1_000_000 } else { 1 };
                arcs.push(Arc {
                    cost: drawn.min(1_000) * apart - 50,
                    person,
                    object,
                })?;
            }
        }
    }
    ArcList::from_arcs(persons, objects, arcs).map_err(|_| Fail::new("no problem"))
}

/// A price war: all persons prefer the same objects in the same order, and have arcs to nearly all, each to some 15 of
/// 16. So many lists of a person are made.
fn war(rt: &HostRuntime) -> Result<ArcList, Fail> {
    let persons = 300;
    let mut arcs = Vec::new(rt.alloc());
    for person in 0..persons {
        for object in 0..persons {
            if (3 * person + object) % 16 > 0 {
                arcs.push(Arc {
                    cost: i64::from(person + 1) * i64::from(object + 1),
                    person,
                    object,
                })?;
            }
        }
    }
    ArcList::from_arcs(persons, persons, arcs).map_err(|_| Fail::new("no problem"))
}

/// The second line of a text: the kind of the claim, the size, and the cost.
fn claim_of(text: &[u8]) -> &[u8] {
    let mut lines = text.split(|byte| *byte == b'\n');
    let _ = lines.next();
    lines.next().unwrap_or(text)
}

/// Limits that are in range.
fn usual() -> Result<Limits, Fail>
    ensures { IfOk result AreLimits }
{
    let limits = Limits::usual(1);
    if limits.shards == 0 || limits.shards > MOST_SHARDS || limits.nodes > MOST_NODES {
        return Err(Fail::new("limits out of range"));
    }
    Ok(limits)
}

/// Whether both solvers make the same claim of a problem.
fn is_alike(rt: &HostRuntime, problem: &ArcList) -> Result<bool, Fail> {
    let limits = usual()?;
    let direct = answered(rt, problem, &AMPLE)?;
    let serial = text_of(rt, problem, solve_serial(rt.alloc(), problem, &limits)?)?;
    Ok(claim_of(direct.as_slice()) == claim_of(serial.as_slice()))
}

/// Whether they do for the problems of a shape.
fn are_alike(rt: &HostRuntime, shape: Shape) -> Result<bool, Fail> {
    let mut dice = Dice { state: 7 };
    for _ in 0..shape.problems {
        let problem = problem_of(rt, &mut dice, shape)?;
        if !is_alike(rt, &problem)? {
            return Ok(false);
        }
    }
    Ok(true)
}

#[test]
fn square(rt: HostRuntime) -> Result<(), Fail> {
    assert!(rt; are_alike(&rt, SMALL)?);
    assert!(rt; are_alike(&rt, Shape { costs: 4, ..SMALL })?);
    Ok(())
}

/// Costs of two levels, for which the last phase is tried early.
#[test]
fn two_levels(rt: HostRuntime) -> Result<(), Fail> {
    let levels = Shape {
        costs: 2,
        is_wide: true,
        ..SMALL
    };
    assert!(rt; are_alike(&rt, levels)?);
    let long = Shape {
        problems: LONG.problems,
        least: LONG.least,
        ..levels
    };
    assert!(rt; are_alike(&rt, long)?);
    Ok(())
}

#[test]
fn more_objects(rt: HostRuntime) -> Result<(), Fail> {
    assert!(rt; are_alike(&rt, Shape { more: 1, ..SMALL })?);
    let ties = Shape {
        more: 3,
        costs: 4,
        ..SMALL
    };
    assert!(rt; are_alike(&rt, ties)?);
    Ok(())
}

#[test]
fn long_rows(rt: HostRuntime) -> Result<(), Fail> {
    assert!(rt; are_alike(&rt, LONG)?);
    assert!(rt; are_alike(&rt, Shape { costs: 4, ..LONG })?);
    assert!(rt; are_alike(&rt, Shape { more: 3, ..LONG })?);
    Ok(())
}

#[test]
fn price_war(rt: HostRuntime) -> Result<(), Fail> {
    let problem = war(&rt)?;
    assert!(rt; is_alike(&rt, &problem)?);
    Ok(())
}
