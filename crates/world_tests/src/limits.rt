//! Limits, and how they end a phase.

use crate::answers::answered;
use crate::moves::HUB_TAKE;
use crate::problems::{NO_OBJECT, ONE, ONE_OBJECT, TWO};
use crate::same::assert_same;
use crate::telling::Step::{Look, Round, Rounds};
use crate::telling::{told, told_at};
use auc_graph::MOST_PRICE;
use auc_world::Limits;
use std::test::*;

/// The usual limits of one shard of each kind, but this number of bids.
pub fn bids(bids: u64) -> Limits {
    Limits {
        bids,
        ..Limits::usual(1)
    }
}

/// The usual limits of one shard of each kind, but this number of posts of each lane.
pub fn posts(posts: u64) -> Limits {
    Limits {
        posts,
        ..Limits::usual(1)
    }
}

/// The usual limits of one shard of each kind, but this number of letters that may wait in each mail.
fn nodes(nodes: u32) -> Limits {
    Limits {
        nodes,
        ..Limits::usual(1)
    }
}

/// Whether a solve of two persons within these limits leaves such a bracket.
fn leaves(
    rt: &HostRuntime,
    limits: Limits,
    head: &str,
    picks: &str,
    price: i64,
) -> Result<bool, Fail> {
    let out = answered(rt, TWO, limits)?;
    let expected = format!(in rt.alloc();
        "auction 1\nbracket {head}\n{picks}price 1 {price}\nprice 2 0\n"
    )?;
    Ok(out.as_slice() == expected.as_bytes())
}

/// What no limit leaves sold is completed, and the prices give a lower bound of the cost of all assignments.
#[test]
fn low_limits_leave_brackets(rt: HostRuntime) -> Result<(), Fail> {
    let first = "assign 1 1 1\nassign 2 2 3\n";
    let second = "assign 1 2 2\nassign 2 1 1\n";
    assert!(rt; leaves(&rt, bids(0), "bids 2 2 4", first, 0)?);
    assert!(rt; leaves(&rt, bids(1), "bids 2 3 4", first, 4)?);
    assert!(rt; leaves(&rt, posts(0), "posts 2 2 4", first, 0)?);
    assert!(rt; leaves(&rt, posts(1), "posts 2 3 4", first, 4)?);
    assert!(rt; leaves(&rt, nodes(1), "mail 2 3 3", second, 7)?);
    Ok(())
}

/// Whether a solve without bids finds that there is no assignment.
fn is_infeasible(rt: &HostRuntime, text: &str) -> Result<bool, Fail> {
    let out = answered(rt, text, bids(0))?;
    Ok(out.as_slice().starts_with(b"auction 1\ninfeasible "))
}

/// A Hall violator is found without a bid.
#[test]
fn low_limits_leave_hall_sets(rt: HostRuntime) -> Result<(), Fail> {
    assert!(rt; is_infeasible(&rt, ONE_OBJECT)?);
    assert!(rt; is_infeasible(&rt, NO_OBJECT)?);
    Ok(())
}

/// Whether a phase of two persons ends so within these limits.
fn ends(rt: &HostRuntime, text: &str, limits: Limits, expected: &str) -> Result<bool, Fail> {
    let told = told(rt, text, limits, &[Rounds, Look])?;
    Ok(told.as_str() == expected)
}

/// Where a phase of two persons stops, and why.
#[test]
fn stops(rt: HostRuntime) -> Result<(), Fail> {
    assert!(rt; ends(&rt, TWO, bids(0), "[-:0 -:0 Some(Stopped { why: Bids })]")?);
    assert!(rt; ends(&rt, TWO, bids(1), "[1:4 -:0 Some(Stopped { why: Bids })]")?);
    assert!(rt; ends(&rt, TWO, posts(0), "[-:0 -:0 Some(Stopped { why: Posts })]")?);
    assert!(rt; ends(&rt, TWO, posts(1), "[1:4 -:0 Some(Stopped { why: Posts })]")?);
    assert!(rt; ends(&rt, TWO, nodes(1), "[2:7 -:0 Some(Stopped { why: Mail })]")?);
    // The second person has no arc.
    let stuck = "[1:1 -:0 Some(Stopped { why: Stuck })]";
    assert!(rt; ends(&rt, NO_OBJECT, Limits::usual(1), stuck)?);
    Ok(())
}

/// A price may rise to the greatest one, and not beyond.
#[test]
fn greatest_price(rt: HostRuntime) -> Result<(), Fail> {
    let usual = Limits::usual(1);
    let below = told_at(&rt, ONE, usual, &[MOST_PRICE - 1], &[Rounds, Look])?;
    assert_same(&rt, below.as_str(), "[1:2305843009213693952 Some(All)]");
    let at_top = told_at(&rt, ONE, usual, &[MOST_PRICE], &[Rounds, Look])?;
    let expected = "[-:2305843009213693952 Some(Stopped { why: Ceiling })]";
    assert_same(&rt, at_top.as_str(), expected);
    Ok(())
}

/// A full mail stops the phase. The turns go on after the end, with the letters that had no room, until each person has
/// an object and the hub has counted both; the end stays.
#[test]
fn first_cause_stays(rt: HostRuntime) -> Result<(), Fail> {
    let mut steps = Vec::new(rt.alloc());
    steps.push(Rounds)?;
    steps.extend_from_slice(&[Round; 20])?;
    steps.extend_from_slice(&[Look, HUB_TAKE])?;
    let told = told(&rt, TWO, nodes(1), steps.as_slice())?;
    assert_same(&rt, told.as_str(), "[2:7 1:5 Some(Stopped { why: Mail })].");
    Ok(())
}
