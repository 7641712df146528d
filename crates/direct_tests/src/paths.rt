//! Price wars at eps 1 that would take billions of bids, since many persons want few objects: augmenting paths end them
//! within a few bids. With objects to spare there is no other phase, so these tests show it.

use crate::texts::{AMPLE, answered, answered_from, problem_of};
use auc_direct::DirectLimits;
use auc_graph::{Arc, ArcList};
use std::test::*;

/// Three persons, each of whom has one of two objects at cost 0, or pays the greatest cost. The last one doesn't have
/// that, so it is no full table, which would be searched without bids.
const THREE: &str = "3\n1 1 0 1 2 0 1 3 1000000000\n2 1 0 2 2 0 2 3 1000000000\n3 1 0 3 2 0\n";

/// Far fewer bids than there are steps of eps in the greatest cost.
const FEW: DirectLimits = DirectLimits { bids: 1_000 };

/// Each person has each object; the first ones at cost 0, and the others at a penalty. Where it must be no full table,
/// the last person doesn't have the last object.
fn crowd(
    rt: &HostRuntime,
    persons: u32,
    objects: u32,
    free: u32,
    is_full: bool,
) -> Result<ArcList, Fail> {
    let mut arcs = Vec::new(rt.alloc());
    for person in 0..persons {
        for object in 0..objects {
            if !is_full && person + 1 == persons && object + 1 == objects {
                continue;
            }
            let cost = if object < free { 0 } else { 1_000_000_000 };
            arcs.push(Arc {
                cost,
                person,
                object,
            })?;
        }
    }
    ArcList::from_arcs(persons, objects, arcs).map_err(|_| Fail::new("no problem"))
}

/// More objects than persons, and one of them has the greatest cost.
#[test]
fn a_penalty_with_objects_to_spare(rt: HostRuntime) -> Result<(), Fail> {
    let problem = problem_of(&rt, THREE, 4)?;
    let told = answered(&rt, &problem, &FEW)?;
    assert!(rt;
        told.as_slice()
            .starts_with(b"auction 2\noptimal 3 4 1000000000\n")
    );
    Ok(())
}

/// Twenty persons, fifteen free objects, and ten of the greatest cost.
#[test]
fn many_penalties_with_objects_to_spare(rt: HostRuntime) -> Result<(), Fail> {
    let problem = crowd(&rt, 20, 25, 15, false)?;
    let told = answered(&rt, &problem, &FEW)?;
    assert!(rt;
        told.as_slice()
            .starts_with(b"auction 2\noptimal 20 25 5000000000\n")
    );
    Ok(())
}

/// From prices of 0 a phase at eps 1 is tried.
#[test]
fn a_start_without_prices(rt: HostRuntime) -> Result<(), Fail> {
    let problem = problem_of(&rt, THREE, 0)?;
    let told = answered_from(&rt, &problem, &FEW, &[0, 0, 0])?;
    assert!(rt;
        told.as_slice()
            .starts_with(b"auction 1\noptimal 3 1000000000\n")
    );
    Ok(())
}

/// A price war in phases of falling eps.
#[test]
fn a_war_in_all_phases(rt: HostRuntime) -> Result<(), Fail> {
    let problem = crowd(&rt, 40, 40, 39, false)?;
    let told = answered(&rt, &problem, &AMPLE)?;
    assert!(rt;
        told.as_slice()
            .starts_with(b"auction 1\noptimal 40 1000000000\n")
    );
    Ok(())
}

/// As many objects as persons, and five of them at the greatest cost: the search of a full table takes no bids.
#[test]
fn penalties_in_a_full_table(rt: HostRuntime) -> Result<(), Fail> {
    let problem = crowd(&rt, 20, 20, 15, true)?;
    let told = answered(&rt, &problem, &DirectLimits { bids: 0 })?;
    assert!(rt;
        told.as_slice()
            .starts_with(b"auction 1\noptimal 20 5000000000\n")
    );
    Ok(())
}
