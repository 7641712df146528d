//! Problems and answers as texts.

use auc_answers::Answer;
use auc_cert::write_cert;
use auc_claim::check;
use auc_direct::{DirectLimits, may_start, solve_direct, solve_direct_from};
use auc_graph::{ArcList, MOST_OBJECTS, ReadLimits, read_arcs};
use std::test::*;

/// Enough bids for each problem of these tests.
pub const AMPLE: DirectLimits = DirectLimits { bids: 1_000_000 };

/// The problem that a text reads as, with this number of objects, or as many as persons where that is 0.
pub fn problem_of(rt: &HostRuntime, text: &str, objects: u32) -> Result<ArcList, Fail> {
    if objects > MOST_OBJECTS {
        return Err(Fail::new("too many objects"));
    }
    let limits = ReadLimits {
        objects,
        ..ReadLimits::usual()
    };
    Ok(read_arcs(rt.alloc(), text.as_bytes(), limits)?)
}

/// The text of an answer, which has to be one, and in which the checker has to find no fault.
pub fn text_of(rt: &HostRuntime, problem: &ArcList, answer: Answer) -> Result<Vec<u8>, Fail> {
    let cert = match answer {
        Answer::Optimal(cert) => cert,
        Answer::Infeasible(cert) => cert,
        Answer::Bracket(cert) => cert,
        Answer::Broken(guard) => return Err(Fail::new(format_args!("{guard:?}"))),
    };
    check(rt.alloc(), problem, &cert)?;
    let mut out = Vec::new(rt.alloc());
    write_cert(&mut out, &cert)?;
    Ok(out)
}

/// The answer of the solver.
pub fn answered(
    rt: &HostRuntime,
    problem: &ArcList,
    limits: &DirectLimits,
) -> Result<Vec<u8>, Fail> {
    let answer = solve_direct(rt.alloc(), problem, limits)?;
    text_of(rt, problem, answer)
}

/// The answer of the solver from start prices, which have to be lawful.
pub fn answered_from(
    rt: &HostRuntime,
    problem: &ArcList,
    limits: &DirectLimits,
    start: &[i64],
) -> Result<Vec<u8>, Fail> {
    if !may_start(problem, start) {
        return Err(Fail::new("no start prices"));
    }
    let answer = solve_direct_from(rt.alloc(), problem, limits, start)?;
    text_of(rt, problem, answer)
}
