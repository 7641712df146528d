//! Problems, limits, and the answers of the solver in threads.

ghost use Rattle.std.specs.Prelude.{◌≡◌, IfOk};
ghost use Rattle.auc_threads.specs.Naming.{AreThreadLimits};

use auc_book::MOST_ROOM;
use auc_cert::{read_cert, write_cert};
use auc_claim::{check, start_prices};
use auc_graph::{ArcList, ReadLimits, read_arcs};
use auc_letters::MOST_SHARDS;
use auc_mail::MOST_NODES;
use auc_threads::{Gate, PhaseEnd, Solved, solve_threads, solve_threads_from};
use auc_world::{Answer, Limits};
use std::alloc::Global;
use std::sync::Wait;
use std::test::*;
use std::thread::Threads;

/// One person, one object.
pub const ONE: &str = "1\n1 1 -7\n";

/// Two persons, two objects; both prefer the first one.
pub const TWO: &str = "2\n1 1 1\n1 2 2\n2 1 1\n2 2 3\n";

/// Three persons, three objects.
pub const THREE: &str = "3\n1 1 4 1 2 1 1 3 3\n2 1 2 2 2 0 2 3 5\n3 1 3 3 2 2 3 3 2\n";

/// Two persons who both have an arc to the first object only.
pub const ONE_OBJECT: &str = "2\n1 1 5\n2 1 7\n";

/// The problem that a text reads as.
pub fn problem_of(alloc: Global, text: &str) -> Result<ArcList, Fail> {
    Ok(read_arcs(alloc, text.as_bytes(), ReadLimits::usual())?)
}

/// The usual limits, with these numbers of shards of each kind and of places in each trail.
pub fn limits_of(shards: u32, audit: u32) -> Result<Limits, Fail>
    ensures range { IfOk result AreThreadLimits }
    ensures shards { IfOk result (λ l. l.shards ≡ shards) }
{
    let limits = Limits {
        audit,
        ..Limits::usual(shards)
    };
    if shards == 0 || shards > MOST_SHARDS || audit > MOST_ROOM || limits.nodes > MOST_NODES {
        return Err(Fail::new("limits out of range"));
    }
    Ok(limits)
}

/// The result of a run: the text of its certificate, in which the checker has found no fault, and its phases.
#[derive(Drop)]
pub struct Outcome {
    pub text: Vec<u8>,
    pub phases: Vec<PhaseEnd>,
}

/// Solves in threads.
pub fn run<R: Threads + Wait + Sync, G: Gate + Sync>(
    rt: &R,
    alloc: Global,
    text: &str,
    shards: u32,
    audit: u32,
    gate: &G,
) -> Result<Outcome, Fail> {
    let problem = problem_of(alloc, text)?;
    let limits = limits_of(shards, audit)?;
    let solved = solve_threads(rt, alloc, &problem, &limits, gate)?;
    outcome_of(alloc, &problem, solved)
}

/// Solves in threads from the prices of a certificate.
pub fn run_from<R: Threads + Wait + Sync, G: Gate + Sync>(
    rt: &R,
    alloc: Global,
    text: &str,
    cert: &str,
    shards: u32,
    gate: &G,
) -> Result<Outcome, Fail> {
    let problem = problem_of(alloc, text)?;
    let limits = limits_of(shards, 0)?;
    let start = start_prices(alloc, &problem, &read_cert(alloc, cert.as_bytes())?)?;
    let solved = solve_threads_from(rt, alloc, &problem, &limits, start.as_slice(), gate)?;
    outcome_of(alloc, &problem, solved)
}

/// The result of a run, once the checker has found no fault in its certificate.
fn outcome_of(alloc: Global, problem: &ArcList, solved: Solved) -> Result<Outcome, Fail> {
    let Solved { answer, phases } = solved;
    let cert = match answer {
        Answer::Optimal(cert) => cert,
        Answer::Infeasible(cert) => cert,
        Answer::Bracket(cert) => cert,
        Answer::Broken(guard) => return Err(Fail::new(format_args!("{guard:?}"))),
    };
    check(alloc, problem, &cert)?;
    let mut out = Vec::new(alloc);
    write_cert(&mut out, &cert)?;
    Ok(Outcome { text: out, phases })
}
