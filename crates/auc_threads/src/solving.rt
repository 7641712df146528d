//! The solver in threads: epsilon scaling over phases, each in threads of its own.

ghost use Rattle.std.specs.Prelude.{◌≡◌, ◌<ℤ◌, ◌↔◌, [], ◌∷◌, ◌++◌, IfOk, OnOk, IfSome, IfNone, Some, None, Option};
ghost use Rattle.std.specs.Prelude.{List, ℤ};
ghost use Rattle.auc_graph.specs.Table.{IsTableOf};
ghost use Rattle.auc_claim.specs.Start.{AreStart};
ghost use Rattle.auc_letters.specs.Price.{IsEps};
ghost use Rattle.auc_answers.specs.Answers.{HasAssignment};
ghost use Rattle.auc_phases.specs.Begins.{ArePrices, Begins};
ghost use Rattle.auc_phases.specs.Eps.{next_eps};
ghost use Rattle.auc_answers.specs.Prepared.{NobodyStuck};
ghost use Rattle.auc_threads.specs.Naming.{AreThreadLimits};
ghost use Rattle.auc_threads.specs.Solved.{IsInfeasible, IsSolvedBy, IsThreadAnswer};

use crate::error::RunError;
use crate::gate::Gate;
use crate::phase::{PhaseEnd, phase_threads};
use crate::verdict::{Verdict, decide, verdict_of};
use auc_answers::{Answer, Prepared, prepare};
use auc_graph::{ArcList, Rows};
use auc_hall::hall_sets_leave_no_assignment;
use auc_phases::{LAST_EPS, Limits, first_eps, next_eps};
use std::alloc::{AllocError, Global};
use std::sync::Wait;
use std::thread::Threads;

/// The result of a run.
#[derive(Drop)]
pub struct Solved {
    /// The answer.
    pub answer: Answer,
    /// Its phases, in order; none where there is no assignment.
    pub phases: Vec<PhaseEnd>,
}

/// The eps of the phase after one with this verdict. None where that is the last one.
fn eps_behind(verdict: Verdict, eps: i64) -> Option<i64>
    ensures some { IfSome result (λ next. (verdict ≡ Verdict.Sold) × (next_eps eps ≡ Some next)) }
    ensures none { IfNone result (verdict ≡ Verdict.Sold → next_eps eps ≡ None) }
    ensures range { IsEps eps → IfSome result IsEps }
    ensures falls { IfSome result (λ next. next <ℤ eps) }
{
    match verdict {
        Verdict::Sold => next_eps(eps),
        Verdict::Stopped { .. } | Verdict::Broken { .. } => None,
    }
}

/// Appends a phase.
fn note(phases: &mut Vec<PhaseEnd>, ended: PhaseEnd) -> Result<(), AllocError>
    ensures { OnOk result (phases.new.items ≡ phases.old.items ++ ended ∷ []) }
{
    phases.push(ended)?;
    Ok(())
}

/// A problem, its rows, and the limits of each phase.
#[derive(Clone, Copy)]
struct Setting<'a> {
    problem: &'a ArcList,
    rows: &'a Rows,
    limits: &'a Limits,
}

/// Solves a problem that has an assignment: a phase at each eps. The first begins with these prices, each other one
/// with the prices of the one before.
fn solve_rows<R: Threads + Wait + Sync, G: Gate + Sync>(
    rt: &R,
    alloc: Global,
    setting: Setting,
    eps: i64,
    prices: Vec<i64>,
    gate: &G,
) -> Result<Solved, RunError>
    requires rows { IsTableOf setting.problem.now setting.rows.now }
    requires limits { AreThreadLimits setting.limits.now }
    requires arcs { NobodyStuck setting.rows.now }
    requires assignment { HasAssignment setting.problem.now }
    requires eps { IsEps eps }
    requires prices { ArePrices setting.rows.now prices.items }
    ensures run { (start : Option (List ℤ)) → Begins setting.entry.rows.now start eps prices.items → IfOk result
        (λ s. IsSolvedBy setting.entry.problem.now setting.entry.limits.now start s.phases.items s.answer) }
    ensures answer { IfOk result (λ s. IsThreadAnswer setting.entry.problem.now s.answer) }
    ensures infeasible { IfOk result (λ s. (s.phases.items ≡ []) ↔ IsInfeasible s.answer) }
{
    let Setting {
        problem,
        rows,
        limits,
    } = setting;
    hall_sets_leave_no_assignment();
    let mut phases = Vec::new(alloc);
    let mut prices = prices;
    let mut eps = eps;
    loop {
        let ended = phase_threads(rt, alloc, rows, limits, prices.as_slice(), eps, gate)?;
        let verdict = verdict_of(limits, &ended);
        let Some(next) = eps_behind(verdict, eps) else {
            let answer = decide(alloc, problem, rows, verdict, &ended.gathered)?;
            note(&mut phases, ended)?;
            return Ok(Solved { answer, phases });
        };
        prices = ended.gathered.prices.as_slice().to_vec(alloc)?;
        note(&mut phases, ended)?;
        eps = next;
    }
}

/// The run where there is no assignment.
fn unsolved(alloc: Global, answer: Answer) -> Solved
    ensures answer { result.answer ≡ answer }
    ensures phases { result.phases.items ≡ [] }
{
    Solved {
        answer,
        phases: Vec::new(alloc),
    }
}

/// Solves a problem by shards in threads: a thread for each shard of the persons and of the objects in each phase, and
/// the hub on the caller's.
///
/// First an assignment of any cost is searched for ([`auc_hall::complete`]); where there is none, the answer is
/// `Infeasible`, and there is no phase.
///
/// Else phases run as those of [`auc_world::solve_serial`], from prices of 0 at [`first_eps`] on, each by
/// [`phase_threads`]. The next one is at [`next_eps`] and the prices that were left, where each person got an object
/// and the mails settled, if trails are kept. The last phase decides: `Optimal` and `Bracket` are claims of its holders
/// and prices that have passed the checker.
///
/// `Broken` is answered for one of these causes, never for a person with no arc:
///
/// - The mails of the last phase didn't settle, or nothing was reported of its end.
/// - A price fell, or a letter was stray.
/// - Its holders make no claim.
///
/// Every worker of a shard passes the gate before each time it takes the lock of a mail. Where `limits.audit` is above
/// 0, each mail and each seat at it have places for as many calls, and the phases have trails. Nothing is said of
/// whether a phase ends.
///
/// Takes the time of the search and of the bids, each O(arcs of the person). Takes the memory of the problem and its
/// rows, of one phase, and of the trails of all.
///
/// # Errors
///
/// `NoMemory`, and `Spawn` where a thread couldn't be started: then those that run are ended and waited for.
pub fn solve_threads<R: Threads + Wait + Sync, G: Gate + Sync>(
    rt: &R,
    alloc: Global,
    problem: &ArcList,
    limits: &Limits,
    gate: &G,
) -> Result<Solved, RunError>
    requires { AreThreadLimits limits.now }
    ensures run { IfOk result (λ s. IsSolvedBy problem.now limits.now None s.phases.items s.answer) }
    ensures answer { IfOk result (λ s. IsThreadAnswer problem.now s.answer) }
    ensures infeasible { IfOk result (λ s. (s.phases.items ≡ []) ↔ IsInfeasible s.answer) }
{
    match prepare(alloc, problem)? {
        Prepared::Answered(answer) => Ok(unsolved(alloc, answer)),
        Prepared::Rows(rows) => {
            let prices = vec![in alloc; 0; rows.objects() as usize]?;
            let eps = first_eps(&rows);
            let setting = Setting {
                problem,
                rows: &rows,
                limits,
            };
            solve_rows(rt, alloc, setting, eps, prices, gate)
        }
    }
}

/// Solves a problem as [`solve_threads`] does, but from start prices (a warm start), in one phase at the last eps: see
/// [`auc_world::solve_serial_from`], and [`auc_claim::start_prices`] for those of an old certificate. They are scaled
/// costs, indexed by object, from 0 to 2^60, and as many as the persons.
///
/// # Errors
///
/// Those of [`solve_threads`].
pub fn solve_threads_from<R: Threads + Wait + Sync, G: Gate + Sync>(
    rt: &R,
    alloc: Global,
    problem: &ArcList,
    limits: &Limits,
    start: &[i64],
    gate: &G,
) -> Result<Solved, RunError>
    requires limits { AreThreadLimits limits.now }
    requires start { AreStart problem.now start.now }
    ensures run { IfOk result (λ s. IsSolvedBy problem.now limits.now (Some start.now) s.phases.items s.answer) }
    ensures answer { IfOk result (λ s. IsThreadAnswer problem.now s.answer) }
    ensures infeasible { IfOk result (λ s. (s.phases.items ≡ []) ↔ IsInfeasible s.answer) }
{
    match prepare(alloc, problem)? {
        Prepared::Answered(answer) => Ok(unsolved(alloc, answer)),
        Prepared::Rows(rows) => {
            let prices = start.to_vec(alloc)?;
            let setting = Setting {
                problem,
                rows: &rows,
                limits,
            };
            solve_rows(rt, alloc, setting, LAST_EPS, prices, gate)
        }
    }
}
