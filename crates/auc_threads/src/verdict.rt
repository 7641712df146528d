//! The verdict of a phase: the run goes on or claims a least cost, or the phase was stopped by a limit, or a guard was
//! hit.

ghost use Rattle.std.specs.Prelude.{◌≡◌, ◌≢◌, length, All, IfOk, Some};
ghost use Rattle.auc_graph.specs.Table.{IsTableOf};
ghost use Rattle.auc_graph.specs.Price.{IsPrice};
ghost use Rattle.auc_phases.specs.Begins.{ArePrices};
ghost use Rattle.auc_threads.specs.Verdict.{Decides, verdict_of};

use crate::phase::PhaseEnd;
use auc_answers::finish::{bracket, optimal, stop_of};
use auc_answers::{Answer, Gathered, Guard};
use auc_claim::Reason;
use auc_graph::{ArcList, Rows};
use auc_model::End;
use auc_phases::Limits;
use std::alloc::{AllocError, Global};

/// The verdict of a phase.
#[derive(Clone, Copy, Debug, PartialEq, Eq)]
pub enum Verdict {
    /// Each person has an object.
    Sold,
    /// A limit has stopped it.
    Stopped { reason: Reason },
    /// A guard was hit, nothing was reported of its end, or its mails didn't settle.
    Broken { guard: Guard },
}

/// The verdict of a phase. Where trails are to be kept and it has none, that alone counts. O(1).
pub fn verdict_of(limits: &Limits, ended: &PhaseEnd) -> Verdict
    ensures { result ≡ verdict_of limits.now ended.now }
{
    if limits.audit != 0 && ended.trails.is_none() {
        return Verdict::Broken {
            guard: Guard::Settle,
        };
    }
    match ended.end {
        None => Verdict::Broken {
            guard: Guard::Stall,
        },
        Some(End::All) => Verdict::Sold,
        Some(End::Stopped { why }) => match stop_of(why) {
            Ok(reason) => Verdict::Stopped { reason },
            Err(guard) => Verdict::Broken { guard },
        },
    }
}

/// The same holders and prices.
fn copy_of(alloc: Global, gathered: &Gathered) -> Result<Gathered, AllocError>
    ensures holders { IfOk result (λ g. g.holders.items ≡ gathered.now.holders.items) }
    ensures prices { IfOk result (λ g. g.prices.items ≡ gathered.now.prices.items) }
{
    let holders = gathered.holders.as_slice().to_vec(alloc)?;
    let prices = gathered.prices.as_slice().to_vec(alloc)?;
    Ok(Gathered { holders, prices })
}

/// The answer of a run whose last phase has this verdict, with these holders and prices.
pub(crate) fn decide(
    alloc: Global,
    problem: &ArcList,
    rows: &Rows,
    verdict: Verdict,
    gathered: &Gathered,
) -> Result<Answer, AllocError>
    requires rows { IsTableOf problem.now rows.now }
    requires holders { length gathered.now.holders.items ≡ rows.now.objects }
    requires prices { ArePrices rows.now gathered.now.prices.items }
    ensures { IfOk result (Decides problem.now gathered.now verdict) }
{
    match verdict {
        Verdict::Broken { guard } => Ok(Answer::Broken(guard)),
        Verdict::Sold => {
            let copied = copy_of(alloc, gathered)?;
            optimal(alloc, problem, copied)
        }
        Verdict::Stopped { reason } => {
            let copied = copy_of(alloc, gathered)?;
            bracket(alloc, problem, rows, reason, copied)
        }
    }
}
