//! Which solver answers a call, and what it answers.

ghost use Rattle.std.specs.Prelude.{◌≡◌, ◌≢◌, [], IfOk};
ghost use Rattle.auc_claim.specs.Start.{AreStart};
ghost use Rattle.auc_answers.specs.Answers.{IsAnswer};
ghost use Rattle.auc_direct.specs.Starts.{AreStartPrices};
ghost use Rattle.auc_world.specs.Chain.{IsOfRun};
ghost use Rattle.auc_call.specs.Drivers.{IsAnswerBy};
ghost use Rattle.auc_call.specs.declared.driver.Driver.{Driver};
ghost use Rattle.auc_call.specs.Running.{limits_of, start_in};
ghost use Rattle.auc_call.specs.Start.{CanStart};

use crate::given::Run;
use auc_direct::{DirectLimits, Watch, solve_direct_watched, solve_direct_watched_from};
use auc_graph::ArcList;
use auc_world::{Answer, Limits, solve_serial, solve_serial_from};
use std::alloc::{AllocError, Global};

/// Which solver answers a call.
#[derive(Clone, Copy, Debug, PartialEq, Eq)]
pub enum Driver {
    /// The direct one, which starts from any prices.
    Direct,
    /// The one by messages, which starts only where there are as many objects as persons.
    Messages,
}

/// What the direct solver answers, from the start's prices where there are any.
fn answer_directly<W: Watch>(
    alloc: Global,
    problem: &ArcList,
    run: &mut Run<'_, W>,
) -> Result<Answer, AllocError>
    requires { run.old.start.now ≢ [] → AreStartPrices problem.now run.old.start.now }
    ensures is { IfOk result (IsAnswer problem.now) }
    ensures run { IfOk result
        (IsAnswerBy Driver.Direct problem.now run.old.start.now run.old.bids (W.has_stopped run.new.watch)
        (W.was_asked run.new.watch)) }
{
    let limits = DirectLimits { bids: run.bids };
    if run.start.is_empty() {
        return solve_direct_watched(alloc, problem, &limits, &mut run.watch);
    }
    solve_direct_watched_from(alloc, problem, &limits, run.start, &mut run.watch)
}

/// What the solver by messages does.
fn answer_by_messages(
    alloc: Global,
    problem: &ArcList,
    start: &[i64],
    bids: u64,
) -> Result<Answer, AllocError>
    requires { start.now ≢ [] → AreStart problem.now start.now }
    ensures is { IfOk result (IsAnswer problem.now) }
    ensures run { IfOk result (IsOfRun problem.now (limits_of bids) (start_in start.now)) }
{
    let limits = Limits {
        bids,
        ..Limits::usual(1)
    };
    if start.is_empty() {
        return solve_serial(alloc, problem, &limits);
    }
    solve_serial_from(alloc, problem, &limits, start)
}

/// What the solver of this kind does. The one by messages asks no watch.
pub(crate) fn answer_of<W: Watch>(
    alloc: Global,
    driver: Driver,
    problem: &ArcList,
    run: &mut Run<'_, W>,
) -> Result<Answer, AllocError>
    requires { run.old.start.now ≢ [] → CanStart driver problem.now run.old.start.now }
    ensures is { IfOk result (IsAnswer problem.now) }
    ensures run { IfOk result
        (IsAnswerBy driver problem.now run.old.start.now run.old.bids (W.has_stopped run.new.watch)
        (W.was_asked run.new.watch)) }
{
    match driver {
        Driver::Direct => answer_directly(alloc, problem, run),
        Driver::Messages => answer_by_messages(alloc, problem, run.start, run.bids),
    }
}
