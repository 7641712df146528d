//! The serial solver: epsilon scaling over phases, each a world of its own that is played in whole rounds.

ghost use Rattle.std.specs.Prelude.{◌≡◌, IfOk, List, ℤ, Option, Some, None};
ghost use Rattle.auc_graph.specs.Table.{IsTableOf};
ghost use Rattle.auc_claim.specs.Start.{AreStart};
ghost use Rattle.auc_letters.specs.Price.{IsEps};
ghost use Rattle.auc_answers.specs.Answers.{HasAssignment, IsAnswer};
ghost use Rattle.auc_phases.specs.Begins.{ArePrices, Begins, MayBegin};
ghost use Rattle.auc_phases.specs.Limits.{AreLimits};
ghost use Rattle.auc_answers.specs.Prepared.{NobodyStuck};
ghost use Rattle.auc_world.specs.Chain.{IsOfRun};
ghost use Rattle.auc_machine.specs.Lists.{MayKeep};
ghost use Rattle.auc_world.specs.Phases.{ComesOf, StayKept};

use crate::single_shard::playing::play_single_shard;
use crate::single_shard::task::may_play_single_shard;
use auc_answers::finish::{bracket, optimal, stop_of};
use auc_answers::{Answer, Gathered, Guard, Prepared, prepare};
use auc_claim::Reason;
use auc_graph::{ArcList, Rows};
use auc_machine::{World, new_bidders};
use auc_model::End;
use auc_persons::Bidder;
use auc_phases::{LAST_EPS, Limits, first_eps, next_eps};
use std::alloc::{AllocError, Global};
use std::mem;

/// The result of a phase.
#[derive(Drop)]
pub(crate) enum Outcome {
    /// Each person has an object: these are the holders and prices.
    Sold(Gathered),
    /// A limit has stopped it, with these holders and prices.
    Stopped { reason: Reason, gathered: Gathered },
    /// A guard was hit, or a whole round moved nothing.
    Broken(Guard),
}

/// Plays one phase in whole rounds of a world. Where all is sold, the bidders are kept for the next phase.
fn play_world(
    alloc: Global,
    rows: &Rows,
    limits: &Limits,
    prices: &[i64],
    eps: i64,
    bidders: &mut Vec<Bidder>,
) -> Result<Outcome, AllocError>
    requires limits { AreLimits limits.now }
    requires prices { ArePrices rows.now prices.now }
    requires eps { IsEps eps }
    requires arcs { NobodyStuck rows.now }
    requires kept { MayKeep rows.now limits.now.shards prices.now bidders.old.items }
    ensures comes { IfOk result (ComesOf rows.now limits.now prices.now eps) }
    ensures kept { IfOk result (StayKept rows.now limits.now.shards bidders.new.items) }
{
    let kept = mem::replace(bidders, Vec::new(alloc));
    let mut world = World::make_with(alloc, rows, limits, prices, eps, kept)?;
    match world.run() {
        Some(End::All) => {
            let gathered = world.gather(alloc)?;
            *bidders = world.into_bidders();
            Ok(Outcome::Sold(gathered))
        }
        Some(End::Stopped { why }) => match stop_of(why) {
            Ok(reason) => {
                let gathered = world.gather(alloc)?;
                Ok(Outcome::Stopped { reason, gathered })
            }
            Err(guard) => Ok(Outcome::Broken(guard)),
        },
        None => Ok(Outcome::Broken(Guard::Stall)),
    }
}

/// Plays one phase in whole rounds, with the machine of one shard of each kind where it may. Where all is sold, the
/// bidders are kept for the next phase.
fn play_phase(
    alloc: Global,
    rows: &Rows,
    limits: &Limits,
    prices: &[i64],
    eps: i64,
    bidders: &mut Vec<Bidder>,
) -> Result<Outcome, AllocError>
    requires limits { AreLimits limits.now }
    requires prices { ArePrices rows.now prices.now }
    requires eps { IsEps eps }
    requires arcs { NobodyStuck rows.now }
    requires kept { MayKeep rows.now limits.now.shards prices.now bidders.old.items }
    ensures comes { IfOk result (ComesOf rows.now limits.now prices.now eps) }
    ensures kept { IfOk result (StayKept rows.now limits.now.shards bidders.new.items) }
{
    if may_play_single_shard(limits) {
        return play_single_shard(alloc, rows, limits, prices, eps, bidders);
    }
    play_world(alloc, rows, limits, prices, eps, bidders)
}

/// Solves a problem in which each person has an arc: a phase at each eps. The first begins with these prices, each
/// other one with the prices of the one before.
fn solve_rows(
    alloc: Global,
    problem: &ArcList,
    rows: &Rows,
    limits: &Limits,
    eps: i64,
    prices: Vec<i64>,
) -> Result<Answer, AllocError>
    requires rows { IsTableOf problem.now rows.now }
    requires limits { AreLimits limits.now }
    requires arcs { NobodyStuck rows.now }
    requires assignment { HasAssignment problem.now }
    requires eps { IsEps eps }
    requires prices { ArePrices rows.now prices.items }
    requires begins { MayBegin rows.now eps prices.items }
    ensures is { IfOk result (IsAnswer problem.now) }
    ensures run { (start : Option (List ℤ)) → Begins rows.now start eps prices.items
        → IfOk result (IsOfRun problem.now limits.now start) }
{
    // Read here, so that the proof has the invariants of the problem and its rows.
    let _ = problem.arcs();
    let _ = rows.objects();
    let mut prices = prices;
    let mut eps = eps;
    let mut bidders = new_bidders(alloc, limits.shards, rows)?;
    loop {
        let played = play_phase(alloc, rows, limits, prices.as_slice(), eps, &mut bidders)?;
        let gathered = match played {
            Outcome::Sold(gathered) => gathered,
            Outcome::Stopped { reason, gathered } => {
                return bracket(alloc, problem, rows, reason, gathered);
            }
            Outcome::Broken(guard) => return Ok(Answer::Broken(guard)),
        };
        let Some(next) = next_eps(eps) else {
            return optimal(alloc, problem, gathered);
        };
        let Gathered { prices: kept, .. } = gathered;
        prices = kept;
        eps = next;
    }
}

/// Solves a problem. The answer is a least-cost assignment, a Hall set, or, where the limits are too low, a bracket: an
/// assignment and a bound below which none costs. Each claim has passed the checker.
///
/// First an assignment of any cost is searched for ([`auc_hall::complete`]); where there is none, the answer is
/// `Infeasible`. Else the auction algorithm with epsilon scaling (Bertsekas, 1979 and 1988) runs in phases. The first
/// phase is at [`first_eps`], from prices of 0. Each next one is at [`next_eps`], from the prices that the one before
/// has left, with all persons free. A phase is a new world that is played in whole rounds, in which every shard has its
/// turns in order, until it ends.
///
/// Where a limit ends a phase, the answer is a `Bracket`. The holders' arcs are completed to an assignment of any cost,
/// and the prices give a lower bound (dual bound) of the cost of all. `Broken` is never answered. `limits.audit` is
/// ignored.
///
/// Takes the time of the search and of the bids, each O(arcs of the person), and 28 bytes of memory an arc, the
/// problem's own among them.
///
/// # Errors
///
/// Only where memory was refused.
pub fn solve_serial(alloc: Global, problem: &ArcList, limits: &Limits) -> Result<Answer, AllocError>
    requires { AreLimits limits.now }
    ensures is { IfOk result (IsAnswer problem.now) }
    ensures run { IfOk result (IsOfRun problem.now limits.now None) }
{
    match prepare(alloc, problem)? {
        Prepared::Answered(answer) => Ok(answer),
        Prepared::Rows(rows) => {
            let prices = vec![in alloc; 0; rows.objects() as usize]?;
            solve_rows(alloc, problem, &rows, limits, first_eps(&rows), prices)
        }
    }
}

/// Solves a problem as [`solve_serial`] does, but from start prices (a warm start), in one phase at the last eps. They
/// may be those of a certificate of the same problem with other costs ([`auc_claim::start_prices`]).
///
/// The start prices are scaled costs, indexed by object, from 0 to 2^60, and as many as the persons. The answer is as
/// good from any of them; good ones save bids, and bad ones cost bids.
///
/// # Errors
///
/// Only where memory was refused.
pub fn solve_serial_from(
    alloc: Global,
    problem: &ArcList,
    limits: &Limits,
    start: &[i64],
) -> Result<Answer, AllocError>
    requires limits { AreLimits limits.now }
    requires start { AreStart problem.now start.now }
    ensures is { IfOk result (IsAnswer problem.now) }
    ensures run { IfOk result (IsOfRun problem.now limits.now (Some start.now)) }
{
    match prepare(alloc, problem)? {
        Prepared::Answered(answer) => Ok(answer),
        Prepared::Rows(rows) => {
            let prices = start.to_vec(alloc)?;
            solve_rows(alloc, problem, &rows, limits, LAST_EPS, prices)
        }
    }
}
