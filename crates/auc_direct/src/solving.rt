//! The direct solver: from a problem to an answer.

ghost use Rattle.std.specs.Prelude.{Bool, ◌↔◌, IsTrue, ℕ, ℤ, List, true, ◌≡◌, ◌⊎◌, pos, All, length, IfErr, IfOk};
ghost use Rattle.std.specs.Prelude.{IfSome, IfNone};
ghost use Rattle.auc_graph.specs.Assignment.{total};
ghost use Rattle.auc_graph.specs.Price.{IsPrice};
ghost use Rattle.auc_market.specs.Halts.{IsHalt};
ghost use Rattle.auc_answers.specs.Answers.{HasAssignment, IsAnswer, IsBracketAnswer, IsInfeasibleAnswer};
ghost use Rattle.auc_rows.specs.Rows.{AreRowsOf, EachHasArc, FlatTable, IsFlatTable};
ghost use Rattle.auc_market.specs.Endings.{IsLeft};
ghost use Rattle.auc_direct.specs.Endings.{IsAsked, IsBracketFor, IsCeilingWide, IsLimited, IsLimitedFirst};
ghost use Rattle.auc_direct.specs.Endings.{IsLimitedFrom, IsLimitedUnless, IsOfFirstPhases, IsOfPhases};
ghost use Rattle.auc_direct.specs.Endings.{IsOfPhasesFrom, IsOutcome, IsWideProblem};
ghost use Rattle.auc_claim.specs.declared.reason.Reason.{Reason};
ghost use Rattle.auc_market.specs.declared.ending.Ending.{Ending};
ghost use Rattle.auc_direct.specs.Starts.{AreStartPrices};
ghost use Rattle.auc_direct.specs.Told.{IsTold};

use crate::gathering::gather;
use crate::onward::Onward;
use crate::run::{Outcome, run, run_first};
use auc_answers::finish::{bracket, infeasible, proved_bracket, proved_optimal};
use auc_answers::{Answer, Gathered, Prepared, prepare};
use auc_claim::{HIGHEST_START, Reason};
use auc_graph::{ArcList, Indices};
use auc_market::{Ending, HallSet, Halt, Market, Watch};
use auc_rows::{Columns, FlatRows};
use std::alloc::{AllocError, Global};

/// The limits of the solver.
#[derive(Clone, Copy, Debug, PartialEq, Eq)]
pub struct DirectLimits {
    /// The number of bids that a phase may make; any number.
    pub bids: u64,
}

/// Whether a solve of a problem may start from these prices: one for each object, from 0 to 2^60. Takes one pass over
/// them.
pub fn may_start(problem: &ArcList, start: &[i64]) -> bool
    ensures { IsTrue result ↔ AreStartPrices problem.now start.now }
{
    start.len() == problem.objects() as usize
        && start
            .iter()
            .all(|price| 0 <= *price && *price <= HIGHEST_START)
}

/// The answer of a problem in which a person has no arc; none where each person has one.
fn answered(alloc: Global, problem: &ArcList, flat: &FlatRows) -> Result<Option<Answer>, AllocError>
    requires { AreRowsOf problem.now flat.now }
    ensures some { IfOk result (λ o. IfSome o (IsInfeasibleAnswer problem.now)) }
    ensures none { IfOk result (λ o. IfNone o (EachHasArc flat.now)) }
{
    if flat.each_has_arc() {
        return Ok(None);
    }
    match prepare(alloc, problem)? {
        Prepared::Answered(answer) => Ok(Some(answer)),
        Prepared::Rows(_) => Ok(None),
    }
}

/// The answer of a run that a limit has stopped: a bracket, or that there is no assignment. Only this answer needs rows
/// with places, so they are built for it alone.
fn bracketed(
    alloc: Global,
    problem: &ArcList,
    reason: Reason,
    gathered: Gathered,
) -> Result<Answer, AllocError>
    requires holders { length gathered.holders.items ≡ problem.now.objects }
    requires prices { length gathered.prices.items ≡ problem.now.objects }
    requires within { All IsPrice gathered.prices.items }
    ensures { IfOk result
        (λ a. IsInfeasibleAnswer problem.now a ⊎ (HasAssignment problem.now × IsBracketAnswer problem.now reason
        gathered.holders.items gathered.prices.items a)) }
{
    match prepare(alloc, problem)? {
        Prepared::Answered(answer) => Ok(answer),
        Prepared::Rows(rows) => {
            let answer = bracket(alloc, problem, &rows, reason, gathered)?;
            Ok(answer)
        }
    }
}

/// The answer after all phases. The rows of the phases are freed before it is made.
fn answer_of(
    alloc: Global,
    problem: &ArcList,
    flat: FlatRows,
    outcome: Outcome,
) -> Result<Answer, AllocError>
    requires rows { AreRowsOf problem.now flat }
    requires sound { IsFlatTable flat }
    requires left { IsLeft flat outcome.ending outcome.holdings.prices.items outcome.holdings.holders.items
        outcome.holdings.owns.items }
    ensures { IfOk result (IsTold problem.now flat outcome.ending outcome.holdings.prices.items) }
{
    // Read here, so that the proof has the invariant of the problem.
    let _ = problem.arcs();
    let Outcome { ending, holdings } = outcome;
    let each_has_one = holdings.all_have();
    let gathered = gather(alloc, problem, &flat, holdings)?;
    drop(flat);
    // That the checker finds no fault in these two is proved, so no time is spent on a check.
    match ending {
        Ending::Sold => proved_optimal(alloc, problem, gathered),
        Ending::Stopped(reason) => {
            if each_has_one {
                return proved_bracket(alloc, problem, reason, gathered);
            }
            bracketed(alloc, problem, reason, gathered)
        }
    }
}

/// The answer of a run that has ended at once: that there is no assignment, unless memory was refused.
fn halted(alloc: Global, problem: &ArcList, halt: Halt) -> Result<Answer, AllocError>
    requires halt { (flat : FlatTable) × (AreRowsOf problem.now flat × IsHalt flat halt) }
    ensures { IfOk result (IsInfeasibleAnswer problem.now) }
{
    match halt {
        Halt::NoMemory => Err(AllocError),
        Halt::Closed(hall) => {
            let HallSet { persons, objects } = hall;
            infeasible(alloc, problem, Indices::new(persons), Indices::new(objects))
        }
    }
}

/// The answer of a run.
fn concluded(
    alloc: Global,
    problem: &ArcList,
    flat: FlatRows,
    ended: Result<Outcome, Halt>,
) -> Result<Answer, AllocError>
    requires rows { AreRowsOf problem.now flat }
    requires sound { IsFlatTable flat }
    requires left { IfOk ended (λ o. IsLeft flat o.ending o.holdings.prices.items o.holdings.holders.items
        o.holdings.owns.items) }
    requires halt { IfErr ended (IsHalt flat) }
    ensures is { IfOk result (IsAnswer problem.now) }
    ensures limit { (bids : ℕ) (begun : List ℤ) (before after : Bool)
        → IfOk ended
        (λ o. IsOutcome flat bids begun before after o.ending o.holdings.prices.items o.holdings.holders.items
        o.holdings.owns.items)
        → IfErr ended (λ h. after ≡ before)
        → IfOk result (λ a. IsLimitedUnless before after a (IsLimited problem.now bids (total begun) a)) }
    ensures run { (bids : ℕ) (begun : List ℤ) (before after : Bool)
        → IfOk ended
        (λ o. IsOutcome flat bids begun before after o.ending o.holdings.prices.items o.holdings.holders.items
        o.holdings.owns.items)
        → IfOk result (IsOfPhases problem.now bids begun) }
    ensures asked { (asked : Bool) → IfOk ended (λ o. asked ≡ true) → IfOk result (IsAsked asked) }
    ensures ceiling { IfOk ended (λ o. IsCeilingWide flat o.ending)
        → IfOk result (λ a. IsBracketFor Reason.Ceiling a → IsWideProblem problem.now) }
{
    match ended {
        Ok(outcome) => answer_of(alloc, problem, flat, outcome),
        Err(halt) => halted(alloc, problem, halt),
    }
}

/// Solves a problem. The answer is a least-cost assignment, a Hall set, or a bracket: an assignment and a bound below
/// which none costs. A bracket is answered where a phase would take more bids than `limits` allows, or a price above
/// 2^61. The latter comes only where n * ((n + 1) * spread + 1) + 1 is above 2^61, for n persons and the spread of
/// their costs: clause `limit`.
///
/// The checker finds no fault in any claim: of a least assignment that is proved, and the others pass it here. `Broken`
/// is never answered. No phase makes more bids than `limits` says: clause `run`. The answer is right as that of
/// `auc_world::solve_serial` is, but of several least assignments it may be another one.
///
/// Time:
///
/// - A bid is O(arcs of the person), or O(1) where a candidate list decides it.
/// - A path is at most O(arcs * log arcs).
/// - What is no least assignment is checked once.
/// - A full table is searched as a table first ([`auc_table::propose`]), which takes no bids.
/// - A search for an assignment of any cost ([`auc_hall::complete`]) is made where a person has no arc, and for a
///   bracket before the first phase has come to its end.
///
/// Memory beside the problem's own:
///
/// - The search for an assignment of any cost takes 12 bytes an arc.
/// - Else the rows take 8 bytes an arc, and some 50 bytes an object are taken.
/// - Candidate lists take 176 bytes a person where most arcs are in rows of 48 and more.
/// - A full table takes 8 bytes an arc more while it is searched.
/// - In a search for a path each settled object takes 16 bytes, and so does each entry of its heap; there are at most
///   as many as arcs.
///
/// No clause says that paths are taken at all, nor that lists are.
///
/// The method is the auction with epsilon scaling (Bertsekas, 1979; Bertsekas and Eckstein, 1988), in its Gauss-Seidel
/// form. Two chains of bids take turns, and the person displaced in a chain bids next in it. Long chains end by
/// successive shortest paths (Edmonds and Karp, 1972). The persons reached by a search that finds no free object are a
/// Hall violator. Columns are reduced before (Jonker and Volgenant, 1987). The rules are at the head of `rules.rt`.
///
/// # Errors
///
/// Only where memory was refused.
pub fn solve_direct(
    alloc: Global,
    problem: &ArcList,
    limits: &DirectLimits,
) -> Result<Answer, AllocError>
    ensures is { IfOk result (IsAnswer problem.now) }
    ensures limit { IfOk result (IsLimitedFirst problem.now limits.now.bids) }
    ensures run { IfOk result (IsOfFirstPhases problem.now limits.now.bids) }
{
    solve_direct_watched(alloc, problem, limits, &mut Onward)
}

/// Solves a problem as [`solve_direct`] does, but from start prices (a warm start), in a phase at the last eps: those
/// of an old certificate, say. They are scaled costs, indexed by object, from 0 to 2^60; there may be more objects than
/// persons.
///
/// Each person in order keeps an object that is within 1 of the best at the start prices, and that no person before has
/// kept; the others bid. Where there are more objects than persons:
///
/// - An object that nobody has kept begins at price 0.
/// - A person who has kept an object and would now lose more than 1 by it leaves it, and its price is 0 too.
/// - Where that takes more passes over all persons than their number can be halved, the run begins with no prices.
///
/// A limit on bids counts from the prices that are left then: clause `limit`. With as many objects as persons these are
/// the start's.
///
/// With as many objects as persons, four bids a person may not give each person an object. Then a full table is
/// searched as a table, from the start where this gives a greater lower bound than prices of 0. Else the run goes on
/// from the prices that are left in phases, as one without a start does.
///
/// Takes two passes over the arcs for what persons keep, and with more objects than persons up to eight more; beside
/// that the time and memory of [`solve_direct`].
///
/// # Errors
///
/// Only where memory was refused.
pub fn solve_direct_from(
    alloc: Global,
    problem: &ArcList,
    limits: &DirectLimits,
    start: &[i64],
) -> Result<Answer, AllocError>
    requires start { AreStartPrices problem.now start.now }
    ensures is { IfOk result (IsAnswer problem.now) }
    ensures limit { IfOk result (IsLimitedFrom problem.now limits.now.bids start.now) }
    ensures run { IfOk result (IsOfPhasesFrom problem.now limits.now.bids start.now) }
{
    solve_direct_watched_from(alloc, problem, limits, start, &mut Onward)
}

/// Solves a problem as [`solve_direct`] does, and asks a watch whether the run goes on: before each phase, and between
/// bids, or within the search of a full table, after about four million arcs scanned.
///
/// Where the watch says no, the answer is a bracket with the reason `Bids`, or that there is no assignment. Where it
/// has said no only before the call, or not at all, a bracket is answered only after a limit: clause `limit`. The
/// bracket has the pairs of the last whole phase, if there was one. A watch that has said no isn't asked again. That it
/// was asked at all, but for where there is no assignment, is clause `asked`. To ask takes O(persons) time, and that of
/// `goes_on`.
///
/// The watch is not asked:
///
/// - before the rows are built;
/// - within a search for a path;
/// - after a no, while a bracket is made and checked.
///
/// # Errors
///
/// Only where memory was refused.
pub fn solve_direct_watched<W: Watch>(
    alloc: Global,
    problem: &ArcList,
    limits: &DirectLimits,
    watch: &mut W,
) -> Result<Answer, AllocError>
    ensures is { IfOk result (IsAnswer problem.now) }
    ensures limit { IfOk result
        (λ a. IsLimitedUnless (W.has_stopped watch.old) (W.has_stopped watch.new) a
        (IsLimitedFirst problem.now limits.now.bids a)) }
    ensures run { IfOk result (IsOfFirstPhases problem.now limits.now.bids) }
    ensures asked { IfOk result (IsAsked (W.was_asked watch.new)) }
{
    let mut columns = Columns::new(alloc, problem.objects())?;
    let flat = FlatRows::build(alloc, problem, &mut columns)?;
    if let Some(answer) = answered(alloc, problem, &flat)? {
        return Ok(answer);
    }
    let ended = run_first(alloc, &flat, columns, limits.bids, watch);
    concluded(alloc, problem, flat, ended)
}

/// Solves a problem from start prices as [`solve_direct_from`] does, and asks as [`solve_direct_watched`] does.
///
/// # Errors
///
/// Only where memory was refused.
pub fn solve_direct_watched_from<W: Watch>(
    alloc: Global,
    problem: &ArcList,
    limits: &DirectLimits,
    start: &[i64],
    watch: &mut W,
) -> Result<Answer, AllocError>
    requires start { AreStartPrices problem.now start.now }
    ensures is { IfOk result (IsAnswer problem.now) }
    ensures limit { IfOk result
        (λ a. IsLimitedUnless (W.has_stopped watch.old) (W.has_stopped watch.new) a (IsLimitedFrom problem.now
        limits.now.bids start.now a)) }
    ensures run { IfOk result (IsOfPhasesFrom problem.now limits.now.bids start.now) }
    ensures asked { IfOk result (IsAsked (W.was_asked watch.new)) }
{
    let mut columns = Columns::new(alloc, problem.objects())?;
    let flat = FlatRows::build(alloc, problem, &mut columns)?;
    if let Some(answer) = answered(alloc, problem, &flat)? {
        return Ok(answer);
    }
    drop(columns);
    let market = Market::from_start(alloc, &flat, start)?;
    let ended = run(alloc, &flat, limits.bids, market, start, watch);
    concluded(alloc, problem, flat, ended)
}
