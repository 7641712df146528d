//! A solve over the caller's memory.

ghost use Rattle.std.specs.Prelude.{◌≡◌, IfOk};
ghost use Rattle.auc_answers.specs.Answers.{IsAnswer};
ghost use Rattle.auc_call.specs.Memory.{AreSizes, memory};
ghost use Rattle.auc_call.specs.Drivers.{IsSolvedBy};
ghost use Rattle.auc_call.specs.Given.{listed_problem};
ghost use Rattle.auc_call.specs.Running.{IsAnswerWritten};
ghost use Rattle.auc_call.specs.Solving.{IsSolved, Runs, Solves};

use crate::driver::{Driver, answer_of};
use crate::given::{GivenArcs, Run};
use crate::handing::{hand_bracket, hand_hall, hand_optimal};
use crate::solved::{Failed, Solved};
use crate::start::start_fault_by;
use auc_direct::Watch;
use auc_graph::{ArcList, objects_or};
use auc_world::Answer;
use std::alloc::Global;

/// Hands out an answer.
fn hand_out(
    problem: &ArcList,
    answer: &Answer,
    choice: &mut [u32],
    prices: &mut [i64],
    set: &mut [u32],
) -> Solved
    requires answer { IsAnswer problem.now answer.now }
    requires sizes { AreSizes problem.now (memory choice.old prices.old set.old) }
    ensures solved { IsSolved problem.now (memory choice.old prices.old set.old)
        (memory choice.new prices.new set.new) result }
    ensures written { IsAnswerWritten problem.now answer.now (memory choice.new prices.new set.new) result }
{
    match answer {
        Answer::Optimal(cert) => hand_optimal(problem, cert, choice, prices),
        Answer::Infeasible(cert) => hand_hall(problem, cert, choice, prices, set),
        Answer::Bracket(cert) => hand_bracket(problem, cert, choice, prices),
        Answer::Broken(_) => unreachable!("no guard is ever hit"),
    }
}

/// Solves a problem by this solver, and writes the answer into the caller's memory.
pub fn solve_problem<W: Watch>(
    alloc: Global,
    driver: Driver,
    problem: &ArcList,
    run: &mut Run<'_, W>,
    choice: &mut [u32],
    prices: &mut [i64],
    set: &mut [u32],
) -> Result<Solved, Failed>
    requires sizes { AreSizes problem.now (memory choice.old prices.old set.old) }
    ensures runs { Runs driver problem.now run.old.start.now
        (memory choice.old prices.old set.old) (memory choice.new prices.new set.new) result }
    ensures run { IfOk result
        (IsSolvedBy driver problem.now run.old.start.now run.old.bids (W.has_stopped run.new.watch)
        (W.was_asked run.new.watch) (memory choice.new prices.new set.new)) }
{
    if let Some(fault) = start_fault_by(driver, problem, run.start) {
        return Err(Failed::Start(fault));
    }
    let answer = answer_of(alloc, driver, problem, run)?;
    Ok(hand_out(problem, &answer, choice, prices, set))
}

/// Solves the problem of these arcs by this solver, and writes the answer into the caller's memory.
pub(crate) fn solve_into<W: Watch>(
    alloc: Global,
    driver: Driver,
    given: &GivenArcs,
    run: &mut Run<'_, W>,
    choice: &mut [u32],
    prices: &mut [i64],
    set: &mut [u32],
) -> Result<Solved, Failed>
    ensures solves { Solves driver (listed_problem given.now) run.old.start.now
        (memory choice.old prices.old set.old) (memory choice.new prices.new set.new) result }
    ensures run { IfOk result
        (IsSolvedBy driver (listed_problem given.now) run.old.start.now run.old.bids (W.has_stopped run.new.watch)
        (W.was_asked run.new.watch) (memory choice.new prices.new set.new)) }
{
    let wanted = objects_or(given.objects, given.persons) as usize;
    let places = given.persons as usize;
    if choice.len() != places || prices.len() != wanted || set.len() != places {
        return Err(Failed::Sizes);
    }
    let arcs = Vec::from_slice(alloc, given.arcs)?;
    let problem = ArcList::from_arcs(given.persons, given.objects, arcs)?;
    solve_problem(alloc, driver, &problem, run, choice, prices, set)
}
