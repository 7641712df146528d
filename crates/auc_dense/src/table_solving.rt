//! A solve of a table over the caller's memory.

ghost use Rattle.std.specs.Prelude.{◌≡◌, None, length, IfOk, IfErr};
ghost use Rattle.auc_graph.specs.InMemory.{problem_fault};
ghost use Rattle.auc_graph.specs.Problem.{IsProblem};
ghost use Rattle.auc_call.specs.Drivers.{IsAskedSolve};
ghost use Rattle.auc_call.specs.Memory.{AreSizes, memory};
ghost use Rattle.auc_dense.specs.Given.{IsGivenTable, tabled_problem};
ghost use Rattle.auc_dense.specs.TableSolving.{IsRefused, SolvesArcs, SolvesTable};

use crate::given::GivenTable;
use crate::handing::hand_assignment;
use crate::naming::name_objects;
use crate::quick::{Quick, search_quickly};
use crate::shortage::hand_shortage;
use crate::table::{arcs_of_table, count_arcs, is_table};
use auc_call::{Driver, Failed, Run, Solved, Watch, solve_problem};
use auc_graph::{ArcList, list_fault, objects_or};
use auc_table::Table;
use std::alloc::{AllocError, Global};

/// How many arcs a table has, whose problem has no fault; or its first fault, for which no memory is taken.
fn arcs_of_problem(given: &GivenTable) -> Result<usize, Failed>
    requires { IsGivenTable given.now }
    ensures problem { IfOk result (λ count. IsProblem (tabled_problem given.now)) }
    ensures faultless { IfOk result (λ count. problem_fault (tabled_problem given.now) ≡ None) }
    ensures refused { IfErr result (IsRefused (tabled_problem given.now)) }
{
    let GivenTable {
        persons,
        objects,
        costs,
        stride,
        gap,
    } = *given;
    if let Some(fault) = list_fault(persons, objects, &[]) {
        return Err(Failed::Fault(fault));
    }
    let wanted = objects_or(objects, persons);
    let count = count_arcs(persons, wanted, costs, stride, gap)?;
    Ok(count)
}

/// The problem of a table that has so many arcs, and no fault.
fn problem_of_table(alloc: Global, given: &GivenTable, count: usize) -> Result<ArcList, AllocError>
    requires table { IsGivenTable given.now }
    requires problem { IsProblem (tabled_problem given.now) }
    requires faultless { problem_fault (tabled_problem given.now) ≡ None }
    ensures { IfOk result (λ p. p ≡ tabled_problem given.now) }
{
    let GivenTable {
        persons,
        objects,
        costs,
        stride,
        gap,
    } = *given;
    let wanted = objects_or(objects, persons);
    let arcs = arcs_of_table(alloc, persons, wanted, costs, stride, gap, count)?;
    match ArcList::from_arcs(persons, objects, arcs) {
        Ok(problem) => Ok(problem),
        Err(_) => unreachable!("no arc is at fault"),
    }
}

/// Solves a problem of a table by its arcs, and writes objects in place of them.
fn solve_arcs<W: Watch>(
    alloc: Global,
    problem: &ArcList,
    run: &mut Run<'_, W>,
    choice: &mut [u32],
    prices: &mut [i64],
    set: &mut [u32],
) -> Result<Solved, Failed>
    requires { AreSizes problem.now (memory choice.old prices.old set.old) }
    ensures solves { SolvesArcs problem.now run.old.start.now run.old.bids (W.has_stopped run.new.watch)
        (memory choice.old prices.old set.old) (memory choice.new prices.new set.new) result }
    ensures asked { IfOk result (IsAskedSolve (W.was_asked run.new.watch)) }
{
    let solved = solve_problem(alloc, Driver::Direct, problem, run, choice, prices, set)?;
    name_objects(problem.arcs(), solved, choice);
    Ok(solved)
}

/// Solves the problem of a table directly, and writes the answer into the caller's memory, with objects in place of
/// arcs. A search over the table itself comes first.
pub(crate) fn solve_table_into<W: Watch>(
    alloc: Global,
    given: &GivenTable,
    run: &mut Run<'_, W>,
    choice: &mut [u32],
    prices: &mut [i64],
    set: &mut [u32],
) -> Result<Solved, Failed>
    ensures solves { SolvesTable (tabled_problem given.now) given.now.stride (length given.now.costs.now)
        run.old.start.now run.old.bids (W.has_stopped run.new.watch) (memory choice.old prices.old set.old)
        (memory choice.new prices.new set.new) result }
    ensures asked { IfOk result (IsAskedSolve (W.was_asked run.new.watch)) }
{
    let GivenTable {
        persons,
        objects,
        costs,
        stride,
        gap,
    } = *given;
    let wanted = objects_or(objects, persons);
    let places = persons as usize;
    if choice.len() != places || prices.len() != wanted as usize || set.len() != places {
        return Err(Failed::Sizes);
    }
    if !is_table(persons, wanted, stride, costs.len()) {
        return Err(Failed::Sizes);
    }
    let count = arcs_of_problem(given)?;
    let table = Table {
        persons,
        objects: wanted,
        stride,
        costs,
    };
    match search_quickly(alloc, &table, gap, count, run)? {
        Some(Quick::Assigned(found)) => {
            hand_assignment(persons, &found, choice, prices);
            return Ok(found.solved);
        }
        Some(Quick::Short(short)) => return Ok(hand_shortage(&short, choice, set)),
        None => {}
    }
    let problem = problem_of_table(alloc, given, count)?;
    solve_arcs(alloc, &problem, run, choice, prices, set)
}
