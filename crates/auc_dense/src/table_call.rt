//! The call over a table.

ghost use Rattle.std.specs.Prelude.{◌≡◌, ◌⊎◌, length, pos, true};
ghost use Rattle.auc_call.specs.Codes.{stop_kind};
ghost use Rattle.auc_call.specs.Memory.{memory};
ghost use Rattle.auc_call.specs.Start.{start_fault};
ghost use Rattle.auc_call.specs.Limited.{IsLimitTold, UnlessStopped};
ghost use Rattle.auc_dense.specs.Given.{tabled_problem};
ghost use Rattle.auc_dense.specs.Naming.{ByObjects};
ghost use Rattle.auc_dense.specs.Told.{IsTableTold};

use crate::given::GivenTable;
use crate::table_solving::solve_table_into;
use auc_call::{Found, Run, Watch, tell_solved};
use std::alloc::Global;

/// Solves as [`auc_call::solve_call`] does, but the problem of a table. The arcs are those of the entries that are no
/// gap, row by row. What is between rows and after the last one is not read.
///
/// After [`auc_call::OPTIMAL`] and [`auc_call::BRACKET`] `choice` holds for each person his object in place of his arc.
/// After [`auc_call::REFUSED`] a cost's `found.place` is that of the entry in a table whose stride is the number of
/// objects. A stride below that number, persons * objects of 2^32 and more, and a row that doesn't lie within `costs`,
/// are [`auc_call::SIZES`].
///
/// A search over the table comes first ([`auc_table::propose`]), in which to look over a row counts as a bid. Its
/// answer is taken where one pass over the table shows that it is least, or that some persons may have too few objects.
/// With as many objects as persons it starts from `start`, where these prices give a greater lower bound than prices of
/// 0. That takes O(persons^2 * objects) time at most, and at most 53 bytes of memory an object and 48 a person.
///
/// Where there are too few bids for the search, and no start, exactly so many are made from prices of 0, at one unit of
/// cost. Their prices give the bound, and the assignment is filled up by a few passes over the table and by paths.
///
/// With a start and too few bids the arcs are written out and solved. So they are where the bids give each person an
/// object, where all costs are the same, and where a price would be too high. That takes the time and memory of
/// [`auc_call::solve_call`], but for its copy of the arcs, which is the only one here: 16 bytes for each entry that is
/// no gap.
///
/// `run.watch` is asked within the search after about as many entries as the direct solver scans between two questions
/// ([`auc_call::Pausing`]), at its end, and as [`auc_call::solve_call`] says while the arcs are solved; not while the
/// entries are counted, a proposal is tried, bids are made without a search or the arcs are written out. So it is asked
/// once at least, but for where there is no assignment: clause `asked`. After a no within the search the status is
/// [`auc_call::BRACKET`], with the kind of a limit on bids, or [`auc_call::INFEASIBLE`]. The assignment and the bound
/// are those to which the search had come, filled up in the same way.
pub fn solve_table_call<W: Watch>(
    alloc: Global,
    given: &GivenTable,
    run: &mut Run<'_, W>,
    choice: &mut [u32],
    prices: &mut [i64],
    hall_objects: &mut [u32],
    found: &mut Found,
) -> i32
    ensures told { IsTableTold (tabled_problem given.now) given.now.stride (length given.now.costs.now)
        (start_fault (tabled_problem given.now) run.old.start.now) result
        (memory choice.old prices.old hall_objects.old) (memory choice.new prices.new hall_objects.new) found.old
        found.new }
    ensures limit { result ≡ pos 4
        → UnlessStopped (W.has_stopped run.new.watch) (found.new.kind ≡ stop_kind)
        (ByObjects (tabled_problem given.now).arcs choice.new
        (λ places. IsLimitTold (tabled_problem given.now) run.old.start.now run.old.bids
        places prices.new found.new.kind found.new.lower found.new.cost)) }
    ensures asked { (result ≡ pos 0) ⊎ (result ≡ pos 4) → W.was_asked run.new.watch ≡ true }
{
    let solved = solve_table_into(alloc, given, run, choice, prices, hall_objects);
    tell_solved(solved, found)
}
