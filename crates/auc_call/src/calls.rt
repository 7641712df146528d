//! The calls. What each owes its caller is a record of one fact for each status (`specs/Told`).

ghost use Rattle.std.specs.Prelude.{◌≡◌, ◌≢◌, ◌⊎◌, pos, true};
ghost use Rattle.auc_call.specs.Codes.{stop_kind};
ghost use Rattle.auc_call.specs.Given.{listed_problem};
ghost use Rattle.auc_call.specs.Memory.{memory};
ghost use Rattle.auc_call.specs.Start.{start_fault, start_fault_by_messages};
ghost use Rattle.auc_call.specs.Limited.{IsLimitTold, UnlessStopped};
ghost use Rattle.auc_call.specs.Running.{IsRunTold};
ghost use Rattle.auc_call.specs.Told.{IsClaimChecked, IsHallChecked, IsListTold};

use crate::checking::{check_at, check_hall_at};
use crate::driver::Driver;
use crate::found::Found;
use crate::given::{GivenArcs, Run};
use crate::solving::solve_into;
use crate::telling::{tell_checked, tell_solved};
use auc_direct::Watch;
use std::alloc::Global;

/// Solves a problem: a least-cost assignment, persons who have arcs to too few objects, or, where the bids don't
/// suffice, an assignment and a bound on what any costs.
///
/// `choice` and `hall_objects` have a place for each person, and `prices` one for each object. After
/// [`OPTIMAL`](crate::OPTIMAL) and [`BRACKET`](crate::BRACKET) `choice` holds for each person the place in `given.arcs`
/// of his arc, and `prices` the prices that show it; after [`INFEASIBLE`](crate::INFEASIBLE) `choice` begins with
/// `found.persons` persons, and `hall_objects` with the `found.objects` objects of their arcs, both rising. All else
/// stays as it was.
///
/// The solver is the direct one, [`auc_direct::solve_direct_watched`], or from a start
/// [`auc_direct::solve_direct_watched_from`], whose time and memory it takes, beside a copy of the arcs.
///
/// `run.watch` is asked before each phase and between bids, as [`auc_direct::solve_direct_watched`] says, and not
/// before the arcs are copied. After its no the status is [`BRACKET`](crate::BRACKET), with the kind of a limit on
/// bids, or that there is no assignment. Without a no a bracket is left only by a limit: clause `limit`. It is asked
/// once at least, but for where there is no assignment: clause `asked`.
pub fn solve_call<W: Watch>(
    alloc: Global,
    given: &GivenArcs,
    run: &mut Run<'_, W>,
    choice: &mut [u32],
    prices: &mut [i64],
    hall_objects: &mut [u32],
    found: &mut Found,
) -> i32
    ensures told { IsListTold (listed_problem given.now)
        (start_fault (listed_problem given.now) run.old.start.now) result
        (memory choice.old prices.old hall_objects.old) (memory choice.new prices.new hall_objects.new) found.old
        found.new }
    ensures limit { result ≡ pos 4
        → UnlessStopped (W.has_stopped run.new.watch) (found.new.kind ≡ stop_kind)
        (IsLimitTold (listed_problem given.now) run.old.start.now run.old.bids
        choice.new prices.new found.new.kind found.new.lower found.new.cost) }
    ensures asked { (result ≡ pos 0) ⊎ (result ≡ pos 4) → W.was_asked run.new.watch ≡ true }
{
    let solved = solve_into(
        alloc,
        Driver::Direct,
        given,
        run,
        choice,
        prices,
        hall_objects,
    );
    tell_solved(solved, found)
}

/// Solves as [`solve_call`] does, but by messages, as the program does without `--direct`: clause `run` says which run
/// the answer is of. Of several least assignments it may be another one. A start is for as many objects as persons.
/// `run.watch` isn't asked.
///
/// Takes the time of [`auc_world::solve_serial`], which may be far longer where there are more objects than persons and
/// costs differ much; and 44 bytes of memory an arc, the caller's own among them.
pub fn solve_by_messages_call<W: Watch>(
    alloc: Global,
    given: &GivenArcs,
    run: &mut Run<'_, W>,
    choice: &mut [u32],
    prices: &mut [i64],
    hall_objects: &mut [u32],
    found: &mut Found,
) -> i32
    ensures told { IsListTold (listed_problem given.now)
        (start_fault_by_messages (listed_problem given.now) run.old.start.now) result
        (memory choice.old prices.old hall_objects.old) (memory choice.new prices.new hall_objects.new) found.old
        found.new }
    ensures run { result ≢ pos 2 → result ≢ pos 5 → result ≢ pos 6 → result ≢ pos 7
        → IsRunTold (listed_problem given.now) run.old.start.now run.old.bids
        (memory choice.new prices.new hall_objects.new) result found.old found.new }
{
    let solved = solve_into(
        alloc,
        Driver::Messages,
        given,
        run,
        choice,
        prices,
        hall_objects,
    );
    tell_solved(solved, found)
}

/// Checks that the arcs at these places are an assignment of this cost than which none costs less, as the prices show,
/// whoever found it. The slices are as [`solve_call`] has left them; it takes O(arcs + persons + objects) time, and
/// memory for a copy of the arcs.
///
/// What [`solve_call`] answers as [`OPTIMAL`](crate::OPTIMAL) passes, unless memory is refused.
pub fn check_call(
    alloc: Global,
    given: &GivenArcs,
    choice: &[u32],
    prices: &[i64],
    cost: i64,
    found: &mut Found,
) -> i32
    ensures told { IsClaimChecked (listed_problem given.now) choice.now prices.now cost result found.old found.new }
{
    let checked = check_at(alloc, given, choice, prices, cost);
    tell_checked(checked, found)
}

/// Checks that these persons have arcs to none but these objects, which are fewer, whoever found them. Both rise. It
/// takes O(arcs + persons + objects) time, and memory for a copy of the arcs.
///
/// What [`solve_call`] answers as [`INFEASIBLE`](crate::INFEASIBLE) passes, unless memory is refused.
pub fn check_hall_call(
    alloc: Global,
    given: &GivenArcs,
    hall_persons: &[u32],
    hall_objects: &[u32],
    found: &mut Found,
) -> i32
    ensures told { IsHallChecked (listed_problem given.now) hall_persons.now hall_objects.now result found.old
        found.new }
{
    let checked = check_hall_at(alloc, given, hall_persons, hall_objects);
    tell_checked(checked, found)
}
