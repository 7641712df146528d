//! The solver and the checker as C calls them: the exports alone, over [`auc_call`] and [`auc_dense`].
//!
//! Each export takes what a C program holds: numbers, references to `#[repr(C)]` structs, and slices as a pointer and a
//! length. What a call answers is a status; the rest goes out through `&mut`. No call keeps anything after its return.
//! What the caller owes is at the top of `c/sigdorf.h`. The watch of a call is in `watch.rt`.
#![tactic(auto)]

ghost use Rattle.std.specs.Prelude.{◌≡◌, ◌≢◌, ◌==◌, ◌⊎◌, length, not, pos};
ghost use Rattle.auc_graph.specs.InMemory.{problem_from};
ghost use Rattle.auc_call.specs.Codes.{stop_kind};
ghost use Rattle.auc_call.specs.Memory.{memory};
ghost use Rattle.auc_call.specs.Start.{start_fault, start_fault_by_messages};
ghost use Rattle.auc_call.specs.Limited.{IsLimitTold};
ghost use Rattle.auc_call.specs.Running.{IsRunTold};
ghost use Rattle.auc_call.specs.Told.{IsClaimChecked, IsHallChecked, IsListTold};
ghost use Rattle.auc_dense.specs.Naming.{ByObjects};
ghost use Rattle.auc_dense.specs.Table.{table_problem};
ghost use Rattle.auc_dense.specs.Told.{IsTableTold};

mod watch;

use auc_call::{
    Found, GivenArcs, Onward, Run, check_call, check_hall_call, solve_by_messages_call, solve_call,
};
use auc_dense::{GivenTable, solve_table_call};
use auc_graph::Arc;
use std::alloc::Global;
pub use watch::Watching;

/// Solves directly the problem of so many persons, so many objects (0: as many as persons) and these arcs, from nothing
/// where `start` is empty, else from its prices: see [`auc_call::solve_call`].
#[unsafe(no_mangle)]
pub extern "C" fn sigdorf_solve(
    alloc: Global,
    persons: u32,
    objects: u32,
    arcs: &[Arc],
    start: &[i64],
    bids: u64,
    choice: &mut [u32],
    prices: &mut [i64],
    hall_objects: &mut [u32],
    found: &mut Found,
) -> i32
    ensures told { IsListTold (problem_from persons objects arcs.now)
        (start_fault (problem_from persons objects arcs.now) start.now) result
        (memory choice.old prices.old hall_objects.old) (memory choice.new prices.new hall_objects.new)
        found.old found.new }
    ensures limit { result ≡ pos 4
        → IsLimitTold (problem_from persons objects arcs.now) start.now bids
        choice.new prices.new found.new.kind found.new.lower found.new.cost }
{
    let given = GivenArcs {
        persons,
        objects,
        arcs,
    };
    solve_call(
        alloc,
        &given,
        &mut Run {
            start,
            bids,
            watch: Onward,
        },
        choice,
        prices,
        hall_objects,
        found,
    )
}

/// Solves as [`sigdorf_solve`] does, under a watch, which is asked as [`auc_call::solve_call`] says. After its no,
/// `watch.stopped` is 1, and the status is that of a bracket with the kind of a limit on bids, or that there is no
/// assignment. Clause `limit` says it of a bracket alone. Clause `asked`: where an assignment was found, it was asked.
#[unsafe(no_mangle)]
pub extern "C" fn sigdorf_solve_by_watch(
    alloc: Global,
    persons: u32,
    objects: u32,
    arcs: &[Arc],
    start: &[i64],
    bids: u64,
    watch: &mut Watching,
    choice: &mut [u32],
    prices: &mut [i64],
    hall_objects: &mut [u32],
    found: &mut Found,
) -> i32
    ensures told { IsListTold (problem_from persons objects arcs.now)
        (start_fault (problem_from persons objects arcs.now) start.now) result
        (memory choice.old prices.old hall_objects.old) (memory choice.new prices.new hall_objects.new)
        found.old found.new }
    ensures limit { result ≡ pos 4
        → ((watch.new.stopped ≡ 1) × (found.new.kind ≡ stop_kind))
        ⊎ IsLimitTold (problem_from persons objects arcs.now) start.now bids
        choice.new prices.new found.new.kind found.new.lower found.new.cost }
    ensures asked { (result ≡ pos 0) ⊎ (result ≡ pos 4) → watch.new.asked ≢ 0 }
    ensures stopped { (watch.new.stopped ≡ 0) ⊎ (watch.new.stopped ≡ 1) }
    ensures kept { (watch.new.timer ≡ watch.old.timer) × (watch.new.stop ≡ watch.old.stop)
        × (watch.new.progress ≡ watch.old.progress) }
{
    let given = GivenArcs {
        persons,
        objects,
        arcs,
    };
    let mut run = Run {
        start,
        bids,
        watch: watch.begin(),
    };
    let status = solve_call(alloc, &given, &mut run, choice, prices, hall_objects, found);
    watch.end(&run.watch);
    status
}

/// Solves as [`sigdorf_solve`] does, but the problem of a table, where an entry that equals `none` is no arc, and with
/// objects in place of arcs: see [`auc_dense::solve_table_call`].
#[unsafe(no_mangle)]
pub extern "C" fn sigdorf_solve_dense(
    alloc: Global,
    persons: u32,
    objects: u32,
    costs: &[i64],
    stride: usize,
    none: i64,
    start: &[i64],
    bids: u64,
    choice: &mut [u32],
    prices: &mut [i64],
    hall_objects: &mut [u32],
    found: &mut Found,
) -> i32
    ensures told { IsTableTold (table_problem persons objects costs.now stride none) stride (length costs.now)
        (start_fault (table_problem persons objects costs.now stride none) start.now) result
        (memory choice.old prices.old hall_objects.old) (memory choice.new prices.new hall_objects.new)
        found.old found.new }
    ensures limit { result ≡ pos 4
        → ByObjects (table_problem persons objects costs.now stride none).arcs choice.new
        (λ places. IsLimitTold (table_problem persons objects costs.now stride none) start.now bids
        places prices.new found.new.kind found.new.lower found.new.cost) }
{
    let given = GivenTable {
        persons,
        objects,
        costs,
        stride,
        gap: none,
    };
    solve_table_call(
        alloc,
        &given,
        &mut Run {
            start,
            bids,
            watch: Onward,
        },
        choice,
        prices,
        hall_objects,
        found,
    )
}

/// Solves as [`sigdorf_solve_dense`] does, under a watch, as [`sigdorf_solve_by_watch`] does: it is asked as
/// [`auc_dense::solve_table_call`] says.
#[unsafe(no_mangle)]
pub extern "C" fn sigdorf_solve_dense_by_watch(
    alloc: Global,
    persons: u32,
    objects: u32,
    costs: &[i64],
    stride: usize,
    none: i64,
    start: &[i64],
    bids: u64,
    watch: &mut Watching,
    choice: &mut [u32],
    prices: &mut [i64],
    hall_objects: &mut [u32],
    found: &mut Found,
) -> i32
    ensures told { IsTableTold (table_problem persons objects costs.now stride none) stride (length costs.now)
        (start_fault (table_problem persons objects costs.now stride none) start.now) result
        (memory choice.old prices.old hall_objects.old) (memory choice.new prices.new hall_objects.new)
        found.old found.new }
    ensures limit { result ≡ pos 4
        → ((watch.new.stopped ≡ 1) × (found.new.kind ≡ stop_kind))
        ⊎ ByObjects (table_problem persons objects costs.now stride none).arcs choice.new
        (λ places. IsLimitTold (table_problem persons objects costs.now stride none) start.now bids
        places prices.new found.new.kind found.new.lower found.new.cost) }
    ensures asked { (result ≡ pos 0) ⊎ (result ≡ pos 4) → watch.new.asked ≢ 0 }
    ensures stopped { (watch.new.stopped ≡ 0) ⊎ (watch.new.stopped ≡ 1) }
    ensures kept { (watch.new.timer ≡ watch.old.timer) × (watch.new.stop ≡ watch.old.stop)
        × (watch.new.progress ≡ watch.old.progress) }
{
    let given = GivenTable {
        persons,
        objects,
        costs,
        stride,
        gap: none,
    };
    let mut run = Run {
        start,
        bids,
        watch: watch.begin(),
    };
    let status = solve_table_call(alloc, &given, &mut run, choice, prices, hall_objects, found);
    watch.end(&run.watch);
    status
}

/// Solves as [`sigdorf_solve`] does, but by messages: see [`auc_call::solve_by_messages_call`].
#[unsafe(no_mangle)]
pub extern "C" fn sigdorf_solve_by_messages(
    alloc: Global,
    persons: u32,
    objects: u32,
    arcs: &[Arc],
    start: &[i64],
    bids: u64,
    choice: &mut [u32],
    prices: &mut [i64],
    hall_objects: &mut [u32],
    found: &mut Found,
) -> i32
    ensures told { IsListTold (problem_from persons objects arcs.now)
        (start_fault_by_messages (problem_from persons objects arcs.now) start.now) result
        (memory choice.old prices.old hall_objects.old) (memory choice.new prices.new hall_objects.new)
        found.old found.new }
    ensures run { result ≢ pos 2 → result ≢ pos 5 → result ≢ pos 6 → result ≢ pos 7
        → IsRunTold (problem_from persons objects arcs.now) start.now bids
        (memory choice.new prices.new hall_objects.new) result found.old found.new }
{
    let given = GivenArcs {
        persons,
        objects,
        arcs,
    };
    solve_by_messages_call(
        alloc,
        &given,
        &mut Run {
            start,
            bids,
            watch: Onward,
        },
        choice,
        prices,
        hall_objects,
        found,
    )
}

/// Checks that the arcs at these places are an assignment of this cost than which none costs less, as the prices show:
/// see [`auc_call::check_call`].
#[unsafe(no_mangle)]
pub extern "C" fn sigdorf_check(
    alloc: Global,
    persons: u32,
    objects: u32,
    arcs: &[Arc],
    choice: &[u32],
    prices: &[i64],
    cost: i64,
    found: &mut Found,
) -> i32
    ensures told { IsClaimChecked (problem_from persons objects arcs.now) choice.now prices.now cost
        result found.old found.new }
{
    let given = GivenArcs {
        persons,
        objects,
        arcs,
    };
    check_call(alloc, &given, choice, prices, cost, found)
}

/// Checks that these persons have arcs to none but these objects, which are fewer: see [`auc_call::check_hall_call`].
#[unsafe(no_mangle)]
pub extern "C" fn sigdorf_check_hall(
    alloc: Global,
    persons: u32,
    objects: u32,
    arcs: &[Arc],
    hall_persons: &[u32],
    hall_objects: &[u32],
    found: &mut Found,
) -> i32
    ensures told { IsHallChecked (problem_from persons objects arcs.now) hall_persons.now hall_objects.now
        result found.old found.new }
{
    let given = GivenArcs {
        persons,
        objects,
        arcs,
    };
    check_hall_call(alloc, &given, hall_persons, hall_objects, found)
}
