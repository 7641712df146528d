//! The result of a phase, with the places of the arcs in the problem's list.

ghost use Rattle.std.specs.Prelude.{ℕ, true, false, ◌≡◌, ◌<◌, length, IfOk, IfSome};
ghost use Rattle.auc_direct.specs.Held.{AreHeld, AreHolders, AreListed, arc_by};
ghost use Rattle.auc_market.specs.Market.{own_at};

use auc_answers::Gathered;
use auc_graph::{Arc, ArcList};
use auc_letters::Held;
use auc_market::Holdings;
use auc_rows::{FlatRows, ShortArc};
use std::alloc::{AllocError, Global};

/// Whether an arc is the one by which its person holds an object, or one with the same object and cost.
#[inline(always)]
fn is_own(owns: &[ShortArc], arc: &Arc) -> bool
    requires { arc.now.person < length owns.now }
    ensures yes { result ≡ true → arc.now ≡ arc_by arc.now.person (own_at owns.now arc.now.person) }
    ensures no { result ≡ false → (q : ℕ) → arc.now ≡ arc_by q (own_at owns.now q) → ⊥ }
{
    let own = owns[arc.person as usize];
    own.object == arc.object && i64::from(own.cost) == arc.cost
}

/// The place in the problem's list of a person's arc to an object, if the list has the order of the rows and the row is
/// sorted by object. The caller checks whether the arc is there.
#[inline(always)]
fn place_of(rows: &FlatRows, person: u32, object: u32) -> usize
    requires { person < length rows.now.rows }
{
    let before = rows.row(person).partition_point(|arc| arc.object < object);
    rows.start(person).saturating_add(before)
}

/// The holder of each object and the place of the holder's arc, where the rows let it be guessed; else none.
/// O(persons * log arcs of a person).
fn guessed(
    alloc: Global,
    problem: &ArcList,
    rows: &FlatRows,
    holdings: &Holdings,
) -> Result<Option<Vec<Option<Held>>>, AllocError>
    requires persons { length rows.now.rows ≡ problem.now.persons }
    requires holders { AreHolders problem.now holdings.now.holders.items holdings.now.owns.items }
    ensures held { IfOk result (λ o. IfSome o (λ v. AreHeld problem.now holdings.now.holders.items
        holdings.now.owns.items v.items)) }
    ensures many { IfOk result (λ o. IfSome o (λ v. length v.items ≡ length holdings.now.holders.items)) }
{
    let arcs = problem.arcs();
    let mut holders = vec![in alloc; None; holdings.holders.len()]?;
    for person in 0..rows.persons() {
        let object = holdings.owns[person as usize].object;
        let place = place_of(rows, person, object);
        let Some(arc) = arcs.get(place) else {
            return Ok(None);
        };
        if arc.person != person || !is_own(holdings.owns.as_slice(), arc) {
            return Ok(None);
        }
        holders[arc.object as usize] = Some(Held {
            person,
            arc: place as u32,
        });
    }
    Ok(Some(holders))
}

/// The same by one pass over the problem's list.
fn passed(
    alloc: Global,
    problem: &ArcList,
    holdings: &Holdings,
) -> Result<Vec<Option<Held>>, AllocError>
    requires holders { AreHolders problem.now holdings.now.holders.items holdings.now.owns.items }
    requires listed { AreListed problem.now holdings.now.holders.items holdings.now.owns.items }
    ensures held { IfOk result (λ v. AreHeld problem.now holdings.now.holders.items holdings.now.owns.items v.items) }
    ensures many { IfOk result (λ v. length v.items ≡ length holdings.now.holders.items) }
{
    let mut holders = vec![in alloc; None; holdings.holders.len()]?;
    for (place, arc) in problem.arcs().iter().enumerate() {
        if is_own(holdings.owns.as_slice(), arc) {
            holders[arc.object as usize] = Some(Held {
                person: arc.person,
                arc: place as u32,
            });
        }
    }
    Ok(holders)
}

/// The holder of each object, by which arc, and the prices. Rows have no places of arcs, so these are guessed. Where a
/// guess is wrong, they are found in one pass over the problem's list.
///
/// # Errors
///
/// Only where memory was refused.
pub(crate) fn gather(
    alloc: Global,
    problem: &ArcList,
    rows: &FlatRows,
    holdings: Holdings,
) -> Result<Gathered, AllocError>
    requires persons { length rows.now.rows ≡ problem.now.persons }
    requires holders { AreHolders problem.now holdings.holders.items holdings.owns.items }
    requires listed { AreListed problem.now holdings.holders.items holdings.owns.items }
    ensures held { IfOk result (λ g. AreHeld problem.now holdings.holders.items holdings.owns.items g.holders.items) }
    ensures many { IfOk result (λ g. length g.holders.items ≡ length holdings.holders.items) }
    ensures prices { IfOk result (λ g. g.prices.items ≡ holdings.prices.items) }
{
    let guessed = guessed(alloc, problem, rows, &holdings)?;
    let holders = match guessed {
        Some(holders) => holders,
        None => passed(alloc, problem, &holdings)?,
    };
    let Holdings { prices, .. } = holdings;
    Ok(Gathered { holders, prices })
}
