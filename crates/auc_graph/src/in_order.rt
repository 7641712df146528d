//! The layout of the rows, for arcs in the order of their persons, and the spread of their costs: one pass over the
//! arcs, each appended to the others.

ghost use Rattle.std.specs.Prelude.{◌≡◌, ◌≤◌, ℕ, length, slice_index_or, vec_capacity, IfOk, IfSome};
ghost use Rattle.auc_graph.specs.Layout.{IsLaidOut};

use crate::arc::ArcList;
use crate::layout::{Kept, LaidOut};
use crate::rows::RowArc;
use std::alloc::{AllocError, Global};

/// Sets the start of the rows up to the one of this number to a place; those that have one keep it.
#[inline(always)]
fn begin_rows(offsets: &mut Vec<usize>, len: usize, at: usize)
    requires few { length offsets.old.items ≤ len }
    requires room { len ≤ vec_capacity offsets.old }
    ensures len { length offsets.new.items ≡ len }
    ensures same { (j : ℕ) → slice_index_or offsets.new.items j at ≡ slice_index_or offsets.old.items j at }
    ensures room { vec_capacity offsets.new ≡ vec_capacity offsets.old }
{
    while offsets.len() < len {
        offsets.push_reserved(at);
    }
}

/// The layout of the rows, where there are arcs and they are in the order of their persons.
pub(crate) fn rows_in_order<A: Kept, F: FnMut(A)>(
    alloc: Global,
    problem: &ArcList,
    note: &mut F,
) -> Result<Option<LaidOut<A>>, AllocError>
    requires { (state : F) (x : _) → F.pre state x }
    ensures { IfOk result (λ r. IfSome r (IsLaidOut A.of problem.now)) }
{
    let persons = problem.persons();
    let arcs = problem.arcs();
    // With no arc there is no first cost, and nothing to gain here.
    let Some(first) = arcs.first() else {
        return Ok(None);
    };
    let mut least = first.cost;
    let mut greatest = first.cost;
    let mut offsets = Vec::with_capacity(alloc, persons as usize + 1)?;
    let mut placed = Vec::with_capacity(alloc, arcs.len())?;
    for (i, arc) in arcs.iter().enumerate() {
        let before = arc.person as usize + 1;
        // One test serves nearly every arc: it has the same person as the arc before it.
        if before != offsets.len() {
            if before < offsets.len() {
                return Ok(None);
            }
            begin_rows(&mut offsets, before, i);
        }
        let kept = A::of(RowArc {
            cost: arc.cost as i32,
            object: arc.object,
            arc: i as u32,
        });
        placed.push_reserved(kept);
        note(kept);
        least = least.min(arc.cost);
        greatest = greatest.max(arc.cost);
    }
    begin_rows(&mut offsets, persons as usize + 1, arcs.len());
    Ok(Some(LaidOut {
        persons,
        objects: problem.objects(),
        spread: greatest - least,
        offsets,
        arcs: placed,
    }))
}
