//! A partial assignment.

ghost use Rattle.std.specs.Prelude.{◌≡◌, ◌≢◌, ◌<◌, ℕ, length, All, Contains, Some, None, false, IsTrue, IfOk, IfSome};
ghost use Rattle.std.specs.Prelude.{IfNone, slice_index_or, slice_set};
ghost use Rattle.auc_graph.specs.declared.rows.RowArc.{RowArc};
ghost use Rattle.auc_hall.specs.Partial.{pick, IsFor, IsNotPlaced, MayPlace};
ghost use Rattle.auc_hall.specs.Matched.{AreTied, IsMatched};

use auc_graph::{RowArc, Rows};
use std::alloc::{AllocError, Global};
use std::marker::Model;

/// Arcs of some of the persons, no two of them to one object.
///
/// Contracts see the arc of each person, if there is one, and the number of objects.
#[derive(Debug, Drop)]
pub struct Partial {
    choice: Vec<Option<RowArc>>,
    holder: Vec<Option<u32>>,
}

impl Model for Partial {
    ghost use Rattle.std.specs.Prelude.{length};
    ghost use Rattle.auc_hall.specs.Partial.{Placed};
    ghost use Rattle.auc_hall.specs.Matched.{AreTied};

    ghost Value = { Placed };

    ghost view = { λ a. record { choice = a.choice.items; objects = length a.holder.items } };

    ghost invariant = { λ a. AreTied a.choice.items a.holder.items };
}

/// This many persons without an arc.
fn no_arcs(alloc: Global, persons: u32) -> Result<Vec<Option<RowArc>>, AllocError>
    ensures len { IfOk result (λ v. length v.items ≡ persons) }
    ensures none { IfOk result (λ v. (i : ℕ) → slice_index_or v.items i None ≡ None) }
{
    let mut out = Vec::with_capacity(alloc, persons as usize)?;
    for _i in 0..persons {
        out.push(None)?;
    }
    Ok(out)
}

/// This many objects that nobody holds.
fn no_holders(alloc: Global, objects: u32) -> Result<Vec<Option<u32>>, AllocError>
    ensures len { IfOk result (λ v. length v.items ≡ objects) }
    ensures none { IfOk result (λ v. (i : ℕ) → slice_index_or v.items i None ≡ None) }
{
    let mut out = Vec::with_capacity(alloc, objects as usize)?;
    for _i in 0..objects {
        out.push(None)?;
    }
    Ok(out)
}

/// The arc of a row that has this number.
fn arc_in(row: &[RowArc], arc: u32) -> Option<RowArc>
    ensures found { IfSome result (λ a. Contains row.now a × (a.arc ≡ arc)) }
    ensures missing { IfNone result (All (λ a. a.arc ≢ arc) row.now) }
{
    row.iter().copied().find(|a| a.arc == arc)
}

/// `Partial::place`, over the arcs of the persons and the holders of the objects.
fn place_in(
    rows: &Rows,
    choice: &mut [Option<RowArc>],
    holder: &mut [Option<u32>],
    person: u32,
    arc: u32,
) -> bool
    requires matched { IsMatched rows.now choice.old holder.old }
    requires person { person < length rows.now.rows }
    ensures matched { IsMatched rows.now choice.new holder.new }
    ensures placed { IsTrue result → (a : RowArc) × MayPlace rows.now choice.old person arc a
        × (choice.new ≡ slice_set choice.old person (Some a)) }
    ensures unchanged { result ≡ false → choice.new ≡ choice.old }
    ensures refused { result ≡ false → (a : RowArc) → MayPlace rows.now choice.old person arc a → ⊥ }
    ensures cause { result ≡ false → IsNotPlaced rows.now choice.old person arc }
{
    if choice[person as usize].is_some() {
        return false;
    }
    match arc_in(rows.row(person), arc) {
        None => false,
        Some(found) => {
            if holder[found.object as usize].is_some() {
                return false;
            }
            choice[person as usize] = Some(found);
            holder[found.object as usize] = Some(person);
            true
        }
    }
}

impl Partial {
    /// Nobody has an arc. O(persons + objects) time and memory.
    ///
    /// # Errors
    ///
    /// Only where memory was refused.
    pub fn new(alloc: Global, rows: &Rows) -> Result<Self, AllocError>
        ensures made { IfOk result (IsFor rows.now) }
        ensures empty { IfOk result (λ p. (i : ℕ) → pick p.choice i ≡ None) }
    {
        let choice = no_arcs(alloc, rows.persons())?;
        let holder = no_holders(alloc, rows.objects())?;
        Ok(Partial { choice, holder })
    }

    /// Gives the person the arc of this number, its place in the list of arcs.
    ///
    /// False where the person has an arc already, where no arc of the person has the number, or where its object has a
    /// holder; then nothing changes. O(arcs of the person), takes no memory.
    pub fn place(&mut self, rows: &Rows, person: u32, arc: u32) -> bool
        requires made { IsFor rows.now self.old }
        requires person { person < length rows.now.rows }
        ensures made { IsFor rows.now self.new }
        ensures placed { IsTrue result → (a : RowArc) × MayPlace rows.now self.old.choice person arc a
            × (self.new.choice ≡ slice_set self.old.choice person (Some a)) }
        ensures unchanged { result ≡ false → self.new ≡ self.old }
        ensures refused { result ≡ false → (a : RowArc) → MayPlace rows.now self.old.choice person arc a → ⊥ }
        ensures cause { result ≡ false → IsNotPlaced rows.now self.old.choice person arc }
    {
        place_in(
            rows,
            self.choice.as_mut_slice(),
            self.holder.as_mut_slice(),
            person,
            arc,
        )
    }

    /// The arc of each person, if there is one, and the holder of each object. Takes no memory.
    pub(crate) fn into_parts(self) -> (Vec<Option<RowArc>>, Vec<Option<u32>>)
        ensures choice { result.0.items ≡ self.choice }
        ensures objects { length result.1.items ≡ self.objects }
        ensures tied { AreTied result.0.items result.1.items }
    {
        let Partial { choice, holder } = self;
        (choice, holder)
    }
}
