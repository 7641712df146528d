//! The lists of a new world.

ghost use Rattle.std.specs.Prelude.{ℕ, ℤ, List, ◌≡◌, ◌<◌, length, All, slice_index_or, IfOk};
ghost use Rattle.auc_graph.specs.Price.{IsPrice};
ghost use Rattle.auc_phases.specs.Shards.{new_objects, new_persons, no_objects, no_persons};
ghost use Rattle.auc_machine.specs.Lists.{MayKeep};

use auc_graph::Rows;
use auc_objects::ObjectShard;
use auc_persons::{Bidder, PersonShard};
use std::alloc::{AllocError, Global};

/// New shards of the persons.
pub(crate) fn new_person_shards(
    alloc: Global,
    shards: u32,
    rows: &Rows,
    bids: u64,
    prices: &[i64],
) -> Result<Vec<PersonShard>, AllocError>
    requires some { 0 < shards }
    requires prices { All IsPrice prices.now }
    ensures many { IfOk result (λ v. length v.items ≡ shards) }
    ensures each { IfOk result
        (λ v. (s : ℕ) → s < shards → slice_index_or v.items s no_persons
        ≡ new_persons shards (length rows.now.rows) bids prices.now s) }
{
    let persons = rows.persons();
    let mut made = Vec::with_capacity(alloc, shards as usize)?;
    for shard in 0..shards {
        let one = PersonShard::make(alloc, shard, shards, shards, persons, prices, bids)?;
        made.push(one)?;
    }
    Ok(made)
}

/// A new bidder for each shard of the persons.
///
/// # Errors
///
/// Only where memory was refused.
pub fn new_bidders(alloc: Global, shards: u32, rows: &Rows) -> Result<Vec<Bidder>, AllocError>
    requires some { 0 < shards }
    ensures { IfOk result (λ v. (prices : List ℤ) → MayKeep rows.now shards prices v.items) }
{
    let mut made = Vec::with_capacity(alloc, shards as usize)?;
    for shard in 0..shards {
        let one = Bidder::make(alloc, rows, shard, shards)?;
        made.push(one)?;
    }
    Ok(made)
}

/// New shards of the objects.
pub(crate) fn new_object_shards(
    alloc: Global,
    shards: u32,
    rows: &Rows,
    prices: &[i64],
) -> Result<Vec<ObjectShard>, AllocError>
    requires some { 0 < shards }
    requires prices { All IsPrice prices.now }
    ensures many { IfOk result (λ v. length v.items ≡ shards) }
    ensures each { IfOk result
        (λ v. (q : ℕ) → q < shards → slice_index_or v.items q no_objects
        ≡ new_objects shards (length rows.now.rows) prices.now q) }
{
    let persons = rows.persons();
    let mut made = Vec::with_capacity(alloc, shards as usize)?;
    for shard in 0..shards {
        let one = ObjectShard::make(alloc, shard, shards, shards, persons, prices)?;
        made.push(one)?;
    }
    Ok(made)
}
