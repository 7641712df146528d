//! The results of the workers of a phase: holders and prices from the shards of the objects, and the reason for which
//! it ended.

ghost use Rattle.std.specs.Prelude.{ℕ, ◌≡◌, ◌≢◌, ◌<◌, ◌%◌, ◌↔◌, ◌++◌, [], ◌∷◌, map, length, pos, Some, None, IsTrue};
ghost use Rattle.std.specs.Prelude.{IfOk, IfSome, All, slice_index_or};
ghost use Rattle.auc_letters.specs.declared.letter.Why.{Why};
ghost use Rattle.auc_graph.specs.Price.{IsPrice};
ghost use Rattle.auc_model.specs.declared.turn.End.{End};
ghost use Rattle.auc_threads.specs.Gathering.{Gathers, IsOwnShard};
ghost use Rattle.auc_threads.specs.Placed.{Placed};
ghost use Rattle.auc_threads.specs.Worked.{IsWhyOfOne, end_by, first_some};

use crate::object_worker::ObjectWork;
use crate::person_worker::PersonWork;
use crate::running::Works;
use auc_answers::Gathered;
use auc_book::MailBrand;
use auc_letters::{Why, shard_of};
use auc_model::End;
use std::alloc::{AllocError, Global};

/// The holders and prices of all objects, each from its own shard.
pub(crate) fn gather<O: MailBrand, P: MailBrand, H: MailBrand>(
    alloc: Global,
    objects: u32,
    shards: u32,
    works: &[ObjectWork<O, P, H>],
) -> Result<Gathered, AllocError>
    requires some { 0 < shards }
    requires many { length works.now ≡ shards }
    requires works { Placed (λ k w. IsOwnShard shards objects k w.shard) 0 works.now }
    ensures holders { IfOk result (λ g. length g.holders.items ≡ objects) }
    ensures prices { IfOk result (λ g. length g.prices.items ≡ objects) }
    ensures range { IfOk result (λ g. All IsPrice g.prices.items) }
    ensures each { IfOk result (λ g. (j : ℕ) (d : _) → j < objects
        → Gathers (slice_index_or works.now (j % shards) d).shard j (slice_index_or g.prices.items j (pos 0))
        (slice_index_or g.holders.items j None)) }
{
    let mut holders = Vec::with_capacity(alloc, objects as usize)?;
    let mut prices = Vec::with_capacity(alloc, objects as usize)?;
    for object in 0..objects {
        let work = &works[shard_of(object, shards) as usize];
        holders.push_reserved(work.shard.holder(object));
        prices.push_reserved(work.shard.price(object));
    }
    Ok(Gathered { holders, prices })
}

/// The number of bids that each worker of the persons has posted. Such a worker makes no other call at the objects'
/// mail, and its seat there counts them, with trails or without.
pub(crate) fn bids_of<O: MailBrand, P: MailBrand, H: MailBrand>(
    alloc: Global,
    works: &[PersonWork<O, P, H>],
) -> Result<Vec<u64>, AllocError>
    ensures { IfOk result (λ v. v.items ≡ map (λ w. w.seats.objects.count) works.now) }
{
    let mut bids = Vec::with_capacity(alloc, works.len())?;
    for work in works {
        bids.push_reserved(work.seats.objects.count());
    }
    Ok(bids)
}

/// The reason of the first worker of the persons who stopped.
fn persons_reason<O: MailBrand, P: MailBrand, H: MailBrand>(
    works: &[PersonWork<O, P, H>],
) -> Option<Why>
    ensures first { result ≡ first_some (map (λ w. w.why) works.now) }
    ensures whose { IfSome result (IsWhyOfOne (λ w. w.why) works.now) }
{
    for work in works {
        if let Some(why) = work.why {
            return Some(why);
        }
    }
    None
}

/// The reason of the first worker of the objects who stopped.
fn objects_reason<O: MailBrand, P: MailBrand, H: MailBrand>(
    works: &[ObjectWork<O, P, H>],
) -> Option<Why>
    requires { All (λ w. (w.why ≢ Some Why.Stuck) × (w.why ≢ Some Why.Fell)) works.now }
    ensures first { result ≡ first_some (map (λ w. w.why) works.now) }
    ensures no_guard { (result ≢ Some Why.Stuck) × (result ≢ Some Why.Fell) }
{
    for work in works {
        if let Some(why) = work.why {
            return Some(why);
        }
    }
    None
}

/// The reason that counts: the first one, of the persons, the objects and the hub.
fn reason<O: MailBrand, P: MailBrand, H: MailBrand>(works: &Works<O, P, H>) -> Option<Why>
    requires objects { All (λ w. (w.why ≢ Some Why.Stuck) × (w.why ≢ Some Why.Fell)) works.now.objects.items }
    requires hub { (works.now.hub.why ≢ Some Why.Stuck) × (works.now.hub.why ≢ Some Why.Fell) }
    ensures first { result ≡ first_some ((map (λ w. w.why) works.now.persons.items ++ map
        (λ w. w.why) works.now.objects.items)
        ++ works.now.hub.why ∷ []) }
    ensures stuck { result ≡ Some Why.Stuck → IsWhyOfOne (λ w. w.why) works.now.persons.items Why.Stuck }
    ensures fell { result ≡ Some Why.Fell → IsWhyOfOne (λ w. w.why) works.now.persons.items Why.Fell }
{
    if let Some(why) = persons_reason(works.persons.as_slice()) {
        return Some(why);
    }
    if let Some(why) = objects_reason(works.objects.as_slice()) {
        return Some(why);
    }
    works.hub.why
}

/// How a phase ended, by the results of its workers.
pub(crate) fn end_of<O: MailBrand, P: MailBrand, H: MailBrand>(
    works: &Works<O, P, H>,
) -> Option<End>
    requires objects { All (λ w. (w.why ≢ Some Why.Stuck) × (w.why ≢ Some Why.Fell)) works.now.objects.items }
    requires hub { (works.now.hub.why ≢ Some Why.Stuck) × (works.now.hub.why ≢ Some Why.Fell) }
    ensures is { result ≡ end_by works.now.hub.is_all (first_some
        ((map (λ w. w.why) works.now.persons.items ++ map (λ w. w.why) works.now.objects.items) ++ works.now.hub.why
        ∷ [])) }
    ensures all { result ≡ Some End.All ↔ IsTrue works.now.hub.is_all }
    ensures stuck { result ≡ Some (End.Stopped Why.Stuck) → IsWhyOfOne (λ w. w.why) works.now.persons.items Why.Stuck }
    ensures fell { result ≡ Some (End.Stopped Why.Fell) → IsWhyOfOne (λ w. w.why) works.now.persons.items Why.Fell }
{
    if works.hub.is_all {
        return Some(End::All);
    }
    match reason(works) {
        Some(why) => Some(End::Stopped { why }),
        None => None,
    }
}

/// The end as it is reported. Where no trail is kept, none is full. Where a worker was turned away since a mail had
/// counted all calls that it can, nothing is reported.
pub(crate) fn told_end(end: Option<End>, audit: u32) -> Option<End>
    ensures kept { 0 < audit → result ≡ end }
    ensures some { IfSome result (λ e. end ≡ Some e) }
    ensures others { end ≢ Some (End.Stopped Why.Trail) → result ≡ end }
    ensures trail { result ≡ Some (End.Stopped Why.Trail) → 0 < audit }
{
    if audit > 0 {
        return end;
    }
    match end {
        Some(End::Stopped { why: Why::Trail }) => None,
        _ => end,
    }
}
