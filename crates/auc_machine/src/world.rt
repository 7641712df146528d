//! The world of one phase: its shards, the post office for their letters, and the hub.

ghost use Rattle.std.specs.Prelude.{ℕ, ◌≡◌, ◌<◌, pos, slice_index_or, IfOk, IsTrue, ◌↔◌};
ghost use Rattle.auc_graph.specs.Table.{IsTable};
ghost use Rattle.auc_graph.specs.Price.{IsPrice};
ghost use Rattle.auc_letters.specs.Price.{IsEps};
ghost use Rattle.auc_model.specs.Schedule.{Reached};
ghost use Rattle.auc_model.specs.Start.{Lawful, Starts, UsualNodes};
ghost use Rattle.auc_model.specs.World.{phase_of};
ghost use Rattle.auc_phases.specs.Hub.{ending};
ghost use Rattle.auc_phases.specs.Limits.{AreLimits};
ghost use Rattle.auc_phases.specs.Begins.{ArePrices};
ghost use Rattle.auc_machine.specs.Lists.{AreKept, MayKeep};
ghost use Rattle.auc_machine.specs.Making.{IsMade};
ghost use Rattle.auc_machine.specs.Parts.{AreParts, OwnsObject, phase, world_of};

mod bidding;
mod gathering;
mod hearing;
mod hub;
mod posting;
mod rounds;
mod selling;
mod turns;

use crate::making::{new_bidders, new_object_shards, new_person_shards};
use crate::post_office::PostOffice;
use auc_graph::Rows;
use auc_letters::{Held, shard_of};
use auc_model::End;
use auc_objects::ObjectShard;
use auc_persons::{Bidder, PersonShard};
use auc_phases::{Hub, Limits};
use std::alloc::{AllocError, Global};
use std::marker::Model;

/// The world of one phase: its shards, the post office for their letters, and the hub.
#[derive(Drop)]
pub struct World<'a> {
    rows: &'a Rows,
    eps: i64,
    shards: u32,
    hub: Hub,
    persons: Vec<PersonShard>,
    objects: Vec<ObjectShard>,
    stopped: Vec<bool>,
    post: PostOffice,
    // By shard of the persons. They don't change what any turn does, so no contract of a turn speaks of them.
    bidders: Vec<Bidder>,
}

impl<'a> Model for World<'a> {
    ghost use Rattle.auc_machine.specs.Lists.{AreKept};
    ghost use Rattle.auc_machine.specs.Parts.{AreParts, Parts};

    ghost Value = { Parts };

    ghost view = { λ w. record {
      table = w.rows.now;
      shards = w.shards;
      eps = w.eps;
      persons = w.persons.items;
      objects
          = w.objects.items;
      outboxes = w.post.outboxes;
      stopped = w.stopped.items;
      mails = w.post.mails;
      hub = w.hub;
    } };

    ghost invariant = { λ w. AreParts (record {
      table = w.rows.now;
      shards = w.shards;
      eps = w.eps;
      persons = w.persons.items;
      objects = w.objects.items;
      outboxes = w.post.outboxes;
      stopped = w.stopped.items;
      mails = w.post.mails;
      hub = w.hub;
    }) × AreKept w.rows.now w.persons.items w.bidders.items };
}

impl<'a> World<'a> {
    /// The world at the start of a phase: the prices are these, each copy of a price is that price, every person is
    /// free, and nothing was sent.
    ///
    /// `prices` are in scaled costs, indexed by object; `eps` is in scaled costs. `limits.audit` is ignored.
    ///
    /// Takes O((persons + objects) * shards + nodes + arcs) time and memory; turns take none.
    ///
    /// # Errors
    ///
    /// Only where memory was refused.
    pub fn make(
        alloc: Global,
        rows: &'a Rows,
        limits: &Limits,
        prices: &[i64],
        eps: i64,
    ) -> Result<World<'a>, AllocError>
        requires limits { AreLimits limits.now }
        requires prices { ArePrices rows.now prices.now }
        requires eps { IsEps eps }
        ensures made { IfOk result (IsMade rows.now limits.now prices.now eps) }
        ensures phase { IfOk result (λ w. phase w ≡ phase_of rows.now limits.now.shards eps) }
        ensures table { IsTable rows.now }
        ensures lawful { IfOk result (λ w. Lawful (phase w)) }
        ensures starts { IfOk result (λ w. Starts (phase w) (world_of w)) }
        ensures reached { IfOk result (λ w. Reached (phase w) (world_of w)) }
        ensures usual { limits.now.nodes ≡ 0 → IfOk result (λ w. UsualNodes (phase w) (world_of w)) }
        ensures prices { IfOk result (λ w. (j : ℕ) → (world_of w).price j ≡ slice_index_or prices.now j (pos 0)) }
        ensures copies { IfOk result
            (λ w. (s j : ℕ) → s < limits.now.shards → (world_of w).copy s j ≡ slice_index_or prices.now j (pos 0)) }
    {
        // Read here, so that the proof has the invariant of the rows.
        let _ = rows.persons();
        let bidders = new_bidders(alloc, limits.shards, rows)?;
        let world = World::assemble(alloc, rows, limits, prices, eps, bidders)?;
        Ok(world)
    }

    /// The same world with these bidders, by shard: those of the worlds before, of lower prices, or new ones.
    ///
    /// # Errors
    ///
    /// Only where memory was refused.
    pub fn make_with(
        alloc: Global,
        rows: &'a Rows,
        limits: &Limits,
        prices: &[i64],
        eps: i64,
        bidders: Vec<Bidder>,
    ) -> Result<World<'a>, AllocError>
        requires limits { AreLimits limits.now }
        requires prices { ArePrices rows.now prices.now }
        requires eps { IsEps eps }
        requires kept { MayKeep rows.now limits.now.shards prices.now bidders.items }
        ensures made { IfOk result (IsMade rows.now limits.now prices.now eps) }
        ensures phase { IfOk result (λ w. phase w ≡ phase_of rows.now limits.now.shards eps) }
        ensures table { IsTable rows.now }
        ensures lawful { IfOk result (λ w. Lawful (phase w)) }
        ensures starts { IfOk result (λ w. Starts (phase w) (world_of w)) }
    {
        let world = World::assemble(alloc, rows, limits, prices, eps, bidders)?;
        Ok(world)
    }

    /// The bidders, for the world of the next phase.
    pub fn into_bidders(self) -> Vec<Bidder>
        ensures kept { AreKept self.entry.table self.entry.persons result.items }
        ensures sound { AreParts self.entry }
    {
        let World { bidders, .. } = self;
        bidders
    }

    /// The parts of a new world.
    fn assemble(
        alloc: Global,
        rows: &'a Rows,
        limits: &Limits,
        prices: &[i64],
        eps: i64,
        bidders: Vec<Bidder>,
    ) -> Result<World<'a>, AllocError>
        requires limits { AreLimits limits.now }
        requires prices { ArePrices rows.now prices.now }
        requires eps { IsEps eps }
        requires kept { MayKeep rows.now limits.now.shards prices.now bidders.items }
        ensures made { IfOk result (IsMade rows.now limits.now prices.now eps) }
        ensures table { IsTable rows.now }
    {
        let Limits { shards, bids, .. } = *limits;
        let post = PostOffice::make(alloc, limits, rows.persons())?;
        Ok(World {
            rows,
            eps,
            shards,
            hub: Hub::new(),
            persons: new_person_shards(alloc, shards, rows, bids, prices)?,
            objects: new_object_shards(alloc, shards, rows, prices)?,
            stopped: vec![in alloc; false; shards as usize]?,
            post,
            bidders,
        })
    }

    /// The number of shards of each kind.
    #[inline]
    pub(crate) fn shards(&self) -> u32
        ensures is { result ≡ self.now.shards }
        ensures sound { AreParts self.now }
    {
        self.shards
    }

    /// Whether there is such a shard.
    #[inline]
    pub(crate) fn is_shard(&self, shard: u32) -> bool
        ensures is { IsTrue result ↔ (shard < self.now.shards) }
        ensures sound { AreParts self.now }
    {
        shard < self.shards
    }

    /// The number of objects.
    #[inline]
    pub(crate) fn object_count(&self) -> u32
        ensures is { result ≡ self.now.table.objects }
        ensures sound { AreParts self.now }
    {
        self.rows.objects()
    }

    /// Whether there is such an object, and it is the shard's.
    #[inline]
    pub(crate) fn owns(&self, shard: u32, object: u32) -> bool
        ensures { IsTrue result ↔ OwnsObject self.now shard object }
    {
        object < self.rows.objects() && shard_of(object, self.shards) == shard
    }

    /// The present price of an object.
    #[inline]
    pub(crate) fn price(&self, object: u32) -> i64
        requires { object < self.now.table.objects }
        ensures present { result ≡ (world_of self.now).price object }
        ensures range { IsPrice result }
    {
        let shard = shard_of(object, self.shards);
        self.objects[shard as usize].price(object)
    }

    /// The holder of an object, if there is one.
    #[inline]
    pub(crate) fn holder(&self, object: u32) -> Option<Held>
        requires { object < self.now.table.objects }
        ensures { result ≡ (world_of self.now).holder object }
    {
        let shard = shard_of(object, self.shards);
        self.objects[shard as usize].holder(object)
    }

    /// How the phase has ended, once it has. O(1).
    #[inline]
    pub fn end(&self) -> Option<End>
        ensures { result ≡ (world_of self.now).end }
    {
        self.hub.end()
    }

    /// Ends the phase so, unless it has ended before.
    #[inline]
    pub(crate) fn end_with(&mut self, end: End)
        ensures { self.new ≡ record self.old { hub = ending self.old.hub end } }
    {
        self.hub.end_with(end);
    }
}
