//! One shard of the persons: its parts, and the steps that change them.
//!
//! Its bids are in `shard/next_bid.rt`, its letters in `shard/hearing.rt`.

ghost use Rattle.std.specs.Prelude.{◌≡◌, ◌≢◌, ◌<◌, ◌≤◌, ◌-◌, drop, [], ◌∷◌, ◌++◌, length, replicate, slice_set, All};
ghost use Rattle.std.specs.Prelude.{IfOk};
ghost use Rattle.std.specs.VecDeque.{deque_capacity};
ghost use Rattle.auc_letters.specs.Persons.{persons_of};
ghost use Rattle.auc_graph.specs.Price.{IsPrice};
ghost use Rattle.auc_persons.specs.Persons.{Persons, Owns, copy_of, first_idle, state_of, with_copy};

mod hearing;
mod next_bid;

use auc_graph::MOST_PERSONS;
use auc_letters::PersonState;
use std::alloc::{AllocError, Global};
use std::collections::VecDeque;
use std::marker::Model;

/// The persons of a shard, in a list with room for all.
fn idle_of(alloc: Global, shard: u32, of: u32, persons: u32) -> Result<VecDeque<u32>, AllocError>
    requires { shard < of }
    ensures items { IfOk result (λ q. q.items ≡ persons_of shard of persons) }
    ensures room { IfOk result (λ q. persons ≤ deque_capacity q) }
    ensures few { IfOk result (λ q. length q.items ≤ persons) }
    ensures within { IfOk result (λ q. All (λ i. i < persons) q.items) }
{
    let mut idle = VecDeque::with_capacity(alloc, persons as usize)?;
    for person in 0..persons {
        if person % of == shard {
            idle.push_back_reserved(person);
        }
    }
    Ok(idle)
}

/// One shard of the persons: its copies of the prices, the state of each of its persons, and the free persons.
///
/// Persons belong to shards by the remainder of their number. The tables have a place for every person and every
/// object, so that each is found by its number; the places of other shards' persons are never changed.
#[derive(Drop)]
pub struct PersonShard {
    shard: u32,
    of: u32,
    object_shards: u32,
    bids: u64,
    copies: Vec<i64>,
    states: Vec<PersonState>,
    idle: VecDeque<u32>,
}

impl Model for PersonShard {
    ghost use Rattle.std.specs.Prelude.{◌≡◌, ◌≤◌, length};
    ghost use Rattle.std.specs.VecDeque.{deque_capacity};
    ghost use Rattle.auc_persons.specs.Persons.{Persons, ArePersons};

    ghost Value = { Persons };

    ghost view = { λ s. record {
      shard = s.shard;
      of = s.of;
      object_shards = s.object_shards;
      bids = s.bids;
      copies = s.copies.items;
      states = s.states.items;
      idle = s.idle.items;
    } };

    ghost invariant = { λ s. (length s.states.items ≤ deque_capacity s.idle)
        × ArePersons (record {
          shard = s.shard;
          of = s.of;
          object_shards = s.object_shards;
          bids = s.bids;
          copies = s.copies.items;
          states = s.states.items;
          idle = s.idle.items;
        }) };
}

impl PersonShard {
    /// Shard number `shard` of `of`, whose persons are all free, in rising order.
    ///
    /// `object_shards` is the number of the objects' shards, and `persons` that of all persons. The copies are these
    /// prices, in scaled costs, indexed by object; the shard may make `bids` bids.
    ///
    /// Takes O(persons + objects) time and memory, and is the only call that takes memory: it reserves a place in the
    /// list of free persons for each.
    ///
    /// # Errors
    ///
    /// Only where memory was refused.
    pub fn make(
        alloc: Global,
        shard: u32,
        of: u32,
        object_shards: u32,
        persons: u32,
        prices: &[i64],
        bids: u64,
    ) -> Result<PersonShard, AllocError>
        requires shard { shard < of }
        requires object_shards { 0 < object_shards }
        requires persons { persons ≤ MOST_PERSONS }
        requires prices { All IsPrice prices.now }
        ensures { IfOk result
            (λ s. s ≡ record {
              shard = shard;
              of = of;
              object_shards = object_shards;
              bids = bids;
              copies = prices.now;
              states = replicate persons PersonState.Free;
              idle = persons_of shard of persons;
            }) }
    {
        let copies = prices.to_vec(alloc)?;
        let states = vec![in alloc; PersonState::Free; persons as usize]?;
        let idle = idle_of(alloc, shard, of, persons)?;
        Ok(PersonShard {
            shard,
            of,
            object_shards,
            bids,
            copies,
            states,
            idle,
        })
    }

    /// The shard's copy of the price of an object, in scaled costs. O(1).
    #[inline]
    pub fn copy(&self, object: u32) -> i64
        requires { object < length self.now.copies }
        ensures copy { result ≡ copy_of self.now object }
        ensures range { IsPrice result }
    {
        self.copies[object as usize]
    }

    /// The state of a person of the shard. O(1).
    pub fn state(&self, person: u32) -> PersonState
        requires { Owns self.now person }
        ensures { result ≡ state_of self.now person }
    {
        self.states[person as usize]
    }

    /// Sets a copy.
    #[inline]
    fn set_copy(&mut self, object: u32, price: i64)
        requires object { object < length self.old.copies }
        requires price { IsPrice price }
        ensures { self.new ≡ with_copy self.old object price }
    {
        self.copies[object as usize] = price;
    }

    /// The next person bids, and waits afterwards.
    #[inline]
    fn wait_for(&mut self, object: u32)
        requires some { 0 < length self.old.idle }
        requires bids { 0 < self.old.bids }
        ensures { self.new ≡ record self.old {
          idle = drop 1 self.old.idle;
          bids = self.old.bids - 1;
          states = slice_set self.old.states (first_idle self.old) (PersonState.Waits object);
        } }
    {
        if let Some(person) = self.idle.pop_front() {
            self.states[person as usize] = PersonState::Waits { object };
            self.bids -= 1;
        }
    }

    /// A person now holds the object.
    #[inline]
    fn hold(&mut self, person: u32, object: u32)
        requires person { person < length self.old.states }
        requires busy { state_of self.old person ≢ PersonState.Free }
        ensures { self.new ≡ record self.old { states = slice_set self.old.states person (PersonState.Holds object) } }
    {
        self.states[person as usize] = PersonState::Holds { object };
    }

    /// A person is now free, as the last of the free ones.
    #[inline]
    fn free(&mut self, person: u32)
        requires person { person < length self.old.states }
        requires busy { state_of self.old person ≢ PersonState.Free }
        ensures { self.new ≡ record self.old
            { states = slice_set self.old.states person PersonState.Free; idle = self.old.idle ++ person ∷ [] } }
    {
        self.states[person as usize] = PersonState::Free;
        self.idle.push_back_reserved(person);
    }
}
