//! One shard of the objects.

ghost use Rattle.std.specs.Prelude.{map, ◌≡◌, ◌<◌, ◌≤◌, ◌^◌, ◌*◌, pos, ◌+ℤ◌, ◌≤ℤ◌, ◌<ℤ◌, length, replicate, ◌∷◌, []};
ghost use Rattle.std.specs.Prelude.{◌↔◌, All, IfOk, IfSome, IfNone, IsTrue, Some, None};
ghost use Rattle.auc_graph.specs.Price.{IsPrice};
ghost use Rattle.auc_letters.specs.Price.{IsEps};
ghost use Rattle.auc_letters.specs.Routing.{to_person, to_hub, price_told};
ghost use Rattle.auc_letters.specs.Award.{Sale, answers, bid_of};
ghost use Rattle.auc_objects.specs.Objects.{AreObjects, Objects, IsBidIn, Owns, SameShape, after_bid, holder_of};
ghost use Rattle.auc_objects.specs.Objects.{price_of, sale_of, with_sale};
ghost use Rattle.auc_objects.specs.Answers.{letters_of};
ghost use Rattle.auc_objects.specs.PackedSales.{holder_in, price_in};

use crate::answers::Answers;
use crate::packed_sale::PackedSale;
use arrayvec::ArrayVec;
use auc_graph::MOST_PRICE;
use auc_letters::{Bid, Held, Letter, Out, To, shard_of};
use std::alloc::{AllocError, Global};
use std::marker::Model;

/// One shard of the objects: the price and the holder of each of its objects.
///
/// Objects belong to shards by the remainder of their number. The tables have a place for every object, so that an
/// object is found by its number; the places of other shards' objects are never changed.
#[derive(Debug, Drop)]
pub struct ObjectShard {
    shard: u32,
    of: u32,
    person_shards: u32,
    persons: u32,
    sales: Vec<PackedSale>,
}

impl Model for ObjectShard {
    ghost use Rattle.std.specs.Prelude.{map};
    ghost use Rattle.auc_objects.specs.PackedSales.{holder_in, price_in};
    ghost use Rattle.auc_objects.specs.Objects.{Objects, AreObjects};

    ghost Value = { Objects };

    ghost view = { λ s. record {
      shard = s.shard;
      of = s.of;
      person_shards = s.person_shards;
      persons = s.persons;
      prices = map price_in s.sales.items;
      holders = map holder_in s.sales.items;
    } };

    ghost invariant = { λ s. AreObjects (record {
      shard = s.shard;
      of = s.of;
      person_shards = s.person_shards;
      persons = s.persons;
      prices = map price_in s.sales.items;
      holders = map holder_in s.sales.items;
    }) };
}

/// Objects at these prices, with no holders.
fn unsold_at(alloc: Global, prices: &[i64]) -> Result<Vec<PackedSale>, AllocError>
    requires { All IsPrice prices.now }
    ensures prices { IfOk result (λ l. map price_in l.items ≡ prices.now) }
    ensures holders { IfOk result (λ l. map holder_in l.items ≡ replicate (length prices.now) None) }
{
    let mut sales = Vec::with_capacity(alloc, prices.len())?;
    for price in prices {
        sales.push(PackedSale::unsold(*price))?;
    }
    Ok(sales)
}

impl ObjectShard {
    /// Shard number `shard` of `of`, with these prices, in scaled costs, indexed by object, and no holders.
    ///
    /// `person_shards` is the number of the persons' shards, and `persons` that of all persons.
    ///
    /// Takes O(objects) time and memory, and is the only call that takes memory.
    ///
    /// # Errors
    ///
    /// Only where memory was refused.
    pub fn make(
        alloc: Global,
        shard: u32,
        of: u32,
        person_shards: u32,
        persons: u32,
        prices: &[i64],
    ) -> Result<ObjectShard, AllocError>
        requires shard { shard < of }
        requires person_shards { 0 < person_shards }
        requires persons { 2 * persons < 2 ^ 32 }
        requires prices { All IsPrice prices.now }
        ensures { IfOk result
            (λ s. s ≡ record {
              shard = shard;
              of = of;
              person_shards = person_shards;
              persons = persons;
              prices = prices.now;
              holders = replicate (length prices.now) None;
            }) }
    {
        let sales = unsold_at(alloc, prices)?;
        Ok(ObjectShard {
            shard,
            of,
            person_shards,
            persons,
            sales,
        })
    }

    /// The present price of an object of the shard, in scaled costs. O(1).
    #[inline]
    pub fn price(&self, object: u32) -> i64
        requires { Owns self.now object }
        ensures present { result ≡ price_of self.now object }
        ensures range { IsPrice result }
    {
        self.sales[object as usize].price()
    }

    /// The holder of an object of the shard, if it has one. O(1).
    #[inline]
    pub fn holder(&self, object: u32) -> Option<Held>
        requires { Owns self.now object }
        ensures { result ≡ holder_of self.now object }
    {
        self.sales[object as usize].holder()
    }

    /// The present price of an object of the shard, as a letter to a shard of the persons. O(1).
    pub fn tell(&self, object: u32, person_shard: u32) -> Out
        requires object { Owns self.now object }
        requires person_shard { person_shard < self.now.person_shards }
        ensures { result ≡ price_told self.now.persons person_shard object (price_of self.now object) }
    {
        Out {
            letter: Letter::Price {
                object,
                price: self.price(object),
            },
            to: To::Person {
                shard: person_shard,
            },
            reserve: 2 * self.persons,
        }
    }

    /// The bid in a letter, if it is one that fits the shard: its object exists and is the shard's, and its amount is
    /// from 0 to the greatest price. O(1).
    #[inline]
    pub fn bid_in(&self, letter: Letter) -> Option<Bid>
        ensures some { IfSome result (IsBidIn self.now letter) }
        ensures none { IfNone result ((bid : Bid) → IsBidIn self.now letter bid → ⊥) }
        ensures sound { AreObjects self.now }
    {
        // Read here, so that the proof has the invariant of the shard.
        let _ = &self.sales;
        let Letter::Bid {
            person,
            arc,
            object,
            amount,
        } = letter
        else {
            return None;
        };
        if !self.owns(object) || amount < 0 || amount > MOST_PRICE {
            return None;
        }
        Some(Bid {
            person,
            arc,
            object,
            amount,
        })
    }

    /// Answers one bid on an object of the shard; returns the letters of the answer. O(1).
    ///
    /// The bid is accepted exactly where its amount is at least the price plus `eps`. Then the amount is the price, and
    /// the person holds the object by the arc of the bid. A bid that is refused changes nothing. `eps` is in scaled
    /// costs.
    #[inline]
    pub fn answer(&mut self, bid: Bid, eps: i64) -> Answers
        requires object { Owns self.old bid.object }
        requires amount { IsPrice bid.amount }
        requires eps { IsEps eps }
        ensures award { self.new ≡ after_bid self.old eps bid }
        ensures letters { letters_of result ≡ answers self.old.person_shards eps (sale_of self.old bid.object) bid }
        ensures shape { SameShape self.old self.new }
    {
        let Bid {
            person,
            arc,
            object,
            amount,
        } = bid;
        let price = self.price(object);
        if amount < price + eps {
            let refused = Letter::Refused {
                person,
                object,
                price,
            };
            return Answers::Refused {
                refused: self.to_person(person, refused),
            };
        }
        let before = self.holder(object);
        self.sell(object, amount, Held { person, arc });
        let award = Letter::Award {
            person,
            object,
            price: amount,
        };
        let award = self.to_person(person, award);
        match before {
            Some(held) => {
                let outbid = Letter::Outbid {
                    person: held.person,
                    object,
                    price: amount,
                };
                Answers::Outbid {
                    outbid: self.to_person(held.person, outbid),
                    award,
                }
            }
            None => {
                let first = to_hub(Letter::First { object });
                Answers::First { award, first }
            }
        }
    }

    /// The same as [`ObjectShard::answer`], for the bid of `person` by the arc at place `arc` for `object`, with the
    /// letters in a list, in order. O(1).
    #[inline]
    pub fn on_bid(
        &mut self,
        person: u32,
        arc: u32,
        object: u32,
        amount: i64,
        eps: i64,
    ) -> ArrayVec<Out, 4>
        requires object { Owns self.old object }
        requires amount { IsPrice amount }
        requires eps { IsEps eps }
        ensures award { self.new ≡ after_bid self.old eps (bid_of person arc object amount) }
        ensures letters { result.items ≡ answers self.old.person_shards eps (sale_of self.old object)
            (bid_of person arc object amount) }
        ensures shape { SameShape self.old self.new }
    {
        let bid = Bid {
            person,
            arc,
            object,
            amount,
        };
        self.answer(bid, eps).into_list()
    }

    /// Whether there is such an object, and it is the shard's.
    #[inline]
    fn owns(&self, object: u32) -> bool
        ensures { IsTrue result ↔ Owns self.now object }
    {
        (object as usize) < self.sales.len() && shard_of(object, self.of) == self.shard
    }

    /// Sets the price and the holder of an object.
    #[inline]
    fn sell(&mut self, object: u32, price: i64, held: Held)
        requires object { object < length self.old.prices }
        requires price { IsPrice price }
        ensures { self.new ≡ with_sale self.old object (record { price = price; holder = Some held }) }
    {
        self.sales[object as usize] = PackedSale::sold(price, held);
    }

    /// A letter to the shard of a person.
    #[inline]
    fn to_person(&self, person: u32, letter: Letter) -> Out
        ensures { result ≡ to_person self.now.person_shards person letter }
    {
        let shards = self.person_shards;
        Out {
            letter,
            to: To::Person {
                shard: shard_of(person, shards),
            },
            reserve: 0,
        }
    }
}

/// A letter to the hub.
#[inline]
fn to_hub(letter: Letter) -> Out
    ensures { result ≡ to_hub letter }
{
    Out {
        letter,
        to: To::Hub,
        reserve: 0,
    }
}
