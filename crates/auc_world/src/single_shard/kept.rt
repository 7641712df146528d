//! The state of a phase with one shard of each kind, and the steps of its rounds.

ghost use Rattle.std.specs.Prelude.{ℕ, ℤ, ◌≡◌, ◌<◌, ◌≤◌, ◌+◌, ◌*◌, [], ◌∷◌, ◌++◌, None, Some, ◌-◌, length, map};
ghost use Rattle.std.specs.Prelude.{replicate, drop, slice_index_or, slice_set, IsTrue, ◌↔◌, IfOk, IfSome, IfNone};
ghost use Rattle.std.specs.VecDeque.{deque_capacity};
ghost use Rattle.auc_letters.specs.Persons.{persons_of};
ghost use Rattle.auc_graph.specs.Price.{IsPrice};
ghost use Rattle.auc_letters.specs.Price.{IsEps};
ghost use Rattle.auc_world.specs.SingleState.{first_of, freed_by, sale_at, notices_of_sale};
ghost use Rattle.auc_world.specs.SinglePhase.{answered, begun, noted, with_sale, with_notice, without_first};
ghost use Rattle.auc_world.specs.SinglePhase.{without_notice};
ghost use Rattle.auc_world.specs.Lots.{holder_in, price_in};

use crate::single_shard::lot::Lot;
use crate::single_shard::notice::Notice;
use crate::single_shard::task::Task;
use auc_answers::Gathered;
use auc_letters::{Bid, Held, NOBODY};
use std::alloc::{AllocError, Global};
use std::collections::VecDeque;
use std::marker::Model;

/// The state of a phase with one shard of each kind, between two rounds or within one.
#[derive(Drop)]
pub(crate) struct SingleShard {
    persons: u32,
    // By object, the price that the persons have heard last.
    copies: Vec<i64>,
    // By object.
    lots: Vec<Lot>,
    // The letters that wait for the persons, the earliest first.
    notices: VecDeque<Notice>,
    // The free persons, the one who has been free longest first.
    idle: VecDeque<u32>,
    // The number of bids left.
    bids: u64,
    // The number of objects sold.
    count: u32,
}

impl Model for SingleShard {
    ghost use Rattle.std.specs.Prelude.{◌≤◌, ◌*◌, map};
    ghost use Rattle.std.specs.VecDeque.{deque_capacity};
    ghost use Rattle.auc_world.specs.SingleState.{SingleState};
    ghost use Rattle.auc_world.specs.Lots.{holder_in, price_in};

    ghost Value = { SingleState };

    ghost view = { λ w. record {
      persons = w.persons;
      copies = w.copies.items;
      prices = map price_in w.lots.items;
      holders = map holder_in w.lots.items;
      notices = w.notices.items;
      idle = w.idle.items;
      bids = w.bids;
      count = w.count;
    } };

    ghost invariant = { λ w. (4 * w.persons ≤ deque_capacity w.notices) × (w.persons ≤ deque_capacity w.idle) };
}

/// Objects at these prices, which nobody holds.
fn unsold_at(alloc: Global, prices: &[i64]) -> Result<Vec<Lot>, AllocError>
    ensures prices { IfOk result (λ l. map price_in l.items ≡ prices.now) }
    ensures holders { IfOk result (λ l. map holder_in l.items ≡ replicate (length prices.now) None) }
{
    let mut lots = Vec::with_capacity(alloc, prices.len())?;
    for price in prices {
        lots.push(Lot::unsold(*price))?;
    }
    Ok(lots)
}

/// All persons, the first one first, with room for no more.
fn all_persons(alloc: Global, persons: u32) -> Result<VecDeque<u32>, AllocError>
    ensures items { IfOk result (λ q. q.items ≡ persons_of 0 1 persons) }
    ensures room { IfOk result (λ q. persons ≤ deque_capacity q) }
{
    let mut idle = VecDeque::with_capacity(alloc, persons as usize)?;
    for person in 0..persons {
        idle.push_back_reserved(person);
    }
    Ok(idle)
}

impl SingleShard {
    /// The state at the start of a phase: nobody has an object, and each person is free. Takes O(persons + objects)
    /// time and memory; no round takes any.
    ///
    /// # Errors
    ///
    /// Only where memory was refused.
    pub(crate) fn make(alloc: Global, task: &Task) -> Result<SingleShard, AllocError>
        ensures { IfOk result (λ s. s ≡ begun task.now) }
    {
        let persons = task.rows.persons();
        let copies = task.prices.to_vec(alloc)?;
        let lots = unsold_at(alloc, task.prices)?;
        let notices = VecDeque::with_capacity(alloc, 4 * persons as usize)?;
        let idle = all_persons(alloc, persons)?;
        Ok(SingleShard {
            persons,
            copies,
            lots,
            notices,
            idle,
            bids: task.limits.bids,
            count: 0,
        })
    }

    /// Whether each person has an object.
    #[inline(always)]
    pub(crate) fn is_done(&self) -> bool
        ensures { IsTrue result ↔ (self.now.persons ≤ self.now.count) }
    {
        self.count >= self.persons
    }

    /// Whether a bid is left.
    #[inline(always)]
    pub(crate) fn has_bids(&self) -> bool
        ensures { IsTrue result ↔ (0 < self.now.bids) }
    {
        self.bids > 0
    }

    /// The copies of the prices, by object.
    #[inline(always)]
    pub(crate) fn copies(&self) -> &[i64]
        ensures { result.now ≡ self.now.copies }
    {
        self.copies.as_slice()
    }

    /// Takes out the person who has been free longest, if anybody is free.
    #[inline(always)]
    pub(crate) fn next_free(&mut self) -> Option<u32>
        ensures some { IfSome result (λ i. self.old.idle ≡ i ∷ drop 1 self.old.idle) }
        ensures none { IfNone result (self.old.idle ≡ []) }
        ensures leaves { self.new ≡ without_first self.old }
    {
        self.idle.pop_front()
    }

    /// Takes out the first letter to the persons, if one waits.
    #[inline(always)]
    pub(crate) fn next_notice(&mut self) -> Option<Notice>
        ensures some { IfSome result (λ t. self.old.notices ≡ t ∷ drop 1 self.old.notices) }
        ensures none { IfNone result (self.old.notices ≡ []) }
        ensures leaves { self.new ≡ without_notice self.old }
    {
        self.notices.pop_front()
    }

    /// Appends a letter to the persons.
    #[inline(always)]
    fn tell(&mut self, notices: Notice)
        requires room { length self.old.notices < 4 * self.old.persons }
        ensures { self.new ≡ with_notice self.old notices }
    {
        self.notices.push_back_reserved(notices);
    }

    /// The price of an object.
    #[inline(always)]
    fn price(&self, object: u32) -> i64
        requires { object < length self.now.prices }
        ensures { result ≡ (sale_at self.now object).price }
    {
        self.lots[object as usize].price
    }

    /// The holder of an object, if there is one.
    #[inline(always)]
    fn holder(&self, object: u32) -> Option<Held>
        requires { object < length self.now.prices }
        ensures { result ≡ (sale_at self.now object).holder }
    {
        self.lots[object as usize].holder()
    }

    /// Sets the price and the holder of an object.
    #[inline(always)]
    fn set_lot(&mut self, object: u32, price: i64, held: Held)
        requires object { object < length self.old.prices }
        requires person { held.person < 4294967295 }
        ensures { self.new ≡ record self.old {
          prices = slice_set self.old.prices object price;
          holders = slice_set self.old.holders object (Some held);
        } }
    {
        self.lots[object as usize] = Lot {
            price,
            person: held.person,
            arc: held.arc,
        };
    }

    /// Counts one more object that was sold.
    #[inline(always)]
    fn count_one(&mut self)
        requires { self.old.count < self.old.persons }
        ensures { self.new ≡ record self.old { count = self.old.count + 1 } }
    {
        self.count += 1;
    }

    /// Counts one bid less that is left.
    #[inline(always)]
    fn use_bid(&mut self)
        requires { 0 < self.old.bids }
        ensures { self.new ≡ record self.old { bids = self.old.bids - 1 } }
    {
        self.bids -= 1;
    }

    /// Sells an object. The holder before, if there is one, is free then, and the letter of that comes before the
    /// award.
    #[inline(always)]
    fn sell(&mut self, object: u32, price: i64, held: Held)
        requires object { object < length self.old.prices }
        requires person { held.person < 4294967295 }
        requires room { length self.old.notices + length (notices_of_sale (sale_at self.old object).holder object price)
            ≤ 4 * self.old.persons }
        requires count { self.old.count < self.old.persons }
        ensures { self.new ≡ with_sale self.old object price held }
    {
        let before = self.holder(object);
        self.set_lot(object, price, held);
        match before {
            None => self.count_one(),
            Some(other) => self.tell(Notice {
                price,
                object,
                freed: other.person,
            }),
        }
        self.tell(Notice {
            price,
            object,
            freed: NOBODY,
        });
    }

    /// Answers a bid by the award rule.
    #[inline(always)]
    pub(crate) fn answer(&mut self, eps: i64, bid: Bid)
        requires object { bid.object < length self.old.prices }
        requires person { bid.person < 4294967295 }
        requires price { IsPrice (sale_at self.old bid.object).price }
        requires eps { IsEps eps }
        requires bids { 0 < self.old.bids }
        requires room { length (answered eps self.old bid).notices ≤ 4 * self.old.persons }
        requires count { self.old.count < self.old.persons }
        ensures { self.new ≡ answered eps self.old bid }
    {
        let Bid {
            person,
            arc,
            object,
            amount,
        } = bid;
        self.use_bid();
        let price = self.price(object);
        if amount < price + eps {
            self.tell(Notice {
                price,
                object,
                freed: person,
            });
        } else {
            self.sell(object, amount, Held { person, arc });
        }
    }

    /// The persons take a letter.
    #[inline(always)]
    pub(crate) fn note(&mut self, notices: Notice)
        requires object { notices.object < length self.old.copies }
        requires room { length (noted self.old notices).idle ≤ self.old.persons }
        ensures { self.new ≡ noted self.old notices }
    {
        self.copies[notices.object as usize] = notices.price;
        if notices.freed != NOBODY {
            self.idle.push_back_reserved(notices.freed);
        }
    }

    /// The holder of each object, if there is one, and the prices. Takes O(objects) time and memory.
    ///
    /// # Errors
    ///
    /// Only where memory was refused.
    pub(crate) fn gather(&self, alloc: Global) -> Result<Gathered, AllocError>
        ensures holders { IfOk result (λ g. g.holders.items ≡ self.now.holders) }
        ensures prices { IfOk result (λ g. g.prices.items ≡ self.now.prices) }
    {
        let mut holders = Vec::with_capacity(alloc, self.lots.len())?;
        let mut prices = Vec::with_capacity(alloc, self.lots.len())?;
        for lot in &self.lots {
            holders.push(lot.holder())?;
            prices.push(lot.price)?;
        }
        Ok(Gathered { holders, prices })
    }
}
