//! The letters to a shard of the persons: answers and prices.

ghost use Rattle.std.specs.Prelude.{◌≡◌, ◌≢◌, ◌<◌, length, IsTrue, ◌↔◌};
ghost use Rattle.auc_graph.specs.Price.{IsPrice};
ghost use Rattle.auc_letters.specs.declared.state.PersonState.{PersonState};
ghost use Rattle.auc_persons.specs.Persons.{Answered, FitsAnswer, FitsPrice, OnLetter, Priced, Raised, NeverFall};
ghost use Rattle.auc_persons.specs.Persons.{SameShape, free_after, held_after};

use crate::bidding::PersonFault;
use crate::shard::PersonShard;
use auc_graph::MOST_PRICE;
use auc_letters::{Letter, PersonState, shard_of};

impl PersonShard {
    /// Whether a person's state is the one that an answer wants.
    #[inline]
    fn is_fitting(&self, person: u32, object: u32, price: i64, wanted: PersonState) -> bool
        ensures { IsTrue result ↔ FitsAnswer self.now person object price wanted }
    {
        (person as usize) < self.states.len()
            && shard_of(person, self.of) == self.shard
            && (object as usize) < self.copies.len()
            && 0 <= price
            && price <= MOST_PRICE
            && self.states[person as usize] == wanted
    }

    /// Whether a price letter fits.
    #[inline]
    fn is_price_fitting(&self, object: u32, price: i64) -> bool
        ensures { IsTrue result ↔ FitsPrice self.now object price }
    {
        (object as usize) < self.copies.len() && 0 <= price && price <= MOST_PRICE
    }

    /// Sets a copy to a price, unless that is below the copy.
    #[tactic(auto, using(crate::proofs::Rise::rises_set, crate::proofs::Rise::rises_same, crate::proofs::Rise::shape_copy, crate::proofs::Rise::shape_same))]
    #[inline]
    fn raise_copy(&mut self, object: u32, price: i64) -> Result<(), PersonFault>
        requires object { object < length self.old.copies }
        requires price { IsPrice price }
        ensures exact { Raised self.old object price result self.new }
        ensures rise { NeverFall self.old.copies self.new.copies }
    {
        if price < self.copy(object) {
            return Err(PersonFault::Fell);
        }
        self.set_copy(object, price);
        Ok(())
    }

    /// An Award.
    #[tactic(auto, using(crate::proofs::Rise::shape_held, crate::proofs::Rise::shape_same, crate::proofs::Rise::rises_same))]
    #[inline(always)]
    fn on_award(&mut self, person: u32, object: u32, price: i64) -> Result<(), PersonFault>
        ensures exact { Answered self.old person object price (PersonState.Waits object)
            (held_after self.old person object price) result self.new }
        ensures rise { NeverFall self.old.copies self.new.copies }
        ensures shape { SameShape self.old self.new }
    {
        if !self.is_fitting(person, object, price, PersonState::Waits { object }) {
            return Err(PersonFault::Stray);
        }
        self.raise_copy(object, price)?;
        self.hold(person, object);
        Ok(())
    }

    /// A Refused or an Outbid.
    #[tactic(auto, using(crate::proofs::Rise::shape_free, crate::proofs::Rise::shape_same, crate::proofs::Rise::rises_same))]
    #[inline(always)]
    fn on_freeing(
        &mut self,
        person: u32,
        object: u32,
        price: i64,
        wanted: PersonState,
    ) -> Result<(), PersonFault>
        requires { wanted ≢ PersonState.Free }
        ensures exact { Answered self.old person object price wanted (free_after self.old person object price) result
            self.new }
        ensures rise { NeverFall self.old.copies self.new.copies }
        ensures shape { SameShape self.old self.new }
    {
        if !self.is_fitting(person, object, price, wanted) {
            return Err(PersonFault::Stray);
        }
        self.raise_copy(object, price)?;
        self.free(person);
        Ok(())
    }

    /// A Price.
    #[tactic(auto, using(crate::proofs::Rise::shape_copy, crate::proofs::Rise::shape_same, crate::proofs::Rise::rises_same))]
    // Not inlined, and `on_letter` always: a letter goes from the mail to the shard through no memory.
    #[inline(never)]
    fn on_price(&mut self, object: u32, price: i64) -> Result<(), PersonFault>
        ensures exact { Priced self.old object price result self.new }
        ensures rise { NeverFall self.old.copies self.new.copies }
        ensures shape { SameShape self.old self.new }
    {
        if !self.is_price_fitting(object, price) {
            return Err(PersonFault::Stray);
        }
        self.raise_copy(object, price)
    }

    /// Takes a letter: an answer to a bid, an Outbid or a price. O(1), and no memory.
    ///
    /// An Award wants a person of the shard who waits for the object; the person then holds it. A Refused wants the
    /// same, and an Outbid a person who holds the object; the person is then the last of the free persons. Each of
    /// them, and Price, sets the copy of the object's price.
    ///
    /// # Errors
    ///
    /// Nothing is changed by a letter that is refused. [`PersonFault::Stray`] comes first. Its causes are another kind
    /// of letter, a person or an object out of range or not the shard's, a price out of range, and a state that doesn't
    /// fit. Then [`PersonFault::Fell`]: the price is below the copy.
    // In line: a letter goes from the mail to the shard through no memory.
    #[inline(always)]
    pub fn on_letter(&mut self, letter: Letter) -> Result<(), PersonFault>
        ensures exact { OnLetter self.old letter result self.new }
        ensures rise { NeverFall self.old.copies self.new.copies }
        ensures shape { SameShape self.old self.new }
    {
        match letter {
            Letter::Award {
                person,
                object,
                price,
            } => self.on_award(person, object, price),
            Letter::Refused {
                person,
                object,
                price,
            } => self.on_freeing(person, object, price, PersonState::Waits { object }),
            Letter::Outbid {
                person,
                object,
                price,
            } => self.on_freeing(person, object, price, PersonState::Holds { object }),
            Letter::Price { object, price } => self.on_price(object, price),
            Letter::Bid { .. } => Err(PersonFault::Stray),
            Letter::First { .. } => Err(PersonFault::Stray),
            Letter::Stop { .. } => Err(PersonFault::Stray),
        }
    }
}
