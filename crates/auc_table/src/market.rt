//! Keys of the objects, holders, the object of each person, and bids by which persons take objects from one another.

use crate::gaps::Gap;
use crate::passes::{least_value, object_of_value, value_of};
use crate::table::{Table, row_of};
use std::alloc::{AllocError, Global};

/// Marks an object that nobody holds, in place of its holder; and a person who has none, in place of the object.
pub(crate) const NOBODY: u32 = 4_294_967_295;

/// The best object of a person, and the margin: how much its price may rise until another one is as good; 0 where there
/// is no other one.
#[derive(Clone, Copy)]
struct Best {
    object: usize,
    margin: i64,
}

/// The best entry of a row; none of an empty one.
fn best_of<const G: bool>(gap: Gap<G>, row: &[i64], keys: &[i64]) -> Option<Best> {
    let value = least_value(gap, row, keys);
    let object = object_of_value(gap, row, keys, value)?;
    let before = least_value(gap, &row[..object], &keys[..object]);
    let after = least_value(gap, &row[object + 1..], &keys[object + 1..]);
    let second = before.min(after);
    let margin = if second == i64::MAX {
        0
    } else {
        (second >> 1).wrapping_sub(value >> 1)
    };
    Some(Best { object, margin })
}

/// The keys and the holders of the objects, and the object of each person. `scanned` counts the entries that were
/// scanned.
#[derive(Drop)]
pub(crate) struct Market {
    pub(crate) keys: Vec<i64>,
    pub(crate) holders: Vec<u32>,
    pub(crate) owns: Vec<u32>,
    pub(crate) scanned: u64,
}

impl Market {
    /// Nobody holds anything, at these keys of free objects.
    pub(crate) fn new(alloc: Global, persons: u32, keys: Vec<i64>) -> Result<Market, AllocError> {
        let holders = vec![in alloc; NOBODY; keys.len()]?;
        Ok(Market {
            keys,
            holders,
            owns: vec![in alloc; NOBODY; persons as usize]?,
            scanned: 0,
        })
    }

    /// Persons hold these objects, at these prices of all objects.
    pub(crate) fn held(prices: Vec<i64>, holders: Vec<u32>, owns: Vec<u32>) -> Market {
        let mut keys = prices;
        for object in 0..keys.len().min(holders.len()) {
            let held = if holders[object] == NOBODY { 0 } else { 1 };
            keys[object] = keys[object].wrapping_mul(2).wrapping_add(held);
        }
        Market {
            keys,
            holders,
            owns,
            scanned: 0,
        }
    }

    /// The holder of an object.
    pub(crate) fn holder_of(&self, object: usize) -> Option<u32> {
        if object >= self.holders.len() || self.holders[object] == NOBODY {
            return None;
        }
        Some(self.holders[object])
    }

    /// Whether a person has nothing.
    pub(crate) fn has_nothing(&self, person: u32) -> bool {
        match self.owns.get(person as usize) {
            Some(object) => *object == NOBODY,
            None => false,
        }
    }

    /// How many persons have nothing.
    pub(crate) fn count_free(&self) -> u32 {
        let mut many: u32 = 0;
        for object in &self.owns {
            if *object == NOBODY {
                many = many.saturating_add(1);
            }
        }
        many
    }

    /// A person takes an object; returns the holder before.
    pub(crate) fn hand_over(&mut self, person: u32, object: usize) -> u32 {
        if object >= self.holders.len() || person as usize >= self.owns.len() {
            return NOBODY;
        }
        let earlier = self.holders[object];
        self.holders[object] = person;
        self.owns[person as usize] = u32::try_from(object).unwrap_or(NOBODY);
        earlier
    }

    /// Each person who holds a gap leaves it.
    pub(crate) fn leave_gaps<const G: bool>(&mut self, table: &Table, gap: Gap<G>) {
        for person in 0..self.owns.len() {
            let object = self.owns[person] as usize;
            let row = row_of(table, u32::try_from(person).unwrap_or(NOBODY));
            if object < row.len() && object < self.holders.len() && gap.is_at(row[object]) {
                self.holders[object] = NOBODY;
                self.owns[person] = NOBODY;
            }
        }
    }

    /// A person takes the best object that nobody holds, where there is one and no gap; its price stays.
    pub(crate) fn take_free<const G: bool>(&mut self, table: &Table, gap: Gap<G>, person: u32) {
        let row = row_of(table, person);
        let mut least = i64::MAX;
        let mut best = row.len();
        for object in 0..row.len().min(self.keys.len()) {
            let value = value_of(gap.cost_of(row[object]), self.keys[object]);
            if value < least && !gap.is_at(row[object]) && self.holder_of(object).is_none() {
                least = value;
                best = object;
            }
        }
        self.hand_over(person, best);
    }

    /// Nobody holds anything; prices stay.
    pub(crate) fn release(&mut self) {
        for object in 0..self.keys.len().min(self.holders.len()) {
            if self.holders[object] != NOBODY {
                self.keys[object] = self.keys[object].wrapping_sub(1);
                self.holders[object] = NOBODY;
            }
        }
        for person in 0..self.owns.len() {
            self.owns[person] = NOBODY;
        }
    }

    /// A person takes the best object, and raises its price by eps and the margin to the second best; returns the
    /// displaced person. Where that is no rise and the best object has a holder, the person takes nothing.
    pub(crate) fn bid<const G: bool>(
        &mut self,
        table: &Table,
        gap: Gap<G>,
        person: u32,
        eps: i64,
    ) -> Option<u32> {
        let row = row_of(table, person);
        self.scanned = self.scanned.saturating_add(row.len() as u64);
        let Best { object, margin } = best_of(gap, row, self.keys.as_slice())?;
        let rise = margin.wrapping_add(eps);
        if rise == 0 && self.holder_of(object).is_some() {
            return None;
        }
        let earlier = self.hand_over(person, object);
        if object < self.keys.len() {
            let first = if earlier == NOBODY { 1 } else { 0 };
            let more = rise.wrapping_mul(2).wrapping_add(first);
            self.keys[object] = self.keys[object].wrapping_add(more);
        }
        if earlier as usize >= self.owns.len() {
            return None;
        }
        self.owns[earlier as usize] = NOBODY;
        Some(earlier)
    }

    /// A person bids by this eps, then the displaced person, and so on, at most so many times; returns how many bids
    /// are left.
    pub(crate) fn bid_in_chain<const G: bool>(
        &mut self,
        table: &Table,
        gap: Gap<G>,
        first: u32,
        eps: i64,
        bids: u64,
    ) -> u64 {
        let mut person = first;
        for done in 0..bids {
            match self.bid(table, gap, person, eps) {
                Some(earlier) => person = earlier,
                None => return bids - done - 1,
            }
        }
        0
    }
}
