//! Shortest augmenting paths: a person who has nothing takes an object, its holder another one, and so on to a free
//! object, at the least total cost.
//!
//! This is Dijkstra's search over reduced costs. It has no heap, since each row that is scanned reaches every object
//! anyway.

use crate::gaps::{GAP_COST, Gap};
use crate::market::{Market, NOBODY};
use crate::passes::{UNREACHED, come_nearer, object_at};
use crate::table::{Table, row_of};
use std::alloc::{AllocError, Global};

/// Added to the key of a settled object, so that its distance can't be improved.
const SETTLED_PENALTY: i64 = 2_305_843_009_213_693_952;

/// An object and its distance.
#[derive(Clone, Copy)]
struct Settled {
    object: usize,
    distance: i64,
}

/// The person whose row is relaxed, and what is added to an entry's value to give the distance of its object through
/// the person.
#[derive(Clone, Copy)]
struct Reacher {
    person: u32,
    more: i64,
}

/// The state of a search: the distance of each object, and the person through whom it was reached; and the settled
/// objects in order.
#[derive(Drop)]
pub(crate) struct Search<const G: bool> {
    gap: Gap<G>,
    distances: Vec<i64>,
    reached_by: Vec<u64>,
    settled: Vec<Settled>,
    // Of a search for any path: the objects that it has seen, and persons whose rows it has yet to look over.
    seen: Vec<bool>,
    queue: Vec<u32>,
}

impl<const G: bool> Search<G> {
    /// No object is reached.
    pub(crate) fn new(alloc: Global, gap: Gap<G>, objects: u32) -> Result<Search<G>, AllocError> {
        Ok(Search {
            gap,
            distances: vec![in alloc; UNREACHED; objects as usize]?,
            reached_by: vec![in alloc; 0; objects as usize]?,
            settled: Vec::new(alloc),
            seen: vec![in alloc; false; if G { objects as usize } else { 0 }]?,
            queue: Vec::new(alloc),
        })
    }

    /// Relaxes a row; returns the closest object that isn't settled.
    fn relax(&mut self, table: &Table, market: &mut Market, by: Reacher) -> Option<Settled> {
        let row = row_of(table, by.person);
        market.scanned = market.scanned.saturating_add(row.len() as u64);
        let distance = come_nearer(
            self.gap,
            row,
            market.keys.as_slice(),
            by.more,
            u64::from(by.person),
            self.distances.as_mut_slice(),
            self.reached_by.as_mut_slice(),
        );
        if distance >= UNREACHED {
            return None;
        }
        let object = object_at(self.distances.as_slice(), distance)?;
        Some(Settled { object, distance })
    }

    /// Settles an object that this person holds; the person's row is the next one to relax.
    fn settle(
        &mut self,
        table: &Table,
        market: &mut Market,
        settled: Settled,
        holder: u32,
    ) -> Result<Reacher, AllocError> {
        let object = settled.object;
        self.settled.push(settled)?;
        let mut own = 0;
        let row = row_of(table, holder);
        if object < self.distances.len() && object < market.keys.len() && object < row.len() {
            self.distances[object] = UNREACHED;
            own = self
                .gap
                .cost_of(row[object])
                .wrapping_mul(2)
                .wrapping_add(market.keys[object]);
            market.keys[object] = market.keys[object].wrapping_add(SETTLED_PENALTY);
        }
        Ok(Reacher {
            person: holder,
            more: settled.distance.wrapping_sub(own),
        })
    }

    /// Whether the path to a free object has a gap. All costs that a path without gaps adds come to less than that of
    /// a gap, since the tables of a solve have at most 16,384 rows.
    fn has_gap(&self, market: &Market, end: Settled) -> bool {
        match market.keys.get(end.object) {
            Some(key) => G && GAP_COST <= end.distance.wrapping_sub(*key),
            None => false,
        }
    }

    /// Whether any path without gaps leads from a person to an object that nobody holds, or that a gap gives to its
    /// holder. A free object whose price is high may be farther than one behind a gap.
    fn has_way(&mut self, table: &Table, market: &Market, start: u32) -> Result<bool, AllocError> {
        for object in 0..self.seen.len() {
            self.seen[object] = false;
        }
        self.queue.clear();
        self.queue.push(start)?;
        for _ in 0..=table.persons {
            let Some(person) = self.queue.pop() else {
                return Ok(false);
            };
            let row = row_of(table, person);
            for object in 0..row.len().min(self.seen.len()) {
                if self.seen[object] || self.gap.is_at(row[object]) {
                    continue;
                }
                self.seen[object] = true;
                match market.holder_of(object) {
                    Some(holder) if !self.is_gap(table, holder, object) => {
                        self.queue.push(holder)?;
                    }
                    _ => return Ok(true),
                }
            }
        }
        Ok(false)
    }

    /// Whether the entry of a person and an object is a gap.
    fn is_gap(&self, table: &Table, person: u32, object: usize) -> bool {
        match row_of(table, person).get(object) {
            Some(entry) => self.gap.is_at(*entry),
            None => false,
        }
    }

    /// Relaxes one row after another, until a free object is the closest one, and returns it. None where no object is
    /// left, or where each path has a gap.
    fn find(
        &mut self,
        table: &Table,
        market: &mut Market,
        start: u32,
    ) -> Result<Option<Settled>, AllocError> {
        let mut by = Reacher {
            person: start,
            more: 0,
        };
        for _ in 0..=table.objects {
            let Some(nearest) = self.relax(table, market, by) else {
                return Ok(None);
            };
            let Some(holder) = market.holder_of(nearest.object) else {
                if self.has_gap(market, nearest) && !self.has_way(table, market, start)? {
                    return Ok(None);
                }
                return Ok(Some(nearest));
            };
            by = self.settle(table, market, nearest, holder)?;
        }
        Ok(None)
    }

    /// Takes the settled objects' keys back to what they were, and raises their prices by as much as they are closer
    /// than this.
    fn raise(&mut self, market: &mut Market, end: i64) {
        for settled in &self.settled {
            if settled.object < market.keys.len() {
                let rise = (end >> 1)
                    .wrapping_sub(settled.distance >> 1)
                    .wrapping_mul(2);
                let key = market.keys[settled.object].wrapping_sub(SETTLED_PENALTY);
                market.keys[settled.object] = key.wrapping_add(rise);
            }
        }
    }

    /// From the free object back, each person takes the object that was reached through the person.
    fn hand_over(&self, market: &mut Market, start: u32, end: usize) {
        let mut object = end;
        for _ in 0..=self.settled.len() {
            let Some(reacher) = self.reached_by.get(object) else {
                return;
            };
            let person = u32::try_from(*reacher).unwrap_or(NOBODY);
            let Some(own) = market.owns.get(person as usize) else {
                return;
            };
            let before = *own as usize;
            market.hand_over(person, object);
            if person == start {
                return;
            }
            object = before;
        }
    }

    /// A person who has nothing takes a shortest path; returns whether there is one. Keys are of no use after a no.
    pub(crate) fn go(
        &mut self,
        table: &Table,
        market: &mut Market,
        start: u32,
    ) -> Result<bool, AllocError> {
        for object in 0..self.distances.len() {
            self.distances[object] = UNREACHED;
        }
        self.settled.clear();
        let Some(end) = self.find(table, market, start)? else {
            return Ok(false);
        };
        self.raise(market, end.distance);
        if end.object < market.keys.len() {
            market.keys[end.object] = market.keys[end.object].wrapping_add(1);
        }
        self.hand_over(market, start, end.object);
        Ok(true)
    }
}
