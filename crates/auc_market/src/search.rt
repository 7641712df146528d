//! Dijkstra's search for a shortest augmenting path, from a free person to an object that nobody holds, over the rows
//! of the persons that are reached. The length of an edge is the reduced cost of its arc.
//!
//! Of its result nothing is proved, but that the search ends: the market tries a path before it takes it (`path.rt`).
//! So sums may wrap here.

use crate::holdings::Holdings;
use crate::scan::wrapping_value;
use auc_letters::NOBODY;
use auc_rows::FlatRows;
use std::alloc::{AllocError, Global};
use std::collections::BinaryHeap;

/// `near` of the free person. `near` of an object is this less the length of the path to it: std's heap is a max-heap.
const NEAREST: i64 = 4_611_686_018_427_387_904;

/// `near` of an object that the search has not reached.
const UNREACHED: i64 = 0;

/// An object and its `near`.
#[derive(Clone, Copy)]
struct Settled {
    object: u32,
    near: i64,
}

/// In place of the closest object that nobody holds, where none has a label.
const NOWHERE: Settled = Settled {
    object: NOBODY,
    near: UNREACHED,
};

/// A price that is to rise to an amount. Of an object that is settled while a search goes on, `amount` is its `near`.
#[derive(Clone, Copy)]
pub(crate) struct Rise {
    pub(crate) object: u32,
    pub(crate) amount: i64,
}

/// A person at this distance, who would leave object `before` for another one.
#[derive(Clone, Copy)]
struct Taker {
    person: u32,
    near: i64,
    before: u32,
}

/// Room for searches:
///
/// - the labels of all objects: `near`, and the object `before` that the taker would leave, NOBODY for the free person;
/// - the heap of objects that are reached, the closest first;
/// - the closest object that nobody holds;
/// - the number of arcs scanned.
///
/// Each object that is reached is in the heap or settled. So the next search blanks no other label.
///
/// And the proposal of a search: the settled objects in order, whose prices rise, and the arcs by which objects are
/// taken, each by its place in the row of its taker.
#[derive(Drop)]
pub(crate) struct Search {
    near: Vec<i64>,
    before: Vec<u32>,
    heap: BinaryHeap<(i64, u32)>,
    end: Settled,
    pub(crate) scanned: u64,
    pub(crate) rises: Vec<Rise>,
    pub(crate) route: Vec<u32>,
}

impl Search {
    /// With no room for labels yet.
    pub(crate) fn new(alloc: Global) -> Search {
        Search {
            near: Vec::new(alloc),
            before: Vec::new(alloc),
            heap: BinaryHeap::new(alloc),
            end: NOWHERE,
            scanned: 0,
            rises: Vec::new(alloc),
            route: Vec::new(alloc),
        }
    }

    /// Relaxes the arcs of a taker's row: labels the objects that become closer through this person. An object that
    /// isn't closer than the closest object that nobody holds is left out: no shortest path goes through it.
    fn relax(
        &mut self,
        rows: &FlatRows,
        holdings: &Holdings,
        taker: Taker,
    ) -> Result<(), AllocError> {
        if taker.person >= rows.persons() {
            return Ok(());
        }
        let scale = rows.scale();
        let row = rows.row(taker.person);
        let own = holdings.own_value(scale, taker.person);
        let many = self
            .near
            .len()
            .min(self.before.len())
            .min(holdings.prices.len())
            .min(holdings.holders.len());
        self.scanned = self.scanned.saturating_add(row.len() as u64);
        for arc in row {
            let object = arc.object as usize;
            if object >= many {
                continue;
            }
            let more = wrapping_value(scale, arc.cost, holdings.prices[object])
                .wrapping_sub(own)
                .max(0);
            let near = taker.near.saturating_sub(more);
            if near <= self.end.near || near <= self.near[object] {
                continue;
            }
            self.near[object] = near;
            self.before[object] = taker.before;
            if holdings.holders[object] == NOBODY {
                self.end = Settled {
                    object: arc.object,
                    near,
                };
            }
            self.heap.push((near, arc.object))?;
        }
        Ok(())
    }

    /// Searches from a free person on, the closest object first, up to the closest one that nobody holds. Returns
    /// whether one can be reached: `rises` and `route` are then the proposal.
    pub(crate) fn find(
        &mut self,
        rows: &FlatRows,
        holdings: &Holdings,
        start: u32,
    ) -> Result<bool, AllocError> {
        self.begin(rows.objects() as usize)?;
        let first = Taker {
            person: start,
            near: NEAREST,
            before: NOBODY,
        };
        self.relax(rows, holdings, first)?;
        for _ in 0..u64::MAX {
            let Some((near, object)) = self.heap.peek().copied() else {
                break;
            };
            if near <= self.end.near {
                break;
            }
            let _ = self.heap.pop();
            // An object whose label was improved since then had an entry before this one.
            if object as usize >= self.near.len() || self.near[object as usize] != near {
                continue;
            }
            self.rises.push(Rise {
                object,
                amount: near,
            })?;
            let next = Taker {
                person: holdings.holder_of(object),
                near,
                before: object,
            };
            self.relax(rows, holdings, next)?;
        }
        if self.end.near == UNREACHED {
            return Ok(false);
        }
        self.propose(rows, holdings, start)?;
        Ok(true)
    }

    /// Begins a search of so many objects: blanks the labels of the search before.
    fn begin(&mut self, objects: usize) -> Result<(), AllocError> {
        for (_, object) in self.heap.as_slice() {
            if (*object as usize) < self.near.len() {
                self.near[*object as usize] = UNREACHED;
            }
        }
        for settled in &self.rises {
            if (settled.object as usize) < self.near.len() {
                self.near[settled.object as usize] = UNREACHED;
            }
        }
        self.near.resize(objects, UNREACHED)?;
        self.before.resize(objects, NOBODY)?;
        self.heap.clear();
        self.rises.clear();
        self.route.clear();
        self.end = NOWHERE;
        self.scanned = 0;
        Ok(())
    }

    /// The place, in a person's row, of the cheapest arc to an object; NOBODY where there is none.
    fn place_of(rows: &FlatRows, person: u32, object: u32) -> u32 {
        let mut found = NOBODY;
        if person >= rows.persons() {
            return found;
        }
        let mut least = i32::MAX;
        for (place, arc) in rows.row(person).iter().enumerate() {
            if arc.object == object && arc.cost < least {
                least = arc.cost;
                found = u32::try_from(place).unwrap_or(NOBODY);
            }
        }
        found
    }

    /// Proposes that the price of each settled object rises by as much as it is closer than the end. The route follows
    /// the labels from the end back to the free person.
    fn propose(
        &mut self,
        rows: &FlatRows,
        holdings: &Holdings,
        start: u32,
    ) -> Result<(), AllocError> {
        for place in 0..self.rises.len() {
            let Rise { object, amount } = self.rises[place];
            if object as usize >= holdings.prices.len() {
                continue;
            }
            let before = holdings.prices[object as usize];
            self.rises[place] = Rise {
                object,
                amount: before.wrapping_add(amount.wrapping_sub(self.end.near)),
            };
        }
        let mut object = self.end.object;
        for _ in 0..=self.rises.len() {
            if object as usize >= self.before.len() {
                break;
            }
            let before = self.before[object as usize];
            let taker = if before == NOBODY {
                start
            } else {
                holdings.holder_of(before)
            };
            self.route.push(Search::place_of(rows, taker, object))?;
            object = before;
        }
        self.route.reverse();
        Ok(())
    }
}
