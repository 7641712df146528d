//! The breadth-first search for a free object.
//!
//! The queue of reached persons also records the paths: each entry has the place of the person before it on the path.

ghost use Rattle.std.specs.Prelude.{◌≡◌, ◌<◌, ℕ, length, All, Some, false, slice_index_or, slice_get, IfOk};
ghost use Rattle.std.specs.Prelude.{OnOk, IfSome, IfNone};
ghost use Rattle.auc_graph.specs.Table.{row_of};
ghost use Rattle.auc_hall.specs.Search.{AreHolders, AreMarks, AreWalked, WasSeen, HoldsNothing, IsSearch, LeadsOut};
ghost use Rattle.auc_hall.specs.Search.{Grows};

use crate::free_arc::free_arc;
use auc_graph::{RowArc, Rows};
use std::alloc::AllocError;

/// A person that the search has reached. `arc` leads to the object that this person holds; it is an arc of the person
/// at the place `parent` of the queue. The first person of a queue holds nothing, and there both mean nothing.
#[derive(Clone, Copy, Debug, PartialEq, Eq)]
pub(crate) struct Reached {
    pub(crate) arc: RowArc,
    pub(crate) parent: usize,
    pub(crate) person: u32,
}

/// An arc to a free object, and the place in the queue of the person who has it.
#[derive(Clone, Copy, Debug, PartialEq, Eq)]
pub(crate) struct PathEnd {
    pub(crate) arc: RowArc,
    pub(crate) at: usize,
}

/// What a search has seen and reached. It is kept for the next one, so that no search takes memory for flags.
#[derive(Drop)]
pub(crate) struct Search {
    // For each object, whether it was seen.
    pub(crate) seen: Vec<bool>,
    // The number of arcs of each person that were scanned for a free object.
    pub(crate) scanned: Vec<usize>,
    pub(crate) queue: Vec<Reached>,
    ghost marks: { AreMarks queue.items seen.items },
}

impl Search {
    /// Unmarks what a search has marked: the objects of its queue, so that this costs no more than the search did.
    fn forget(&mut self)
        ensures len { length self.new.seen.items ≡ length self.old.seen.items }
        ensures none { (j : ℕ) → slice_index_or self.new.seen.items j false ≡ false }
    {
        for place in 0..self.queue.len() {
            let object = self.queue[place].arc.object as usize;
            if object < self.seen.len() {
                self.seen[object] = false;
            }
        }
    }

    /// Scans the arcs of the person at this place of the queue. Each object that was not seen yet is marked, and its
    /// holder is appended to the queue. The first of these holders who has an arc to a free object ends the search.
    /// This person is the first of the whole queue who has one, since each one before was tested when appended.
    fn walk(
        &mut self,
        rows: &Rows,
        holder: &[Option<u32>],
        at: usize,
    ) -> Result<Option<PathEnd>, AllocError>
        requires holders { AreHolders rows.now holder.now }
        requires search { IsSearch rows.now holder.now self.old.queue.items self.old.seen.items }
        requires at { at < length self.old.queue.items }
        ensures search { OnOk result (IsSearch rows.now holder.now self.new.queue.items self.new.seen.items) }
        ensures grows { OnOk result (Grows self.old.queue.items self.new.queue.items) }
        ensures kept { (j : ℕ) → WasSeen self.old.seen.items j → WasSeen self.new.seen.items j }
        ensures found { IfOk result
            (λ r. IfSome r (λ f. LeadsOut rows.now holder.now self.new.queue.items f.at f.arc)) }
        ensures walked { IfOk result (λ r. IfNone r ((e : Reached) → slice_get self.old.queue.items at ≡ Some e
            → All (λ a. WasSeen self.new.seen.items a.object) (row_of rows.now e.person))) }
    {
        let person = self.queue[at].person;
        for arc in rows.row(person) {
            let object = arc.object as usize;
            if self.seen[object] {
                continue;
            }
            match holder[object] {
                None => return Ok(Some(PathEnd { arc: *arc, at })),
                Some(partner) => {
                    self.queue.push(Reached {
                        arc: *arc,
                        parent: at,
                        person: partner,
                    })?;
                    self.seen[object] = true;
                    let scanned = self.scanned.as_mut_slice();
                    if let Some(out) = free_arc(rows, holder, scanned, partner) {
                        let last = self.queue.len() - 1;
                        return Ok(Some(PathEnd { arc: out, at: last }));
                    }
                }
            }
        }
        Ok(None)
    }

    /// Searches for a free object from this person on, the closest first.
    pub(crate) fn find(
        &mut self,
        rows: &Rows,
        holder: &[Option<u32>],
        start: u32,
    ) -> Result<Option<PathEnd>, AllocError>
        requires holders { AreHolders rows.now holder.now }
        requires start { start < length rows.now.rows }
        requires free { HoldsNothing holder.now start }
        requires seen { length self.old.seen.items ≡ rows.now.objects }
        ensures search { OnOk result (IsSearch rows.now holder.now self.new.queue.items self.new.seen.items) }
        ensures first { OnOk result ((e : Reached) → slice_get self.new.queue.items 0 ≡ Some e → e.person ≡ start) }
        ensures found { IfOk result
            (λ r. IfSome r (λ f. LeadsOut rows.now holder.now self.new.queue.items f.at f.arc)) }
        ensures closed { IfOk result (λ r. IfNone r (AreWalked rows.now self.new.queue.items self.new.seen.items
            (length self.new.queue.items))) }
    {
        self.forget();
        self.queue.clear();
        self.queue.push(Reached {
            arc: RowArc {
                cost: 0,
                object: 0,
                arc: 0,
            },
            parent: 0,
            person: start,
        })?;
        if let Some(arc) = free_arc(rows, holder, self.scanned.as_mut_slice(), start) {
            return Ok(Some(PathEnd { arc, at: 0 }));
        }
        let mut at = 0;
        while at < self.queue.len() {
            if let Some(found) = self.walk(rows, holder, at)? {
                return Ok(Some(found));
            }
            at += 1;
        }
        Ok(None)
    }
}
