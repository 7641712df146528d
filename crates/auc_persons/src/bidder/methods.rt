//! The methods for the rows of a shard's persons, and copies in rising order of the short rows that aren't.

ghost use Rattle.std.specs.Prelude.{◌≡◌, ◌<◌, ◌≤◌, ◌+◌, List, ℤ, length, All, AllPairs, IfOk, IfSome};
ghost use Rattle.auc_graph.specs.declared.limits.TheConstants.{MOST_PERSONS};
ghost use Rattle.auc_persons.specs.Candidates.{Kept};
ghost use Rattle.auc_persons.specs.Priced.{KeptAt, IsScanOf};
ghost use Rattle.auc_persons.specs.Sorted.{DecidesAt, Grows, IsMethod};

use crate::bidder::method::{Method, SHORT_ROW};
use crate::bidder::person_row::PersonRow;
use crate::bidder::priced_row::PricedRow;
use crate::bidder::scan::Scan;
use crate::bidder::sorted_row::SortedRow;
use crate::bidder::sorting::{is_rising, sort_row};
use auc_graph::{RowArc, Rows};
use std::alloc::{AllocError, Global};
use std::marker::Model;
use std::snapshot::Snapshot;

/// The method for each person's row. They are of the rows that they were made for, whatever the prices are.
#[derive(Drop)]
pub(crate) struct Methods {
    // The rows that they were made for. A snapshot takes no bytes.
    made: Snapshot<Rows>,
    methods: Vec<Method>,
    // The copies, one after another.
    arcs: Vec<RowArc>,
}

impl Model for Methods {
    ghost use Rattle.std.specs.Prelude.{List, length};
    ghost use Rattle.auc_persons.specs.Candidates.{Listed};
    ghost use Rattle.auc_persons.specs.Sorted.{AreWays, of_rows};

    ghost Value = { List Listed };

    ghost view = { λ w. of_rows w.made.value (length w.methods.items) };

    ghost invariant = { λ w. AreWays w.made.value w.arcs.items w.methods.items };
}

/// Appends the arcs of a short row to the copies, sorted.
fn copied(
    row: &[RowArc],
    sorted: &mut Vec<RowArc>,
    arcs: &mut Vec<RowArc>,
) -> Result<Method, AllocError>
    requires some { 0 < length row.now }
    requires order { AllPairs (λ a b. a.arc < b.arc) row.now }
    requires objects { All (λ a. a.object < 4294967295) row.now }
    ensures grown { IfOk result (λ _. Grows arcs.old.items arcs.new.items) }
    ensures method { IfOk result (IsMethod row.now arcs.new.items) }
{
    sort_row(row, sorted)?;
    let start = arcs.len();
    arcs.extend_from_slice(sorted.as_slice())?;
    // Never so: tested in place of a proof.
    if start > u32::MAX as usize || sorted.len() > SHORT_ROW {
        return Ok(Method::Plain);
    }
    Ok(Method::Sorted {
        start: start as u32,
        count: sorted.len() as u8,
    })
}

/// The method for a row, if it is of the shard; appends a copy where one is needed. `place` is for a row with a list.
fn method_of(
    row: &[RowArc],
    is_own: bool,
    place: u32,
    sorted: &mut Vec<RowArc>,
    arcs: &mut Vec<RowArc>,
) -> Result<Method, AllocError>
    requires order { AllPairs (λ a b. a.arc < b.arc) row.now }
    requires objects { All (λ a. a.object < 4294967295) row.now }
    ensures grown { IfOk result (λ _. Grows arcs.old.items arcs.new.items) }
    ensures method { IfOk result (IsMethod row.now arcs.new.items) }
{
    if !is_own || row.is_empty() {
        return Ok(Method::Plain);
    }
    if row.len() > SHORT_ROW {
        return Ok(Method::Listed { place });
    }
    if is_rising(row) {
        return Ok(Method::Rising);
    }
    copied(row, sorted, arcs)
}

/// The number of lists with one more row, of this method.
fn count_with(lists: u32, method: Method) -> u32
    requires { lists < MOST_PERSONS }
    ensures { result ≤ lists + 1 }
{
    match method {
        Method::Listed { .. } => lists + 1,
        Method::Plain | Method::Rising | Method::Sorted { .. } => lists,
    }
}

impl Methods {
    /// The methods for the persons of shard number `shard` of `of`. They take 8 bytes for each person of all, and 12 to
    /// 24 for each arc of the shard's short rows that aren't in rising order.
    pub(crate) fn make(
        alloc: Global,
        rows: &Rows,
        shard: u32,
        of: u32,
    ) -> Result<Methods, AllocError>
        requires { shard < of }
        ensures kept { IfOk result (λ w. (copies : List ℤ) → Kept rows.now copies w) }
    {
        let mut methods = Vec::with_capacity(alloc, rows.persons() as usize)?;
        let mut arcs = Vec::new(alloc);
        let mut sorted = Vec::with_capacity(alloc, SHORT_ROW)?;
        let mut lists = 0;
        for person in 0..rows.persons() {
            let is_own = person % of == shard;
            let method = method_of(rows.row(person), is_own, lists, &mut sorted, &mut arcs)?;
            lists = count_with(lists, method);
            methods.push(method)?;
        }
        Ok(Methods {
            made: Snapshot::of(rows),
            methods,
            arcs,
        })
    }

    /// Arcs in rising order of their objects that decide the bid of a person with a short row.
    #[inline(always)]
    fn sorted<'a>(&'a self, own: PersonRow<'a>) -> Option<SortedRow<'a>>
        requires kept { KeptAt own self.now }
        ensures { IfSome result (DecidesAt own.entry) }
    {
        let person = own.person as usize;
        if person >= self.methods.len() {
            return None;
        }
        let row = PricedRow::of(own);
        match self.methods[person] {
            Method::Rising => Some(SortedRow {
                scale: row.scale,
                arcs: row.arcs,
                copies: row.copies,
            }),
            Method::Sorted { start, count } => {
                let start = start as usize;
                Some(SortedRow {
                    scale: row.scale,
                    arcs: &self.arcs[start..start + count as usize],
                    copies: row.copies,
                })
            }
            Method::Plain | Method::Listed { .. } => None,
        }
    }

    /// The best arc of a person with a short row.
    #[inline(always)]
    pub(crate) fn best(&self, own: PersonRow) -> Option<Scan>
        requires kept { KeptAt own self.now }
        ensures { IfSome result (IsScanOf own.entry) }
    {
        self.sorted(own)?.best()
    }

    /// The place of a person's list, where there is one.
    pub(crate) fn place(&self, person: u32) -> Option<u32> {
        let person = person as usize;
        if person >= self.methods.len() {
            return None;
        }
        match self.methods[person] {
            Method::Listed { place } => Some(place),
            Method::Plain | Method::Rising | Method::Sorted { .. } => None,
        }
    }
}
