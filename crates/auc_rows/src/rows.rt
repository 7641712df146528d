//! The rows of a problem, in arcs of eight bytes.

ghost use Rattle.std.specs.Prelude.{◌≡◌, ◌<◌, ◌*◌, ◌^◌, pos, ◌≤ℤ◌, All, length, IfOk};
ghost use Rattle.auc_graph.specs.declared.limits.TheConstants.{MOST_SCALE};
ghost use Rattle.auc_rows.specs.Rows.{AreRowsOf, IsShort, flat_row_of};

use crate::arc::ShortArc;
use crate::columns::Columns;
use auc_graph::{ArcList, LaidOut, laid_out};
use std::alloc::{AllocError, Global};
use std::marker::Model;

/// The arcs of each person, in the order of the problem's list, with no place in it; and the spread of all costs.
///
/// Whether they are a full table is found once, when they are built. No clause depends on it; a solver may choose
/// another method there.
#[derive(Drop)]
pub struct FlatRows {
    laid: LaidOut<ShortArc>,
    is_full: bool,
}

impl Model for FlatRows {
    ghost use Rattle.auc_rows.specs.Rows.{FlatTable, IsFlatTable};
    ghost use Rattle.auc_graph.specs.Layout.{IsLayout, rows_between};
    ghost use Rattle.std.specs.Prelude.{length};

    ghost Value = { FlatTable };

    ghost view = { λ r. record {
      objects = r.laid.objects;
      spread = r.laid.spread;
      rows = rows_between r.laid.offsets.items r.laid.arcs.items r.laid.persons;
    } };

    ghost invariant = { λ r. IsLayout r.laid.offsets.items r.laid.persons (length r.laid.arcs.items)
        × IsFlatTable (record {
          objects = r.laid.objects;
          spread = r.laid.spread;
          rows = rows_between r.laid.offsets.items r.laid.arcs.items r.laid.persons;
        }) };
}

/// Whether the arcs of each row lead to all objects in order.
fn are_full(rows: &LaidOut<ShortArc>) -> bool {
    if rows.arcs.len() as u64 != u64::from(rows.persons) * u64::from(rows.objects) {
        return false;
    }
    let mut wanted = 0;
    for arc in rows.arcs.as_slice() {
        if arc.object != wanted {
            return false;
        }
        wanted = if wanted < rows.objects - 1 {
            wanted + 1
        } else {
            0
        };
    }
    true
}

impl FlatRows {
    ghost use Rattle.std.specs.Prelude.{IsTrue};
    ghost use Rattle.auc_rows.specs.Rows.{EachHasArc, IsFlatTable, scale_in};

    /// The rows of a problem; the columns take in each arc on the way. Takes O(arcs + persons) time, and 8 bytes of
    /// memory an arc and 8 a person. Where the arcs aren't in the order of their persons, it takes 16 bytes more a
    /// person while it runs.
    ///
    /// # Errors
    ///
    /// Only where memory was refused.
    pub fn build(
        alloc: Global,
        problem: &ArcList,
        columns: &mut Columns,
    ) -> Result<FlatRows, AllocError>
        ensures { IfOk result (AreRowsOf problem.now) }
    {
        let laid = laid_out(alloc, problem, |arc| columns.note(arc))?;
        let is_full = are_full(&laid);
        Ok(FlatRows { laid, is_full })
    }

    /// The number of persons, who are numbered from 0.
    #[inline]
    pub fn persons(&self) -> u32
        ensures persons { result ≡ length self.now.rows }
        ensures sound { IsFlatTable self.now }
    {
        self.laid.persons
    }

    /// The number of objects, which are numbered from 0.
    #[inline]
    pub fn objects(&self) -> u32
        ensures objects { result ≡ self.now.objects }
        ensures sound { IsFlatTable self.now }
    {
        self.laid.objects
    }

    /// The number of persons plus one, by which costs are scaled.
    #[inline]
    pub fn scale(&self) -> i64
        ensures is { result ≡ scale_in self.now }
        ensures low { pos 1 ≤ℤ result }
        ensures high { result ≤ℤ MOST_SCALE }
        ensures sound { IsFlatTable self.now }
    {
        i64::from(self.persons()) + 1
    }

    /// The greatest minus the least cost of all arcs, in costs of the file, and 0 where there is no arc.
    #[inline]
    pub fn spread(&self) -> i64
        ensures spread { result ≡ self.now.spread }
        ensures low { pos 0 ≤ℤ result }
        ensures high { result ≤ℤ pos (2 * 10 ^ 9) }
    {
        self.laid.spread
    }

    /// The number of all arcs.
    #[inline]
    pub fn arc_count(&self) -> usize {
        self.laid.arcs.len()
    }

    /// Whether each person has an arc to each object, one each, in order: a full table. O(1).
    #[inline]
    pub fn is_full(&self) -> bool {
        self.is_full
    }

    /// Whether each person has an arc. O(persons).
    pub fn each_has_arc(&self) -> bool
        ensures { IsTrue result → EachHasArc self.now }
    {
        for person in 0..self.persons() {
            if self.row(person).len() == 0 {
                return false;
            }
        }
        true
    }

    /// The place of a person's first arc among those of all rows. It is also the place in the problem's list, where
    /// that has the order of the persons. No clause says so: the caller checks. O(1).
    #[inline]
    pub fn start(&self, person: u32) -> usize
        requires { person < length self.now.rows }
    {
        self.laid.offsets[person as usize]
    }

    /// The arcs of a person, in the order of the problem's list. O(1).
    #[inline(always)]
    pub fn row(&self, person: u32) -> &[ShortArc]
        requires { person < length self.now.rows }
        ensures row { result.now ≡ flat_row_of self.now person }
        ensures each { All (IsShort self.now.objects) result.now }
        ensures sound { IsFlatTable self.now }
    {
        self.laid.row(person)
    }
}
