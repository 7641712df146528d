//! The candidate lists of all persons: with them most bids in long rows scan a few arcs only.

ghost use Rattle.std.specs.Prelude.{◌≡◌, ◌<◌, List, ℤ, All, length, IfOk};
ghost use Rattle.auc_graph.specs.Price.{IsPrice};
ghost use Rattle.auc_rows.specs.Rows.{EachHasArc, flat_row_of, scale_in};
ghost use Rattle.auc_market.specs.Scan.{short_value};
ghost use Rattle.auc_market.specs.Shortlist.{IsBest, Kept};

use crate::best::{Best, best_of};
use crate::shortlist::{LIST_CAPACITY, Shortlist, Values};
use auc_rows::FlatRows;
use std::alloc::{AllocError, Global};

/// The least number of arcs of a row that has a candidate list. In shorter rows a mispredicted branch takes as long as
/// the list saves.
pub const LONG_ROW: usize = 48;

/// A candidate list for each person, indexed by person, where most arcs are in long rows; else none. And scratch space
/// for making lists.
#[derive(Drop)]
pub(crate) struct Lists {
    pub(crate) lists: Vec<Shortlist>,
    values: Values,
}

impl Lists {
    /// Empty lists, which give no best arc. 176 bytes a person where most arcs are in long rows. Where fewer are, lists
    /// cost more memory than they gain: each person would have one.
    pub(crate) fn new(alloc: Global, rows: &FlatRows) -> Result<Lists, AllocError>
        ensures { IfOk result (λ l. (prices : List ℤ) → Kept rows.now prices l.lists.items) }
    {
        let mut long: usize = 0;
        for person in 0..rows.persons() {
            let arcs = rows.row(person).len();
            if arcs >= LONG_ROW {
                long = long.saturating_add(arcs);
            }
        }
        let are_mostly_long = long > rows.arc_count() / 2;
        let count = if are_mostly_long { rows.persons() } else { 0 };
        let mut lists = Vec::with_capacity(alloc, count as usize)?;
        for _ in 0..count {
            lists.push(Shortlist::new())?;
        }
        Ok(Lists {
            lists,
            values: [i64::MAX; LIST_CAPACITY],
        })
    }

    /// A person's best arc at these prices: by the candidate list where the row is long and has one, else by a pass
    /// over the row.
    #[inline(always)]
    pub(crate) fn best(&mut self, rows: &FlatRows, scale: i64, person: u32, prices: &[i64]) -> Best
        requires person { person < length rows.now.rows }
        requires arcs { EachHasArc rows.now }
        requires scale { scale ≡ scale_in rows.now }
        requires many { length prices.now ≡ rows.now.objects }
        requires prices { All IsPrice prices.now }
        requires kept { Kept rows.now prices.now self.old.lists.items }
        ensures best { IsBest (short_value scale prices.now) (flat_row_of rows.now person) result }
        ensures kept { Kept rows.now prices.now self.new.lists.items }
    {
        let row = rows.row(person);
        let place = person as usize;
        if row.len() < LONG_ROW || place >= self.lists.len() {
            return best_of(scale, row, prices);
        }
        if let Some(best) = self.lists[place].listed_best(scale, prices) {
            return best;
        }
        self.lists[place].best_anew(scale, row, prices, &mut self.values)
    }
}
