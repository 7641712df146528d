//! After many bids in a row, a free person searches for a path in place of one more bid.

ghost use Rattle.std.specs.Prelude.{◌≡◌, ◌<◌, length, IfErr, IfOk, IfSome};
ghost use Rattle.auc_letters.specs.Price.{IsEps};
ghost use Rattle.auc_letters.specs.declared.limits.TheConstants.{NOBODY};
ghost use Rattle.auc_market.specs.Hall.{IsShortHallSet};
ghost use Rattle.auc_market.specs.Halts.{IsHalt};
ghost use Rattle.auc_market.specs.Market.{AreHigher, Stands, own_at};
ghost use Rattle.auc_market.specs.Augmented.{IsAugmented};

use crate::hall::{HallSet, hall_set_of};
use crate::halt::Halt;
use crate::holdings::Holdings;
use crate::search::Search;
use auc_rows::FlatRows;
use std::alloc::{AllocError, Global};

/// The free person after a search for a path, and the number of arcs scanned.
#[derive(Clone, Copy)]
pub(crate) struct Augmented {
    pub(crate) free: u32,
    pub(crate) scanned: u64,
}

impl Holdings {
    /// The Hall violator of a search that found no free object: the person from whom it began, and the holders of the
    /// settled objects. None where these persons don't have arcs to fewer objects than they number.
    fn reached(
        &self,
        alloc: Global,
        rows: &FlatRows,
        start: u32,
        search: &Search,
    ) -> Result<Option<HallSet>, AllocError>
        requires { start < length rows.now.rows }
        ensures { IfOk result (λ o. IfSome o (λ h. IsShortHallSet rows.now h.persons.items h.objects.items)) }
    {
        let mut is_in = vec![in alloc; false; rows.persons() as usize]?;
        is_in[start as usize] = true;
        for settled in &search.rises {
            let holder = self.holder_of(settled.object) as usize;
            if holder < is_in.len() {
                is_in[holder] = true;
            }
        }
        hall_set_of(alloc, rows, is_in.as_slice())
    }

    /// A free person takes a path where one is found; returns the free person afterwards.
    ///
    /// # Errors
    ///
    /// A Hall violator, or memory was refused: nothing has changed then.
    pub(crate) fn find_path(
        &mut self,
        alloc: Global,
        rows: &FlatRows,
        eps: i64,
        person: u32,
        search: &mut Search,
    ) -> Result<Augmented, Halt>
        requires person { person < length rows.now.rows }
        requires eps { IsEps eps }
        requires stands { Stands rows.now eps self.old.prices.items self.old.holders.items self.old.owns.items }
        requires none { (own_at self.old.owns.items person).object ≡ NOBODY }
        ensures stands { Stands rows.now eps self.new.prices.items self.new.holders.items self.new.owns.items }
        ensures higher { AreHigher self.old.prices.items self.new.prices.items }
        ensures augmented { IfOk result
            (λ w. IsAugmented rows.now eps person self.old.prices.items self.new.prices.items
            self.old.holders.items self.new.holders.items self.old.owns.items self.new.owns.items w.free) }
        ensures halt { IfErr result (IsHalt rows.now) }
    {
        // Read here, so that the proof has the invariant of the rows.
        let _ = rows.persons();
        let is_found = search.find(rows, self, person)?;
        let scanned = search.scanned;
        if is_found {
            let rises = search.rises.as_mut_slice();
            let free = self.go(rows, eps, person, rises, search.route.as_slice());
            return Ok(Augmented { free, scanned });
        }
        match self.reached(alloc, rows, person, search)? {
            Some(hall) => Err(Halt::Closed(hall)),
            None => Ok(Augmented {
                free: person,
                scanned,
            }),
        }
    }
}
