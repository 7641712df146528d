//! The incumbent: the last full assignment. A run that is stopped answers with it, at the prices of the stop.

ghost use Rattle.std.specs.Prelude.{◌≡◌, true, length};
ghost use Rattle.auc_market.specs.Incumbent.{AreSetAside, AreTakenUp, MayTakeUp};
ghost use Rattle.auc_market.specs.Market.{HaveObjects};

use crate::holdings::Holdings;
use crate::watch::Best;
use auc_letters::NOBODY;
use auc_rows::ShortArc;
use std::mem;

/// The own arc of each person, indexed by person, and whether each person had an object. What it shows of the least
/// cost is for a watch.
#[derive(Drop)]
pub(crate) struct Incumbent {
    pub(crate) owns: Vec<ShortArc>,
    pub(crate) is_whole: bool,
    pub(crate) best: Option<Best>,
}

/// What an assignment by these arcs shows, with as many objects as persons. It costs at most persons * eps more than
/// the least one, by epsilon-complementary slackness.
fn best_at(owns: &[ShortArc], eps: i64) -> Best {
    let mut cost: i64 = 0;
    for own in owns {
        cost = cost.saturating_add(i64::from(own.cost));
    }
    // Persons * eps, in costs that aren't scaled by persons + 1.
    let scale = (owns.len() as i64).saturating_add(1);
    let part = eps.saturating_sub(1).checked_div(scale).unwrap_or(0);
    let gap = eps.saturating_sub(1).saturating_sub(part);
    Best {
        cost,
        lower: cost.saturating_sub(gap),
    }
}

impl Holdings {
    /// Where each person has an object, within this eps of the best, these own arcs become the incumbent. The holdings
    /// are to be opened afterwards.
    pub(crate) fn set_aside(&mut self, eps: i64, incumbent: &mut Incumbent)
        ensures whole { HaveObjects (length self.old.owns.items) self.old.owns.items → (incumbent.new.is_whole ≡ true)
            × (incumbent.new.owns.items ≡ self.old.owns.items) }
        ensures aside { AreSetAside self.old incumbent.old self.new incumbent.new }
    {
        if !self.all_have() {
            return;
        }
        incumbent.best = Some(best_at(self.owns.as_slice(), eps));
        mem::swap(&mut self.owns, &mut incumbent.owns);
        incumbent.is_whole = true;
    }

    /// After a phase has begun: each person holds the object of these arcs again.
    pub(crate) fn take_up(self, persons: u32, owns: Vec<ShortArc>) -> Holdings
        requires persons { persons ≡ length owns.items }
        requires may { MayTakeUp self.holders.items owns.items }
        ensures { AreTakenUp owns.items self result }
    {
        let Holdings {
            prices,
            mut holders,
            ..
        } = self;
        for person in 0..persons {
            let own = owns[person as usize];
            if own.object != NOBODY {
                holders[own.object as usize] = person;
            }
        }
        Holdings {
            prices,
            holders,
            owns,
        }
    }
}
