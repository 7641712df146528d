//! A chain of bids: the displaced person bids next. After many bids in a row a search for an augmenting path takes the
//! place of the next one.

ghost use Rattle.std.specs.Prelude.{◌≡◌, IfErr, IfOk, OnOk};
ghost use Rattle.auc_letters.specs.declared.limits.TheConstants.{NOBODY};
ghost use Rattle.auc_market.specs.Halts.{IsHalt};
ghost use Rattle.auc_market.specs.Position.{IsChain, IsFree, IsFreed, IsMove, Spends};

use crate::ending::Chain;
use crate::halt::Halt;
use crate::market::Market;
use crate::pace::Pace;
use auc_letters::NOBODY;

/// The number of bids left where a chain ended last, after one more bid.
///
/// LLVM compiles this to a select. A branch would be mispredicted where a chain ends. A counter of the chain's bids,
/// set to 0 at its end, would become a branch: after 0 bids there is no search for a path.
#[inline(always)]
fn ended_at(ended: u64, left: u64, displaced: u32) -> u64
    ensures { displaced ≡ NOBODY → result ≡ left }
{
    if displaced == NOBODY { left } else { ended }
}

impl<'a> Market<'a> {
    /// The free person after a bid, with `left` bids left; NOBODY where nobody is free. This is the displaced person.
    /// Where each of the last `pace.bids_before_search` bids has displaced a person, it is the free person after a
    /// search for a path. A search is no bid.
    #[inline(always)]
    pub(crate) fn freed_by(
        &mut self,
        displaced: u32,
        left: u64,
        ended: &mut u64,
        pace: &mut Pace,
    ) -> Result<u32, Halt>
        requires { IsFreed self.old displaced }
        ensures moved { IfOk result (IsMove displaced self.old self.new) }
        ensures halt { IfErr result (IsHalt self.old.table) }
    {
        self.law();
        *ended = ended_at(*ended, left, displaced);
        // No search is made where nobody was displaced: the chain has ended here then.
        if ended.saturating_sub(left) <= pace.bids_before_search.saturating_sub(1) {
            return Ok(displaced);
        }
        *ended = left;
        let augmented = self.path(displaced)?;
        pace.learn(augmented.scanned);
        Ok(augmented.free)
    }

    /// A person bids, then the displaced person, and so on, until nobody is displaced. `left` is the number of bids
    /// that the phase may still make. After each `pace.bids_before_search` bids there is a search for a path.
    pub(crate) fn chain(
        &mut self,
        first: u32,
        left: &mut u64,
        pace: &mut Pace,
    ) -> Result<Chain, Halt>
        requires { IsFree self.old first }
        ensures spends { OnOk result (Spends left.old left.new self.old self.new) }
        ensures chain { IfOk result (λ c. IsChain first left.new c self.old self.new) }
        ensures halt { IfErr result (IsHalt self.old.table) }
    {
        self.law();
        let mut person = first;
        let mut ended = left.saturating_add(pace.bids_since_search);
        while *left > 0 {
            let Some(displaced) = self.bid(person) else {
                return Ok(Chain::Ceiling);
            };
            *left -= 1;
            person = self.freed_by(displaced, *left, &mut ended, pace)?;
            if person == NOBODY {
                pace.bids_since_search = 0;
                return Ok(Chain::Placed);
            }
        }
        pace.bids_since_search = ended.saturating_sub(*left);
        Ok(Chain::Bids)
    }
}
