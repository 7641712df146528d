//! Two chains of bids that take turns, and persons who begin as chains end. A bid waits for memory: for the holder of
//! the object, for the start of the holder's row, and for the row. Meanwhile the processor goes on with the bid of the
//! other chain, which needs nothing of it.

ghost use Rattle.std.specs.Prelude.{◌≡◌, ◌≢◌, ◌+◌, ◌<◌, ◌≤◌, length, true, false, IfErr, IfOk, OnOk};
ghost use Rattle.auc_letters.specs.declared.limits.TheConstants.{NOBODY};
ghost use Rattle.auc_market.specs.Halts.{IsHalt};
ghost use Rattle.auc_market.specs.Market.{HaveAllBut};
ghost use Rattle.auc_market.specs.Position.{AreServed, AreSold, Spends};

use crate::ending::Chain;
use crate::halt::Halt;
use crate::market::Market;
use crate::pace::Pace;
use auc_letters::NOBODY;

/// The next bidder of this chain, and the next person to begin: the displaced person if there is one, else the next one
/// to begin. LLVM compiles this to selects: a branch would be mispredicted where a chain ends.
#[inline(always)]
fn turn(freed: u32, fresh: u32) -> (u32, u32)
    requires few { fresh < NOBODY }
    ensures freed { freed ≢ NOBODY → (result.0 ≡ freed) × (result.1 ≡ fresh) }
    ensures fresh { freed ≡ NOBODY → (result.0 ≡ fresh) × (result.1 ≡ fresh + 1) }
{
    if freed == NOBODY {
        (fresh, fresh + 1)
    } else {
        (freed, fresh)
    }
}

/// Whether nobody is free, and nobody begins any more.
#[inline(always)]
fn is_over(freed: u32, fresh: u32, until: u32) -> bool
    ensures yes { result ≡ true → (freed ≡ NOBODY) × (fresh ≡ until) }
    ensures no { result ≡ false → freed ≡ NOBODY → fresh ≢ until }
{
    fresh == until && freed == NOBODY
}

impl<'a> Market<'a> {
    /// The person who waits and the next one who has no object bid in turn; each bid is followed by one of the person
    /// whom it displaced. Where nobody was displaced, the next person begins. That ends where nobody of those from
    /// `begun` up to `until` begins any more and one of the two is still free, who waits then.
    pub(crate) fn serve(
        &mut self,
        begun: u32,
        until: u32,
        waiting: &mut u32,
        left: &mut u64,
        pace: &mut Pace,
    ) -> Result<Chain, Halt>
        requires waiting { waiting.old < length self.old.table.rows }
        requires begun { begun ≤ until }
        requires until { until ≤ length self.old.table.rows }
        requires have { HaveAllBut begun self.old.owns NOBODY waiting.old }
        ensures spends { OnOk result (Spends left.old left.new self.old self.new) }
        ensures served { IfOk result (λ c. AreServed until left.new waiting.new c self.new) }
        ensures halt { IfErr result (IsHalt self.old.table) }
    {
        self.law();
        let mut person = *waiting;
        let mut other = self.free_from(begun, until, person, NOBODY);
        if other == until {
            return Ok(Chain::Placed);
        }
        let mut fresh = self.free_from(other + 1, until, person, other);
        let mut ended = left.saturating_add(pace.bids_since_search);
        while *left > 0 {
            let Some(displaced) = self.bid(person) else {
                return Ok(Chain::Ceiling);
            };
            *left -= 1;
            let freed = self.freed_by(displaced, *left, &mut ended, pace)?;
            if is_over(freed, fresh, until) {
                pace.bids_since_search = 0;
                *waiting = other;
                return Ok(Chain::Placed);
            }
            let (next, from) = turn(freed, fresh);
            person = other;
            other = next;
            fresh = self.free_from(from, until, person, other);
        }
        pace.bids_since_search = ended.saturating_sub(*left);
        Ok(Chain::Bids)
    }

    /// All persons who have no object bid, two in turn, until each has one.
    pub(crate) fn sell(&mut self, left: &mut u64, pace: &mut Pace) -> Result<Chain, Halt>
        ensures spends { OnOk result (Spends left.old left.new self.old self.new) }
        ensures sold { IfOk result (λ c. AreSold left.new c self.new) }
        ensures halt { IfErr result (IsHalt self.old.table) }
    {
        self.law();
        let persons = self.persons();
        let mut waiting = self.free_from(0, persons, NOBODY, NOBODY);
        if waiting == persons {
            return Ok(Chain::Placed);
        }
        let begun = waiting + 1;
        match self.serve(begun, persons, &mut waiting, left, pace)? {
            Chain::Placed => {}
            Chain::Bids => return Ok(Chain::Bids),
            Chain::Ceiling => return Ok(Chain::Ceiling),
        }
        self.law();
        let ended = self.chain(waiting, left, pace)?;
        Ok(ended)
    }
}
