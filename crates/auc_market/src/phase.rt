//! A phase: the persons who have no object bid in order, two in turn, until each has one. It goes in slices. Before
//! each slice the watch is asked whether the run goes on. A phase that is only tried may be given up after some bids.

ghost use Rattle.std.specs.Prelude.{true, ◌≡◌, ◌-◌, ◌<◌, ◌^◌, IfErr, IfOk, IfNone, IfSome};
ghost use Rattle.auc_market.specs.Halts.{IsHalt};
ghost use Rattle.auc_market.specs.Position.{IsPlayed, IsSlice, IsTried};

use crate::ending::{Chain, Ending};
use crate::halt::Halt;
use crate::market::Market;
use crate::pace::Pace;
use crate::watch::{Progress, Watch, may_go_on};
use auc_claim::Reason;

/// When a phase that is tried is given up.
#[derive(Clone, Copy)]
pub struct Attempt {
    /// The number of bids after which it is judged. With 0 it isn't tried, with the greatest number never given up.
    pub bids: u64,
    /// It goes on then where at most so many persons are free,
    pub free: u32,
    /// with at most so many bids more, after which it is given up.
    pub more: u64,
}

impl Attempt {
    /// Never given up.
    pub const WHOLE: Attempt = Attempt {
        bids: u64::MAX,
        free: 0,
        more: 0,
    };
}

impl<'a> Market<'a> {
    /// Plays a slice of a phase, of at most `bids` bids, in which the persons who hold nothing bid.
    fn play_slice(&mut self, bids: u64, pace: &mut Pace) -> Result<Ending, Halt>
        ensures slice { IfOk result (λ e. IsSlice bids e self.old self.new) }
        ensures halt { IfErr result (IsHalt self.old.table) }
    {
        self.law();
        let mut left = bids;
        match self.sell(&mut left, pace)? {
            Chain::Placed => {}
            Chain::Bids => {
                pace.made = pace.made.saturating_add(bids);
                return Ok(Ending::Stopped(Reason::Bids));
            }
            Chain::Ceiling => {
                self.law();
                return Ok(Ending::Stopped(Reason::Ceiling));
            }
        }
        pace.made = pace.made.saturating_add(bids - left);
        Ok(Ending::Sold)
    }

    /// Tries a phase of at most `bids` bids, in which the persons who hold nothing bid. None where the attempt is given
    /// up. Where the watch says no, the phase ends as one whose bids have run out.
    pub fn try_phase<W: Watch>(
        &mut self,
        bids: u64,
        attempt: Attempt,
        pace: &mut Pace,
        watch: &mut W,
    ) -> Result<Option<Ending>, Halt>
        ensures played { IfOk result
            (λ o. IfSome o (λ e. IsPlayed bids (W.has_stopped watch.old)
            (W.has_stopped watch.new) e self.old self.new)) }
        ensures tried { IfOk result (λ o. IfNone o (IsTried bids self.old self.new)) }
        ensures going { IfOk result (λ o. IfNone o (W.has_stopped watch.new ≡ W.has_stopped watch.old)) }
        ensures asked { IfOk result (λ o. IfSome o (λ e. W.was_asked watch.new ≡ true)) }
        ensures whole { IfOk result (λ o. IfNone o (attempt.bids < 2 ^ 64 - 1)) }
        ensures halt { IfErr result (λ h. IsHalt self.old.table h × (W.has_stopped watch.new
            ≡ W.has_stopped watch.old)) }
    {
        self.law();
        if attempt.bids == 0 {
            return Ok(None);
        }
        let eps = self.eps;
        pace.begin(eps);
        let mut left = bids;
        let mut few = bids.min(attempt.bids);
        let mut more = attempt.more;
        loop {
            if few == 0 && left > 0 {
                few = left.min(more);
                more = 0;
                if few == 0 || self.persons().saturating_sub(self.held()) > attempt.free {
                    return Ok(None);
                }
            }
            let progress = Progress {
                eps,
                held: self.held(),
                bids: bids - left,
                best: self.best(),
            };
            if !may_go_on(watch, progress) {
                return Ok(Some(Ending::Stopped(Reason::Bids)));
            }
            let slice = few.min(pace.slice.max(1));
            let ending = self.play_slice(slice, pace)?;
            self.law();
            // Any other ending of a slice is also the ending of its phase.
            if ending != Ending::Stopped(Reason::Bids) {
                return Ok(Some(ending));
            }
            left -= slice;
            few -= slice;
            if left == 0 {
                return Ok(Some(ending));
            }
        }
    }

    /// Plays a whole phase of at most `bids` bids.
    pub fn play<W: Watch>(
        &mut self,
        bids: u64,
        pace: &mut Pace,
        watch: &mut W,
    ) -> Result<Ending, Halt>
        ensures played { IfOk result (λ e. IsPlayed bids (W.has_stopped watch.old)
            (W.has_stopped watch.new) e self.old self.new) }
        ensures asked { IfOk result (λ e. W.was_asked watch.new ≡ true) }
        ensures halt { IfErr result (λ h. IsHalt self.old.table h × (W.has_stopped watch.new
            ≡ W.has_stopped watch.old)) }
    {
        match self.try_phase(bids, Attempt::WHOLE, pace, watch)? {
            Some(ending) => Ok(ending),
            None => unreachable!("an attempt of so many bids isn't given up"),
        }
    }
}
