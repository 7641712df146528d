//! The watch over a direct solve: it ends the search when its time is up, and says how far it has come.

ghost use Rattle.std.specs.Prelude.{◌≡◌, false, true};

use crate::asked::Watching;
use auc_run::{Progress, Watch};
use std::rt::Clock;
use std::time::Instant;

/// Asks the clock between bids, where there is something to watch for.
#[derive(Drop)]
pub(crate) struct Timer<'a, R> {
    rt: &'a R,
    watching: Watching,
    /// When it began; none where the clock can't be read.
    start: Option<Instant>,
    /// How many seconds had passed when a line was written last.
    told: u64,
    /// Which phase is played, from 1 on.
    phase: u32,
    has_stopped: bool,
}

impl<'a, R: Clock + Eprint> Timer<'a, R> {
    /// Begins to count.
    pub(crate) fn start(rt: &'a R, watching: Watching) -> Timer<'a, R> {
        Timer {
            rt,
            watching,
            start: Instant::now(rt).ok(),
            told: 0,
            phase: 0,
            has_stopped: false,
        }
    }

    /// How many whole seconds have passed.
    fn seconds(&self) -> Option<u64> {
        let start = self.start?;
        match start.elapsed(self.rt) {
            Ok(elapsed) => Some(elapsed.as_secs()),
            Err(_) => None,
        }
    }

    /// Whether the time is up. Where the clock can't be read, it is: the answer is a right one all the same.
    fn is_up(&self, seconds: Option<u64>) -> bool {
        match seconds {
            Some(seconds) => seconds >= self.watching.seconds,
            None => true,
        }
    }

    /// Says how far the run has come, once a second.
    fn tell(&mut self, seconds: Option<u64>, progress: Progress) {
        let Some(seconds) = seconds else {
            return;
        };
        if seconds > self.told {
            self.told = seconds;
            let _ = eprintln!(self.rt;
                "auction: {} s, phase {}, eps {}: {} persons have an object, {} bids in this phase",
                seconds, self.phase, progress.eps, progress.held, progress.bids
            );
        }
    }
}

impl<R: Clock + Eprint> Watch for Timer<'_, R> {
    ghost has_stopped = { λ timer. timer.has_stopped };

    ghost was_asked = { λ _. true };

    fn has_said_no(&self) -> bool {
        self.has_stopped
    }

    fn goes_on(&mut self, progress: Progress) -> bool {
        let Watching {
            seconds: most,
            progress: tells,
        } = self.watching;
        if most == 0 && !tells {
            return true;
        }
        if progress.bids == 0 {
            self.phase = self.phase.saturating_add(1);
        }
        let seconds = self.seconds();
        if tells {
            self.tell(seconds, progress);
        }
        self.has_stopped = most > 0 && self.is_up(seconds);
        !self.has_stopped
    }
}
