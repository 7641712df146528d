//! A watch that says no after some questions.

ghost use Rattle.std.specs.Prelude.{◌==◌, ◌||◌, not};

use auc_call::{Progress, Watch};

/// Says yes so many times, and then no.
#[derive(Clone, Copy, Debug, PartialEq, Eq)]
pub(crate) struct Patience {
    left: u32,
    pub(crate) has_stopped: bool,
    /// How often it was asked.
    pub(crate) asked: u32,
}

impl Patience {
    /// So many questions are answered by yes.
    pub(crate) fn of(left: u32) -> Patience {
        Patience {
            left,
            has_stopped: false,
            asked: 0,
        }
    }

    /// It has said no before.
    pub(crate) fn over() -> Patience {
        Patience {
            left: 0,
            has_stopped: true,
            asked: 0,
        }
    }
}

impl Watch for Patience {
    ghost has_stopped = { λ patience. patience.has_stopped };

    ghost was_asked = { λ patience. patience.has_stopped || not (patience.asked == 0) };

    fn has_said_no(&self) -> bool {
        self.has_stopped
    }

    fn goes_on(&mut self, _progress: Progress) -> bool {
        self.asked = self.asked.saturating_add(1);
        self.has_stopped = self.left == 0;
        self.left = self.left.saturating_sub(1);
        !self.has_stopped
    }
}
