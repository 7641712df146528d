//! A watch that lets each run go on.

ghost use Rattle.std.specs.Prelude.{true, false};

use auc_market::{Progress, Watch};

/// Never says no.
#[derive(Clone, Copy, Debug, PartialEq, Eq)]
pub struct Onward;

impl Watch for Onward {
    ghost has_stopped = { λ _. false };

    ghost was_asked = { λ _. true };

    fn has_said_no(&self) -> bool {
        false
    }

    fn goes_on(&mut self, _progress: Progress) -> bool {
        true
    }
}
