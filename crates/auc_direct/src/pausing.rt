//! A watch within a search over a table.

ghost use Rattle.std.specs.Prelude.{◌≡◌, true, false};

use crate::tuning::PACING;
use auc_market::{Progress, Watch};
use auc_table::Pause;

/// Asks a watch after about as many entries as a phase scans between two questions.
#[derive(Drop)]
pub struct Pausing<'a, W> {
    watch: &'a mut W,
    objects: u32,
    asked_at: u64,
}

impl<'a, W: Watch> Pausing<'a, W> {
    /// Before a search over a table of so many objects.
    pub fn new(objects: u32, watch: &'a mut W) -> Pausing<'a, W> {
        Pausing {
            watch,
            objects,
            asked_at: 0,
        }
    }
}

impl<W: Watch> Pause for Pausing<'_, W> {
    fn goes_on(&mut self, scanned: u64) -> bool {
        if self.watch.has_said_no() {
            return false;
        }
        if scanned.saturating_sub(self.asked_at) < PACING.slice {
            return true;
        }
        self.asked_at = scanned;
        // To look over a row counts as a bid.
        let bids = scanned.checked_div(u64::from(self.objects)).unwrap_or(0);
        self.watch.goes_on(Progress {
            eps: 0,
            held: 0,
            bids,
            best: None,
        })
    }
}

/// Asks a watch at the end of such a search, to which a small table comes before a question is due. Whether the run
/// goes on; a watch that has said no isn't asked again.
pub fn ask_after<W: Watch>(watch: &mut W, persons: u32) -> bool
    ensures yes { result ≡ true → W.has_stopped watch.new ≡ false }
    ensures no { result ≡ false → W.has_stopped watch.new ≡ true }
    ensures asked { W.was_asked watch.new ≡ true }
{
    if watch.has_said_no() {
        return false;
    }
    watch.goes_on(Progress {
        eps: 0,
        held: persons,
        bids: 0,
        best: None,
    })
}
