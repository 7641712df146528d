//! What a C program watches a call by: descriptors that end the search, and one to which progress is written.

ghost use Rattle.std.specs.Prelude.{◌≡◌, false, if◌then◌else◌};
ghost use Rattle.sigdorf_c.specs.Watch.{has_stopped, was_asked};

use auc_call::{Progress, Watch};

/// What a C program sets for a call, and what the call writes there. No descriptor may block.
#[repr(C)]
#[derive(Clone, Copy, Debug, PartialEq, Eq)]
pub struct Watching {
    /// A descriptor, as of a timer, that ends the search as soon as something can be read from it; -1: none. Up to
    /// eight bytes are read.
    pub timer: i32,
    /// Another one.
    pub stop: i32,
    /// A descriptor to which the progress is written at each question, by one write; -1: none. One to a pipe that
    /// nobody reads raises SIGPIPE.
    pub progress: i32,
    /// 1 where the watch has said no in the call, else 0.
    pub stopped: u32,
    /// How often it was asked in the call, but no more than 2^32 - 1.
    pub asked: u32,
}

impl Watching {
    /// Begins to watch over a call.
    pub(crate) fn begin(&self) -> Lookout
        ensures { has_stopped result ≡ false }
    {
        Lookout {
            timer: self.timer,
            stop: self.stop,
            progress: self.progress,
            has_stopped: false,
            asked: 0,
        }
    }

    /// Writes what came of the watch over a call.
    pub(crate) fn end(&mut self, lookout: &Lookout)
        ensures stopped { self.new.stopped ≡ (if has_stopped lookout.now then 1 else 0) }
        ensures asked { self.new.asked ≡ lookout.now.asked }
        ensures kept { (self.new.timer ≡ self.old.timer) × (self.new.stop ≡ self.old.stop)
            × (self.new.progress ≡ self.old.progress) }
    {
        self.stopped = if lookout.has_said_no() { 1 } else { 0 };
        self.asked = lookout.asked;
    }
}

/// The watch over one call.
#[derive(Drop)]
pub(crate) struct Lookout {
    timer: i32,
    stop: i32,
    progress: i32,
    has_stopped: bool,
    asked: u32,
}

/// Whether something could be read from a descriptor.
fn has_word(descriptor: i32) -> bool {
    descriptor != -1 && io::read_full(descriptor, &mut [0; 8]) > 0
}

impl Lookout {
    /// Writes the progress by one write, whose result doesn't matter: nobody may read it.
    fn tell_progress(&self, progress: Progress) {
        if self.progress != -1 {
            let _ = io::write_all(self.progress, &bytes_of(progress));
        }
    }
}

/// The progress as a `sigdorf_progress` lies in memory.
fn bytes_of(progress: Progress) -> [u8; 40] {
    let (cost, lower, known) = match progress.best {
        Some(best) => (best.cost, best.lower, 1),
        None => (0, 0, 0),
    };
    let mut bytes = [0; 40];
    bytes[0..8].copy_from_slice(&i64::to_ne_bytes(cost));
    bytes[8..16].copy_from_slice(&i64::to_ne_bytes(lower));
    bytes[16..24].copy_from_slice(&i64::to_ne_bytes(progress.eps));
    bytes[24..32].copy_from_slice(&u64::to_ne_bytes(progress.bids));
    bytes[32..36].copy_from_slice(&u32::to_ne_bytes(progress.held));
    bytes[36..40].copy_from_slice(&u32::to_ne_bytes(known));
    bytes
}

impl Watch for Lookout {
    ghost has_stopped = { has_stopped };

    ghost was_asked = { was_asked };

    fn has_said_no(&self) -> bool {
        self.asked != 0 && self.has_stopped
    }

    fn goes_on(&mut self, progress: Progress) -> bool {
        self.asked = self.asked.saturating_add(1);
        self.tell_progress(progress);
        self.has_stopped = has_word(self.timer) || has_word(self.stop);
        !self.has_stopped
    }
}
