//! The bell of a box wakes the threads that wait at it.

ghost use Rattle.std.specs.Prelude.{◌≡◌, ◌≤◌, IfOk, vec_len, vec_capacity};

use std::alloc::{AllocError, Global};
use std::hint::spin_loop;
use std::sync::Condvar;
use std::thread::yield_now;

// How often a waiting thread looks before it lets others run, and how often it lets them run before it sleeps. To sleep
// and to be woken costs some ten microseconds, and an answering letter mostly comes sooner.
const LOOKS: u32 = 100;

const YIELDS: u32 = 200;

// The bell of a box. It counts its rings, and says nothing of the box: a thread that hears it looks at the box under
// the lock. It has cache lines of its own, so that threads that look at one bell don't slow down one that rings
// another.
#[derive(Drop)]
pub(crate) struct Bell {
    pub(crate) changed: Condvar,
    apart: [u64; 14],
}

impl Bell {
    fn new() -> Bell {
        Bell {
            changed: Condvar::new(),
            apart: [0; 14],
        }
    }

    // The number of its rings, wrapping.
    pub(crate) fn rung(&self) -> u64 {
        self.changed.notifications()
    }

    // Rings: wakes all threads that wait at the box. No system call is made where none sleeps.
    pub(crate) fn ring(&self) {
        self.changed.notify_all();
    }

    // Looks for a while whether it has been rung once more.
    pub(crate) fn look(&self, heard: u64) {
        for _ in 0..LOOKS {
            if self.rung() != heard {
                return;
            }
            spin_loop();
        }
        for _ in 0..YIELDS {
            if self.rung() != heard {
                return;
            }
            yield_now();
        }
    }
}

// A bell for each box.
pub(crate) fn new_bells(alloc: Global, boxes: u32) -> Result<Vec<Bell>, AllocError>
    ensures { IfOk result (λ bells. vec_len bells ≡ boxes) }
{
    let mut bells = Vec::with_capacity(alloc, boxes as usize)?;
    for number in 0..boxes {
        bells.push_reserved(Bell::new());
    }
    Ok(bells)
}
