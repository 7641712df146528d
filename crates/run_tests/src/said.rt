//! Problems and certificates as texts, and what a job says of them.

ghost use Rattle.auc_run.specs.Jobs.{IsInRange, IsPlain};

use crate::fakes::Full;
use auc_run::{Job, run_plain};
use std::io::Read;
use std::test::*;

/// Two persons, two objects.
pub const TWO: &str = "2\n1 1 1\n1 2 2\n2 1 1\n2 2 3\n";

/// The certificate of their least assignment.
pub const TWO_BEST: &str =
    "auction 1\noptimal 2 3\nassign 1 2 2\nassign 2 1 1\nprice 1 7\nprice 2 5\n";

/// What one bid leaves of it.
pub const TWO_BRACKET: &str =
    "auction 1\nbracket bids 2 3 4\nassign 1 1 1\nassign 2 2 3\nprice 1 4\nprice 2 0\n";

/// Two persons who both have arcs to the first object alone.
pub const ONE_OBJECT: &str = "2\n1 1 5\n2 1 7\n";

/// The certificate that names them.
pub const ONE_OBJECT_CERT: &str = "auction 1\ninfeasible 2 1\nperson 1\nperson 2\nobject 1\n";

/// Whether the job on what these readers have writes this text, and answers this status.
pub fn says<R: Read, Q: Read>(
    rt: &HostRuntime,
    job: &Job,
    first: &mut R,
    second: &mut Q,
    text: &str,
    status: u8,
) -> bool
    requires range { IsInRange job.now }
    requires plain { IsPlain job.now }
{
    let mut out = Vec::new(rt.alloc());
    let answered = run_plain(rt.alloc(), job, first, second, &mut out);
    answered == status && out.as_slice() == text.as_bytes()
}

/// The job's status with a writer that has so much room, and then takes nothing or fails.
fn status_with_room(
    rt: &HostRuntime,
    job: &Job,
    first: &str,
    second: &str,
    room: usize,
    fails: bool,
) -> u8
    requires range { IsInRange job.now }
    requires plain { IsPlain job.now }
{
    let mut full = Full { room, fails };
    let mut first = first.as_bytes();
    let mut second = second.as_bytes();
    run_plain(rt.alloc(), job, &mut first, &mut second, &mut full)
}

/// Whether the job, whose text is longer than 9 bytes, has the status of what could not be written: where the writer
/// takes nothing or fails before the text, and inside it.
pub fn is_unwritten(rt: &HostRuntime, job: &Job, first: &str, second: &str) -> bool
    requires range { IsInRange job.now }
    requires plain { IsPlain job.now }
{
    status_with_room(rt, job, first, second, 0, false) == 8
        && status_with_room(rt, job, first, second, 0, true) == 8
        && status_with_room(rt, job, first, second, 9, false) == 8
        && status_with_room(rt, job, first, second, 9, true) == 8
}
