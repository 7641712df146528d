//! A line of a trail, and the comparison of a worker's lines with the trail.

ghost use Rattle.std.specs.Prelude.{◌≡◌, ◌↔◌, IsTrue};
ghost use Rattle.auc_mail.specs.Equality.{EqualIsSame};
ghost use Rattle.auc_book.specs.Trail.{lines_of};

use auc_mail::{Call, Reply, same_call, same_reply};

/// A call, with the worker who made it and the answer.
#[derive(Clone, Copy, Debug, PartialEq, Eq)]
pub struct TrailLine<T> {
    /// The worker, from 0.
    pub worker: u32,

    /// The call.
    pub call: Call<T>,

    /// Its answer.
    pub reply: Reply<T>,
}

// Whether two lines are the same.
fn same_line<T: Eq>(line: &TrailLine<T>, other: &TrailLine<T>) -> bool
    requires { EqualIsSame T.eq }
    ensures { IsTrue result ↔ (line.now ≡ other.now) }
{
    line.worker == other.worker
        && same_call(&line.call, &other.call)
        && same_reply(&line.reply, &other.reply)
}

// Whether the worker's lines of the trail are these.
pub(crate) fn same_lines<T: Copy + Eq>(
    trail: &[TrailLine<T>],
    worker: u32,
    lines: &[TrailLine<T>],
) -> bool
    requires { EqualIsSame T.eq }
    ensures { IsTrue result ↔ (lines_of worker trail.now ≡ lines.now) }
{
    let mut place: usize = 0;
    for line in trail {
        if line.worker == worker {
            if place >= lines.len() || !same_line(line, &lines[place]) {
                return false;
            }
            place += 1;
        }
    }
    place == lines.len()
}
