//! The trail of a mail that has settled.

ghost use Rattle.std.specs.Prelude.{◌≡◌};

use crate::line::TrailLine;
use std::marker::Model;

/// The trail of a mail that has settled: all its calls in their order, with their workers and answers. Contracts see it
/// as the list of its lines.
#[derive(Drop)]
pub struct Trail<T: Copy> {
    lines: Vec<TrailLine<T>>,
}

impl<T: Copy> Model for Trail<T> {
    ghost use Rattle.std.specs.Prelude.{List};
    ghost use Rattle.auc_book.specs.declared.line.TrailLine.{TrailLine};

    ghost Value = { List (TrailLine T) };

    ghost view = { λ t. t.lines.items };
}

impl<T: Copy> Trail<T> {
    // The trail of these lines.
    pub(crate) fn new(lines: Vec<TrailLine<T>>) -> Trail<T>
        ensures { result ≡ lines.items }
    {
        Trail { lines }
    }

    /// Its lines, the first call first. Takes O(1) time.
    pub fn lines(&self) -> &[TrailLine<T>]
        ensures { result.now ≡ self.now }
    {
        self.lines.as_slice()
    }
}
