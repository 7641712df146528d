//! What a caller may say between bids: to go on, or to stop.

ghost use Rattle.std.specs.Prelude.{Bool, true, false, ◌≡◌};

/// What a run has found so far, in costs of the problem. Nothing is proved of it.
#[derive(Clone, Copy, Debug, PartialEq, Eq)]
pub struct Best {
    /// The cost of the last full assignment.
    pub cost: i64,
    /// No assignment costs less.
    pub lower: i64,
}

/// The progress of a run.
#[derive(Clone, Copy, Debug, PartialEq, Eq)]
pub struct Progress {
    /// The eps of the phase, in scaled costs.
    pub eps: i64,
    /// The number of persons who have an object.
    pub held: u32,
    /// The number of bids that the phase has made.
    pub bids: u64,
    /// What phases before it have found, if there was one that gave each person an object.
    pub best: Option<Best>,
}

/// Asked between bids whether a run goes on: before each phase, and after as many bids as take some milliseconds.
pub trait Watch {
    /// Whether it has said no.
    ghost has_stopped: { Self → Bool };

    /// Whether it was asked.
    ghost was_asked: { Self → Bool };

    /// Whether it has said no, for a caller that is about to ask.
    fn has_said_no(&self) -> bool
        ensures said { result ≡ has_stopped self.now }
        ensures asked { result ≡ true → was_asked self.now ≡ true };

    /// Whether the run goes on. Where it doesn't, it ends, and the watch isn't asked any more.
    fn goes_on(&mut self, progress: Progress) -> bool
        requires going { has_stopped self.old ≡ false }
        ensures yes { result ≡ true → has_stopped self.new ≡ false }
        ensures no { result ≡ false → has_stopped self.new ≡ true }
        ensures asked { was_asked self.new ≡ true };
}

/// Asks whether a run goes on; a watch that has said no isn't asked again.
pub(crate) fn may_go_on<W: Watch>(watch: &mut W, progress: Progress) -> bool
    ensures yes { result ≡ true → W.has_stopped watch.new ≡ W.has_stopped watch.old }
    ensures no { result ≡ false → W.has_stopped watch.new ≡ true }
    ensures asked { W.was_asked watch.new ≡ true }
{
    if watch.has_said_no() {
        return false;
    }
    watch.goes_on(progress)
}
