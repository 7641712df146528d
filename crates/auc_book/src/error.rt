//! Why a call is refused, and why a mail and its seats do not settle.

use thiserror::Error;

/// No more calls can be noted: the trail has no place left, or the count of calls is at its last value. The call was
/// not made.
#[derive(Clone, Copy, Debug, PartialEq, Eq, Error)]
#[error("no place is left in the trail")]
pub struct TrailFull;

/// Why a post was refused. Where there are several causes, the first of them in this order is returned.
#[derive(Clone, Copy, Debug, PartialEq, Eq, Error)]
pub enum CallRefused {
    /// No more calls can be noted, as for `TrailFull`. The call was not made.
    #[error("no place is left in the trail")]
    TrailFull,

    /// The box is closed.
    #[error("the box is closed")]
    Closed,

    /// The mail's `most` letters were posted in this lane, those taken since among them.
    #[error("the lane had all its posts")]
    Spent,

    /// No more letters than the post's `reserve` are free.
    #[error("no letter is free")]
    Full,
}

/// Why a mail and its seats do not settle. They are tested in the order `NoTrail`, `Missing`, `Differs`.
#[derive(Clone, Copy, Debug, PartialEq, Eq, Error)]
pub enum SettleError {
    /// A worker's seat is not among them.
    #[error("a seat is missing")]
    Missing,

    /// A seat's lines are not the trail's lines of its worker.
    #[error("a seat differs from the trail")]
    Differs,

    /// The mail was made with no room for a trail.
    #[error("no trail was kept")]
    NoTrail,
}
