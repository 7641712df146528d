//! The limit that ended a run.

/// The limit that ended a run of the solver.
#[derive(Clone, Copy, Debug, PartialEq, Eq)]
pub enum Reason {
    /// A shard of the persons has used up its bids.
    Bids,
    /// A person would have to bid more than the greatest price.
    Ceiling,
    /// A lane of a mail has had all its posts.
    Posts,
    /// A trail has no place left.
    Trail,
    /// A mail has no room left.
    Mail,
}
