//! A letter that waits for the persons: the price of an object, and the person whom it frees.

/// A letter of the only shard of the objects to the only one of the persons, in 16 bytes; an award where it frees
/// nobody. It doesn't name the winner of an object, since nothing of the winner's changes here by the letter.
#[derive(Clone, Copy)]
pub(crate) struct Notice {
    /// The price of the object, in scaled costs.
    pub(crate) price: i64,
    pub(crate) object: u32,
    /// The person who is free again: the bid was refused, or another person has the object now.
    pub(crate) freed: u32,
}
