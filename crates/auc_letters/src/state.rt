//! The state that letters change: that of a person, and the holder of an object.

/// The state of a person.
#[derive(Clone, Copy, Debug, PartialEq, Eq)]
pub enum PersonState {
    /// The person holds nothing, and has no bid under way.
    Free,
    /// The person's bid for the object is under way.
    Waits { object: u32 },
    /// The person holds the object, by the last letter that came.
    Holds { object: u32 },
}

/// The holder of an object: the person, and the place of the holder's arc in the list of arcs.
#[derive(Clone, Copy, Debug, PartialEq, Eq)]
pub struct Held {
    pub person: u32,
    pub arc: u32,
}
