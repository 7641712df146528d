//! The letters, and a bid by itself.

/// Why a shard stops before the phase is done.
#[derive(Clone, Copy, Debug, PartialEq, Eq)]
pub enum Why {
    /// The shard has used up its bids.
    Bids,
    /// A person would have to bid more than the greatest price.
    Ceiling,
    /// A person has no arc.
    Stuck,
    /// A lane has had all its posts.
    Posts,
    /// A trail has no place left.
    Trail,
    /// A mail has no room left.
    Mail,
    /// The price of a letter is below an earlier one.
    Fell,
    /// A letter came that doesn't fit.
    Stray,
}

/// A letter. Amounts and prices are in scaled costs.
#[derive(Clone, Copy, Debug, PartialEq, Eq)]
pub enum Letter {
    /// The person bids this amount for the object, by the arc at this place in the list of arcs.
    Bid {
        person: u32,
        arc: u32,
        object: u32,
        amount: i64,
    },
    /// The person's bid was accepted, and this is the price now: the person holds the object.
    Award {
        person: u32,
        object: u32,
        price: i64,
    },
    /// The person's bid was too low; this is the price.
    Refused {
        person: u32,
        object: u32,
        price: i64,
    },
    /// The person held the object; another person has it now, at this price.
    Outbid {
        person: u32,
        object: u32,
        price: i64,
    },
    /// The price of the object.
    Price {
        object: u32,
        price: i64,
    },
    /// The object has its first holder of the phase.
    First {
        object: u32,
    },
    /// A shard stops.
    Stop {
        why: Why,
    },
}

/// A bid, without the letter around it: the person bids this amount, in scaled costs, for the object, by the arc at
/// this place in the list of arcs.
#[derive(Clone, Copy, Debug, PartialEq, Eq)]
pub struct Bid {
    pub person: u32,
    pub arc: u32,
    pub object: u32,
    pub amount: i64,
}
