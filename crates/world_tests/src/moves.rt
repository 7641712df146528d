//! The turns of the first two shards of each kind as steps, by name.

use crate::telling::Step;
use auc_model::{MailName, Turn};

/// The first shard of the persons bids.
pub const BID: Step = Step::Take(Turn::Bid { shard: 0 });

/// It posts.
pub const PERSON_POST: Step = Step::Take(Turn::PersonPost { shard: 0 });

/// It hears a letter.
pub const PERSON_TAKE: Step = Step::Take(Turn::PersonTake { shard: 0 });

/// The first shard of the objects takes a bid.
pub const OBJECT_TAKE: Step = Step::Take(Turn::ObjectTake { shard: 0 });

/// It posts.
pub const OBJECT_POST: Step = Step::Take(Turn::ObjectPost { shard: 0 });

/// The second shard of the persons bids.
pub const OTHER_BID: Step = Step::Take(Turn::Bid { shard: 1 });

/// It posts.
pub const OTHER_PERSON_POST: Step = Step::Take(Turn::PersonPost { shard: 1 });

/// It hears a letter.
pub const OTHER_PERSON_TAKE: Step = Step::Take(Turn::PersonTake { shard: 1 });

/// The second shard of the objects takes a bid.
pub const OTHER_OBJECT_TAKE: Step = Step::Take(Turn::ObjectTake { shard: 1 });

/// It posts.
pub const OTHER_OBJECT_POST: Step = Step::Take(Turn::ObjectPost { shard: 1 });

/// The hub takes a letter.
pub const HUB_TAKE: Step = Step::Take(Turn::HubTake);

/// The hub closes the first box of the objects' mail.
pub const CLOSE_OBJECTS: Step = Step::Take(Turn::HubClose {
    mail: MailName::Objects,
    at: 0,
});

/// The second one.
pub const CLOSE_OTHER_OBJECTS: Step = Step::Take(Turn::HubClose {
    mail: MailName::Objects,
    at: 1,
});

/// The first box of the persons' mail.
pub const CLOSE_PERSONS: Step = Step::Take(Turn::HubClose {
    mail: MailName::Persons,
    at: 0,
});

/// The second one.
pub const CLOSE_OTHER_PERSONS: Step = Step::Take(Turn::HubClose {
    mail: MailName::Persons,
    at: 1,
});

/// The hub's own box.
pub const CLOSE_HUB: Step = Step::Take(Turn::HubClose {
    mail: MailName::Hub,
    at: 0,
});

/// The first shard of the objects sends the price of the first object to the first shard of the persons.
pub const TELL: Step = Step::Take(Turn::Tell {
    shard: 0,
    object: 0,
    to: 0,
});

/// The hub closes a box.
pub fn closes(mail: MailName, at: u32) -> Step {
    Step::Take(Turn::HubClose { mail, at })
}

/// A shard of the objects sends a price to a shard of the persons.
pub fn tells(shard: u32, object: u32, to: u32) -> Step {
    Step::Take(Turn::Tell { shard, object, to })
}
