//! The turns of the world, and their replies.

use auc_letters::Why;

/// One of the three mails.
#[derive(Clone, Copy, Debug, PartialEq, Eq)]
pub enum MailName {
    /// Bids, to the shards of the objects.
    Objects,
    /// Answers and prices, to the shards of the persons.
    Persons,
    /// To the hub, which has one box.
    Hub,
}

/// One step of the world. Shards, objects and boxes are numbered from 0.
#[derive(Clone, Copy, Debug, PartialEq, Eq)]
pub enum Turn {
    /// The shard of the persons puts its next bid, or the reason why there is none, into its outbox, if that is empty.
    Bid { shard: u32 },
    /// The shard of the persons posts the first letter of its outbox.
    PersonPost { shard: u32 },
    /// The shard of the objects posts the first letter of its outbox.
    ObjectPost { shard: u32 },
    /// The shard of the persons takes a letter and hears it.
    PersonTake { shard: u32 },
    /// The shard of the objects takes a bid and answers it into its outbox, if that is empty.
    ObjectTake { shard: u32 },
    /// The shard of the objects puts the price of the object, for the shard `to` of the persons, into its outbox, if
    /// that is empty.
    Tell { shard: u32, object: u32, to: u32 },
    /// The hub takes a letter.
    HubTake,
    /// The hub closes a box, once the phase has ended.
    HubClose { mail: MailName, at: u32 },
}

/// The reply to a turn.
#[derive(Clone, Copy, Debug, PartialEq, Eq)]
pub enum TurnReply {
    /// The world may have changed.
    Moved,
    /// The world is as before.
    Nothing,
}

/// How a phase has ended.
#[derive(Clone, Copy, Debug, PartialEq, Eq)]
pub enum End {
    /// Every person holds an object.
    All,
    /// A shard has stopped, or a guard was hit.
    Stopped { why: Why },
}
