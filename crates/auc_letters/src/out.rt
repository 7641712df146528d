//! The receiver of a letter.

ghost use Rattle.std.specs.Prelude.{◌≡◌, ◌<◌, ◌%◌};
ghost use Rattle.auc_letters.specs.Award.{bid_out};

use crate::letter::{Bid, Letter};

/// The receiver of a letter.
#[derive(Clone, Copy, Debug, PartialEq, Eq)]
pub enum To {
    /// This shard of the persons, in the persons' mail.
    Person { shard: u32 },
    /// This shard of the objects, in the objects' mail.
    Object { shard: u32 },
    /// The hub, in the hub's mail.
    Hub,
}

/// A letter to be posted.
#[derive(Clone, Copy, Debug, PartialEq, Eq)]
pub struct Out {
    pub letter: Letter,
    pub to: To,
    /// The post is refused where no more than this number of places of the mail are free.
    pub reserve: u32,
}

/// The blank of a list of letters: a First of object 0 to the hub.
impl Default for Out {
    ghost use Rattle.auc_letters.specs.Routing.{to_hub};

    fn default() -> Self
        ensures { result ≡ to_hub (Letter.First 0) }
    {
        Out {
            letter: Letter::First { object: 0 },
            to: To::Hub,
            reserve: 0,
        }
    }
}

/// The shard, of `shards` shards, that a person or an object belongs to.
#[inline]
pub fn shard_of(number: u32, shards: u32) -> u32
    requires { 0 < shards }
    ensures remainder { result ≡ number % shards }
    ensures below { result < shards }
{
    // With one shard the remainder is 0. A division takes as long as some twenty other instructions.
    if shards == 1 {
        return 0;
    }
    number % shards
}

impl Bid {
    /// The letter that brings a bid to the shard of its object.
    #[inline]
    pub fn into_out(self, shards: u32) -> Out
        requires { 0 < shards }
        ensures { result ≡ bid_out shards self }
    {
        let Bid {
            person,
            arc,
            object,
            amount,
        } = self;
        Out {
            letter: Letter::Bid {
                person,
                arc,
                object,
                amount,
            },
            to: To::Object {
                shard: shard_of(object, shards),
            },
            reserve: 0,
        }
    }
}
