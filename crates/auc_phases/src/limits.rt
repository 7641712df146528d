//! The limits of a phase.

ghost use Rattle.std.specs.Prelude.{◌≡◌};
ghost use Rattle.auc_phases.specs.Limits.{nodes_or};

/// The usual number of bids of each shard of the persons in a phase.
pub const USUAL_BIDS: u64 = 100_000_000;

/// The usual number of posts of each lane in a phase.
pub const USUAL_POSTS: u64 = 1_000_000_000_000;

/// The limits of the solver.
#[derive(Clone, Copy, Debug, PartialEq, Eq)]
pub struct Limits {
    /// The number of bids that each shard of the persons may make in a phase; any number.
    pub bids: u64,
    /// The number of letters that may be posted in each lane of a mail in a phase; any number.
    pub posts: u64,
    /// The number of shards of the persons, and also of the objects: 1 to 16.
    pub shards: u32,
    /// The number of calls that the trail of each mail may note, 0 to 1,000,000. 0 keeps no trail.
    pub audit: u32,
    /// The number of letters that may wait in each mail, to 16,777,216. 0 means the usual numbers, with which no letter
    /// but a price ever meets a full mail.
    pub nodes: u32,
}

impl Limits {
    /// The usual limits, with this many shards of each kind: 100,000,000 bids, 1,000,000,000,000 posts, no trail, and
    /// the usual numbers of letters that may wait.
    pub fn usual(shards: u32) -> Limits
        ensures shards { result.shards ≡ shards }
        ensures bids { result.bids ≡ 100000000 }
        ensures posts { result.posts ≡ 1000000000000 }
        ensures audit { result.audit ≡ 0 }
        ensures nodes { result.nodes ≡ 0 }
    {
        Limits {
            bids: USUAL_BIDS,
            posts: USUAL_POSTS,
            shards,
            audit: 0,
            nodes: 0,
        }
    }
}

/// The number of letters that may wait, where 0 means the usual number.
pub fn nodes_or(nodes: u32, usual: u32) -> u32
    ensures { result ≡ nodes_or nodes usual }
{
    if nodes == 0 { usual } else { nodes }
}
