//! The tuning numbers of a run. Only speed depends on them. The lengths of candidate lists are in `auc_market`;
//! by what eps is divided, in `auc_table`.

use auc_market::Pacing;

/// The spread and the ties of at least this many rows are taken, where there are as many.
pub(crate) const SAMPLED_ROWS: u32 = 512;

/// Where there are ties, the last phase is judged after so many bids a person.
pub(crate) const TIES_BIDS_PER_PERSON: u64 = 3;

/// One person in this many is free by then, where each bid meets a free object by chance: e^3.
pub(crate) const FREE_DIVISOR: u32 = 20;

/// After a phase of fewer bids a person than this the last phase is tried next: not every person was displaced even
/// once.
pub(crate) const CALM_BIDS_PER_PERSON: u64 = 2;

/// When chains of bids search, and phases ask a watch.
pub(crate) const PACING: Pacing = Pacing {
    // A label and a place in a heap take as long as four arcs of a bid.
    search: 4,
    early: 16,
    // Some milliseconds.
    slice: 4_194_304,
};

/// The number of bids a person that a run from start prices may make before it begins as a run without a start.
pub(crate) const START_BIDS_PER_PERSON: u64 = 4;

/// A full table of at most so many entries is searched as a table until its search is through: it lies in a processor's
/// cache. A pass over a larger one takes so long that lists of candidates are mostly faster.
pub(crate) const CACHED_ENTRIES: u64 = 1_048_576;

/// The number of passes that the search of a larger one may make, with as many objects as persons.
pub(crate) const TABLE_PASSES: u32 = 8;
