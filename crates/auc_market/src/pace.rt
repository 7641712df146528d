//! When a chain of bids searches for a path. Only numbers of bids and arcs are seen here, so no answer depends on it.

use crate::lists::LONG_ROW;
use crate::shortlist::LIST_CAPACITY;
use auc_letters::LAST_EPS;
use auc_rows::FlatRows;

/// The tuning numbers that pace a phase.
#[derive(Clone, Copy)]
pub struct Pacing {
    /// The time of one arc of a path search, in arcs of a bid.
    pub search: u64,
    /// Before the last phase a chain may take this many times as long as a search.
    pub early: u64,
    /// About how many arcs are scanned between two questions to a watch.
    pub slice: u64,
}

/// How long chains bid before they search, in the phase at hand.
#[derive(Clone, Copy)]
pub struct Pace {
    pacing: Pacing,
    // About how many arcs a bid scans; and how many bids take as long as a search.
    arcs_a_bid: u64,
    search: u64,
    // How many times as long as a search a chain may take. `bids_before_search` is that as a number of bids, each of
    // which displaces a person.
    times: u64,
    pub(crate) bids_before_search: u64,
    // The number of such bids since the last search, where a slice of a phase has ended.
    pub(crate) bids_since_search: u64,
    // The number of bids of a phase between two questions to a watch.
    pub(crate) slice: u64,
    /// The number of bids that the phase has made.
    pub made: u64,
}

impl Pace {
    /// Before the first phase. The first search comes early: it shows how long one takes, and scans no more than all
    /// arcs.
    pub fn new(rows: &FlatRows, pacing: Pacing) -> Pace {
        let mean = rows.arc_count().checked_div(rows.persons() as usize);
        let mean = mean.unwrap_or(1).max(1);
        // The arcs of the mean row, or of a candidate list.
        let arcs_a_bid = if mean < LONG_ROW { mean } else { LIST_CAPACITY } as u64;
        Pace {
            pacing,
            arcs_a_bid,
            search: 1,
            times: pacing.early,
            slice: pacing.slice.checked_div(arcs_a_bid).unwrap_or(1),
            bids_before_search: 1,
            bids_since_search: 0,
            made: 0,
        }
    }

    /// A phase begins at this eps.
    pub(crate) fn begin(&mut self, eps: i64) {
        self.made = 0;
        self.times = if eps <= LAST_EPS {
            1
        } else {
            self.pacing.early
        };
        self.bids_before_search = self.search.saturating_mul(self.times).max(1);
    }

    /// Takes in a search that has scanned `scanned` arcs: the new estimate is the mean of the old one and this search.
    pub(crate) fn learn(&mut self, scanned: u64) {
        let bids = scanned
            .saturating_mul(self.pacing.search)
            .checked_div(self.arcs_a_bid)
            .unwrap_or(1);
        self.search = (self.search / 2).saturating_add(bids / 2);
        self.bids_before_search = self.search.saturating_mul(self.times).max(1);
    }
}
