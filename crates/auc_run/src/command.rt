//! The jobs and their numbers.

ghost use Rattle.std.specs.Prelude.{◌≡◌};
ghost use Rattle.auc_run.specs.Jobs.{is_large};

/// The most bids that a solve may allow for a phase.
pub const MOST_BIDS: u64 = 1_000_000_000_000;

/// What the program is to do.
#[derive(Clone, Copy, Debug, PartialEq, Eq)]
pub enum Job {
    /// Reads a problem from the first reader, and finds an assignment of least cost with prices that show it, or
    /// persons who have arcs to too few objects; or, where the bids don't do, an assignment and a bound below which
    /// none costs.
    Solve {
        /// How many threads do the work of each kind of shard: 0 to 16, and 0 for none.
        workers: u32,
        /// How many bids each shard of the persons may make in a phase: 1 to [`MOST_BIDS`].
        bids: u64,
        /// How many calls the trail of each mail may note, by which the phases are judged: 0 to 1,000,000, and 0 for no
        /// trail. Without threads there is none.
        audit: u32,
        /// How many objects the problem has: to 20,000, of a large one to [`auc_graph::MOST_OBJECTS`], and 0 for as
        /// many as persons.
        objects: u32,
        /// Whether it starts from the prices of an old certificate, which the second reader has: see
        /// [`auc_claim::start_prices`]; a direct solve takes any prices, one for each
        /// object, from 0 to 2^60.
        from: bool,
        /// Whether it is solved directly, by [`auc_direct::solve_direct`], in place of by messages: then there are
        /// no workers and no trail.
        direct: bool,
        /// Whether the problem may be large: as great as any problem may be, and not only as the usual limits of
        /// reading allow. Only of a direct solve.
        large: bool,
    },
    /// Reads a problem from the first reader and a certificate from the second, and says whether what the certificate
    /// claims of the problem holds.
    Check {
        /// How many objects the problem has, as for a solve.
        objects: u32,
        /// Whether the problem may be large, as for a solve.
        large: bool,
    },
    /// Reads a problem from the first reader, and finds an arc for each person, no object twice, or persons who
    /// together have arcs to too few objects.
    Hall {
        /// How many objects the problem has, as for a solve.
        objects: u32,
        /// Whether the problem may be large, as for a solve.
        large: bool,
    },
    /// Reads a script from the first reader, makes its calls on a new mail, and writes the replies.
    Mail,
}

impl Job {
    /// Whether the problem of the job is read within the limits of a problem, in place of the usual ones of reading.
    pub fn is_large(&self) -> bool
        ensures { result ≡ is_large self.now }
    {
        match self {
            Job::Solve { large, .. } | Job::Check { large, .. } | Job::Hall { large, .. } => *large,
            Job::Mail => false,
        }
    }
}

/// How many objects a problem has, 0 for as many as persons, and within which limits it is read: those of a problem
/// where it may be large, and else the usual ones.
#[derive(Clone, Copy)]
pub(crate) struct Sizes {
    pub(crate) objects: u32,
    pub(crate) large: bool,
}

/// The numbers of a solve, as [`Job::Solve`] has them.
#[derive(Clone, Copy)]
pub(crate) struct SolveNumbers {
    pub(crate) workers: u32,
    pub(crate) bids: u64,
    pub(crate) audit: u32,
    pub(crate) sizes: Sizes,
    pub(crate) from: bool,
    pub(crate) direct: bool,
}
