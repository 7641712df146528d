//! What the words of the command line ask for.

use auc_run::Job;

/// How a direct solve is watched.
#[derive(Clone, Copy, Debug, PartialEq, Eq)]
pub struct Watching {
    /// How many seconds the program may take until it ends the search: to 1,000,000, and 0 for any number.
    pub seconds: u64,
    /// Whether it says on standard error, once a second, how far it has come.
    pub progress: bool,
}

/// How any other job is watched: not at all.
pub(crate) const UNWATCHED: Watching = Watching {
    seconds: 0,
    progress: false,
};

/// The solve that options ask for.
#[derive(Clone, Copy, Debug, PartialEq, Eq)]
pub struct Solve {
    pub job: Job,
    pub watching: Watching,
}

/// A job, and the names of the files that it reads: a problem, or a script; and a certificate, to be checked, or to
/// start from. A name left out means standard input, if the job has such an input.
#[derive(Debug, Drop)]
pub struct Words {
    pub job: Job,
    pub first: Option<String>,
    pub second: Option<String>,
    pub watching: Watching,
}
