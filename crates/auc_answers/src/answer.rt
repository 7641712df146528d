//! The answers of the solver.

use auc_claim::Cert;

/// A guard of the solver ends a run with no answer.
#[derive(Clone, Copy, Debug, PartialEq, Eq)]
pub enum Guard {
    /// A shard of the persons got a price below its copy.
    Fell,
    /// A letter came that doesn't fit.
    Stray,
    /// A person has no arc.
    Stuck,
    /// A whole round moved nothing.
    Stall,
    /// The result of the last phase makes no claim, or the checker refuses it.
    Check,
    /// The trail of a mail disagrees with what its workers noted.
    Settle,
}

/// The answer of the solver. Each claim has passed the checker.
#[derive(Debug, Drop)]
pub enum Answer {
    /// A least-cost assignment, with prices that show it.
    Optimal(Cert),
    /// Persons who together have arcs to fewer objects than they number (a Hall violator), so there is no assignment.
    Infeasible(Cert),
    /// An assignment, and a bound below which none costs: a limit has ended a phase.
    Bracket(Cert),
    /// A guard has ended the run: there is no answer.
    Broken(Guard),
}
