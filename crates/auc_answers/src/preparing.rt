//! What comes before the auction: the rows of the persons, and whether there is an assignment at all.

ghost use Rattle.std.specs.Prelude.{IfOk};
ghost use Rattle.auc_answers.specs.Prepared.{IsPrepared};

use crate::answer::Answer;
use crate::finish::infeasible;
use auc_graph::{ArcList, Rows};
use auc_hall::{Matching, Partial, complete, has_full_matching};
use std::alloc::{AllocError, Global};

/// The rows of a problem that has an assignment, or the answer where it has none.
#[derive(Drop)]
pub enum Prepared {
    /// There is an assignment, and these are the rows.
    Rows(Rows),
    /// There is none, and this is the answer.
    Answered(Answer),
}

/// Builds the rows of a problem, and searches for an assignment of any cost. Takes the time of the search, and 12 bytes
/// of memory an arc.
///
/// A quick search, [`auc_hall::has_full_matching`], comes first. Only where it finds none, [`auc_hall::complete`] is
/// called, since it alone can find that there is none. Its Hall set is the answer then.
///
/// # Errors
///
/// Only where memory was refused.
pub fn prepare(alloc: Global, problem: &ArcList) -> Result<Prepared, AllocError>
    ensures { IfOk result (IsPrepared problem.now) }
{
    let rows = Rows::build(alloc, problem)?;
    if has_full_matching(alloc, &rows)? {
        return Ok(Prepared::Rows(rows));
    }
    let partial = Partial::new(alloc, &rows)?;
    match complete(alloc, &rows, partial)? {
        Matching::Hall { persons, objects } => {
            let answer = infeasible(alloc, problem, persons, objects)?;
            Ok(Prepared::Answered(answer))
        }
        Matching::Full(_) => Ok(Prepared::Rows(rows)),
    }
}
