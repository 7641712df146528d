//! The job of a direct solve, and which of the two solvers does a solve without threads.

ghost use Rattle.std.specs.Prelude.{◌≡◌, true, false, IfSome, IsErr};
ghost use Rattle.auc_run.specs.Problems.{AreSizes, file_reading};
ghost use Rattle.auc_run.specs.Solutions.{IsDirectIn, watched};
ghost use Rattle.auc_run.specs.Starts.{IsSolvedFromIn, IsSolvingIn};

use crate::command::SolveNumbers;
use crate::problem::problem_of;
use crate::refusal::Refusal;
use crate::solve::answer_plainly;
use crate::start::started_of;
use auc_answers::Answer;
use auc_direct::{DirectLimits, Watch, solve_direct_watched, solve_direct_watched_from};
use std::alloc::Global;
use std::io::Read;

/// What the direct solver answers about the problem that the reader has, from nothing.
fn direct_answer_of<R: Read, V: Watch>(
    alloc: Global,
    reader: &mut R,
    numbers: SolveNumbers,
    watch: &mut V,
) -> Result<Answer, Refusal>
    requires { AreSizes numbers.sizes }
    ensures { IsDirectIn (watched (V.has_stopped watch.new) (V.was_asked watch.new)) numbers
        (R.remaining reader.old) result }
{
    let problem = problem_of(alloc, reader, numbers.sizes)?;
    let limits = DirectLimits { bids: numbers.bids };
    let answer = solve_direct_watched(alloc, &problem, &limits, watch)?;
    Ok(answer)
}

/// What it answers about the first reader's problem, from the prices of the second one's certificate.
fn direct_answer_from<R: Read, Q: Read, V: Watch>(
    alloc: Global,
    reader: &mut R,
    second: &mut Q,
    numbers: SolveNumbers,
    watch: &mut V,
) -> Result<Answer, Refusal>
    requires sizes { AreSizes numbers.sizes }
    requires direct { numbers.direct ≡ true }
    ensures from { IsSolvedFromIn (watched (V.has_stopped watch.new) (V.was_asked watch.new)) numbers
        (R.remaining reader.old)
        (Q.remaining second.old) result }
    ensures unread { IfSome (R.remaining reader.old) (λ file. IsErr (file_reading numbers.sizes file)
        → second.new ≡ second.old) }
{
    let started = started_of(alloc, reader, second, numbers.sizes, true)?;
    let limits = DirectLimits { bids: numbers.bids };
    let prices = started.prices.as_slice();
    let answer = solve_direct_watched_from(alloc, &started.problem, &limits, prices, watch)?;
    Ok(answer)
}

/// What is answered without threads about the first reader's problem, directly or by messages; from nothing, or from
/// the prices of the second reader's certificate. The watch may stop the direct solver alone.
pub(crate) fn answer_alone<R: Read, Q: Read, V: Watch>(
    alloc: Global,
    reader: &mut R,
    second: &mut Q,
    numbers: SolveNumbers,
    watch: &mut V,
) -> Result<Answer, Refusal>
    requires sizes { AreSizes numbers.sizes }
    requires plain { numbers.workers ≡ 0 }
    ensures solving { IsSolvingIn (watched (V.has_stopped watch.new) (V.was_asked watch.new)) numbers
        (R.remaining reader.old)
        (Q.remaining second.old) result }
    ensures unread { IfSome (R.remaining reader.old) (λ file. IsErr (file_reading numbers.sizes file)
        → second.new ≡ second.old) }
    ensures alone { numbers.from ≡ false → second.new ≡ second.old }
{
    if !numbers.direct {
        return answer_plainly(alloc, reader, second, numbers);
    }
    if numbers.from {
        return direct_answer_from(alloc, reader, second, numbers, watch);
    }
    direct_answer_of(alloc, reader, numbers, watch)
}
