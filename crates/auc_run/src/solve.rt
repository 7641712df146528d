//! The job of a solve: a problem is read, and a least-cost assignment is found, persons who have arcs to too few
//! objects, or an assignment and a bound.

ghost use Rattle.std.specs.Prelude.{◌≡◌, ◌≤◌, false, IfSome, IsErr};
ghost use Rattle.auc_cert.specs.Writing.{Writes};
ghost use Rattle.auc_run.specs.Problems.{AreSizes, file_reading};
ghost use Rattle.auc_run.specs.Jobs.{IsInRange, solve_by};
ghost use Rattle.auc_run.specs.Solutions.{IsSolvedByThreadsIn, IsSolvedIn, Watched, answer_text, guard_line, limits_of};
ghost use Rattle.auc_run.specs.Solutions.{thread_limits_of};
ghost use Rattle.auc_run.specs.Starts.{IsSolvedFromIn, IsSolvingIn};

use crate::command::SolveNumbers;
use crate::problem::problem_of;
use crate::refusal::Refusal;
use crate::start::started_of;
use auc_cert::{WriteFault, write_cert, write_whole};
use auc_threads::{Gate, solve_threads, solve_threads_from};
use auc_world::{Answer, Guard, Limits, solve_serial, solve_serial_from};
use std::alloc::Global;
use std::io::{Read, Write};
use std::sync::Wait;
use std::thread::Threads;

/// The limits of a solve without threads.
fn serial_limits(bids: u64) -> Limits
    ensures { result ≡ limits_of bids }
{
    Limits {
        bids,
        ..Limits::usual(1)
    }
}

/// What the solver answers about the problem that the reader has, from nothing.
fn answer_of<R: Read>(
    alloc: Global,
    reader: &mut R,
    numbers: SolveNumbers,
) -> Result<Answer, Refusal>
    requires { AreSizes numbers.sizes }
    ensures { IsSolvedIn numbers (R.remaining reader.old) result }
{
    let problem = problem_of(alloc, reader, numbers.sizes)?;
    let answer = solve_serial(alloc, &problem, &serial_limits(numbers.bids))?;
    Ok(answer)
}

/// What the solver answers about the first reader's problem, from the prices of the second one's certificate.
fn answer_from<R: Read, Q: Read>(
    alloc: Global,
    reader: &mut R,
    second: &mut Q,
    numbers: SolveNumbers,
) -> Result<Answer, Refusal>
    requires sizes { AreSizes numbers.sizes }
    requires plain { numbers.workers ≡ 0 }
    requires messages { numbers.direct ≡ false }
    ensures from { (w : Watched) → IsSolvedFromIn w numbers (R.remaining reader.old) (Q.remaining second.old) result }
    ensures unread { IfSome (R.remaining reader.old) (λ file. IsErr (file_reading numbers.sizes file)
        → second.new ≡ second.old) }
{
    let started = started_of(alloc, reader, second, numbers.sizes, false)?;
    let limits = serial_limits(numbers.bids);
    let prices = started.prices.as_slice();
    let answer = solve_serial_from(alloc, &started.problem, &limits, prices)?;
    Ok(answer)
}

/// What the solver answers about the first reader's problem: from nothing, or from the prices of the second reader's
/// certificate.
pub(crate) fn answer_plainly<R: Read, Q: Read>(
    alloc: Global,
    reader: &mut R,
    second: &mut Q,
    numbers: SolveNumbers,
) -> Result<Answer, Refusal>
    requires sizes { AreSizes numbers.sizes }
    requires plain { numbers.workers ≡ 0 }
    requires messages { numbers.direct ≡ false }
    ensures solving { (w : Watched) → IsSolvingIn w numbers (R.remaining reader.old) (Q.remaining second.old) result }
    ensures unread { IfSome (R.remaining reader.old) (λ file. IsErr (file_reading numbers.sizes file)
        → second.new ≡ second.old) }
    ensures alone { numbers.from ≡ false → second.new ≡ second.old }
{
    if numbers.from {
        return answer_from(alloc, reader, second, numbers);
    }
    answer_of(alloc, reader, numbers)
}

/// The limits of a solve with threads.
fn thread_limits(numbers: SolveNumbers) -> Limits
    ensures { result ≡ thread_limits_of numbers }
{
    let SolveNumbers {
        workers,
        bids,
        audit,
        ..
    } = numbers;
    Limits {
        bids,
        audit,
        ..Limits::usual(workers)
    }
}

/// What the solver in threads answers about the problem that the reader has, from nothing.
fn answer_by_threads<H: Threads + Wait + Sync, R: Read, G: Gate + Sync>(
    rt: &H,
    alloc: Global,
    reader: &mut R,
    numbers: SolveNumbers,
    gate: &G,
) -> Result<Answer, Refusal>
    requires some { 1 ≤ numbers.workers }
    requires range { IsInRange (solve_by numbers) }
    ensures { IsSolvedByThreadsIn numbers (R.remaining reader.old) result }
{
    let problem = problem_of(alloc, reader, numbers.sizes)?;
    let solved = solve_threads(rt, alloc, &problem, &thread_limits(numbers), gate)?;
    Ok(solved.answer)
}

/// What the solver in threads answers about the first reader's problem, from the prices of the second one's
/// certificate.
fn answer_by_threads_from<H: Threads + Wait + Sync, R: Read, Q: Read, G: Gate + Sync>(
    rt: &H,
    alloc: Global,
    reader: &mut R,
    second: &mut Q,
    numbers: SolveNumbers,
    gate: &G,
) -> Result<Answer, Refusal>
    requires some { 1 ≤ numbers.workers }
    requires range { IsInRange (solve_by numbers) }
    ensures from { (w : Watched) → IsSolvedFromIn w numbers (R.remaining reader.old) (Q.remaining second.old) result }
    ensures unread { IfSome (R.remaining reader.old) (λ file. IsErr (file_reading numbers.sizes file)
        → second.new ≡ second.old) }
{
    let started = started_of(alloc, reader, second, numbers.sizes, false)?;
    let limits = thread_limits(numbers);
    let prices = started.prices.as_slice();
    let solved = solve_threads_from(rt, alloc, &started.problem, &limits, prices, gate)?;
    Ok(solved.answer)
}

/// What the solver in threads answers about the first reader's problem: from nothing, or from the prices of the second
/// reader's certificate.
pub(crate) fn answer_in_threads<H: Threads + Wait + Sync, R: Read, Q: Read, G: Gate + Sync>(
    rt: &H,
    alloc: Global,
    reader: &mut R,
    second: &mut Q,
    numbers: SolveNumbers,
    gate: &G,
) -> Result<Answer, Refusal>
    requires some { 1 ≤ numbers.workers }
    requires range { IsInRange (solve_by numbers) }
    ensures solving { (w : Watched) → IsSolvingIn w numbers (R.remaining reader.old) (Q.remaining second.old) result }
    ensures unread { IfSome (R.remaining reader.old) (λ file. IsErr (file_reading numbers.sizes file)
        → second.new ≡ second.old) }
    ensures alone { numbers.from ≡ false → second.new ≡ second.old }
{
    if numbers.from {
        return answer_by_threads_from(rt, alloc, reader, second, numbers, gate);
    }
    answer_by_threads(rt, alloc, reader, numbers, gate)
}

/// Writes the line of a guard that was hit.
fn write_guard<W: Write>(writer: &mut W, guard: Guard) -> Result<(), WriteFault>
    ensures { Writes result (W.contents writer.old) (W.contents writer.new) (guard_line guard) }
{
    match guard {
        Guard::Fell => write_whole(writer, b"broken fell\n"),
        Guard::Stray => write_whole(writer, b"broken stray\n"),
        Guard::Stuck => write_whole(writer, b"broken stuck\n"),
        Guard::Stall => write_whole(writer, b"broken stall\n"),
        Guard::Check => write_whole(writer, b"broken check\n"),
        Guard::Settle => write_whole(writer, b"broken settle\n"),
    }
}

/// Writes an answer.
pub(crate) fn write_answer<W: Write>(writer: &mut W, answer: &Answer) -> Result<(), WriteFault>
    ensures { Writes result (W.contents writer.old) (W.contents writer.new) (answer_text answer.now) }
{
    match answer {
        Answer::Optimal(cert) => write_cert(writer, cert),
        Answer::Infeasible(cert) => write_cert(writer, cert),
        Answer::Bracket(cert) => write_cert(writer, cert),
        Answer::Broken(guard) => write_guard(writer, *guard),
    }
}
