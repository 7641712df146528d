//! What a job comes to: its outcome, what is written, and its status.

ghost use Rattle.std.specs.Prelude.{◌≡◌, ◌≢◌, ◌≤◌, false, IfOk, IfSome, IsErr};
ghost use Rattle.auc_run.specs.Problems.{file_reading};
ghost use Rattle.auc_run.specs.Jobs.{IsInRange, IsPlain, has_second, sizes_of, solve_by};
ghost use Rattle.auc_run.specs.Reports.{IsWritable};
ghost use Rattle.auc_run.specs.Said.{Ended, IsOutcome, Said, SaidInPart};
ghost use Rattle.auc_run.specs.Solutions.{Watched, watched};

use crate::command::{Job, Sizes, SolveNumbers};
use crate::direct::answer_alone;
use crate::ending::Ending;
use crate::hall::found_of;
use crate::mail::replies_of;
use crate::refusal::Refusal;
use crate::report::{Report, tell};
use crate::solve::answer_in_threads;
use crate::verdict::verdict_of;
use auc_direct::{Onward, Watch};
use auc_graph::MOST_READS;
use auc_threads::Gate;
use std::alloc::Global;
use std::io::{Read, Write};
use std::sync::Wait;
use std::thread::Threads;

/// What the job comes to on what the readers have.
fn outcome_of<R: Read, Q: Read, V: Watch>(
    alloc: Global,
    job: &Job,
    reader: &mut R,
    second: &mut Q,
    watch: &mut V,
) -> Result<Report, Refusal>
    requires range { IsInRange job.now }
    requires plain { IsPlain job.now }
    ensures outcome { IsOutcome (watched (V.has_stopped watch.new) (V.was_asked watch.new)) job.now
        (R.remaining reader.old)
        (Q.remaining second.old) result }
    ensures writable { IfOk result IsWritable }
    ensures unread { IfSome (R.remaining reader.old)
        (λ file. IsErr (file_reading (sizes_of job.now) file) → second.new ≡ second.old) }
    ensures alone { has_second job.now ≡ false → second.new ≡ second.old }
{
    match *job {
        Job::Solve {
            workers,
            bids,
            audit,
            objects,
            from,
            direct,
            large,
        } => {
            let numbers = SolveNumbers {
                workers,
                bids,
                audit,
                sizes: Sizes { objects, large },
                from,
                direct,
            };
            let answer = answer_alone(alloc, reader, second, numbers, watch)?;
            Ok(Report::Solved(answer))
        }
        Job::Check { objects, large } => {
            let sizes = Sizes { objects, large };
            Ok(Report::Judged(verdict_of(alloc, reader, second, sizes)?))
        }
        Job::Hall { objects, large } => {
            let sizes = Sizes { objects, large };
            Ok(Report::Completed(found_of(alloc, reader, sizes)?))
        }
        Job::Mail => Ok(Report::Replied(replies_of(alloc, reader)?)),
    }
}

/// What a solve with threads comes to on what the readers have.
fn outcome_by_threads<H: Threads + Wait + Sync, R: Read, Q: Read, G: Gate + Sync>(
    rt: &H,
    alloc: Global,
    reader: &mut R,
    second: &mut Q,
    numbers: SolveNumbers,
    gate: &G,
) -> Result<Report, Refusal>
    requires some { 1 ≤ numbers.workers }
    requires range { IsInRange (solve_by numbers) }
    ensures outcome { (w : Watched) → IsOutcome w (solve_by numbers) (R.remaining reader.old)
        (Q.remaining second.old) result }
    ensures writable { IfOk result IsWritable }
    ensures unread { IfSome (R.remaining reader.old) (λ file. IsErr (file_reading numbers.sizes file)
        → second.new ≡ second.old) }
    ensures alone { numbers.from ≡ false → second.new ≡ second.old }
{
    let answer = answer_in_threads(rt, alloc, reader, second, numbers, gate)?;
    Ok(Report::Solved(answer))
}

/// Does a job that starts no thread, as [`run_plain`] does, and says how it ended.
fn perform_plainly<R: Read, Q: Read, W: Write, V: Watch>(
    alloc: Global,
    job: &Job,
    reader: &mut R,
    second: &mut Q,
    writer: &mut W,
    watch: &mut V,
) -> Ending
    requires range { IsInRange job.now }
    requires plain { IsPlain job.now }
    ensures ended { Ended (watched (V.has_stopped watch.new) (V.was_asked watch.new)) job.now (R.remaining reader.old)
        (Q.remaining second.old) (W.contents writer.old) (W.contents writer.new) result }
    ensures unread { IfSome (R.remaining reader.old)
        (λ file. IsErr (file_reading (sizes_of job.now) file) → second.new ≡ second.old) }
    ensures alone { has_second job.now ≡ false → second.new ≡ second.old }
{
    let outcome = outcome_of(alloc, job, reader, second, watch);
    tell(writer, outcome)
}

/// Does a job that starts no thread: reads `reader` and, where the job wants it, `second`, writes the answer to
/// `writer`, and gives the status, one of [`crate::status`]. Each reader is read to its end, by at most [`MOST_READS`]
/// reads, and a failed read is never tried again. The writer is not flushed.
///
/// Where the status is [`crate::status::UNWRITTEN`] a write failed, or took no bytes: a beginning of the answer was
/// written, and not all of it.
///
/// A problem is read piece by piece; a certificate and a script are read whole. A solve takes the time of the auction,
/// by [`auc_world::solve_serial`], or directly by [`auc_direct::solve_direct`], and of one check. It takes 28 bytes
/// of memory an arc and what its shards and mails take, which is linear in the persons; a direct solve takes
/// what [`auc_direct::solve_direct`] says. A check takes O(bytes) time, and 16 bytes of memory an arc and that of the
/// certificate's text. A hall takes the time of its search, see [`auc_hall::complete`], and 28 bytes of memory an arc.
/// A mail takes the time of its calls, and memory for its script, its lanes, its letters and a reply for each call.
pub fn run_plain<R: Read, Q: Read, W: Write>(
    alloc: Global,
    job: &Job,
    reader: &mut R,
    second: &mut Q,
    writer: &mut W,
) -> u8
    // The job's numbers are those that its fields allow.
    requires range { IsInRange job.now }
    // It has no workers.
    requires plain { IsPlain job.now }
    // What was written and the status are right for the bytes that were read.
    ensures said { result ≢ 8
        → Said job.now (R.remaining reader.old) (Q.remaining second.old) (W.contents writer.old)
        (W.contents writer.new) result }
    // Where not all of it could be written, a beginning of such a text was.
    ensures unwritten { result ≡ 8
        → SaidInPart job.now (R.remaining reader.old) (Q.remaining second.old) (W.contents writer.old)
        (W.contents writer.new) }
    // A certificate for what is no problem is left unread.
    ensures unread { IfSome (R.remaining reader.old)
        (λ file. IsErr (file_reading (sizes_of job.now) file) → second.new ≡ second.old) }
    // Only a check, and a solve that starts from a certificate, has a second input.
    ensures alone { has_second job.now ≡ false → second.new ≡ second.old }
{
    perform_plainly(alloc, job, reader, second, writer, &mut Onward).status
}

/// How a solve with workers has its threads.
#[derive(Drop)]
pub struct Threading<'a, H, G> {
    /// What starts threads, and lets them wait.
    pub rt: &'a H,
    /// What each worker passes before each of its calls of a mail.
    pub gate: &'a G,
}

/// Does a job, as [`run_command`] does, and says how it ended: with its status, and why it was refused, where it was. A
/// direct solve asks the watch whether it goes on, see [`auc_direct::solve_direct_watched`]; no other job does.
/// Where it has said no, an answer is as right as any other: it may be an assignment and a bound that no limit has
/// made.
pub fn perform<H: Threads + Wait + Sync, R: Read, Q: Read, W: Write, G: Gate + Sync, V: Watch>(
    threading: &Threading<'_, H, G>,
    alloc: Global,
    job: &Job,
    reader: &mut R,
    second: &mut Q,
    writer: &mut W,
    watch: &mut V,
) -> Ending
    // The job's numbers are those that its fields allow.
    requires range { IsInRange job.now }
    // What was written, the status and the refusal are those of one outcome, which is right for the bytes that were
    // read. A direct solve has asked the watch, but for where there is no assignment.
    ensures ended { Ended (watched (V.has_stopped watch.new) (V.was_asked watch.new)) job.now (R.remaining reader.old)
        (Q.remaining second.old) (W.contents writer.old) (W.contents writer.new) result }
    // A certificate for what is no problem is left unread.
    ensures unread { IfSome (R.remaining reader.old)
        (λ file. IsErr (file_reading (sizes_of job.now) file) → second.new ≡ second.old) }
    // Only a check, and a solve that starts from a certificate, has a second input.
    ensures alone { has_second job.now ≡ false → second.new ≡ second.old }
{
    if let Job::Solve {
        workers,
        bids,
        audit,
        objects,
        from,
        direct,
        large,
    } = *job
    {
        if workers > 0 {
            let numbers = SolveNumbers {
                workers,
                bids,
                audit,
                sizes: Sizes { objects, large },
                from,
                direct,
            };
            let Threading { rt, gate } = *threading;
            let outcome = outcome_by_threads(rt, alloc, reader, second, numbers, gate);
            return tell(writer, outcome);
        }
    }
    perform_plainly(alloc, job, reader, second, writer, watch)
}

/// Does a job, as [`run_plain`] does; but a solve with workers by threads, see [`auc_threads::solve_threads`]: a thread
/// for each worker in each phase, and the caller's for the hub. Each worker passes the gate before each of its calls of
/// a mail.
///
/// Nothing is said of whether a solve with threads ends. Where a thread can't be started, those that run are ended, and
/// the job is refused.
pub fn run_command<H: Threads + Wait + Sync, R: Read, Q: Read, W: Write, G: Gate + Sync>(
    rt: &H,
    alloc: Global,
    job: &Job,
    reader: &mut R,
    second: &mut Q,
    writer: &mut W,
    gate: &G,
) -> u8
    // The job's numbers are those that its fields allow.
    requires range { IsInRange job.now }
    // What was written and the status are right for the bytes that were read.
    ensures said { result ≢ 8
        → Said job.now (R.remaining reader.old) (Q.remaining second.old) (W.contents writer.old)
        (W.contents writer.new) result }
    // Where not all of it could be written, a beginning of such a text was.
    ensures unwritten { result ≡ 8
        → SaidInPart job.now (R.remaining reader.old) (Q.remaining second.old) (W.contents writer.old)
        (W.contents writer.new) }
    // A certificate for what is no problem is left unread.
    ensures unread { IfSome (R.remaining reader.old)
        (λ file. IsErr (file_reading (sizes_of job.now) file) → second.new ≡ second.old) }
    // Only a check, and a solve that starts from a certificate, has a second input.
    ensures alone { has_second job.now ≡ false → second.new ≡ second.old }
{
    let watch = &mut Onward;
    let threading = Threading { rt, gate };
    perform(&threading, alloc, job, reader, second, writer, watch).status
}
