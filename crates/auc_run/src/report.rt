//! What a job has to say: how it is written, and its status.

ghost use Rattle.std.specs.Prelude.{◌≡◌, ◌≢◌, ◌<◌, IfOk};
ghost use Rattle.std.specs.Io.KnownBytes.{Appends};
ghost use Rattle.auc_cert.specs.Writing.{Begins, Writes};
ghost use Rattle.auc_run.specs.Statuses.{refusal_status};
ghost use Rattle.auc_run.specs.Reports.{IsWritable, outcome_status, outcome_text, reason_in, reason_of};
ghost use Rattle.auc_run.specs.Reports.{reason_of_answer, refusal_of, report_status, report_text};

use crate::ending::Ending;
use crate::found::Found;
use crate::hall::write_found;
use crate::input::ReadFault;
use crate::lines::{write_refusal, write_valid};
use crate::refusal::Refusal;
use crate::solve::write_answer;
use crate::status::{
    BRACKET, BROKEN, FULL, INFEASIBLE, INVALID, NO_MEMORY, OPTIMAL, REFUSED, REPLIED, UNWRITTEN,
    VALID,
};
use crate::valid::Valid;
use auc_cert::{CertTextError, WriteFault};
use auc_claim::{Cert, CertParts, CertRefused, Reason, StartError};
use auc_graph::ReadError;
use auc_script::{Replies, ScriptError, write_replies};
use auc_world::Answer;
use std::io::Write;

/// What a job has to say, where it is not refused.
#[derive(Debug, Drop)]
pub enum Report {
    /// The answer of a solve.
    Solved(Answer),
    /// What the claim of a certificate says, which a check found to hold.
    Judged(Valid),
    /// What a hall found.
    Completed(Found),
    /// The replies of a mail.
    Replied(Replies),
}

/// Writes a report.
fn write_report<W: Write>(writer: &mut W, report: &Report) -> Result<(), WriteFault>
    requires { IsWritable report.now }
    ensures { Writes result (W.contents writer.old) (W.contents writer.new) (report_text report.now) }
{
    match report {
        Report::Solved(answer) => write_answer(writer, answer),
        Report::Judged(valid) => write_valid(writer, *valid),
        Report::Completed(found) => write_found(writer, found),
        Report::Replied(replies) => write_replies(writer, replies.as_slice()),
    }
}

/// The status of a report.
fn status_of_report(report: &Report) -> u8
    ensures status { result ≡ report_status report.now }
    ensures written { result < 8 }
{
    match report {
        Report::Solved(Answer::Optimal(_)) => OPTIMAL,
        Report::Solved(Answer::Infeasible(_)) => INFEASIBLE,
        Report::Solved(Answer::Bracket(_)) => BRACKET,
        Report::Solved(Answer::Broken(_)) => BROKEN,
        Report::Judged(_) => VALID,
        Report::Completed(Found::Full(_)) => FULL,
        Report::Completed(Found::Hall(_)) => INFEASIBLE,
        Report::Replied(_) => REPLIED,
    }
}

/// The status of a refusal.
fn status_of_refusal(refusal: Refusal) -> u8
    ensures status { result ≡ refusal_status refusal }
    ensures written { result < 8 }
{
    match refusal {
        Refusal::NotRead(ReadFault::NoMemory)
        | Refusal::NoProblem(ReadError::NoMemory)
        | Refusal::NoCertificate(CertTextError::NoMemory)
        | Refusal::Invalid(CertRefused::NoMemory)
        | Refusal::NoStart(StartError::NoMemory)
        | Refusal::NoScript(ScriptError::NoMemory)
        | Refusal::NoMemory
        | Refusal::NoThreads => NO_MEMORY,
        Refusal::Invalid(_) => INVALID,
        Refusal::NotRead(_)
        | Refusal::NoProblem(_)
        | Refusal::NoCertificate(_)
        | Refusal::NoStart(_)
        | Refusal::NoScript(_) => REFUSED,
    }
}

/// Writes the outcome of a job.
fn write_outcome<W: Write>(
    writer: &mut W,
    outcome: &Result<Report, Refusal>,
) -> Result<(), WriteFault>
    requires { IfOk outcome.now IsWritable }
    ensures { Writes result (W.contents writer.old) (W.contents writer.new) (outcome_text outcome.now) }
{
    match outcome {
        Ok(report) => write_report(writer, report),
        Err(refusal) => write_refusal(writer, *refusal),
    }
}

/// The status of an outcome that was written.
fn status_of(outcome: &Result<Report, Refusal>) -> u8
    ensures status { result ≡ outcome_status outcome.now }
    ensures written { result < 8 }
{
    match outcome {
        Ok(report) => status_of_report(report),
        Err(refusal) => status_of_refusal(*refusal),
    }
}

/// Why an outcome is no report.
fn refusal_of(outcome: &Result<Report, Refusal>) -> Option<Refusal>
    ensures { result ≡ refusal_of outcome.now }
{
    match outcome {
        Ok(_) => None,
        Err(refusal) => Some(*refusal),
    }
}

/// The limit that a certificate names, where it claims an assignment and a bound.
fn reason_in(cert: &Cert) -> Option<Reason>
    ensures { result ≡ reason_in cert.now }
{
    match cert.parts() {
        CertParts::Bracket { reason, .. } => Some(*reason),
        CertParts::Optimal { .. } | CertParts::Infeasible { .. } => None,
    }
}

/// The limit that ended the search of an answer, where one did.
fn reason_of_answer(answer: &Answer) -> Option<Reason>
    ensures { result ≡ reason_of_answer answer.now }
{
    match answer {
        Answer::Optimal(cert) | Answer::Infeasible(cert) | Answer::Bracket(cert) => reason_in(cert),
        Answer::Broken(_) => None,
    }
}

/// The limit that ended a job's search, where one did.
fn reason_of(outcome: &Result<Report, Refusal>) -> Option<Reason>
    ensures { result ≡ reason_of outcome.now }
{
    match outcome {
        Ok(Report::Solved(answer)) => reason_of_answer(answer),
        _ => None,
    }
}

/// Writes the outcome of a job, and says how it ended: with status 8 where it was not written, or not all of it.
pub(crate) fn tell<W: Write>(writer: &mut W, outcome: Result<Report, Refusal>) -> Ending
    requires { IfOk outcome IsWritable }
    ensures whole { result.status ≢ 8 → Appends (W.contents writer.old) (W.contents writer.new) (outcome_text outcome)
        × (result.status ≡ outcome_status outcome) }
    ensures cut { result.status ≡ 8 → Begins (W.contents writer.old) (W.contents writer.new) (outcome_text outcome) }
    ensures refusal { result.refusal ≡ refusal_of outcome }
    ensures reason { result.reason ≡ reason_of outcome }
{
    let status = status_of(&outcome);
    let status = match write_outcome(writer, &outcome) {
        Ok(()) => status,
        Err(_) => UNWRITTEN,
    };
    Ending {
        status,
        refusal: refusal_of(&outcome),
        reason: reason_of(&outcome),
    }
}
