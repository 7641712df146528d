//! What is to be said of a job's end.

ghost use Rattle.std.specs.Prelude.{◌≡◌, ◌≢◌, ℕ, IfSome, IsSome, IsTrue, Some, None};
ghost use Rattle.auc_run.specs.Jobs.{is_large};
ghost use Rattle.auc_run.specs.declared.command.Job.{Job};
ghost use Rattle.auc_messages.specs.Forms.{phrase_at};
ghost use Rattle.auc_messages.specs.Phrases.{phrase_of_end, phrase_of_refusal};
ghost use Rattle.auc_messages.specs.Remarks.{HasWords, IsRemark, IsRemarkOn, subject_of_status, told_reason};
ghost use Rattle.auc_messages.specs.Remarks.{told_refusal};
ghost use Rattle.auc_messages.specs.Sentences.{is_phrase};

use crate::forms::{form_told, of_form};
use crate::phrases::{of_end, of_refusal};
use crate::spot::{Spot, Subject, spot_of, subject_of};
use auc_claim::Reason;
use auc_place::Place;
use auc_run::status::{BRACKET, INFEASIBLE, OPTIMAL, UNWRITTEN};
use auc_run::{Ending, Job, Refusal};

/// What is to be said of a job's end.
#[derive(Clone, Copy, Debug)]
pub struct Remark {
    /// Which input it is about.
    pub subject: Subject,
    /// Where in this input.
    pub spot: Spot,
    /// What was wrong or wanted there, and what to do.
    pub phrase: &'static [u8],
}

/// What is to be said of a refusal.
fn remark_of_refusal(job: &Job, refusal: Refusal) -> Remark
    ensures is { (status : ℕ) → IsRemarkOn job.now status (Some refusal) result }
    ensures words { result.phrase.now ≡ phrase_of_refusal (is_large job.now) refusal }
{
    let large = job.is_large();
    Remark {
        subject: subject_of(job, refusal),
        spot: spot_of(large, refusal),
        phrase: of_refusal(large, refusal),
    }
}

/// Which input a status is about without a refusal: the problem, where there is no assignment, or a limit ended the
/// search.
fn subject_of_status(status: u8) -> Subject
    ensures { result ≡ subject_of_status status }
{
    if status == INFEASIBLE || status == BRACKET {
        Subject::First
    } else {
        Subject::Neither
    }
}

/// What is to be said of a status, and of the limit that ended the search, where one did.
fn remark_of_end(status: u8, reason: Option<Reason>) -> Remark
    ensures is { (job : Job) → IsRemarkOn job status None result }
    ensures words { result.phrase.now ≡ phrase_of_end status reason }
{
    Remark {
        subject: subject_of_status(status),
        spot: Spot::All,
        phrase: of_end(status, reason),
    }
}

/// Why a job was refused, where that is said: not where it wasn't written.
pub(crate) fn told_refusal(ending: Ending) -> Option<Refusal>
    ensures { result ≡ told_refusal ending }
{
    if ending.status == UNWRITTEN {
        None
    } else {
        ending.refusal
    }
}

/// Which limit ended the search, where that is said: not where the answer wasn't written.
fn told_reason(ending: Ending) -> Option<Reason>
    ensures { result ≡ told_reason ending }
{
    if ending.status == UNWRITTEN {
        None
    } else {
        ending.reason
    }
}

/// What is to be said of the end of this job, or nothing where its status is 0.
pub fn remark_of(job: &Job, ending: Ending) -> Option<Remark>
    ensures silent { ending.status ≡ 0 → result ≡ None }
    ensures told { ending.status ≢ 0 → IsSome result }
    // It is about the input that was refused, and the spot in it; where the answer was not written, it is about that
    // alone.
    ensures is { IfSome result (IsRemark job.now ending) }
    // Its words are those of the refusal that is said; where none is, of the limit that ended the search; and without
    // one, of the status.
    ensures words { IfSome result (HasWords job.now ending) }
    // They say something, on one line.
    ensures phrase { IfSome result (λ remark. IsTrue (is_phrase remark.phrase.now)) }
{
    if ending.status == OPTIMAL {
        return None;
    }
    match told_refusal(ending) {
        Some(refusal) => Some(remark_of_refusal(job, refusal)),
        None => Some(remark_of_end(ending.status, told_reason(ending))),
    }
}

/// What is to be said of the end of this job where its token is known to be at this place, if it is: as
/// [`remark_of`]; but a first file that is no problem, and begins as files of another form do, is said to be of that
/// form, with what to do.
pub fn remark_at(job: &Job, ending: Ending, place: &Option<Place>) -> Option<Remark>
    ensures silent { ending.status ≡ 0 → result ≡ None }
    ensures told { ending.status ≢ 0 → IsSome result }
    ensures is { IfSome result (IsRemark job.now ending) }
    // Its words are those of the form that the place shows, and where it shows none, as of the refusal or the status.
    ensures words { IfSome result (λ remark. remark.phrase.now ≡ phrase_at job.now ending place.now) }
    ensures phrase { IfSome result (λ remark. IsTrue (is_phrase remark.phrase.now)) }
{
    let remark = remark_of(job, ending)?;
    match form_told(ending, place) {
        Some(form) => Some(Remark {
            phrase: of_form(form),
            ..remark
        }),
        None => Some(remark),
    }
}
