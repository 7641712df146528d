//! What is said of each refusal, and of each status without one: what was wrong or wanted, and what to do. A place
//! is before it, and the quoted token.

ghost use Rattle.std.specs.Prelude.{◌≡◌};
ghost use Rattle.auc_messages.specs.Phrases.{phrase_of_certificate, phrase_of_claim, phrase_of_end, phrase_of_input};
ghost use Rattle.auc_messages.specs.Phrases.{phrase_of_problem, phrase_of_reason, phrase_of_refusal, phrase_of_script};
ghost use Rattle.auc_messages.specs.Phrases.{phrase_of_start, phrase_of_status};

use crate::texts;
use auc_cert::CertTextError;
use auc_claim::{CertRefused, Reason, StartError};
use auc_graph::ReadError;
use auc_run::status::{BRACKET, BROKEN, INFEASIBLE, NO_MEMORY, REFUSED, UNWRITTEN};
use auc_run::{ReadFault, Refusal, ScriptError};

/// Of a problem, by whether it may be large.
#[tactic(auto, unfolding(crate::specs::Phrases::phrase_of_problem))]
fn of_problem(large: bool, error: ReadError) -> &'static [u8]
    ensures { result.now ≡ phrase_of_problem large error }
{
    match error {
        ReadError::Empty => texts::EMPTY,
        ReadError::BadNumber { .. } => texts::BAD_NUMBER,
        ReadError::CountRange if large => texts::LARGE_COUNT_RANGE,
        ReadError::CountRange => texts::COUNT_RANGE,
        ReadError::TooFewObjects => texts::TOO_FEW_OBJECTS,
        ReadError::TooManyArcs if large => texts::LARGE_TOO_MANY_ARCS,
        ReadError::TooManyArcs => texts::TOO_MANY_ARCS,
        ReadError::PersonRange { .. } => texts::PERSON_RANGE,
        ReadError::ObjectRange { .. } => texts::OBJECT_RANGE,
        ReadError::CostRange { .. } => texts::COST_RANGE,
        ReadError::Cut { .. } => texts::CUT_PROBLEM,
        ReadError::NoMemory => texts::OUT_OF_MEMORY,
        ReadError::ReadFault => texts::READ_FAILED,
        ReadError::TooManyReads => texts::TOO_MANY_READS,
    }
}

/// Of an input that is read whole.
#[tactic(auto, unfolding(crate::specs::Phrases::phrase_of_input))]
fn of_input(fault: ReadFault) -> &'static [u8]
    ensures { result.now ≡ phrase_of_input fault }
{
    match fault {
        ReadFault::Failed => texts::READ_FAILED,
        ReadFault::TooManyReads => texts::TOO_MANY_READS,
        ReadFault::NoMemory => texts::OUT_OF_MEMORY,
    }
}

/// Of a certificate's text.
#[tactic(auto, unfolding(crate::specs::Phrases::phrase_of_certificate))]
fn of_certificate(error: CertTextError) -> &'static [u8]
    ensures { result.now ≡ phrase_of_certificate error }
{
    match error {
        CertTextError::Line { .. } => texts::CERTIFICATE_LINE,
        CertTextError::NoMemory => texts::OUT_OF_MEMORY,
    }
}

/// Of a certificate's claim.
#[tactic(auto, unfolding(crate::specs::Phrases::phrase_of_claim))]
fn of_claim(error: CertRefused) -> &'static [u8]
    ensures { result.now ≡ phrase_of_claim error }
{
    match error {
        CertRefused::WrongSize => texts::WRONG_SIZE,
        CertRefused::NoSuchArc { .. } => texts::NO_SUCH_ARC,
        CertRefused::ObjectTwice { .. } => texts::OBJECT_TWICE,
        CertRefused::WrongCost => texts::WRONG_COST,
        CertRefused::Slack { .. } => texts::SLACK,
        CertRefused::LeftOver { .. } => texts::LEFT_OVER,
        CertRefused::NotHall => texts::NOT_HALL,
        CertRefused::WrongBound => texts::WRONG_BOUND,
        CertRefused::NoMemory => texts::OUT_OF_MEMORY,
    }
}

/// Of a certificate that a solve is to start from.
#[tactic(auto, unfolding(crate::specs::Phrases::phrase_of_start))]
fn of_start(error: StartError) -> &'static [u8]
    ensures { result.now ≡ phrase_of_start error }
{
    match error {
        StartError::NotSquare => texts::NOT_SQUARE,
        StartError::NoPrices => texts::NO_PRICES,
        StartError::OtherSize => texts::OTHER_SIZE,
        StartError::TooHigh { .. } => texts::TOO_HIGH,
        StartError::NoMemory => texts::OUT_OF_MEMORY,
    }
}

/// Of a script.
#[tactic(auto, unfolding(crate::specs::Phrases::phrase_of_script))]
fn of_script(error: ScriptError) -> &'static [u8]
    ensures { result.now ≡ phrase_of_script error }
{
    match error {
        ScriptError::Word { .. } => texts::SCRIPT_WORD,
        ScriptError::Range { .. } => texts::SCRIPT_RANGE,
        ScriptError::Cut { .. } => texts::CUT_SCRIPT,
        ScriptError::TooManyCalls => texts::TOO_MANY_CALLS,
        ScriptError::NoMemory => texts::OUT_OF_MEMORY,
    }
}

/// Of a refusal of a job, whose problem may be large or not.
#[tactic(auto, unfolding(crate::specs::Phrases::phrase_of_refusal))]
pub(crate) fn of_refusal(large: bool, refusal: Refusal) -> &'static [u8]
    ensures { result.now ≡ phrase_of_refusal large refusal }
{
    match refusal {
        Refusal::NotRead(fault) => of_input(fault),
        Refusal::NoProblem(error) => of_problem(large, error),
        Refusal::NoCertificate(error) => of_certificate(error),
        Refusal::Invalid(error) => of_claim(error),
        Refusal::NoStart(error) => of_start(error),
        Refusal::NoScript(error) => of_script(error),
        Refusal::NoMemory => texts::OUT_OF_MEMORY,
        Refusal::NoThreads => texts::NO_THREADS,
    }
}

/// Of a limit that ended a search, with what to do against it.
#[tactic(auto, unfolding(crate::specs::Phrases::phrase_of_reason))]
fn of_reason(reason: Reason) -> &'static [u8]
    ensures { result.now ≡ phrase_of_reason reason }
{
    match reason {
        Reason::Bids => texts::BIDS_RAN_OUT,
        Reason::Ceiling => texts::CEILING_PASSED,
        Reason::Posts => texts::POSTS_RAN_OUT,
        Reason::Trail => texts::TRAIL_FULL,
        Reason::Mail => texts::MAIL_FULL,
    }
}

/// Of a status, where nothing was refused and no limit is named.
#[tactic(auto, unfolding(crate::specs::Phrases::phrase_of_status))]
fn of_status(status: u8) -> &'static [u8]
    ensures { result.now ≡ phrase_of_status status }
{
    match status {
        INFEASIBLE => texts::NO_ASSIGNMENT,
        BRACKET => texts::BRACKET_ALONE,
        BROKEN => texts::GUARD_HIT,
        UNWRITTEN => texts::NOT_WRITTEN,
        NO_MEMORY => texts::OUT_OF_MEMORY,
        REFUSED => texts::INPUT_REFUSED,
        _ => texts::STATUS_ALONE,
    }
}

/// Of the end of a job where nothing was refused: of the limit that ended its search, and where none did, of its
/// status.
pub(crate) fn of_end(status: u8, reason: Option<Reason>) -> &'static [u8]
    ensures { result.now ≡ phrase_of_end status reason }
{
    match reason {
        Some(reason) => of_reason(reason),
        None => of_status(status),
    }
}
