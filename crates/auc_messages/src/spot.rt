//! Which input a refusal is about, and where in it.

ghost use Rattle.std.specs.Prelude.{◌≡◌};
ghost use Rattle.auc_run.specs.Problems.{arcs_limit};
ghost use Rattle.auc_messages.specs.Spots.{last_of, spot_in_claim, spot_in_problem, spot_in_script, spot_of};
ghost use Rattle.auc_messages.specs.Spots.{subject_of, token_of_arc};

use auc_cert::CertTextError;
use auc_claim::{CertRefused, StartError};
use auc_graph::{MOST_ARCS, ReadError, TEXT_ARCS};
use auc_run::{Job, Refusal, ScriptError};

/// Which input of a job.
#[derive(Clone, Copy, Debug, PartialEq, Eq)]
pub enum Subject {
    /// The first one: a problem, or a script.
    First,
    /// The second one: a certificate.
    Second,
    /// None.
    Neither,
}

/// Where in an input. All are numbered from 0.
#[derive(Clone, Copy, Debug, PartialEq, Eq)]
pub enum Spot {
    /// Nowhere in particular.
    All,
    /// At this token.
    Token(u64),
    /// On this line.
    Line(u64),
    /// At this person.
    Person(u64),
    /// At this object.
    Object(u64),
}

/// The last of so many tokens.
fn last_of(tokens: u64) -> Spot
    ensures { result ≡ last_of tokens }
{
    if tokens == 0 {
        Spot::All
    } else {
        Spot::Token(tokens - 1)
    }
}

/// A token of an arc: its person at 1, its object at 2, its cost at 3.
fn token_of_arc(arc: u64, field: u64) -> Spot
    ensures { result ≡ token_of_arc arc field }
{
    Spot::Token(arc.saturating_mul(3).saturating_add(field))
}

/// The most arcs of a problem, by whether it may be large.
fn most_arcs(large: bool) -> u32
    ensures { result ≡ arcs_limit large }
{
    if large { MOST_ARCS } else { TEXT_ARCS }
}

fn spot_in_problem(large: bool, error: ReadError) -> Spot
    ensures { result ≡ spot_in_problem large error }
{
    match error {
        ReadError::BadNumber { token } => Spot::Token(token),
        ReadError::CountRange | ReadError::TooFewObjects => Spot::Token(0),
        ReadError::TooManyArcs => token_of_arc(most_arcs(large) as u64, 1),
        ReadError::PersonRange { arc } => token_of_arc(arc, 1),
        ReadError::ObjectRange { arc } => token_of_arc(arc, 2),
        ReadError::CostRange { arc } => token_of_arc(arc, 3),
        ReadError::Cut { tokens } => last_of(tokens),
        ReadError::Empty | ReadError::NoMemory | ReadError::ReadFault | ReadError::TooManyReads =>
            Spot::All,
    }
}

fn spot_in_claim(error: CertRefused) -> Spot
    ensures { result ≡ spot_in_claim error }
{
    match error {
        CertRefused::NoSuchArc { person } | CertRefused::Slack { person } => {
            Spot::Person(person as u64)
        }
        CertRefused::ObjectTwice { object } | CertRefused::LeftOver { object } => {
            Spot::Object(object as u64)
        }
        CertRefused::WrongSize
        | CertRefused::WrongCost
        | CertRefused::NotHall
        | CertRefused::WrongBound
        | CertRefused::NoMemory => Spot::All,
    }
}

fn spot_in_script(error: ScriptError) -> Spot
    ensures { result ≡ spot_in_script error }
{
    match error {
        ScriptError::Word { token } | ScriptError::Range { token } => Spot::Token(token),
        ScriptError::Cut { tokens } => last_of(tokens),
        ScriptError::TooManyCalls | ScriptError::NoMemory => Spot::All,
    }
}

/// The place in its input that a refusal is about, by whether the problem may be large.
pub(crate) fn spot_of(large: bool, refusal: Refusal) -> Spot
    ensures { result ≡ spot_of large refusal }
{
    match refusal {
        Refusal::NoProblem(error) => spot_in_problem(large, error),
        Refusal::NoCertificate(CertTextError::Line { line }) => Spot::Line(line),
        Refusal::Invalid(error) => spot_in_claim(error),
        Refusal::NoStart(StartError::TooHigh { object }) => Spot::Object(object as u64),
        Refusal::NoScript(error) => spot_in_script(error),
        Refusal::NoCertificate(_)
        | Refusal::NoStart(_)
        | Refusal::NotRead(_)
        | Refusal::NoMemory
        | Refusal::NoThreads => Spot::All,
    }
}

/// Which input of this job a refusal is about. What was not read to its end is a mail's script, and else the
/// certificate.
pub(crate) fn subject_of(job: &Job, refusal: Refusal) -> Subject
    ensures { result ≡ subject_of job.now refusal }
{
    match refusal {
        Refusal::NoProblem(_) | Refusal::NoScript(_) => Subject::First,
        Refusal::NoCertificate(_) | Refusal::Invalid(_) | Refusal::NoStart(_) => Subject::Second,
        Refusal::NotRead(_) => match job {
            Job::Mail => Subject::First,
            Job::Solve { .. } | Job::Check { .. } | Job::Hall { .. } => Subject::Second,
        },
        Refusal::NoMemory | Refusal::NoThreads => Subject::Neither,
    }
}
