//! Faults and limits as numbers, for callers that have no enum. Kinds are counted from 1.

ghost use Rattle.std.specs.Prelude.{◌≡◌};
ghost use Rattle.auc_call.specs.Codes.{list_kind, list_place, start_kind, start_place, limit_kind, refused_kind};
ghost use Rattle.auc_call.specs.Codes.{refused_place, claim_kind, claim_place};

use crate::checked::ClaimFault;
use crate::start::StartFault;
use auc_claim::{CertRefused, Reason};
use auc_graph::ListFault;

/// The kind of a fault of a list.
pub(crate) fn list_kind(fault: ListFault) -> u32
    ensures { result ≡ list_kind fault }
{
    match fault {
        ListFault::Persons => 1,
        ListFault::Objects => 2,
        ListFault::TooManyArcs => 3,
        ListFault::Person { .. } => 4,
        ListFault::Object { .. } => 5,
        ListFault::Cost { .. } => 6,
    }
}

/// The place of the arc that is at fault, or 0.
pub(crate) fn list_place(fault: ListFault) -> u32
    ensures { result ≡ list_place fault }
{
    match fault {
        ListFault::Persons | ListFault::Objects | ListFault::TooManyArcs => 0,
        ListFault::Person { arc } | ListFault::Object { arc } | ListFault::Cost { arc } => arc,
    }
}

/// The kind of a fault of a start.
pub(crate) fn start_kind(fault: StartFault) -> u32
    ensures { result ≡ start_kind fault }
{
    match fault {
        StartFault::NotSquare => 1,
        StartFault::OtherSize => 2,
        StartFault::Price { .. } => 3,
    }
}

/// The object whose price is at fault, or 0.
pub(crate) fn start_place(fault: StartFault) -> u32
    ensures { result ≡ start_place fault }
{
    match fault {
        StartFault::NotSquare | StartFault::OtherSize => 0,
        StartFault::Price { object } => object,
    }
}

/// The kind of a limit.
pub(crate) fn limit_kind(reason: Reason) -> u32
    ensures { result ≡ limit_kind reason }
{
    match reason {
        Reason::Bids => 1,
        Reason::Ceiling => 2,
        Reason::Posts => 3,
        Reason::Trail => 4,
        Reason::Mail => 5,
    }
}

/// The kind of what the checker refuses.
fn refused_kind(refused: CertRefused) -> u32
    ensures { result ≡ refused_kind refused }
{
    match refused {
        CertRefused::ObjectTwice { .. } => 3,
        CertRefused::WrongCost => 4,
        CertRefused::Slack { .. } => 5,
        CertRefused::LeftOver { .. } => 6,
        CertRefused::NotHall => 7,
        CertRefused::WrongBound
        | CertRefused::WrongSize
        | CertRefused::NoSuchArc { .. }
        | CertRefused::NoMemory => 8,
    }
}

/// The person or the object that the checker refuses, or 0.
fn refused_place(refused: CertRefused) -> u32
    ensures { result ≡ refused_place refused }
{
    match refused {
        CertRefused::ObjectTwice { object } | CertRefused::LeftOver { object } => object,
        CertRefused::Slack { person } | CertRefused::NoSuchArc { person } => person,
        CertRefused::WrongCost
        | CertRefused::NotHall
        | CertRefused::WrongBound
        | CertRefused::WrongSize
        | CertRefused::NoMemory => 0,
    }
}

/// The kind of a fault of a claim.
pub(crate) fn claim_kind(fault: ClaimFault) -> u32
    ensures { result ≡ claim_kind fault }
{
    match fault {
        ClaimFault::Misplaced { .. } => 1,
        ClaimFault::OutOfRange => 2,
        ClaimFault::Refused(refused) => refused_kind(refused),
    }
}

/// The person or the object that is at fault, or 0.
pub(crate) fn claim_place(fault: ClaimFault) -> u32
    ensures { result ≡ claim_place fault }
{
    match fault {
        ClaimFault::Misplaced { person } => person,
        ClaimFault::OutOfRange => 0,
        ClaimFault::Refused(refused) => refused_place(refused),
    }
}
