//! Why a job was refused.

ghost use Rattle.std.specs.Prelude.{◌≡◌};
ghost use Rattle.auc_run.specs.declared.refusal.Refusal.TheVariants.{NotRead, NoProblem, NoCertificate, Invalid};
ghost use Rattle.auc_run.specs.declared.refusal.Refusal.TheVariants.{NoStart, NoScript, NoMemory, NoThreads};
ghost use Rattle.auc_run.specs.Refusals.{refusal_of_run};

use crate::input::ReadFault;
use auc_cert::CertTextError;
use auc_claim::{CertRefused, StartError};
use auc_graph::ReadError;
use auc_script::ScriptError;
use auc_threads::RunError;
use std::alloc::AllocError;

/// Why a job was refused. Of a check the problem is read and judged first, then the certificate, then the claim.
#[derive(Clone, Copy, Debug, PartialEq, Eq)]
pub enum Refusal {
    /// The certificate or the script was not read to its end.
    NotRead(ReadFault),
    /// The first input is no problem, or was not read to its end.
    NoProblem(ReadError),
    /// The second input is no certificate.
    NoCertificate(CertTextError),
    /// What the certificate claims does not hold of the problem.
    Invalid(CertRefused),
    /// The certificate has no prices from which the problem can be solved.
    NoStart(StartError),
    /// The input is no script.
    NoScript(ScriptError),
    /// Memory ran out, when the inputs had been read.
    NoMemory,
    /// A thread couldn't be started.
    NoThreads,
}

impl From<ReadFault> for Refusal {
    ghost from_gives = { λ fault r. r ≡ NotRead fault };

    fn from(fault: ReadFault) -> Refusal {
        Refusal::NotRead(fault)
    }
}

impl From<ReadError> for Refusal {
    ghost from_gives = { λ error r. r ≡ NoProblem error };

    fn from(error: ReadError) -> Refusal {
        Refusal::NoProblem(error)
    }
}

impl From<CertTextError> for Refusal {
    ghost from_gives = { λ error r. r ≡ NoCertificate error };

    fn from(error: CertTextError) -> Refusal {
        Refusal::NoCertificate(error)
    }
}

impl From<CertRefused> for Refusal {
    ghost from_gives = { λ error r. r ≡ Invalid error };

    fn from(error: CertRefused) -> Refusal {
        Refusal::Invalid(error)
    }
}

impl From<StartError> for Refusal {
    ghost from_gives = { λ error r. r ≡ NoStart error };

    fn from(error: StartError) -> Refusal {
        Refusal::NoStart(error)
    }
}

impl From<ScriptError> for Refusal {
    ghost from_gives = { λ error r. r ≡ NoScript error };

    fn from(error: ScriptError) -> Refusal {
        Refusal::NoScript(error)
    }
}

impl From<AllocError> for Refusal {
    ghost from_gives = { λ _ r. r ≡ NoMemory };

    fn from(_e: AllocError) -> Refusal {
        Refusal::NoMemory
    }
}

impl From<RunError> for Refusal {
    ghost from_gives = { λ error r. r ≡ refusal_of_run error };

    fn from(error: RunError) -> Refusal {
        match error {
            RunError::NoMemory => Refusal::NoMemory,
            RunError::Spawn => Refusal::NoThreads,
        }
    }
}
