//! Reading of the certificate of a job.

ghost use Rattle.std.specs.Prelude.{IfErr, IfOk};
ghost use Rattle.auc_graph.specs.Memory.{AnswersUnless};
ghost use Rattle.auc_cert.specs.Runs.{NamesLine};
ghost use Rattle.auc_run.specs.Claims.{IsBadLineFor, IsClaimFor};

use auc_cert::{CertTextError, read_cert, read_large_cert};
use auc_claim::Cert;
use std::alloc::Global;

/// The certificate that the bytes spell. Where the problem may be large, it may be of version 3 too.
pub(crate) fn cert_of(alloc: Global, bytes: &[u8], large: bool) -> Result<Cert, CertTextError>
    ensures found { IfOk result (IsClaimFor large bytes.now) }
    ensures line { AnswersUnless CertTextError.NoMemory (λ x. x) result
        (λ r. IfErr r (NamesLine (IsBadLineFor large bytes.now))) }
{
    if large {
        read_large_cert(alloc, bytes)
    } else {
        read_cert(alloc, bytes)
    }
}
