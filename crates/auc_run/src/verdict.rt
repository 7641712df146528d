//! Whether the claim of a certificate holds of a problem.

ghost use Rattle.std.specs.Prelude.{◌≡◌, IfSome, IsErr};
ghost use Rattle.auc_run.specs.Problems.{AreSizes, file_reading};
ghost use Rattle.auc_run.specs.Verdicts.{Judges, IsVerdict, said_by};

use crate::claim::cert_of;
use crate::command::Sizes;
use crate::input::read_all;
use crate::problem::problem_of;
use crate::refusal::Refusal;
use crate::valid::Valid;
use auc_claim::{Cert, CertParts, check};
use auc_graph::{ArcList, MOST_READS};
use std::alloc::Global;
use std::io::Read;

/// What a certificate says, if its claim holds.
fn said_by(cert: &Cert) -> Valid
    ensures { result ≡ said_by cert.now }
{
    match cert.parts() {
        CertParts::Optimal { cost, .. } => Valid::Optimal { cost: *cost },
        CertParts::Bracket { lower, cost, .. } => Valid::Bracket {
            lower: *lower,
            cost: *cost,
        },
        CertParts::Infeasible { persons, objects } => Valid::Infeasible {
            persons: persons.as_slice().len(),
            objects: objects.as_slice().len(),
        },
    }
}

/// What a certificate says, where its claim holds of the problem.
fn judge(alloc: Global, problem: &ArcList, cert: &Cert) -> Result<Valid, Refusal>
    ensures { Judges problem.now cert.now result }
{
    let valid = said_by(cert);
    check(alloc, problem, cert)?;
    Ok(valid)
}

/// What the certificate of the second reader says, where its claim holds of the first reader's problem. The second
/// reader is read once the problem is accepted.
pub(crate) fn verdict_of<R: Read, Q: Read>(
    alloc: Global,
    reader: &mut R,
    second: &mut Q,
    sizes: Sizes,
) -> Result<Valid, Refusal>
    requires { AreSizes sizes }
    ensures verdict { IsVerdict sizes (R.remaining reader.old) (Q.remaining second.old) result }
    ensures unread { IfSome (R.remaining reader.old) (λ file. IsErr (file_reading sizes file)
        → second.new ≡ second.old) }
{
    let problem = problem_of(alloc, reader, sizes)?;
    let bytes = read_all(alloc, second, MOST_READS)?;
    let cert = cert_of(alloc, bytes.as_slice(), sizes.large)?;
    judge(alloc, &problem, &cert)
}
