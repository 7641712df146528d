//! What a solve starts from: a problem is read, then an old certificate, and of this one the prices.

ghost use Rattle.std.specs.Prelude.{◌≡◌, false, length, All, IfOk, IfSome, IsErr};
ghost use Rattle.auc_claim.specs.declared.start_error.StartError.{StartError};
ghost use Rattle.auc_claim.specs.Start.{AreStart, IsStartPrice};
ghost use Rattle.auc_graph.specs.Memory.{AnswersUnless};
ghost use Rattle.auc_graph.specs.Price.{IsPrice};
ghost use Rattle.auc_direct.specs.Starts.{AreStartPrices};
ghost use Rattle.auc_run.specs.Problems.{AreSizes, file_reading};
ghost use Rattle.auc_run.specs.Starts.{IsStartIn, direct_start_of, each_price, start_for};

use crate::claim::cert_of;
use crate::command::Sizes;
use crate::input::read_all;
use crate::problem::problem_of;
use crate::refusal::Refusal;
use auc_claim::{Cert, CertParts, StartError, high_price, start_prices};
use auc_graph::{ArcList, MOST_READS};
use std::alloc::Global;
use std::io::Read;

/// A problem, and the prices from which it is to be solved: scaled costs, indexed by object.
#[derive(Drop)]
pub struct Started {
    pub problem: ArcList,
    pub prices: Vec<i64>,
}

/// These prices, where they are as many as objects.
fn each_price(alloc: Global, objects: u32, prices: &[i64]) -> Result<Vec<i64>, StartError>
    requires { All IsPrice prices.now }
    ensures each { IfOk result (λ v. length v.items ≡ objects) }
    ensures within { IfOk result (λ v. All IsStartPrice v.items) }
    ensures exact { AnswersUnless StartError.NoMemory (λ v. v.items) result (λ r. r ≡ each_price objects prices.now) }
{
    if prices.len() != objects as usize {
        return Err(StartError::OtherSize);
    }
    if let Some(object) = high_price(prices) {
        return Err(StartError::TooHigh { object });
    }
    Ok(prices.to_vec(alloc)?)
}

/// The prices of a certificate from which the direct solver may start: one for each object, whatever the picks
/// beside them.
fn direct_prices(alloc: Global, problem: &ArcList, cert: &Cert) -> Result<Vec<i64>, StartError>
    ensures exact { AnswersUnless StartError.NoMemory (λ v. v.items) result
        (λ r. r ≡ direct_start_of problem.now cert.now) }
    ensures start { IfOk result (λ v. AreStartPrices problem.now v.items) }
{
    match cert.parts() {
        CertParts::Optimal { prices, .. } | CertParts::Bracket { prices, .. } => {
            each_price(alloc, problem.objects(), prices.as_slice())
        }
        CertParts::Infeasible { .. } => Err(StartError::NoPrices),
    }
}

/// The prices of a certificate from which a solve may start, directly or by messages.
fn prices_of(
    alloc: Global,
    problem: &ArcList,
    cert: &Cert,
    direct: bool,
) -> Result<Vec<i64>, StartError>
    ensures exact { AnswersUnless StartError.NoMemory (λ v. v.items) result
        (λ r. r ≡ start_for direct problem.now cert.now) }
    ensures start { direct ≡ false → IfOk result (λ v. AreStart problem.now v.items) }
    ensures each { IfOk result (λ v. AreStartPrices problem.now v.items) }
{
    if direct {
        direct_prices(alloc, problem, cert)
    } else {
        start_prices(alloc, problem, cert)
    }
}

/// The first reader's problem, and the prices of the second one's certificate, for a direct solve or by messages.
/// The second reader is read once the problem is accepted.
pub(crate) fn started_of<R: Read, Q: Read>(
    alloc: Global,
    reader: &mut R,
    second: &mut Q,
    sizes: Sizes,
    direct: bool,
) -> Result<Started, Refusal>
    requires { AreSizes sizes }
    ensures started { IsStartIn direct sizes (R.remaining reader.old) (Q.remaining second.old) result }
    ensures start { direct ≡ false → IfOk result (λ s. AreStart s.problem s.prices.items) }
    ensures each { IfOk result (λ s. AreStartPrices s.problem s.prices.items) }
    ensures unread { IfSome (R.remaining reader.old) (λ file. IsErr (file_reading sizes file)
        → second.new ≡ second.old) }
{
    let problem = problem_of(alloc, reader, sizes)?;
    let bytes = read_all(alloc, second, MOST_READS)?;
    let cert = cert_of(alloc, bytes.as_slice(), sizes.large)?;
    // Read here, so that the proof has what every certificate keeps.
    let _ = cert.parts();
    let prices = prices_of(alloc, &problem, &cert, direct)?;
    Ok(Started { problem, prices })
}
