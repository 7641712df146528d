//! The start of a run (a warm start): the prices of an old certificate.

ghost use Rattle.std.specs.Prelude.{◌≡◌, ◌<◌, ◌^◌, length, All, IfOk};
ghost use Rattle.auc_graph.specs.Memory.{AnswersUnless};
ghost use Rattle.auc_graph.specs.Price.{IsPrice};
ghost use Rattle.auc_claim.specs.Start.{AreStart, IsStartPrice, high_price, start_of, start_of_choice};
ghost use Rattle.auc_claim.specs.declared.start_error.StartError.{StartError};

use crate::cert::{Cert, CertParts};
use crate::limits::HIGHEST_START;
use crate::lists::Pick;
use crate::start_error::StartError;
use auc_graph::ArcList;
use std::alloc::Global;

/// The first object whose price is above [`HIGHEST_START`], too high to start from. O(objects) time.
pub fn high_price(prices: &[i64]) -> Option<u32>
    requires few { length prices.now < 2 ^ 32 }
    requires fair { All IsPrice prices.now }
    ensures { result ≡ high_price prices.now }
{
    for object in 0..prices.len() {
        if prices[object] > HIGHEST_START {
            return Some(object as u32);
        }
    }
    None
}

/// The prices beside these picks, where both are as many as persons.
fn start_of(
    alloc: Global,
    persons: u32,
    choice: &[Pick],
    prices: &[i64],
) -> Result<Vec<i64>, StartError>
    requires { All IsPrice prices.now }
    ensures each { IfOk result (λ v. length v.items ≡ persons) }
    ensures within { IfOk result (λ v. All IsStartPrice v.items) }
    ensures exact { AnswersUnless StartError.NoMemory (λ v. v.items) result
        (λ r. r ≡ start_of_choice persons choice.now prices.now) }
{
    if choice.len() != persons as usize || prices.len() != persons as usize {
        return Err(StartError::OtherSize);
    }
    if let Some(object) = high_price(prices) {
        return Err(StartError::TooHigh { object });
    }
    Ok(prices.to_vec(alloc)?)
}

/// The prices of a certificate, as start prices: scaled costs, indexed by object, as many as persons. A run may start
/// from them on a problem whose arcs or costs may have changed since (`auc_world::solve_serial_from`).
///
/// Only the prices are used. The picks, the cost and the bound aren't judged, and any prices from 0 to 2^60 are lawful:
/// good ones save bids, and bad ones cost bids.
///
/// Takes O(persons) time and memory.
///
/// # Errors
///
/// In this order:
///
/// - [`StartError::NotSquare`] where the problem has more objects than persons;
/// - [`StartError::NoPrices`] where the certificate is of a Hall set;
/// - [`StartError::OtherSize`] where its picks or its prices aren't as many as the problem's persons;
/// - [`StartError::TooHigh`] with the first object whose price is above 2^60.
///
/// [`StartError::NoMemory`] may come in place of any other answer, where memory was refused.
pub fn start_prices(alloc: Global, problem: &ArcList, cert: &Cert) -> Result<Vec<i64>, StartError>
    ensures exact { AnswersUnless StartError.NoMemory (λ v. v.items) result (λ r. r ≡ start_of problem.now cert.now) }
    ensures start { IfOk result (λ v. AreStart problem.now v.items) }
{
    if problem.objects() != problem.persons() {
        return Err(StartError::NotSquare);
    }
    match cert.parts() {
        CertParts::Optimal { choice, prices, .. } | CertParts::Bracket { choice, prices, .. } => {
            start_of(
                alloc,
                problem.persons(),
                choice.as_slice(),
                prices.as_slice(),
            )
        }
        CertParts::Infeasible { .. } => Err(StartError::NoPrices),
    }
}
