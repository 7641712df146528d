//! The prices from which a caller wants a run to start.

ghost use Rattle.std.specs.Prelude.{◌≡◌, ◌≢◌, ◌<◌, ◌^◌, None, [], length};
ghost use Rattle.auc_graph.specs.Problem.{Problem};
ghost use Rattle.auc_claim.specs.Start.{AreStart};
ghost use Rattle.auc_direct.specs.Starts.{AreStartPrices};
ghost use Rattle.auc_call.specs.Start.{CanStart, is_outside, outside, prices_fault, square_fault, start_fault_by};

use crate::driver::Driver;
use auc_claim::HIGHEST_START;
use auc_graph::ArcList;

/// Why no run can start from the prices.
#[derive(Clone, Copy, Debug, PartialEq, Eq)]
pub enum StartFault {
    /// There are more objects than persons: only a run by messages can't start then.
    NotSquare,
    /// They aren't as many as the objects.
    OtherSize,
    /// The price of this object, the first such, isn't from 0 to 2^60.
    Price { object: u32 },
}

fn is_outside(price: i64) -> bool
    ensures { result ≡ is_outside price }
{
    price < 0 || HIGHEST_START < price
}

/// The first object whose price isn't one to start from.
fn outside(prices: &[i64]) -> Option<u32>
    requires { length prices.now < 2 ^ 32 }
    ensures { result ≡ outside prices.now }
{
    for object in 0..prices.len() {
        if is_outside(prices[object]) {
            return Some(object as u32);
        }
    }
    None
}

/// Why no direct run of a problem with so many objects can start from these prices.
pub fn prices_fault(objects: u32, start: &[i64]) -> Option<StartFault>
    ensures exact { result ≡ prices_fault objects start.now }
    ensures start { result ≡ None → (p : Problem) → p.objects ≡ objects → AreStartPrices p start.now }
{
    if start.len() != objects as usize {
        return Some(StartFault::OtherSize);
    }
    match outside(start) {
        Some(object) => Some(StartFault::Price { object }),
        None => None,
    }
}

/// Why no run by messages can.
fn square_fault(problem: &ArcList, start: &[i64]) -> Option<StartFault>
    ensures exact { result ≡ square_fault problem.now start.now }
    ensures start { result ≡ None → AreStart problem.now start.now }
{
    if problem.objects() != problem.persons() {
        return Some(StartFault::NotSquare);
    }
    prices_fault(problem.objects(), start)
}

/// Why no run of this kind on this problem can start from these prices; no prices at all are no start, and no fault.
pub(crate) fn start_fault_by(driver: Driver, problem: &ArcList, start: &[i64]) -> Option<StartFault>
    ensures exact { result ≡ start_fault_by driver problem.now start.now }
    ensures start { result ≡ None → start.now ≢ [] → CanStart driver problem.now start.now }
{
    if start.is_empty() {
        return None;
    }
    match driver {
        Driver::Direct => prices_fault(problem.objects(), start),
        Driver::Messages => square_fault(problem, start),
    }
}
