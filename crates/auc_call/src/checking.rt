//! A check over the caller's memory.

ghost use Rattle.std.specs.Prelude.{◌≡◌, Ok};
ghost use Rattle.auc_claim.specs.Claim.{IsAllowed, fault_of};
ghost use Rattle.auc_call.specs.Checking.{Checks, ChecksHall, Told};
ghost use Rattle.auc_call.specs.Given.{listed_problem};
ghost use Rattle.auc_call.specs.declared.checked.Checked.{Checked};

use crate::checked::{Checked, ClaimFault};
use crate::given::GivenArcs;
use crate::picking::picks_at;
use crate::solved::Failed;
use auc_claim::{Cert, CertParts, CertRefused, Picks, Prices, check};
use auc_graph::{ArcList, Indices, objects_or};
use std::alloc::Global;

/// What the checker says.
fn checked_of(alloc: Global, problem: &ArcList, cert: &Cert) -> Result<Checked, Failed>
    ensures told { Told (fault_of problem.now cert.now) result }
    ensures allowed { result ≡ Ok Checked.Valid → IsAllowed problem.now cert.now }
{
    match check(alloc, problem, cert) {
        Ok(()) => Ok(Checked::Valid),
        Err(refused) => match refused {
            CertRefused::NoMemory => Err(Failed::NoMemory),
            other => Ok(Checked::Invalid(ClaimFault::Refused(other))),
        },
    }
}

/// Checks an assignment, its cost and the prices that are to show it.
pub(crate) fn check_at(
    alloc: Global,
    given: &GivenArcs,
    choice: &[u32],
    prices: &[i64],
    cost: i64,
) -> Result<Checked, Failed>
    ensures { Checks (listed_problem given.now) choice.now prices.now cost result }
{
    let wanted = objects_or(given.objects, given.persons) as usize;
    if choice.len() != given.persons as usize || prices.len() != wanted {
        return Err(Failed::Sizes);
    }
    let list = Vec::from_slice(alloc, given.arcs)?;
    let problem = ArcList::from_arcs(given.persons, given.objects, list)?;
    let picks = match picks_at(alloc, given.arcs, choice)? {
        Ok(picks) => picks,
        Err(person) => return Ok(Checked::Invalid(ClaimFault::Misplaced { person })),
    };
    let parts = CertParts::Optimal {
        cost,
        choice: Picks::new(picks),
        prices: Prices::new(Vec::from_slice(alloc, prices)?),
    };
    let Ok(cert) = Cert::make_wide(parts) else {
        return Ok(Checked::Invalid(ClaimFault::OutOfRange));
    };
    checked_of(alloc, &problem, &cert)
}

/// Checks that these persons have arcs to none but these objects, which are fewer.
pub(crate) fn check_hall_at(
    alloc: Global,
    given: &GivenArcs,
    hall_persons: &[u32],
    hall_objects: &[u32],
) -> Result<Checked, Failed>
    ensures { ChecksHall (listed_problem given.now) hall_persons.now hall_objects.now result }
{
    let list = Vec::from_slice(alloc, given.arcs)?;
    let problem = ArcList::from_arcs(given.persons, given.objects, list)?;
    let parts = CertParts::Infeasible {
        persons: Indices::new(Vec::from_slice(alloc, hall_persons)?),
        objects: Indices::new(Vec::from_slice(alloc, hall_objects)?),
    };
    let Ok(cert) = Cert::make_wide(parts) else {
        return Ok(Checked::Invalid(ClaimFault::OutOfRange));
    };
    checked_of(alloc, &problem, &cert)
}
