//! The checker: whether a claim is true of a problem.

ghost use Rattle.std.specs.Prelude.{◌≡◌, ◌≤◌, ◌<◌, ◌+◌, ◌∷◌, [], true, None, All, IsOk, List, length, ℤ};
ghost use Rattle.std.specs.List.{position};
ghost use Rattle.auc_graph.specs.Memory.{AnswersUnless};
ghost use Rattle.auc_graph.specs.Problem.{IsProblem};
ghost use Rattle.auc_graph.specs.Price.{IsPrice};
ghost use Rattle.auc_graph.specs.Dual.{EachHasArc};
ghost use Rattle.auc_claim.specs.declared.reason.Reason.{Reason};
ghost use Rattle.auc_claim.specs.InRange.{AreNamesInRange, IsChoiceInRange};
ghost use Rattle.auc_claim.specs.Claim.{chosen, is_missing, is_sized, choice_faults, slack_fault, left_over_fault};
ghost use Rattle.auc_claim.specs.Claim.{bound_fault, fault_of, first_of, IsVerdict, IsAllowed};

use crate::cert::{Cert, CertParts};
use crate::flags::{first_look, missing_person, slack_person};
use crate::hall::is_hall;
use crate::lists::Pick;
use crate::picks::{cost_of, left_over, repeated_object};
use crate::refused::CertRefused;
use auc_graph::{ArcList, MOST_OBJECTS, MOST_PERSONS, dual_bound, is_lower};
use std::alloc::Global;

/// Whether there is a pick for each person, and a price for each object.
fn is_sized(problem: &ArcList, choice: &[Pick], prices: &[i64]) -> bool
    ensures { result ≡ is_sized problem.now choice.now prices.now }
{
    choice.len() == problem.persons() as usize && prices.len() == problem.objects() as usize
}

/// Whether the picks are an assignment of this cost: each an arc of its person, no object twice. `missing` is the first
/// person whose pick is no arc of that person. The numbers of picks and of prices are tested before.
fn check_picks(
    alloc: Global,
    problem: &ArcList,
    cost: i64,
    choice: &[Pick],
    missing: Option<u32>,
) -> Result<(), CertRefused>
    requires few { length choice.now ≤ MOST_PERSONS }
    requires missing { missing ≡ position (is_missing problem.now.arcs) (chosen 0 choice.now) }
    ensures exact { (prices : List ℤ) → is_sized problem.now choice.now prices ≡ true → AnswersUnless
        CertRefused.NoMemory (λ x. x) result (IsVerdict (first_of (choice_faults problem.now cost choice.now prices))) }
    ensures objects { IsOk result → All (λ p. p.object < problem.now.objects) choice.now }
{
    if let Some(person) = missing {
        return Err(CertRefused::NoSuchArc { person });
    }
    if let Some(object) = repeated_object(alloc, problem.objects() as usize, choice)? {
        return Err(CertRefused::ObjectTwice { object });
    }
    if cost_of(choice) != cost as i128 {
        return Err(CertRefused::WrongCost);
    }
    Ok(())
}

/// Whether no arc of a person is better than the person's pick by more than 1, on the scale of persons + 1; `is_slack`
/// where this is known. Only where it isn't, a person with a better arc is searched for.
fn check_slack(
    alloc: Global,
    problem: &ArcList,
    choice: &[Pick],
    prices: &[i64],
    is_slack: bool,
) -> Result<(), CertRefused>
    requires size { length choice.now ≡ problem.now.persons }
    requires prices { length prices.now ≡ problem.now.objects }
    requires objects { All (λ p. p.object < problem.now.objects) choice.now }
    requires told { is_slack ≡ true → slack_fault problem.now choice.now prices.now ≡ None }
    ensures exact { AnswersUnless CertRefused.NoMemory (λ x. x) result
        (IsVerdict (first_of (slack_fault problem.now choice.now prices.now ∷ []))) }
    ensures problem { IsProblem problem.now }
{
    let arcs = problem.arcs();
    if is_slack {
        return Ok(());
    }
    let scale = problem.persons() + 1;
    match slack_person(alloc, scale, choice, prices, arcs)? {
        Some(person) => Err(CertRefused::Slack { person }),
        None => Ok(()),
    }
}

/// Whether each object that nobody picks has price 0.
fn check_left_over(alloc: Global, choice: &[Pick], prices: &[i64]) -> Result<(), CertRefused>
    requires few { length prices.now ≤ MOST_OBJECTS }
    requires objects { All (λ p. p.object < length prices.now) choice.now }
    ensures { AnswersUnless CertRefused.NoMemory (λ x. x) result (IsVerdict
        (first_of (left_over_fault choice.now prices.now ∷ []))) }
{
    match left_over(alloc, choice, prices)? {
        Some(object) => Err(CertRefused::LeftOver { object }),
        None => Ok(()),
    }
}

/// Whether the lower bound is the least cost that the dual bound of the prices allows.
fn check_bound(
    alloc: Global,
    problem: &ArcList,
    lower: i64,
    prices: &[i64],
) -> Result<(), CertRefused>
    requires arcs { EachHasArc problem.now }
    requires len { length prices.now ≡ problem.now.objects }
    requires prices { All IsPrice prices.now }
    ensures exact { AnswersUnless CertRefused.NoMemory (λ x. x) result
        (IsVerdict (first_of (bound_fault problem.now lower prices.now ∷ []))) }
    ensures problem { IsProblem problem.now }
{
    let scale = problem.persons() + 1;
    let bound = dual_bound(alloc, problem, prices)?;
    if !is_lower(scale, bound, lower) {
        return Err(CertRefused::WrongBound);
    }
    Ok(())
}

/// Whether the claim of an optimal assignment is true. Slack is checked in the pass that looks for the picks.
fn check_optimal(
    alloc: Global,
    problem: &ArcList,
    cost: i64,
    choice: &[Pick],
    prices: &[i64],
) -> Result<(), CertRefused>
    requires { IsChoiceInRange choice.now prices.now }
    ensures exact { AnswersUnless CertRefused.NoMemory (λ x. x) result
        (IsVerdict (fault_of problem.now (CertParts.Optimal cost choice.now prices.now))) }
    ensures allowed { IsOk result → IsAllowed problem.now (CertParts.Optimal cost choice.now prices.now) }
{
    if !is_sized(problem, choice, prices) {
        return Err(CertRefused::WrongSize);
    }
    let scale = problem.persons() + 1;
    let (missing, is_slack) = first_look(alloc, scale, choice, prices, problem.arcs())?;
    check_picks(alloc, problem, cost, choice, missing)?;
    check_slack(alloc, problem, choice, prices, is_slack)?;
    check_left_over(alloc, choice, prices)
}

fn check_infeasible(
    alloc: Global,
    problem: &ArcList,
    persons: &[u32],
    objects: &[u32],
) -> Result<(), CertRefused>
    requires { AreNamesInRange persons.now objects.now }
    ensures exact { AnswersUnless CertRefused.NoMemory (λ x. x) result
        (IsVerdict (fault_of problem.now (CertParts.Infeasible persons.now objects.now))) }
    ensures allowed { IsOk result → IsAllowed problem.now (CertParts.Infeasible persons.now objects.now) }
{
    if !is_hall(alloc, problem, persons, objects)? {
        return Err(CertRefused::NotHall);
    }
    Ok(())
}

/// Whether the claim of a bracket is true, whichever limit ended the run.
fn check_bracket(
    alloc: Global,
    problem: &ArcList,
    lower: i64,
    cost: i64,
    choice: &[Pick],
    prices: &[i64],
) -> Result<(), CertRefused>
    requires { IsChoiceInRange choice.now prices.now }
    ensures exact { (reason : Reason)
        → AnswersUnless CertRefused.NoMemory (λ x. x) result
        (IsVerdict (fault_of problem.now (CertParts.Bracket reason lower cost choice.now prices.now))) }
    ensures allowed { (reason : Reason) → IsOk result → IsAllowed problem.now
        (CertParts.Bracket reason lower cost choice.now prices.now) }
{
    if !is_sized(problem, choice, prices) {
        return Err(CertRefused::WrongSize);
    }
    let missing = missing_person(alloc, choice, problem.arcs())?;
    check_picks(alloc, problem, cost, choice, missing)?;
    check_bound(alloc, problem, lower, prices)
}

/// Whether the claim of a certificate is true of a problem, or else its first fault.
///
/// An optimal claim that gets `Ok` is a least-cost assignment: no assignment of the problem costs less than `cost`.
/// This is weak duality, with costs multiplied by persons + 1. At its prices no pick is worse than another arc of its
/// person by more than 1, and an object that nobody picks has price 0. Such prices bound the cost of every assignment
/// from below.
///
/// A bracket that gets `Ok` is an assignment of this cost, and no assignment of the problem costs less than `lower`.
/// That is the least cost that, multiplied by persons + 1, is at least the dual bound of the prices. The limit that
/// ended the run is ignored.
///
/// An infeasible claim that gets `Ok` names persons who together have arcs to fewer objects than they number, so there
/// is no assignment (Hall 1935).
///
/// # Errors
///
/// Of an optimal claim, in this order: [`CertRefused::WrongSize`], [`CertRefused::NoSuchArc`],
/// [`CertRefused::ObjectTwice`], [`CertRefused::WrongCost`], [`CertRefused::Slack`], [`CertRefused::LeftOver`]. Of a
/// bracket the same, with [`CertRefused::WrongBound`] in place of the last two. Of an infeasible one only
/// [`CertRefused::NotHall`]. [`CertRefused::NoMemory`] may come in place of any other answer, where memory was refused.
///
/// Takes O(arcs + persons + objects) time and O(persons + objects) memory: one pass over the arcs for an optimal claim
/// that is true, else two at most.
pub fn check(alloc: Global, problem: &ArcList, cert: &Cert) -> Result<(), CertRefused>
    ensures exact { AnswersUnless CertRefused.NoMemory (λ x. x) result (IsVerdict (fault_of problem.now cert.now)) }
    ensures allowed { IsOk result → IsAllowed problem.now cert.now }
{
    match cert.parts() {
        CertParts::Optimal {
            cost,
            choice,
            prices,
        } => { check_optimal(alloc, problem, *cost, choice.as_slice(), prices.as_slice()) }
        CertParts::Infeasible { persons, objects } => {
            check_infeasible(alloc, problem, persons.as_slice(), objects.as_slice())
        }
        CertParts::Bracket {
            reason: _,
            lower,
            cost,
            choice,
            prices,
        } => check_bracket(
            alloc,
            problem,
            *lower,
            *cost,
            choice.as_slice(),
            prices.as_slice(),
        ),
    }
}
