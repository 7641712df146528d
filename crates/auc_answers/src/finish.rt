//! How a run ends: the claim of its last phase, or the guard that a stop means. Each claim passes the checker first, or
//! is proved to pass it.

ghost use Rattle.std.specs.Prelude.{◌≡◌, List, length, All, IfOk, IfSome, IfNone};
ghost use Rattle.auc_graph.specs.declared.arc.Arc.{Arc};
ghost use Rattle.auc_graph.specs.Assignment.{IsAssignment};
ghost use Rattle.auc_graph.specs.Price.{IsPrice};
ghost use Rattle.auc_graph.specs.Table.{IsTableOf};
ghost use Rattle.auc_claim.specs.Claim.{chosen};
ghost use Rattle.auc_hall.specs.OfProblem.{IsHallSetOf};
ghost use Rattle.auc_answers.specs.Answers.{IsBracketAnswer, IsBracketOf, IsCertified, IsInfeasibleAnswer};
ghost use Rattle.auc_answers.specs.Answers.{IsOptimalAnswer, stop_of};
ghost use Rattle.auc_answers.specs.Claims.{BoundFits, IsBracketBy, IsChoiceOf, IsClaimOf, claim_of, picks_of};

use crate::answer::{Answer, Guard};
use crate::gathered::Gathered;
use crate::picks::{picks_of_holders, picks_of_matching, places_of_holders};
use crate::placing::place_holders;
use auc_claim::{Cert, CertParts, CertRefused, Pick, Picks, Prices, Reason, check, cost_of};
use auc_graph::{ArcList, Indices, Rows, dual_bound, lower_of};
use auc_hall::{Matching, complete};
use auc_letters::Why;
use std::alloc::{AllocError, Global};

/// The meaning of a stop: the limit that ended the phase, or a guard.
///
/// # Errors
///
/// The guard.
pub fn stop_of(why: Why) -> Result<Reason, Guard>
    ensures { result ≡ stop_of why }
{
    match why {
        Why::Bids => Ok(Reason::Bids),
        Why::Ceiling => Ok(Reason::Ceiling),
        Why::Posts => Ok(Reason::Posts),
        Why::Trail => Ok(Reason::Trail),
        Why::Mail => Ok(Reason::Mail),
        Why::Fell => Err(Guard::Fell),
        Why::Stray => Err(Guard::Stray),
        Why::Stuck => Err(Guard::Stuck),
    }
}

/// The certificate of these parts, where they are in range and pass the checker.
fn certified(alloc: Global, problem: &ArcList, parts: CertParts) -> Result<Option<Cert>, AllocError>
    ensures some { IfOk result (λ o. IfSome o (λ c. (c ≡ parts) × IsCertified problem.now c)) }
    ensures none { IfOk result (λ o. IfNone o (IsCertified problem.now parts → ⊥)) }
{
    let Ok(cert) = Cert::make_wide(parts) else {
        return Ok(None);
    };
    match check(alloc, problem, &cert) {
        Ok(()) => Ok(Some(cert)),
        Err(CertRefused::NoMemory) => Err(AllocError),
        Err(_) => Ok(None),
    }
}

/// The claim of least cost of holders and prices: the holders' arcs, their total cost, and the prices. None where the
/// arcs are no choice, or where their total cost has more than 64 bits.
fn claimed(
    alloc: Global,
    problem: &ArcList,
    gathered: Gathered,
) -> Result<Option<CertParts>, AllocError>
    ensures some { IfOk result (λ o. IfSome o (IsClaimOf problem.now gathered.holders.items gathered.prices.items)) }
    ensures none { IfOk result
        (λ o. IfNone o ((choice : List Arc) → IsChoiceOf problem.now gathered.holders.items choice → IsCertified
        problem.now (claim_of choice gathered.prices.items) → ⊥)) }
{
    let Gathered { holders, prices } = gathered;
    let Some(picks) = picks_of_holders(alloc, problem, holders.as_slice())? else {
        return Ok(None);
    };
    let Ok(cost) = i64::try_from(cost_of(picks.as_slice())) else {
        return Ok(None);
    };
    let places = places_of_holders(alloc, problem.persons(), holders.as_slice())?;
    Ok(Some(CertParts::Optimal {
        cost,
        choice: Picks::with_places(picks, places),
        prices: Prices::new(prices),
    }))
}

/// The answer of a last phase that has sold an object to each person: its holders' arcs, their total cost, and its
/// prices. Where these don't pass the checker, it is the guard `Check`. Takes O(arcs + persons) time and O(persons)
/// memory.
///
/// # Errors
///
/// Only where memory was refused.
pub fn optimal(alloc: Global, problem: &ArcList, gathered: Gathered) -> Result<Answer, AllocError>
    ensures { IfOk result (IsOptimalAnswer problem.now gathered.holders.items gathered.prices.items) }
{
    let Some(parts) = claimed(alloc, problem, gathered)? else {
        return Ok(Answer::Broken(Guard::Check));
    };
    match certified(alloc, problem, parts)? {
        Some(cert) => Ok(Answer::Optimal(cert)),
        None => Ok(Answer::Broken(Guard::Check)),
    }
}

/// The answer of [`optimal`] where it is proved that the claim passes the checker, so that no time is spent on a check.
/// Takes O(persons + objects) time, and O(persons) memory.
///
/// # Errors
///
/// Only where memory was refused.
pub fn proved_optimal(
    alloc: Global,
    problem: &ArcList,
    gathered: Gathered,
) -> Result<Answer, AllocError>
    requires passes { (choice : List Arc) × IsChoiceOf problem.now gathered.holders.items choice
        × IsCertified problem.now (claim_of choice gathered.prices.items) }
    ensures { IfOk result (IsOptimalAnswer problem.now gathered.holders.items gathered.prices.items) }
{
    let Some(parts) = claimed(alloc, problem, gathered)? else {
        unreachable!("the claim has passed the checker in the proof");
    };
    let Ok(cert) = Cert::make_wide(parts) else {
        unreachable!("what the checker lets pass is in range");
    };
    Ok(Answer::Optimal(cert))
}

/// The claim of a bracket: these picks, by the arcs at these places, their total cost, and the dual bound of the
/// prices. None where the bound has more than 64 bits, as it may where there are more objects than persons and too many
/// of them have a price.
fn bracket_parts(
    alloc: Global,
    problem: &ArcList,
    reason: Reason,
    picks: Vec<Pick>,
    places: Indices,
    prices: Vec<i64>,
) -> Result<Option<CertParts>, AllocError>
    requires assignment { IsAssignment problem.now (chosen 0 picks.items) }
    requires each { length prices.items ≡ problem.now.objects }
    requires within { All IsPrice prices.items }
    ensures some { IfOk result (λ o. IfSome o (IsBracketBy problem.now reason prices.items)) }
    ensures picks { IfOk result (λ o. IfSome o (λ cert. picks_of cert ≡ picks.items)) }
    ensures none { IfOk result (λ o. IfNone o (BoundFits problem.now prices.items → ⊥)) }
{
    let scale = problem.persons() + 1;
    let bound = dual_bound(alloc, problem, prices.as_slice())?;
    let Ok(lower) = i64::try_from(lower_of(scale, bound)) else {
        return Ok(None);
    };
    let Ok(cost) = i64::try_from(cost_of(picks.as_slice())) else {
        unreachable!("the costs of so few picks are a cost together");
    };
    Ok(Some(CertParts::Bracket {
        reason,
        lower,
        cost,
        choice: Picks::with_places(picks, places),
        prices: Prices::new(prices),
    }))
}

/// The answer of a phase that a limit has stopped. It is a bracket where that passes the checker: an assignment that
/// the search completes from the holders' arcs, and the dual bound of the prices. Or it says that there is no
/// assignment. It is the guard `Check` where a holder's arc isn't one of the holder's to that object, or a person holds
/// two, or the bound has more than 64 bits.
///
/// `rows` are those of the problem; `gathered.prices` are in scaled costs, from 0 to 2^61, and both lists are indexed
/// by object.
///
/// Takes the time of the search, see [`complete`], beside O(arcs + persons), and O(persons) memory.
///
/// # Errors
///
/// Only where memory was refused.
pub fn bracket(
    alloc: Global,
    problem: &ArcList,
    rows: &Rows,
    reason: Reason,
    gathered: Gathered,
) -> Result<Answer, AllocError>
    requires rows { IsTableOf problem.now rows.now }
    requires holders { length gathered.holders.items ≡ problem.now.objects }
    requires prices { length gathered.prices.items ≡ problem.now.objects }
    requires within { All IsPrice gathered.prices.items }
    ensures { IfOk result (IsBracketAnswer problem.now reason gathered.holders.items gathered.prices.items) }
{
    let Gathered { holders, prices } = gathered;
    let Some(partial) = place_holders(alloc, problem, rows, holders.as_slice())? else {
        return Ok(Answer::Broken(Guard::Check));
    };
    let numbers = match complete(alloc, rows, partial)? {
        Matching::Full(numbers) => numbers,
        Matching::Hall { persons, objects } => {
            return infeasible(alloc, problem, persons, objects);
        }
    };
    let picks = picks_of_matching(alloc, problem, numbers.as_slice())?;
    let Some(parts) = bracket_parts(alloc, problem, reason, picks, numbers, prices)? else {
        return Ok(Answer::Broken(Guard::Check));
    };
    match certified(alloc, problem, parts)? {
        Some(cert) => Ok(Answer::Bracket(cert)),
        None => Ok(Answer::Broken(Guard::Check)),
    }
}

/// The bracket of holders, where each person is one and their arcs are an assignment: nothing is completed, so no rows
/// are needed. That it passes the checker is proved, so no time is spent on a check.
///
/// `gathered.prices` are in scaled costs, from 0 to 2^61, and both lists are indexed by object. Takes one pass over the
/// arcs, for the bound, beside O(persons + objects), and O(persons) memory.
///
/// # Errors
///
/// Only where memory was refused.
pub fn proved_bracket(
    alloc: Global,
    problem: &ArcList,
    reason: Reason,
    gathered: Gathered,
) -> Result<Answer, AllocError>
    requires choice { (choice : List Arc) × IsChoiceOf problem.now gathered.holders.items choice
        × IsAssignment problem.now choice }
    requires prices { length gathered.prices.items ≡ problem.now.objects }
    requires within { All IsPrice gathered.prices.items }
    requires fits { BoundFits problem.now gathered.prices.items }
    ensures { IfOk result (IsBracketOf problem.now reason gathered.prices.items) }
{
    let Gathered { holders, prices } = gathered;
    let Some(picks) = picks_of_holders(alloc, problem, holders.as_slice())? else {
        unreachable!("the holders' arcs are a choice");
    };
    let places = places_of_holders(alloc, problem.persons(), holders.as_slice())?;
    let Some(parts) = bracket_parts(alloc, problem, reason, picks, places, prices)? else {
        unreachable!("the bound has 64 bits");
    };
    let Ok(cert) = Cert::make_wide(parts) else {
        unreachable!("what the checker lets pass is in range");
    };
    Ok(Answer::Bracket(cert))
}

/// The answer where a Hall violator was found. Takes O(arcs + persons) time and O(persons) memory.
///
/// # Errors
///
/// Only where memory was refused.
pub fn infeasible(
    alloc: Global,
    problem: &ArcList,
    persons: Indices,
    objects: Indices,
) -> Result<Answer, AllocError>
    requires { IsHallSetOf problem.now persons objects }
    ensures { IfOk result (IsInfeasibleAnswer problem.now) }
{
    // Read here, so that the proof has the invariant of the problem.
    let _ = problem.arcs();
    let parts = CertParts::Infeasible { persons, objects };
    match certified(alloc, problem, parts)? {
        Some(cert) => Ok(Answer::Infeasible(cert)),
        None => Ok(Answer::Broken(Guard::Check)),
    }
}
