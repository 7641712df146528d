//! A certificate, written into the caller's memory.

ghost use Rattle.std.specs.Prelude.{◌≡◌, ◌≤◌, length, drop, take, List, ℕ};
ghost use Rattle.auc_answers.specs.Answers.{IsBracketCertificate, IsHallCertificate, IsLeastCertificate};
ghost use Rattle.auc_call.specs.Memory.{memory};
ghost use Rattle.auc_call.specs.Running.{IsWritten};
ghost use Rattle.auc_call.specs.Solving.{IsSolved};

use crate::places::set_places;
use crate::solved::Solved;
use auc_claim::{Cert, CertParts};
use auc_graph::ArcList;

/// Writes numbers to the front.
pub fn put_front(numbers: &[u32], target: &mut [u32])
    requires { length numbers.now ≤ length target.old }
    ensures front { take (length numbers.now) target.new ≡ numbers.now }
    ensures after { drop (length numbers.now) target.new ≡ drop (length numbers.now) target.old }
{
    target[..numbers.len()].copy_from_slice(numbers);
}

/// Hands out a least-cost assignment.
pub(crate) fn hand_optimal(
    problem: &ArcList,
    cert: &Cert,
    choice: &mut [u32],
    prices: &mut [i64],
) -> Solved
    requires cert { IsLeastCertificate problem.now cert.now }
    requires choice { length choice.old ≡ problem.now.persons }
    requires prices { length prices.old ≡ problem.now.objects }
    ensures solved { (set : List ℕ) → IsSolved problem.now (memory choice.old prices.old set)
        (memory choice.new prices.new set) result }
    ensures written { (set : List ℕ) → IsWritten problem.now cert.now (memory choice.new prices.new set) result }
{
    match cert.parts() {
        CertParts::Optimal {
            cost,
            choice: picks,
            prices: shown,
        } => {
            set_places(problem.arcs(), picks.as_slice(), picks.places(), choice);
            prices.copy_from_slice(shown.as_slice());
            Solved::Optimal { cost: *cost }
        }
        _ => unreachable!(),
    }
}

/// Hands out an assignment and a bound.
pub(crate) fn hand_bracket(
    problem: &ArcList,
    cert: &Cert,
    choice: &mut [u32],
    prices: &mut [i64],
) -> Solved
    requires cert { IsBracketCertificate problem.now cert.now }
    requires choice { length choice.old ≡ problem.now.persons }
    requires prices { length prices.old ≡ problem.now.objects }
    ensures solved { (set : List ℕ) → IsSolved problem.now (memory choice.old prices.old set)
        (memory choice.new prices.new set) result }
    ensures written { (set : List ℕ) → IsWritten problem.now cert.now (memory choice.new prices.new set) result }
{
    match cert.parts() {
        CertParts::Bracket {
            reason,
            lower,
            cost,
            choice: picks,
            prices: shown,
        } => {
            set_places(problem.arcs(), picks.as_slice(), picks.places(), choice);
            prices.copy_from_slice(shown.as_slice());
            Solved::Bracket {
                reason: *reason,
                lower: *lower,
                cost: *cost,
            }
        }
        _ => unreachable!(),
    }
}

/// Hands out persons who together have arcs to too few objects, and these objects.
pub(crate) fn hand_hall(
    problem: &ArcList,
    cert: &Cert,
    choice: &mut [u32],
    prices: &[i64],
    set: &mut [u32],
) -> Solved
    requires cert { IsHallCertificate problem.now cert.now }
    requires choice { length choice.old ≡ problem.now.persons }
    requires set { length set.old ≡ problem.now.persons }
    ensures solved { IsSolved problem.now (memory choice.old prices.now set.old)
        (memory choice.new prices.now set.new) result }
    ensures written { IsWritten problem.now cert.now (memory choice.new prices.now set.new) result }
{
    // Read here, so that the proof has what every problem keeps.
    let _ = problem.arcs();
    match cert.parts() {
        CertParts::Infeasible { persons, objects } => {
            let persons = persons.as_slice();
            let objects = objects.as_slice();
            put_front(persons, choice);
            put_front(objects, set);
            Solved::Infeasible {
                persons: persons.len() as u32,
                objects: objects.len() as u32,
            }
        }
        _ => unreachable!(),
    }
}
