//! What a call returns: a status, and a few fields.

ghost use Rattle.std.specs.Prelude.{◌≡◌};
ghost use Rattle.auc_call.specs.Telling.{failed_status, failed_found, solve_status, solve_found, check_status};
ghost use Rattle.auc_call.specs.Telling.{check_found};

use crate::checked::Checked;
use crate::codes::{
    claim_kind, claim_place, limit_kind, list_kind, list_place, start_kind, start_place,
};
use crate::found::Found;
use crate::solved::{Failed, Solved};
use crate::status::{BRACKET, INFEASIBLE, INVALID, MEMORY, OPTIMAL, REFUSED, SIZES, START};

/// Writes why nothing was found.
fn tell_failed(failed: Failed, found: &mut Found) -> i32
    ensures status { result ≡ failed_status failed }
    ensures found { found.new ≡ failed_found failed found.old }
{
    match failed {
        Failed::Sizes => SIZES,
        Failed::Fault(fault) => {
            found.kind = list_kind(fault);
            found.place = list_place(fault);
            REFUSED
        }
        Failed::Start(fault) => {
            found.kind = start_kind(fault);
            found.place = start_place(fault);
            START
        }
        Failed::NoMemory => MEMORY,
    }
}

/// Writes what a solve comes to.
pub fn tell_solved(solved: Result<Solved, Failed>, found: &mut Found) -> i32
    ensures status { result ≡ solve_status solved }
    ensures found { found.new ≡ solve_found solved found.old }
{
    match solved {
        Ok(Solved::Optimal { cost }) => {
            found.cost = cost;
            OPTIMAL
        }
        Ok(Solved::Infeasible { persons, objects }) => {
            found.persons = persons;
            found.objects = objects;
            INFEASIBLE
        }
        Ok(
            Solved::Bracket {
                reason,
                lower,
                cost,
            },
        ) => {
            found.kind = limit_kind(reason);
            found.lower = lower;
            found.cost = cost;
            BRACKET
        }
        Err(failed) => tell_failed(failed, found),
    }
}

/// Writes what a check comes to.
pub(crate) fn tell_checked(checked: Result<Checked, Failed>, found: &mut Found) -> i32
    ensures status { result ≡ check_status checked }
    ensures found { found.new ≡ check_found checked found.old }
{
    match checked {
        Ok(Checked::Valid) => OPTIMAL,
        Ok(Checked::Invalid(fault)) => {
            found.kind = claim_kind(fault);
            found.place = claim_place(fault);
            INVALID
        }
        Err(failed) => tell_failed(failed, found),
    }
}
