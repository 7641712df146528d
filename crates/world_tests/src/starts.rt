//! Solves that start from the prices of an old certificate.

ghost use Rattle.std.specs.Prelude.{◌≤◌};

use crate::answers::text_of;
use crate::limits::bids;
use crate::problems::{ONE, ONE_OBJECT, TWO, in_range, problem_of};
use crate::same::assert_same;
use auc_cert::read_cert;
use auc_claim::{Cert, StartError, start_prices};
use auc_graph::{ReadLimits, read_arcs};
use auc_world::{Limits, solve_serial_from};
use std::test::*;

/// The answer to `ONE`, but for the price.
const OF_ONE: &str = "auction 1\noptimal 1 -7\nassign 1 1 -7\nprice 1 ";

/// The answer to `TWO`.
const OF_TWO: &str = "auction 1\noptimal 2 3\nassign 1 2 2\nassign 2 1 1\nprice 1 7\nprice 2 5\n";

/// The answer to `TWO` with one bid.
const OF_TWO_BY_ONE: &str =
    "auction 1\nbracket bids 2 3 4\nassign 1 1 1\nassign 2 2 3\nprice 1 4\nprice 2 0\n";

/// The certificate that a text spells.
fn cert_of(rt: &HostRuntime, text: &str) -> Result<Cert, Fail> {
    Ok(read_cert(rt.alloc(), text.as_bytes())?)
}

/// The text of the answer about a problem, from the prices of a certificate.
fn answered_from(
    rt: &HostRuntime,
    problem: &str,
    cert: &str,
    limits: Limits,
) -> Result<Vec<u8>, Fail> {
    let problem = problem_of(rt, problem)?;
    let start = start_prices(rt.alloc(), &problem, &cert_of(rt, cert)?)?;
    let limits = in_range(limits)?;
    let answer = solve_serial_from(rt.alloc(), &problem, &limits, start.as_slice())?;
    text_of(rt, &problem, answer)
}

/// The prices are taken, not the picks: from nothing the first problem's would be other ones. One certificate is of
/// other costs, one is a bracket.
#[test]
fn prices_start_a_solve(rt: HostRuntime) -> Result<(), Fail> {
    let highest = format!(in rt.alloc(); "{OF_ONE}1152921504606846976\n")?;
    for (problem, cert, expected) in [
        (
            "2\n1 1 1\n1 2 2\n2 1 4\n2 2 3\n",
            OF_TWO,
            "auction 1\noptimal 2 4\nassign 1 1 1\nassign 2 2 3\nprice 1 9\nprice 2 13\n",
        ),
        (
            TWO,
            "auction 1\nbracket bids 2 3 4\nassign 1 1 1\nassign 2 2 3\nprice 1 4\nprice 2 0\n",
            "auction 1\noptimal 2 3\nassign 1 2 2\nassign 2 1 1\nprice 1 9\nprice 2 2\n",
        ),
        (
            ONE,
            highest.as_str(),
            "auction 1\noptimal 1 -7\nassign 1 1 -7\nprice 1 1152921504606846977\n",
        ),
    ] {
        let out = answered_from(&rt, problem, cert, Limits::usual(1))?;
        assert_same(
            &rt,
            (problem, out.as_slice()),
            (problem, expected.as_bytes()),
        );
    }
    Ok(())
}

/// Bids are counted from the start on, and a Hall violator is found before any.
#[test]
fn limits_hold_from_a_start(rt: HostRuntime) -> Result<(), Fail> {
    let out = answered_from(&rt, TWO, OF_TWO, bids(1))?;
    let expected =
        "auction 1\nbracket bids 2 3 4\nassign 1 1 1\nassign 2 2 3\nprice 1 9\nprice 2 5\n";
    assert_same(&rt, out.as_slice(), expected.as_bytes());
    let hall = answered_from(&rt, ONE_OBJECT, OF_TWO, bids(1))?;
    let expected = "auction 1\ninfeasible 2 1\nperson 1\nperson 2\nobject 1\n";
    assert_same(&rt, hall.as_slice(), expected.as_bytes());
    Ok(())
}

/// Why a certificate's prices can't start a solve of the problem that a text reads as with so many objects, or with as
/// many as persons where that is 0.
fn start_error(
    rt: &HostRuntime,
    problem: &str,
    objects: u16,
    cert: &str,
) -> Result<Option<StartError>, Fail>
    requires { objects ≤ 20000 }
{
    let limits = ReadLimits {
        objects: objects as u32,
        ..ReadLimits::usual()
    };
    let problem = read_arcs(rt.alloc(), problem.as_bytes(), limits)?;
    Ok(start_prices(rt.alloc(), &problem, &cert_of(rt, cert)?).err())
}

/// Why a certificate's prices can't start a solve, and in which order.
#[test]
fn no_start(rt: HostRuntime) -> Result<(), Fail> {
    let hall = "auction 1\ninfeasible 2 1\nperson 1\nperson 2\nobject 1\n";
    let wide = "auction 2\noptimal 1 2 3\nassign 1 2 3\nprice 1 0\nprice 2 5\n";
    let too_high = format!(in rt.alloc(); "{OF_ONE}1152921504606846977\n")?;
    let too_high = too_high.as_str();
    let one = format!(in rt.alloc(); "{OF_ONE}1\n")?;
    let error = start_error(&rt, ONE, 0, too_high)?;
    assert_same(&rt, error, Some(StartError::TooHigh { object: 0 }));
    let other = Some(StartError::OtherSize);
    assert_same(&rt, start_error(&rt, TWO, 0, too_high)?, other);
    assert_same(&rt, start_error(&rt, TWO, 0, one.as_str())?, other);
    assert_same(
        &rt,
        start_error(&rt, TWO, 0, hall)?,
        Some(StartError::NoPrices),
    );
    let not_square = Some(StartError::NotSquare);
    assert_same(
        &rt,
        start_error(&rt, "1\n1 1 5\n1 2 3", 2, wide)?,
        not_square,
    );
    assert_same(&rt, start_error(&rt, TWO, 3, hall)?, not_square);
    assert_same(&rt, start_error(&rt, TWO, 3, OF_TWO_BY_ONE)?, not_square);
    Ok(())
}
