//! The answers of the serial solver, up to the bytes of its certificate.

use crate::problems::{NO_OBJECT, ONE, ONE_OBJECT, THREE, TWO, in_range, problem_of};
use crate::same::assert_same;
use auc_cert::write_cert;
use auc_claim::check;
use auc_graph::ArcList;
use auc_world::{Answer, Limits, solve_serial};
use std::test::*;

/// A problem, and its certificate up to the prices and from there on.
#[derive(Clone, Copy)]
struct Example {
    problem: &'static str,
    claim: &'static str,
    prices: &'static str,
}

/// Problems whose certificate doesn't depend on the number of shards: of each there is one only, or one run only.
const ALIKE: [Example; 5] = [
    Example {
        problem: ONE,
        claim: "auction 1\noptimal 1 -7\nassign 1 1 -7\n",
        prices: "price 1 1\n",
    },
    Example {
        problem: TWO,
        claim: "auction 1\noptimal 2 3\nassign 1 2 2\nassign 2 1 1\n",
        prices: "price 1 7\nprice 2 5\n",
    },
    // The cheaper of two arcs between the same two.
    Example {
        problem: "1 1 1 4 1 1 2",
        claim: "auction 1\noptimal 1 2\nassign 1 1 2\n",
        prices: "price 1 5\n",
    },
    Example {
        problem: ONE_OBJECT,
        claim: "auction 1\ninfeasible 2 1\nperson 1\nperson 2\nobject 1\n",
        prices: "",
    },
    Example {
        problem: NO_OBJECT,
        claim: "auction 1\ninfeasible 1 0\nperson 2\n",
        prices: "",
    },
];

/// Problems with one least assignment, whose prices may be others with more shards.
const PRICED: [Example; 2] = [
    // Two phases, at eps 2 and 1. These prices come only where the second one begins with the prices 4, 10 and 10 of
    // the first.
    Example {
        problem: THREE,
        claim: "auction 1\noptimal 3 5\nassign 1 2 1\nassign 2 1 2\nassign 3 3 2\n",
        prices: "price 1 10\nprice 2 17\nprice 3 15\n",
    },
    // All forms of numbers and of white space.
    Example {
        problem: "+2\t1 1 003.0\r\n1 2 4 2\t1 4.\n2 2 -0\u{1a}",
        claim: "auction 1\noptimal 2 3\nassign 1 1 3\nassign 2 2 0\n",
        prices: "price 1 4\nprice 2 17\n",
    },
];

/// The text of the answer, in which the checker has found no fault.
pub fn answered(rt: &HostRuntime, text: &str, limits: Limits) -> Result<Vec<u8>, Fail> {
    answered_of(rt, &problem_of(rt, text)?, limits)
}

/// The text of the answer about this problem, in which the checker has found no fault.
pub fn answered_of(rt: &HostRuntime, problem: &ArcList, limits: Limits) -> Result<Vec<u8>, Fail> {
    let answer = solve_serial(rt.alloc(), problem, &in_range(limits)?)?;
    text_of(rt, problem, answer)
}

/// The text of an answer about this problem, in which the checker has found no fault.
pub fn text_of(rt: &HostRuntime, problem: &ArcList, answer: Answer) -> Result<Vec<u8>, Fail> {
    let cert = match answer {
        Answer::Optimal(cert) => cert,
        Answer::Infeasible(cert) => cert,
        Answer::Bracket(cert) => cert,
        Answer::Broken(guard) => return Err(Fail::new(format_args!("{guard:?}"))),
    };
    check(rt.alloc(), problem, &cert)?;
    let mut out = Vec::new(rt.alloc());
    write_cert(&mut out, &cert)?;
    Ok(out)
}

#[test]
fn one_shard_of_each_kind(rt: HostRuntime) -> Result<(), Fail> {
    for example in PRICED {
        let Example {
            problem,
            claim,
            prices,
        } = example;
        let out = answered(&rt, problem, Limits::usual(1))?;
        let expected = format!(in rt.alloc(); "{claim}{prices}")?;
        assert_same(
            &rt,
            (problem, out.as_slice()),
            (problem, expected.as_bytes()),
        );
    }
    Ok(())
}

#[test]
fn same_certificate_with_any_shards(rt: HostRuntime) -> Result<(), Fail> {
    for example in ALIKE {
        let Example {
            problem,
            claim,
            prices,
        } = example;
        let expected = format!(in rt.alloc(); "{claim}{prices}")?;
        for shards in [1, 2, 3, 16] {
            let out = answered(&rt, problem, Limits::usual(shards))?;
            assert_same(
                &rt,
                (shards, problem, out.as_slice()),
                (shards, problem, expected.as_bytes()),
            );
        }
    }
    Ok(())
}
