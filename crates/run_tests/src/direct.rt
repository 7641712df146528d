//! Direct solves: readers that fail, and each kind of answer by a call.

use crate::fakes::{Broken, Flaky, Slow};
use crate::said::{ONE_OBJECT, ONE_OBJECT_CERT, TWO, is_unwritten, says};
use crate::same::assert_same;
use auc_run::Job;
use std::io::ErrorKind;
use std::test::*;

/// A direct solve with the usual numbers.
const USUAL: Job = Job::Solve {
    workers: 0,
    bids: 100_000_000,
    audit: 0,
    objects: 0,
    from: false,
    direct: true,
    large: false,
};

/// The same with one bid a phase.
const ONE_BID: Job = Job::Solve {
    workers: 0,
    bids: 1,
    audit: 0,
    objects: 0,
    from: false,
    direct: true,
    large: false,
};

/// The same from an old certificate, with three objects.
const FROM: Job = Job::Solve {
    workers: 0,
    bids: 100_000_000,
    audit: 0,
    objects: 3,
    from: true,
    direct: true,
    large: false,
};

/// Prices of 0 for three objects.
const NO_PRICES: &str = "auction 2\noptimal 1 3 7\nassign 1 2 7\nprice 1 0\nprice 2 0\nprice 3 0\n";

/// The certificate of two persons, who both have arcs to both objects.
const BEST: &str = "auction 1\noptimal 2 3\nassign 1 2 2\nassign 2 1 1\nprice 1 6\nprice 2 3\n";

/// Two persons, of whom the second has no arc to the second object: so it is no full table, and goes by bids.
const PART: &str = "2\n1 1 1\n1 2 2\n2 1 1\n";

/// What one bid leaves of it.
const PART_BRACKET: &str =
    "auction 1\nbracket bids 2 3 3\nassign 1 2 2\nassign 2 1 1\nprice 1 4\nprice 2 0\n";

/// The certificate of two persons with a third object.
const TWO_OF_THREE: &str =
    "auction 2\noptimal 2 3 3\nassign 1 2 2\nassign 2 1 1\nprice 1 7\nprice 2 0\nprice 3 0\n";

#[test]
fn answers(rt: HostRuntime) {
    let mut second = b"left alone".as_slice();
    let mut first = Slow {
        rest: TWO.as_bytes(),
    };
    assert!(rt; says(&rt, &USUAL, &mut first, &mut second, BEST, 0));
    let mut first = PART.as_bytes();
    assert!(rt; says(&rt, &ONE_BID, &mut first, &mut second, PART_BRACKET, 4));
    let mut first = ONE_OBJECT.as_bytes();
    assert!(rt; says(&rt, &USUAL, &mut first, &mut second, ONE_OBJECT_CERT, 3));
    assert_same(&rt, second.len(), 10);
}

#[test]
fn broken_reader(rt: HostRuntime) {
    let mut first = Broken {
        rest: TWO.as_bytes(),
        kind: ErrorKind::Interrupted,
    };
    let mut second = b"".as_slice();
    assert!(rt; says(&rt, &USUAL, &mut first, &mut second, "refused read\n", 5));
}

/// Each read of the certificate fails in turn, that for the end too; where none does, it may come byte by byte.
#[test]
fn reads_of_a_start(rt: HostRuntime) {
    for good in 0..=NO_PRICES.len() as u32 {
        let mut first = TWO.as_bytes();
        let mut second = Flaky {
            rest: NO_PRICES.as_bytes(),
            most: 1,
            good,
        };
        assert!(rt; says(&rt, &FROM, &mut first, &mut second, "refused read\n", 5));
    }
    let mut first = TWO.as_bytes();
    let mut second = Slow {
        rest: NO_PRICES.as_bytes(),
    };
    assert!(rt; says(&rt, &FROM, &mut first, &mut second, TWO_OF_THREE, 0));
}

/// Where the problem is refused, the certificate is left alone, also one that would fail.
#[test]
fn unread_start(rt: HostRuntime) {
    let mut first = b"2 x".as_slice();
    let mut second = Broken {
        rest: NO_PRICES.as_bytes(),
        kind: ErrorKind::BrokenPipe,
    };
    assert!(rt; says(&rt, &FROM, &mut first, &mut second, "refused number 2\n", 5));
    assert_same(&rt, second.rest.len(), NO_PRICES.len());
}

#[test]
fn full_writers(rt: HostRuntime) {
    assert!(rt; is_unwritten(&rt, &USUAL, TWO, ""));
}
