//! Readers and writers of a check.

use crate::fakes::{Broken, Flaky, Slow};
use crate::said::{TWO, TWO_BEST, is_unwritten, says};
use crate::same::assert_same;
use auc_run::Job;
use std::io::ErrorKind;
use std::test::*;

/// A check with as many objects as persons.
const CHECK: Job = Job::Check {
    objects: 0,
    large: false,
};

/// A check may get its inputs byte by byte.
#[test]
fn slow_readers(rt: HostRuntime) {
    let mut first = Slow {
        rest: TWO.as_bytes(),
    };
    let mut second = Slow {
        rest: TWO_BEST.as_bytes(),
    };
    assert!(rt; says(&rt, &CHECK, &mut first, &mut second, "valid optimal 3\n", 0));
}

/// The first reader fails after the whole problem, and the second one is left alone.
#[test]
fn broken_first_reader(rt: HostRuntime) {
    let mut first = Broken {
        rest: TWO.as_bytes(),
        kind: ErrorKind::Interrupted,
    };
    let mut second = TWO_BEST.as_bytes();
    assert!(rt; says(&rt, &CHECK, &mut first, &mut second, "refused read\n", 5));
    assert_same(&rt, second.len(), TWO_BEST.len());
}

#[test]
fn broken_second_reader(rt: HostRuntime) {
    let mut first = TWO.as_bytes();
    let mut second = Broken {
        rest: TWO_BEST.as_bytes(),
        kind: ErrorKind::BrokenPipe,
    };
    assert!(rt; says(&rt, &CHECK, &mut first, &mut second, "refused read\n", 5));
}

/// Each read of the second reader fails in turn, that for the end too.
#[test]
fn failed_second_reads(rt: HostRuntime) {
    for good in 0..=TWO_BEST.len() as u32 {
        let mut first = TWO.as_bytes();
        let mut second = Flaky {
            rest: TWO_BEST.as_bytes(),
            most: 1,
            good,
        };
        assert!(rt; says(&rt, &CHECK, &mut first, &mut second, "refused read\n", 5));
    }
}

/// Where the problem is refused, the second reader is left alone, also one that would fail.
#[test]
fn unread_second_reader(rt: HostRuntime) {
    let mut first = b"2 x".as_slice();
    let mut second = Broken {
        rest: TWO_BEST.as_bytes(),
        kind: ErrorKind::BrokenPipe,
    };
    assert!(rt;
        says(
            &rt,
            &CHECK,
            &mut first,
            &mut second,
            "refused number 2\n",
            5
        )
    );
    assert_same(&rt, second.rest.len(), TWO_BEST.len());
}

#[test]
fn full_writers(rt: HostRuntime) {
    assert!(rt; is_unwritten(&rt, &CHECK, TWO, TWO_BEST));
}
