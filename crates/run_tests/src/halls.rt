//! Readers and writers of a hall.

use crate::fakes::{Broken, Slow};
use crate::said::{ONE_OBJECT, ONE_OBJECT_CERT, TWO, is_unwritten, says};
use crate::same::assert_same;
use auc_run::Job;
use std::io::ErrorKind;
use std::test::*;

/// A search with as many objects as persons.
const HALL: Job = Job::Hall {
    objects: 0,
    large: false,
};

/// A hall may get its problem byte by byte, and has one input.
#[test]
fn slow_reader(rt: HostRuntime) {
    let mut first = Slow {
        rest: ONE_OBJECT.as_bytes(),
    };
    let mut second = b"left alone".as_slice();
    assert!(rt; says(&rt, &HALL, &mut first, &mut second, ONE_OBJECT_CERT, 3));
    assert_same(&rt, second.len(), 10);
}

#[test]
fn broken_reader(rt: HostRuntime) {
    let mut first = Broken {
        rest: ONE_OBJECT.as_bytes(),
        kind: ErrorKind::Interrupted,
    };
    let mut second = b"".as_slice();
    assert!(rt; says(&rt, &HALL, &mut first, &mut second, "refused read\n", 5));
}

#[test]
fn full_writers(rt: HostRuntime) {
    assert!(rt; is_unwritten(&rt, &HALL, TWO, ""));
    assert!(rt; is_unwritten(&rt, &HALL, ONE_OBJECT, ""));
    assert!(rt; is_unwritten(&rt, &HALL, "0", ""));
}
