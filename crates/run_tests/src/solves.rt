//! Readers and writers of a solve, and its bids, which no words of the program set.

ghost use Rattle.std.specs.Prelude.{◌≤◌};

use crate::fakes::{Broken, Flaky, Picky, Slow};
use crate::said::{ONE_OBJECT, TWO, TWO_BEST, TWO_BRACKET, is_unwritten, says};
use crate::same::assert_same;
use auc_run::{Job, MOST_BIDS, run_plain};
use std::io::ErrorKind;
use std::test::*;

/// A solve with the usual numbers.
const USUAL: Job = Job::Solve {
    workers: 0,
    bids: 100_000_000,
    audit: 0,
    objects: 0,
    from: false,
    direct: false,
    large: false,
};

/// The same from an old certificate.
const FROM: Job = Job::Solve {
    workers: 0,
    bids: 100_000_000,
    audit: 0,
    objects: 0,
    from: true,
    direct: false,
    large: false,
};

/// Whether a solve of two persons by so many bids writes this text, and answers this status.
fn two_say(rt: &HostRuntime, bids: u64, text: &str, status: u8) -> bool
    requires least { 1 ≤ bids }
    requires most { bids ≤ MOST_BIDS }
{
    let job = Job::Solve {
        workers: 0,
        bids,
        audit: 0,
        objects: 0,
        from: false,
        direct: false,
        large: false,
    };
    let mut first = TWO.as_bytes();
    let mut second = b"".as_slice();
    says(rt, &job, &mut first, &mut second, text, status)
}

/// The bids of the job are the solver's. Two persons take three; fewer leave a bracket.
#[test]
fn bids_of_the_job(rt: HostRuntime) {
    assert!(rt; two_say(&rt, 1, TWO_BRACKET, 4));
    assert!(rt; two_say(&rt, 3, TWO_BEST, 0));
    assert!(rt; two_say(&rt, MOST_BIDS, TWO_BEST, 0));
}

/// A solve may get its problem byte by byte, and has one input.
#[test]
fn slow_reader(rt: HostRuntime) {
    let mut first = Slow {
        rest: TWO.as_bytes(),
    };
    let mut second = b"left alone".as_slice();
    assert!(rt; says(&rt, &USUAL, &mut first, &mut second, TWO_BEST, 0));
    assert_same(&rt, second.len(), 10);
}

#[test]
fn broken_reader(rt: HostRuntime) {
    let mut first = Broken {
        rest: TWO.as_bytes(),
        kind: ErrorKind::Interrupted,
    };
    let mut second = b"".as_slice();
    assert!(rt; says(&rt, &USUAL, &mut first, &mut second, "refused read\n", 5));
}

/// Whether a solve that gets its problem byte by byte writes this text, and answers this status.
fn slowly_says(rt: &HostRuntime, file: &[u8], text: &str, status: u8) -> bool {
    let mut first = Slow { rest: file };
    let mut second = b"".as_slice();
    says(rt, &USUAL, &mut first, &mut second, text, status)
}

/// What a piece may end in: separators, signs, points, and the end inside an arc.
#[test]
fn byte_by_byte(rt: HostRuntime) {
    let one = "auction 1\noptimal 1 -7\nassign 1 1 -7\nprice 1 1\n";
    assert!(rt; slowly_says(&rt, b"1\n1 1 -7", one, 0));
    let lenient = b"+2\t1 1 003.0\r\n1 2 4 2\t1 4.\n2 2 -0\x1a";
    let two = "auction 1\noptimal 2 3\nassign 1 1 3\nassign 2 2 0\nprice 1 4\nprice 2 17\n";
    assert!(rt; slowly_says(&rt, lenient, two, 0));
}

#[test]
fn refused_byte_by_byte(rt: HostRuntime) {
    assert!(rt; slowly_says(&rt, b"", "refused empty\n", 5));
    assert!(rt; slowly_says(&rt, b"0", "refused count\n", 5));
    assert!(rt; slowly_says(&rt, b"3 1 1", "refused cut 3\n", 5));
    assert!(rt; slowly_says(&rt, b"2 1 3 4", "refused object 1\n", 5));
    assert!(rt; slowly_says(&rt, b"2 1 3", "refused object 1\n", 5));
    assert!(rt; slowly_says(&rt, b"3.5", "refused number 1\n", 5));
}

/// Each read fails in turn, that for the end too.
#[test]
fn failed_reads(rt: HostRuntime) {
    for good in 0..=TWO.len() as u32 {
        let mut first = Flaky {
            rest: TWO.as_bytes(),
            most: 1,
            good,
        };
        let mut second = b"".as_slice();
        assert!(rt; says(&rt, &USUAL, &mut first, &mut second, "refused read\n", 5));
    }
}

/// Each write fails or takes nothing in turn: just what was taken before is there, and no write is tried again.
#[test]
fn failed_writes(rt: HostRuntime) {
    for good in 0..TWO_BEST.len() {
        for fails in [false, true] {
            let mut writer = Picky {
                rest: TWO_BEST.as_bytes(),
                good,
                fails,
            };
            let mut first = TWO.as_bytes();
            let mut second = b"".as_slice();
            let status = run_plain(rt.alloc(), &USUAL, &mut first, &mut second, &mut writer);
            assert_same(&rt, status, 8);
            assert_same(&rt, writer.rest.len(), TWO_BEST.len() - good);
        }
    }
}

/// What a solve of two persons from their best certificate writes.
const TWO_AGAIN: &str =
    "auction 1\noptimal 2 3\nassign 1 2 2\nassign 2 1 1\nprice 1 12\nprice 2 10\n";

/// Each read of the certificate fails in turn, that for the end too; where none does, it may come byte by byte.
#[test]
fn reads_of_a_start(rt: HostRuntime) {
    for good in 0..=TWO_BEST.len() as u32 {
        let mut first = TWO.as_bytes();
        let mut second = Flaky {
            rest: TWO_BEST.as_bytes(),
            most: 1,
            good,
        };
        assert!(rt; says(&rt, &FROM, &mut first, &mut second, "refused read\n", 5));
    }
    let mut first = TWO.as_bytes();
    let mut second = Slow {
        rest: TWO_BEST.as_bytes(),
    };
    assert!(rt; says(&rt, &FROM, &mut first, &mut second, TWO_AGAIN, 0));
}

/// Where the problem is refused, the certificate is left alone, also one that would fail.
#[test]
fn unread_start(rt: HostRuntime) {
    let mut first = b"2 x".as_slice();
    let mut second = Broken {
        rest: TWO_BEST.as_bytes(),
        kind: ErrorKind::BrokenPipe,
    };
    assert!(rt; says(&rt, &FROM, &mut first, &mut second, "refused number 2\n", 5));
    assert_same(&rt, second.rest.len(), TWO_BEST.len());
}

#[test]
fn full_writers(rt: HostRuntime) {
    assert!(rt; is_unwritten(&rt, &USUAL, TWO, ""));
    assert!(rt; is_unwritten(&rt, &USUAL, ONE_OBJECT, ""));
    assert!(rt; is_unwritten(&rt, &USUAL, "0", ""));
}
