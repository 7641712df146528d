//! Jobs on a problem above the usual limits of reading: refused, and done where it may be large.

ghost use Rattle.auc_run.specs.Jobs.{IsInRange, IsPlain};

use crate::said::{TWO, says};
use crate::same::assert_same;
use auc_run::{Job, run_plain};
use std::alloc::{AllocError, Global};
use std::test::*;

/// One person more than the usual limits of reading allow.
const PERSONS: u32 = 10_001;

/// A direct solve within the usual limits of reading.
const USUAL_SOLVE: Job = Job::Solve {
    workers: 0,
    bids: 100_000_000,
    audit: 0,
    objects: 0,
    from: false,
    direct: true,
    large: false,
};

/// The same of a problem that may be large.
const LARGE_SOLVE: Job = Job::Solve {
    workers: 0,
    bids: 100_000_000,
    audit: 0,
    objects: 0,
    from: false,
    direct: true,
    large: true,
};

/// A check within the usual limits of reading.
const USUAL_CHECK: Job = Job::Check {
    objects: 0,
    large: false,
};

/// The same of a problem that may be large.
const LARGE_CHECK: Job = Job::Check {
    objects: 0,
    large: true,
};

/// A search within the usual limits of reading.
const USUAL_HALL: Job = Job::Hall {
    objects: 0,
    large: false,
};

/// The same in a problem that may be large.
const LARGE_HALL: Job = Job::Hall {
    objects: 0,
    large: true,
};

/// A line for each person, after this front: the person, the object of the same number, and a cost of 1.
fn lines_of(alloc: Global, front: &str, word: &str) -> Result<String, AllocError> {
    let mut text = format!(in alloc; "{front}{PERSONS}\n")?;
    for number in 1..=PERSONS {
        text.push_str(&format!(in alloc; "{word}{number} {number} 1\n")?)?;
    }
    Ok(text)
}

/// The problem in which each person has an arc to the object of the same number alone.
fn large_problem(alloc: Global) -> Result<String, AllocError> {
    lines_of(alloc, "", "")
}

/// Whether the job on this problem is refused for the number of persons, and leaves its second input alone.
fn is_refused(rt: &HostRuntime, job: &Job, problem: &str) -> bool
    requires range { IsInRange job.now }
    requires plain { IsPlain job.now }
{
    let mut first = problem.as_bytes();
    let mut second = b"left alone".as_slice();
    says(rt, job, &mut first, &mut second, "refused count\n", 5) && second.len() == 10
}

/// Without leave for a large problem each job on one is refused.
#[test]
fn refused(rt: HostRuntime) -> Result<(), Fail> {
    let problem = large_problem(rt.alloc())?;
    assert!(rt; is_refused(&rt, &USUAL_SOLVE, problem.as_str()));
    assert!(rt; is_refused(&rt, &USUAL_CHECK, problem.as_str()));
    assert!(rt; is_refused(&rt, &USUAL_HALL, problem.as_str()));
    Ok(())
}

/// A large problem is solved directly, and the certificate passes the check.
#[test]
fn solved_and_checked(rt: HostRuntime) -> Result<(), Fail> {
    let problem = large_problem(rt.alloc())?;
    let mut cert = Vec::new(rt.alloc());
    let mut first = problem.as_bytes();
    let mut none = b"".as_slice();
    let status = run_plain(rt.alloc(), &LARGE_SOLVE, &mut first, &mut none, &mut cert);
    assert_same(&rt, status, 0);
    let mut first = problem.as_bytes();
    let mut second = cert.as_slice();
    assert!(rt;
        says(
            &rt,
            &LARGE_CHECK,
            &mut first,
            &mut second,
            "valid optimal 10001\n",
            0
        )
    );
    Ok(())
}

/// A large problem is searched for a full assignment.
#[test]
fn searched(rt: HostRuntime) -> Result<(), Fail> {
    let problem = large_problem(rt.alloc())?;
    let full = lines_of(rt.alloc(), "full ", "assign ")?;
    let mut first = problem.as_bytes();
    let mut second = b"".as_slice();
    assert!(rt; says(&rt, &LARGE_HALL, &mut first, &mut second, full.as_str(), 0));
    Ok(())
}

/// A check without leave for a large problem reads no certificate of version 3.
#[test]
fn large_certificate(rt: HostRuntime) {
    let mut first = TWO.as_bytes();
    let mut second = b"auction 3\noptimal 2 3\n".as_slice();
    assert!(rt;
        says(
            &rt,
            &USUAL_CHECK,
            &mut first,
            &mut second,
            "refused certificate 1\n",
            5
        )
    );
}
