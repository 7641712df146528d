//! Readers and writers of a mail, and the parts of a script.

use crate::fakes::{Broken, Slow};
use crate::said::{is_unwritten, says};
use crate::same::assert_same;
use auc_mail::Call;
use auc_run::{Calls, Job, ScriptError, read_script};
use std::io::ErrorKind;
use std::test::*;

/// A box with room for two letters.
const TWO_LETTERS: &str = "mail 1 1 2 9\npost 1 1 11 0\npost 1 1 12 0\npost 1 1 13 0\ntake 1\n";

const TWO_LETTERS_REPLIES: &str = "ok 1\nok 2\nfull\nletter 1 1 11\n";

/// A script is read, and made again of its calls.
#[test]
fn parts_of_a_script(rt: HostRuntime) -> Result<(), Fail> {
    let alloc = rt.alloc();
    let script = read_script(alloc, b"mail 3 2 5 7 post 2 3 -9. 4 take 1 close 3")?;
    assert_same(&rt, script.boxes, 3);
    assert_same(&rt, script.senders, 2);
    assert_same(&rt, script.nodes, 5);
    assert_same(&rt, script.most, 7);
    let post = Call::Post {
        sender: 1,
        to: 2,
        item: -9,
        reserve: 4,
    };
    let calls = vec![in alloc; post, Call::Take { at: 0 }, Call::Close { at: 2 }]?;
    assert_same(&rt, script.calls.as_slice(), Calls::new(calls).as_slice());
    Ok(())
}

#[test]
fn no_script(rt: HostRuntime) {
    assert_same(
        &rt,
        read_script(rt.alloc(), b"mail 1 1 1 1 post x").err(),
        Some(ScriptError::Word { token: 6 }),
    );
}

/// A script may come byte by byte; the second reader is left alone, also one that would fail.
#[test]
fn slow_reader(rt: HostRuntime) {
    let mut first = Slow {
        rest: TWO_LETTERS.as_bytes(),
    };
    let mut second = Broken {
        rest: b"left alone",
        kind: ErrorKind::BrokenPipe,
    };
    assert!(rt;
        says(
            &rt,
            &Job::Mail,
            &mut first,
            &mut second,
            TWO_LETTERS_REPLIES,
            0
        )
    );
    assert_same(&rt, second.rest.len(), 10);
}

/// A script whose reader fails after it is no script.
#[test]
fn broken_reader(rt: HostRuntime) {
    let mut first = Broken {
        rest: TWO_LETTERS.as_bytes(),
        kind: ErrorKind::Interrupted,
    };
    let mut second = b"".as_slice();
    assert!(rt;
        says(
            &rt,
            &Job::Mail,
            &mut first,
            &mut second,
            "refused read\n",
            5
        )
    );
}

/// A reply that is not written ends the job.
#[test]
fn full_writers(rt: HostRuntime) {
    assert!(rt; is_unwritten(&rt, &Job::Mail, TWO_LETTERS, ""));
}
