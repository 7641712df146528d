//! More objects than persons, by calls: problems that are read, and their certificates.

ghost use Rattle.std.specs.Prelude.{◌≡◌, ◌≤◌};

use crate::certificates::is_text_of;
use crate::said::TWO;
use crate::same::assert_same;
use auc_cert::{CertTextError, read_cert};
use auc_claim::{Cert, CertParts, CertRefused, Pick, Picks, Prices, Reason, check};
use auc_graph::{ArcList, Indices, MOST_PERSONS, ReadError, ReadLimits, TEXT_PERSONS, read_arcs};
use std::test::*;

/// One person, who has arcs to two objects.
const ONE: &str = "1\n1 1 5\n1 2 3\n";

/// The certificate of the best.
const ONE_BEST: &str = "auction 2\noptimal 1 2 3\nassign 1 2 3\nprice 1 0\nprice 2 5\n";

/// Two persons with arcs to one object together, the last but few.
const FAR: &str = "2\n1 15000 5\n2 15000 7\n";

/// The certificate that names them.
const FAR_CERT: &str = "auction 2\ninfeasible 2 1\nperson 1\nperson 2\nobject 15000\n";

/// What a text reads as with so many objects.
fn read(rt: &HostRuntime, text: &str, objects: u16) -> Result<ArcList, ReadError>
    requires { objects ≤ 20000 }
{
    let limits = ReadLimits {
        persons: TEXT_PERSONS,
        arcs: 100,
        reads: 0,
        objects: objects as u32,
    };
    read_arcs(rt.alloc(), text.as_bytes(), limits)
}

/// The limit of persons is the caller's.
#[test]
fn wide(rt: HostRuntime) -> Result<(), Fail> {
    let limits = ReadLimits {
        persons: MOST_PERSONS,
        ..ReadLimits::usual()
    };
    let problem = read_arcs(rt.alloc(), b"4194304\n4194304 4194304 5\n", limits)?;
    assert_same(
        &rt,
        (problem.persons(), problem.objects()),
        (4_194_304, 4_194_304),
    );
    let more = read_arcs(rt.alloc(), b"4194305\n", limits);
    assert_same(&rt, more.err(), Some(ReadError::CountRange));
    Ok(())
}

#[test]
fn problems(rt: HostRuntime) -> Result<(), Fail> {
    let problem = read(&rt, ONE, 2)?;
    assert_same(&rt, (problem.persons(), problem.objects()), (1, 2));
    assert_same(
        &rt,
        read(&rt, ONE, 0).err(),
        Some(ReadError::ObjectRange { arc: 1 }),
    );
    assert_same(&rt, read(&rt, TWO, 1).err(), Some(ReadError::TooFewObjects));
    assert_same(
        &rt,
        read(&rt, "10001", 1).err(),
        Some(ReadError::CountRange),
    );
    assert_same(
        &rt,
        read(&rt, "x", 1).err(),
        Some(ReadError::BadNumber { token: 0 }),
    );
    Ok(())
}

/// What the check says of a claim about a problem with so many objects.
fn checked(
    rt: &HostRuntime,
    text: &str,
    objects: u16,
    cert: &str,
) -> Result<Option<CertRefused>, Fail>
    requires { objects ≤ 20000 }
{
    let problem = read(rt, text, objects)?;
    let cert = read_cert(rt.alloc(), cert.as_bytes())?;
    Ok(check(rt.alloc(), &problem, &cert).err())
}

#[test]
fn claims(rt: HostRuntime) -> Result<(), Fail> {
    let priced = "auction 2\noptimal 1 2 3\nassign 1 2 3\nprice 1 2\nprice 2 5\n";
    let dear = "auction 2\noptimal 1 2 3\nassign 1 2 3\nprice 1 0\nprice 2 6\n";
    let other = "auction 1\noptimal 1 -7\nassign 1 1 -7\nprice 1 1\n";
    assert_same(&rt, checked(&rt, ONE, 2, ONE_BEST)?, None);
    assert_same(
        &rt,
        checked(&rt, ONE, 2, priced)?,
        Some(CertRefused::LeftOver { object: 0 }),
    );
    assert_same(
        &rt,
        checked(&rt, ONE, 2, dear)?,
        Some(CertRefused::Slack { person: 0 }),
    );
    assert_same(
        &rt,
        checked(&rt, ONE, 2, other)?,
        Some(CertRefused::WrongSize),
    );
    assert_same(&rt, checked(&rt, FAR, 20_000, FAR_CERT)?, None);
    Ok(())
}

/// An object that is left over may come after as many objects as there are persons, and two may have a price.
#[test]
fn left_over(rt: HostRuntime) -> Result<(), Fail> {
    let last = "auction 2\noptimal 1 3 3\nassign 1 2 3\nprice 1 0\nprice 2 5\nprice 3 1\n";
    let both = "auction 2\noptimal 1 3 3\nassign 1 2 3\nprice 1 1\nprice 2 5\nprice 3 1\n";
    assert_same(
        &rt,
        checked(&rt, ONE, 3, last)?,
        Some(CertRefused::LeftOver { object: 2 }),
    );
    assert_same(
        &rt,
        checked(&rt, ONE, 3, both)?,
        Some(CertRefused::LeftOver { object: 0 }),
    );
    Ok(())
}

/// The line at which no certificate goes on so.
fn bad_line(rt: &HostRuntime, text: &str) -> Option<CertTextError> {
    read_cert(rt.alloc(), text.as_bytes()).err()
}

/// What version 1 spells is no text of version 2.
#[test]
fn lines(rt: HostRuntime) {
    let line = |line: u64| Some(CertTextError::Line { line });
    assert_same(&rt, bad_line(&rt, "auction 3\n"), line(0));
    assert_same(&rt, bad_line(&rt, "auction 2\noptimal 2 2 3\n"), line(1));
    assert_same(
        &rt,
        bad_line(&rt, "auction 2\noptimal 2 20001 3\n"),
        line(1),
    );
    assert_same(
        &rt,
        bad_line(&rt, "auction 2\ninfeasible 1 0\nperson 1\n"),
        line(1),
    );
    assert_same(
        &rt,
        bad_line(&rt, "auction 2\ninfeasible 1 1\nperson 1\nobject 10000\n"),
        line(3),
    );
    assert_same(
        &rt,
        bad_line(&rt, "auction 2\ninfeasible 1 2\nperson 1\nobject 20000\n"),
        line(3),
    );
    assert_same(
        &rt,
        bad_line(&rt, "auction 1\ninfeasible 1 1\nperson 1\nobject 10001\n"),
        line(3),
    );
}

#[test]
fn texts(rt: HostRuntime) -> Result<(), Fail> {
    let alloc = rt.alloc();
    let choice = vec![in alloc; Pick { object: 1, cost: 3 }]?;
    let optimal = CertParts::Optimal {
        cost: 3,
        choice: Picks::new(choice),
        prices: Prices::new(vec![in alloc; 0, 5]?),
    };
    assert!(rt; is_text_of(&rt, optimal, ONE_BEST));
    let infeasible = CertParts::Infeasible {
        persons: Indices::new(vec![in alloc; 0, 1]?),
        objects: Indices::new(vec![in alloc; 14_999]?),
    };
    assert!(rt; is_text_of(&rt, infeasible, FAR_CERT));
    Ok(())
}

#[test]
fn texts_of_brackets(rt: HostRuntime) -> Result<(), Fail> {
    let alloc = rt.alloc();
    let choice = vec![in alloc; Pick { object: 0, cost: 1 }, Pick { object: 1, cost: 3 }]?;
    let bracket = CertParts::Bracket {
        reason: Reason::Bids,
        lower: 3,
        cost: 4,
        choice: Picks::new(choice),
        prices: Prices::new(vec![in alloc; 4, 0, 0]?),
    };
    let text =
        "auction 2\nbracket bids 2 3 3 4\nassign 1 1 1\nassign 2 2 3\nprice 1 4\nprice 2 0\nprice 3 0\n";
    assert!(rt; is_text_of(&rt, bracket, text));
    assert_same(&rt, checked(&rt, TWO, 3, text)?, None);
    Ok(())
}

/// With as many prices as picks no text names an object above 10,000; a claim may.
#[test]
fn no_text(rt: HostRuntime) -> Result<(), Fail> {
    let alloc = rt.alloc();
    let choice = vec![in alloc;
        Pick {
            object: 10_000,
            cost: 3
        },
    ]?;
    let parts = CertParts::Optimal {
        cost: 3,
        choice: Picks::new(choice),
        prices: Prices::new(vec![in alloc; 0]?),
    };
    let Err(parts) = Cert::make(parts) else {
        return Err(Fail::new("a text names the object"));
    };
    assert!(rt; Cert::make_wide(parts).is_ok());
    Ok(())
}
