//! Certificates by the calls of their crate: made, written, read and checked.

use crate::fakes::{Full, Picky};
use crate::said::{ONE_OBJECT, ONE_OBJECT_CERT, TWO, TWO_BEST, TWO_BRACKET};
use crate::same::assert_same;
use auc_cert::{CertTextError, WriteFault, read_cert, write_cert};
use auc_claim::{
    Cert, CertParts, CertRefused, Pick, Picks, Prices, Reason, assignments_pass, brackets_pass,
    check, hall_sets_pass,
};
use auc_graph::{Indices, ReadLimits, read_arcs};
use std::test::*;

/// Whether the certificate of these parts has this text.
pub fn is_text_of(rt: &HostRuntime, parts: CertParts, text: &str) -> bool {
    let mut out = Vec::new(rt.alloc());
    match Cert::make(parts) {
        Ok(cert) => write_cert(&mut out, &cert).is_ok() && out.as_slice() == text.as_bytes(),
        Err(_) => false,
    }
}

#[test]
fn texts(rt: HostRuntime) -> Result<(), Fail> {
    let alloc = rt.alloc();
    let choice = vec![in alloc; Pick { object: 1, cost: 2 }, Pick { object: 0, cost: 1 }]?;
    let optimal = CertParts::Optimal {
        cost: 3,
        choice: Picks::new(choice),
        prices: Prices::new(vec![in alloc; 7, 5]?),
    };
    assert!(rt; is_text_of(&rt, optimal, TWO_BEST));
    Ok(())
}

#[test]
fn texts_of_hall_sets(rt: HostRuntime) -> Result<(), Fail> {
    let alloc = rt.alloc();
    let infeasible = CertParts::Infeasible {
        persons: Indices::new(vec![in alloc; 0, 1]?),
        objects: Indices::new(vec![in alloc; 0]?),
    };
    assert!(rt; is_text_of(&rt, infeasible, ONE_OBJECT_CERT));
    Ok(())
}

#[test]
fn texts_of_brackets(rt: HostRuntime) -> Result<(), Fail> {
    let alloc = rt.alloc();
    let choice = vec![in alloc; Pick { object: 0, cost: 1 }, Pick { object: 1, cost: 3 }]?;
    let bracket = CertParts::Bracket {
        reason: Reason::Bids,
        lower: 3,
        cost: 4,
        choice: Picks::new(choice),
        prices: Prices::new(vec![in alloc; 4, 0]?),
    };
    assert!(rt; is_text_of(&rt, bracket, TWO_BRACKET));
    Ok(())
}

#[test]
fn parts_of_a_text(rt: HostRuntime) -> Result<(), Fail> {
    let read = read_cert(rt.alloc(), TWO_BEST.as_bytes())?;
    if let CertParts::Optimal {
        cost,
        choice,
        prices,
    } = read.parts()
    {
        assert_same(&rt, (*cost, choice.as_slice().len()), (3, 2));
        assert_same(&rt, prices.as_slice(), [7, 5].as_slice());
        return Ok(());
    }
    Err(Fail::new("it is an optimal one"))
}

#[test]
fn no_certificate(rt: HostRuntime) {
    assert_same(
        &rt,
        read_cert(rt.alloc(), b"auction 1\ninfeasible 0 0\n").err(),
        Some(CertTextError::Line { line: 1 }),
    );
}

/// What the check says of the claim.
fn checked(rt: &HostRuntime, file: &str, cert: &str) -> Result<Option<CertRefused>, Fail> {
    let problem = read_arcs(rt.alloc(), file.as_bytes(), ReadLimits::usual())?;
    let cert = read_cert(rt.alloc(), cert.as_bytes())?;
    Ok(check(rt.alloc(), &problem, &cert).err())
}

#[test]
fn claims(rt: HostRuntime) -> Result<(), Fail> {
    assignments_pass();
    brackets_pass();
    hall_sets_pass();
    assert_same(&rt, checked(&rt, TWO, TWO_BEST)?, None);
    assert_same(&rt, checked(&rt, ONE_OBJECT, ONE_OBJECT_CERT)?, None);
    assert_same(
        &rt,
        checked(&rt, TWO, ONE_OBJECT_CERT)?,
        Some(CertRefused::NotHall),
    );
    Ok(())
}

/// Parts that no text spells come back.
#[test]
fn parts_without_a_text(rt: HostRuntime) -> Result<(), Fail> {
    let alloc = rt.alloc();
    let parts = CertParts::Optimal {
        cost: 0,
        choice: Picks::new(Vec::new(alloc)),
        prices: Prices::new(vec![in alloc; 4]?),
    };
    if let Err(CertParts::Optimal { choice, prices, .. }) = Cert::make(parts) {
        assert_same(&rt, choice.into_vec().len(), 0);
        assert_same(&rt, prices.into_vec().as_slice(), [4].as_slice());
        return Ok(());
    }
    Err(Fail::new("nobody is in it"))
}

/// What keeps a certificate from being written, where the writer has so much room, and then takes nothing or fails.
fn fault_of(rt: &HostRuntime, room: usize, fails: bool) -> Result<Option<WriteFault>, Fail> {
    let cert = read_cert(rt.alloc(), TWO_BEST.as_bytes())?;
    Ok(write_cert(&mut Full { room, fails }, &cert).err())
}

/// A writer that takes nothing stops a certificate, and one that fails makes the writing fail: before the text, between
/// two lines and inside a line.
#[test]
fn unwritten_certificates(rt: HostRuntime) -> Result<(), Fail> {
    for room in [0, 10, 14] {
        assert_same(&rt, fault_of(&rt, room, false)?, Some(WriteFault::Stopped));
        assert_same(&rt, fault_of(&rt, room, true)?, Some(WriteFault::Failed));
    }
    Ok(())
}

/// What keeps the certificate of one person, 47 bytes, from being written byte by byte, where a write fails or takes
/// nothing after so many; and how many bytes were written.
fn cut_at(rt: &HostRuntime, good: usize, fails: bool) -> Result<(Option<WriteFault>, usize), Fail> {
    let text = b"auction 1\noptimal 1 -7\nassign 1 1 -7\nprice 1 1\n";
    let cert = read_cert(rt.alloc(), text.as_slice())?;
    let mut writer = Picky {
        rest: text.as_slice(),
        good,
        fails,
    };
    let fault = write_cert(&mut writer, &cert).err();
    Ok((fault, text.len().saturating_sub(writer.rest.len())))
}

#[test]
fn certificates_byte_by_byte(rt: HostRuntime) -> Result<(), Fail> {
    assert_same(&rt, cut_at(&rt, 10, true)?, (Some(WriteFault::Failed), 10));
    assert_same(&rt, cut_at(&rt, 0, false)?, (Some(WriteFault::Stopped), 0));
    assert_same(&rt, cut_at(&rt, 47, true)?, (None, 47));
    Ok(())
}
