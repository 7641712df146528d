//! Public calls on problems and inputs, once each with ample memory.

ghost use Rattle.std.specs.Prelude.{◌≡◌};

use crate::fakes::{Broken, Slow};
use crate::same::assert_same;
use auc_graph::{
    Arc, Number, ReadError, ReadLimits, TEXT_PERSONS, Token, assigned_persons_have_arcs,
    assignments_leave_no_price, bounds_fit, limits_are, number_of, prices_are_few,
    prices_bound_costs, read_arcs, slack_right_costs_least, token_at, wanted_objects_are_read,
};
use auc_run::{ReadFault, read_all};
use std::io::ErrorKind;
use std::test::*;

#[test]
fn tokens(rt: HostRuntime) {
    let token = token_at(b" 2 1 2 -7.", 0);
    assert_same(&rt, token, Some(Token { start: 1, end: 2 }));
    assert_same(&rt, number_of(b"-7."), Number::Value(-7));
}

#[test]
fn problems(rt: HostRuntime) -> Result<(), Fail> {
    limits_are();
    prices_bound_costs();
    assigned_persons_have_arcs();
    bounds_fit();
    slack_right_costs_least();
    assignments_leave_no_price();
    prices_are_few();
    wanted_objects_are_read();
    let problem = read_arcs(rt.alloc(), b" 2 1 2 -7.", ReadLimits::usual())?;
    assert_same(&rt, (problem.persons(), problem.objects()), (2, 2));
    let arc = Arc {
        cost: -7,
        person: 0,
        object: 1,
    };
    assert_same(&rt, problem.arcs(), [arc].as_slice());
    Ok(())
}

/// Limits for a problem with as many objects as persons.
pub fn limits_of(arcs: u16, reads: u16) -> ReadLimits
    ensures persons { result.persons ≡ TEXT_PERSONS }
    ensures arcs { result.arcs ≡ arcs }
    ensures reads { result.reads ≡ reads }
    ensures objects { result.objects ≡ 0 }
{
    ReadLimits {
        persons: TEXT_PERSONS,
        arcs: arcs as u32,
        reads: reads as u32,
        objects: 0,
    }
}

/// What refuses a text, where one arc is allowed.
fn refusal_of(rt: &HostRuntime, text: &[u8]) -> Option<ReadError> {
    read_arcs(rt.alloc(), text, limits_of(1, 1)).err()
}

/// What comes after the last arc that is allowed is not read.
#[test]
fn too_many_arcs(rt: HostRuntime) {
    let too_many = Some(ReadError::TooManyArcs);
    assert_same(&rt, refusal_of(&rt, b"1 1 1 4 1 1 2"), too_many);
    assert_same(&rt, refusal_of(&rt, b"1 1 1 4 x"), too_many);
}

/// The read that finds the end is one of those that are allowed.
#[test]
fn reads_to_the_end(rt: HostRuntime) -> Result<(), Fail> {
    let all = read_all(rt.alloc(), &mut Slow { rest: b"abc" }, 4)?;
    assert_same(&rt, all.as_slice(), b"abc".as_slice());
    // Reads are counted, and not the bytes that they gave.
    let at_once = read_all(rt.alloc(), &mut b"abc".as_slice(), 2)?;
    assert_same(&rt, at_once.as_slice(), b"abc".as_slice());
    Ok(())
}

#[test]
fn too_many_reads(rt: HostRuntime) {
    let read = read_all(rt.alloc(), &mut Slow { rest: b"abc" }, 3);
    assert_same(&rt, read.err(), Some(ReadFault::TooManyReads));
    let at_once = read_all(rt.alloc(), &mut b"abc".as_slice(), 1);
    assert_same(&rt, at_once.err(), Some(ReadFault::TooManyReads));
}

/// No failed read is tried again.
#[test]
fn failed_reads(rt: HostRuntime) {
    for kind in [ErrorKind::Interrupted, ErrorKind::BrokenPipe] {
        let read = read_all(rt.alloc(), &mut Broken { rest: b"abc", kind }, 9);
        assert_same(&rt, read.err(), Some(ReadFault::Failed));
    }
}
