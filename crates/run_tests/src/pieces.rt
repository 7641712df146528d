//! A text in pieces reads as the whole text.

use crate::calls::limits_of;
use crate::fakes::Flaky;
use crate::same::assert_same;
use auc_graph::{ArcList, ReadError, read_arcs, read_arcs_from};
use std::alloc::Global;
use std::test::*;

/// A number that is too long to be kept where a piece cuts it.
const ZEROS: &str = "00000000000000000000000000000000000000000000000000000000000000000";

/// What is read of a text that comes in pieces of so many bytes, by so many reads, of which one fails after so many.
fn read(
    alloc: Global,
    text: &[u8],
    most: usize,
    good: u32,
    reads: u16,
) -> Result<ArcList, ReadError> {
    let mut reader = Flaky {
        rest: text,
        most,
        good,
    };
    let limits = limits_of(100, reads);
    read_arcs_from(alloc, &mut reader, limits)
}

/// The fault of what is read byte by byte.
fn fault_of(rt: &HostRuntime, text: &str, good: u32, reads: u16) -> Option<ReadError> {
    read(rt.alloc(), text.as_bytes(), 1, good, reads).err()
}

/// The read that finds the end is one of those that are allowed.
#[test]
fn counted_reads(rt: HostRuntime) {
    assert_same(&rt, fault_of(&rt, "1 1 1 5", 100, 8), None);
    assert_same(
        &rt,
        fault_of(&rt, "1 1 1 5", 100, 7),
        Some(ReadError::TooManyReads),
    );
    assert_same(
        &rt,
        fault_of(&rt, "1 1 1 5", 100, 0),
        Some(ReadError::TooManyReads),
    );
}

/// What keeps a text of 7 bytes from being read, in pieces of so many bytes by so many reads.
fn fault_in_pieces(rt: &HostRuntime, most: usize, reads: u16) -> Option<ReadError> {
    read(rt.alloc(), b"1 1 1 5", most, 100, reads).err()
}

/// Reads are counted, and not the bytes that they gave.
#[test]
fn counted_reads_of_several_bytes(rt: HostRuntime) {
    for (most, enough, too_few) in [(2, 5, 4), (3, 4, 3), (6, 3, 2), (7, 2, 1), (100, 2, 1)] {
        assert_same(
            &rt,
            (most, fault_in_pieces(&rt, most, enough)),
            (most, None),
        );
        let fault = fault_in_pieces(&rt, most, too_few);
        assert_same(&rt, (most, fault), (most, Some(ReadError::TooManyReads)));
    }
}

/// Tokens and arcs are counted, and not the bytes before them.
#[test]
fn counted_tokens(rt: HostRuntime) {
    for (text, fault) in [
        ("12 11 x", ReadError::BadNumber { token: 2 }),
        (
            " \n12  11 12 -7. 1\t3 .5",
            ReadError::BadNumber { token: 6 },
        ),
        ("12 11 12", ReadError::Cut { tokens: 3 }),
        ("12 11 12 7 13 1 1", ReadError::PersonRange { arc: 1 }),
    ] {
        assert_same(
            &rt,
            (text, fault_of(&rt, text, 100, 100)),
            (text, Some(fault)),
        );
    }
}

/// A fault of the text waits for the end; a read that fails is not tried again, and wins over it.
#[test]
fn failed_reads(rt: HostRuntime) {
    assert_same(
        &rt,
        fault_of(&rt, "x 1", 2, 100),
        Some(ReadError::ReadFault),
    );
    assert_same(
        &rt,
        fault_of(&rt, "x 1 1", 100, 100),
        Some(ReadError::BadNumber { token: 0 }),
    );
    for good in 0..8u32 {
        assert_same(
            &rt,
            fault_of(&rt, "1 1 1 5", good, 100),
            Some(ReadError::ReadFault),
        );
    }
}

/// Whether both are the same problem, or the same fault.
fn are_alike(whole: &Result<ArcList, ReadError>, pieces: &Result<ArcList, ReadError>) -> bool {
    match (whole, pieces) {
        (Ok(one), Ok(other)) => {
            one.persons() == other.persons()
                && one.objects() == other.objects()
                && one.arcs() == other.arcs()
        }
        (Err(one), Err(other)) => one == other,
        (Ok(_), Err(_)) | (Err(_), Ok(_)) => false,
    }
}

/// Whether a text reads in pieces of many lengths as it does whole.
fn reads_alike(rt: &HostRuntime, text: &str) -> bool {
    let alloc = rt.alloc();
    let limits = limits_of(100, 0);
    let whole = read_arcs(alloc, text.as_bytes(), limits);
    for most in [1usize, 2, 3, 7, 31, 32, 33, 64, 65, 1000] {
        let pieces = read(alloc, text.as_bytes(), most, u32::MAX, 10_000);
        if !are_alike(&whole, &pieces) {
            return false;
        }
    }
    true
}

#[test]
fn tokens_in_pieces(rt: HostRuntime) {
    assert!(rt; reads_alike(&rt, "2 1 1 4 1 2 -7 2 2 +0.00\n"));
    assert!(rt; reads_alike(&rt, ""));
    assert!(rt; reads_alike(&rt, " \n "));
    assert!(rt; reads_alike(&rt, "3 1 1"));
    assert!(rt; reads_alike(&rt, "2 1 1 4 1 3 7 x"));
}

/// Whether a text reads in pieces as it does whole, with many zeros in place of each `Z`.
fn long_reads_alike(rt: &HostRuntime, text: &str) -> Result<bool, Fail> {
    let long = text.replace(rt.alloc(), "Z", ZEROS)?;
    Ok(reads_alike(rt, long.as_str()))
}

/// Of tokens that are too long to be kept the sign, the value and the point count, and whether they are numbers.
#[test]
fn long_tokens(rt: HostRuntime) -> Result<(), Fail> {
    for text in [
        "Z2 Z1 Z2. -Z7.Z",
        "Z2 Z1 Z3",
        "2 1 1 1Z 1 1 1Z",
        "2 1 1 Z1000000000.Z 1 1 Z1000000001",
        "2 1 1 Zx",
        "2 1 1 -+Z",
        "2 1 1 1.Z1",
        "2 1 1 1.Z.Z",
        "2 1 1 .Z",
    ] {
        assert!(rt; long_reads_alike(&rt, text)?, "{text}");
    }
    Ok(())
}

/// The reader takes 65,536 bytes at a time: a problem is at each place round the end of the first piece.
#[test]
fn round_the_end_of_a_piece(rt: HostRuntime) -> Result<(), Fail> {
    let alloc = rt.alloc();
    let mut text = vec![in alloc; b' '; 65_500]?;
    let limits = limits_of(9, 4);
    for _shift in 0..40u32 {
        let front = text.len();
        text.extend_from_slice(b"2 1 1 12345678.0 2 2 -7 1 2 9")?;
        let whole = read_arcs(alloc, text.as_slice(), limits);
        let mut reader = text.as_slice();
        let pieces = read_arcs_from(alloc, &mut reader, limits);
        assert!(rt; whole.is_ok() && are_alike(&whole, &pieces));
        text.truncate(front);
        text.push(b' ')?;
    }
    Ok(())
}
