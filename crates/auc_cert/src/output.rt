//! Writes bytes and numbers: all texts are written with it.

ghost use Rattle.std.specs.Prelude.{◌≡◌, ◌<◌, Ok, Err, IfOk, IsErr};
ghost use Rattle.auc_cert.specs.Writing.{Writes, counted, line_of, spelled};

use itoa::Buffer;
use std::io;
use std::io::Write;
use thiserror::Error;

/// Why a text was not written, or not all of it.
#[derive(Clone, Copy, Debug, PartialEq, Eq, Error)]
pub enum WriteFault {
    /// A write failed; an interrupted one too.
    #[error("a write failed")]
    Failed,
    /// A write took no bytes.
    #[error("a write took no bytes")]
    Stopped,
}

/// A part of a line: bytes, or a number in decimal.
#[derive(Clone, Copy, Debug)]
pub enum Part<'a> {
    /// These bytes.
    Words(&'a [u8]),
    Space,
    LineEnd,
    /// This number.
    Count(u64),
    /// The number, from 1 on, of something that is numbered from 0.
    Place(u64),
    /// This number, with a minus where it is negative.
    Number(i64),
}

/// The number of bytes that a write took, or why nothing more is written.
#[inline]
fn taken_of(written: io::Result<usize>) -> Result<usize, WriteFault>
    ensures taken { IfOk result (λ n. (written ≡ Ok n) × (0 < n)) }
    ensures stopped { result ≡ Err WriteFault.Stopped → written ≡ Ok 0 }
    ensures failed { result ≡ Err WriteFault.Failed → IsErr written }
{
    match written {
        Ok(0) => Err(WriteFault::Stopped),
        Ok(taken) => Ok(taken),
        Err(_) => Err(WriteFault::Failed),
    }
}

/// Writes all of these bytes, by as many calls of `write` as that takes. Takes no memory.
///
/// # Errors
///
/// [`WriteFault::Failed`] at the first write that fails, also by an interrupt: no write is tried again.
/// [`WriteFault::Stopped`] at the first one that takes nothing. A beginning of the bytes was written, and not all of
/// them.
pub fn write_whole<W: Write>(writer: &mut W, bytes: &[u8]) -> Result<(), WriteFault>
    ensures { Writes result (W.contents writer.old) (W.contents writer.new) bytes.now }
{
    let mut rest = bytes;
    while !rest.is_empty() {
        let taken = taken_of(writer.write(rest))?;
        rest = &rest[taken..];
    }
    Ok(())
}

/// Writes a part of a line.
fn write_part<W: Write>(writer: &mut W, part: Part) -> Result<(), WriteFault>
    ensures { Writes result (W.contents writer.old) (W.contents writer.new) (spelled part.entry) }
{
    let mut buffer = Buffer::new();
    match part {
        Part::Words(bytes) => write_whole(writer, bytes),
        Part::Space => write_whole(writer, b" "),
        Part::LineEnd => write_whole(writer, b"\n"),
        Part::Count(number) => write_whole(writer, buffer.format(number).as_bytes()),
        Part::Place(place) => write_whole(writer, buffer.format(place as u128 + 1).as_bytes()),
        Part::Number(number) => write_whole(writer, buffer.format(number).as_bytes()),
    }
}

/// Writes a line by its parts, one after another. Takes no memory.
///
/// # Errors
///
/// As [`write_whole`], of the whole line.
pub fn write_parts<W: Write>(writer: &mut W, parts: &[Part]) -> Result<(), WriteFault>
    ensures { Writes result (W.contents writer.old) (W.contents writer.new) (line_of parts.now) }
{
    for part in parts {
        write_part(writer, *part)?;
    }
    Ok(())
}

/// Writes words, a number and the line end. Takes no memory.
///
/// # Errors
///
/// As [`write_whole`], of the whole line.
pub fn write_counted<W: Write>(writer: &mut W, words: &[u8], number: u64) -> Result<(), WriteFault>
    ensures { Writes result (W.contents writer.old) (W.contents writer.new) (counted words.now number) }
{
    let parts = [Part::Words(words), Part::Count(number), Part::LineEnd];
    write_parts(writer, &parts)
}
