//! Readers and writers that are slow, or fail.

use std::io;
use std::io::{ErrorKind, Read, Write};

/// A reader that gives one byte at each read.
#[derive(Drop)]
pub struct Slow<'a> {
    pub rest: &'a [u8],
}

impl<'a> Read for Slow<'a> {
    ghost use Rattle.std.specs.Prelude.{Some};

    ghost remaining = { λ s. Some s.rest.now };

    fn read(&mut self, buf: &mut [u8]) -> io::Result<usize> {
        let room = buf.len().min(1);
        self.rest.read(&mut buf[..room])
    }
}

/// A reader that fails after its bytes, which it does not say.
#[derive(Drop)]
pub struct Broken<'a> {
    pub rest: &'a [u8],
    pub kind: ErrorKind,
}

impl<'a> Read for Broken<'a> {
    fn read(&mut self, buf: &mut [u8]) -> io::Result<usize> {
        if self.rest.is_empty() {
            return Err(io::Error::from(self.kind));
        }
        self.rest.read(buf)
    }
}

/// A reader that gives at most so many bytes at each read, and fails once, after so many reads.
#[derive(Drop)]
pub struct Flaky<'a> {
    pub rest: &'a [u8],
    pub most: usize,
    pub good: u32,
}

impl<'a> Read for Flaky<'a> {
    fn read(&mut self, buf: &mut [u8]) -> io::Result<usize> {
        if self.good == 0 {
            self.good = u32::MAX;
            return Err(io::Error::from(ErrorKind::Interrupted));
        }
        self.good = self.good.saturating_sub(1);
        let room = buf.len().min(self.most);
        self.rest.read(&mut buf[..room])
    }
}

/// A writer that waits for a text, takes one byte of it at each write, and once, after so many writes, fails or takes
/// nothing. It takes nothing else than the text.
#[derive(Drop)]
pub struct Picky<'a> {
    pub rest: &'a [u8],
    pub good: usize,
    pub fails: bool,
}

impl<'a> Write for Picky<'a> {
    fn write(&mut self, buf: &[u8]) -> io::Result<usize> {
        if self.good == 0 {
            self.good = usize::MAX;
            if self.fails {
                return Err(io::Error::from(ErrorKind::Interrupted));
            }
            return Ok(0);
        }
        self.good = self.good.saturating_sub(1);
        let Some((wanted, rest)) = self.rest.split_first() else {
            return Ok(0);
        };
        if buf.first() != Some(wanted) {
            return Ok(0);
        }
        self.rest = rest;
        Ok(1)
    }

    fn flush(&mut self) -> io::Result<()> {
        Ok(())
    }
}

/// A writer that has room for so many bytes, and then takes nothing or fails.
#[derive(Drop)]
pub struct Full {
    pub room: usize,
    pub fails: bool,
}

impl Write for Full {
    fn write(&mut self, buf: &[u8]) -> io::Result<usize> {
        if self.room == 0 && self.fails {
            return Err(io::Error::from(ErrorKind::StorageFull));
        }
        let taken = buf.len().min(self.room);
        self.room = self.room.saturating_sub(taken);
        Ok(taken)
    }

    fn flush(&mut self) -> io::Result<()> {
        Ok(())
    }
}
