//! A reader that fails where it is told to.

use std::io;
use std::io::{ErrorKind, Read};

/// Gives its bytes and then ends, but for the calls that fail; those give none.
#[derive(Drop)]
pub struct FaultyReader<'a> {
    /// What is left to give.
    rest: &'a [u8],
    /// At most so many bytes a call; 0 is as 1.
    most: usize,
    /// How many calls were made.
    reads: u32,
    /// The calls that fail, counted from 1.
    failing: &'a [u32],
}

impl<'a> FaultyReader<'a> {
    /// Gives these bytes, as many at a call as there is room for, and never fails.
    pub fn new(bytes: &'a [u8]) -> FaultyReader<'a> {
        FaultyReader {
            rest: bytes,
            most: usize::MAX,
            reads: 0,
            failing: &[],
        }
    }

    /// The same with at most so many bytes at a call; 0 is as 1.
    pub fn giving(self, most: usize) -> FaultyReader<'a> {
        FaultyReader { most, ..self }
    }

    /// The same with these calls failing, counted from 1.
    pub fn failing_at(self, calls: &'a [u32]) -> FaultyReader<'a> {
        FaultyReader {
            failing: calls,
            ..self
        }
    }

    /// How many reads were made, those that failed and those at the end among them. At its greatest value it stays.
    pub fn reads(&self) -> u32 {
        self.reads
    }
}

impl Read for FaultyReader<'_> {
    ghost use Rattle.std.specs.Prelude.{Some};

    ghost remaining = { λ r. Some r.rest.now };

    fn read(&mut self, buf: &mut [u8]) -> io::Result<usize> {
        self.reads = self.reads.saturating_add(1);
        if self.failing.contains(&self.reads) {
            return Err(ErrorKind::Other.into());
        }
        let room = buf.len().min(self.most.max(1));
        self.rest.read(&mut buf[..room])
    }
}
