//! A writer that fails where it is told to.
use arrayvec::ArrayVec;
use std::io;
use std::io::{ErrorKind, Write};

/// What a writer took.
pub type Taken = ArrayVec<u8, 4096>;

/// Takes at most 4096 bytes, but for the calls that fail or take none, and fails when it is full.
#[derive(Drop)]
pub struct FaultyWriter<'a> {
    /// What was taken.
    taken: Taken,
    /// At most so many bytes a call.
    most: usize,
    /// How many writes were made.
    writes: u32,
    /// How many flushes were made.
    flushes: u32,
    /// The writes that fail, counted from 1.
    failing: &'a [u32],
    /// The writes that take no byte, counted from 1.
    empty: &'a [u32],
    /// Whether each flush fails.
    fails_flushed: bool,
    /// How much was taken when it was flushed last.
    flushed: usize,
}

impl<'a> FaultyWriter<'a> {
    /// Takes all that it is given, up to its room, and never fails before.
    pub fn new() -> FaultyWriter<'a> {
        FaultyWriter {
            taken: Taken::new(),
            most: usize::MAX,
            writes: 0,
            flushes: 0,
            failing: &[],
            empty: &[],
            fails_flushed: false,
            flushed: 0,
        }
    }

    /// The same with at most so many bytes at a call.
    pub fn taking(self, most: usize) -> FaultyWriter<'a> {
        FaultyWriter { most, ..self }
    }

    /// The same with these writes failing, counted from 1.
    pub fn failing_at(self, calls: &'a [u32]) -> FaultyWriter<'a> {
        FaultyWriter {
            failing: calls,
            ..self
        }
    }

    /// The same with these writes taking no byte, counted from 1.
    pub fn taking_none_at(self, calls: &'a [u32]) -> FaultyWriter<'a> {
        FaultyWriter {
            empty: calls,
            ..self
        }
    }

    /// The same with each flush failing, as of a buffer before a device that is full.
    pub fn failing_flushed(self) -> FaultyWriter<'a> {
        FaultyWriter {
            fails_flushed: true,
            ..self
        }
    }

    /// What was taken.
    pub fn taken(&self) -> &[u8] {
        self.taken.as_slice()
    }

    /// How many writes were made, those that failed and those that took no byte among them. At its greatest value it
    /// stays.
    pub fn writes(&self) -> u32 {
        self.writes
    }

    /// How many flushes were made, those that failed among them. At its greatest value it stays.
    pub fn flushes(&self) -> u32 {
        self.flushes
    }

    /// How many bytes had been taken when it was flushed last; 0 where it was never flushed.
    pub fn flushed(&self) -> usize {
        self.flushed
    }
}

impl Write for FaultyWriter<'_> {
    ghost use Rattle.std.specs.Prelude.{Some};

    ghost contents = { λ w. Some w.taken.items };

    fn write(&mut self, buf: &[u8]) -> io::Result<usize> {
        self.writes = self.writes.saturating_add(1);
        if self.failing.contains(&self.writes) {
            return Err(ErrorKind::Other.into());
        }
        if self.empty.contains(&self.writes) {
            return Ok(0);
        }
        let count = buf.len().min(self.most);
        match self.taken.try_extend_from_slice(&buf[..count]) {
            Ok(()) => Ok(count),
            Err(_) => Err(ErrorKind::Other.into()),
        }
    }

    fn flush(&mut self) -> io::Result<()> {
        self.flushes = self.flushes.saturating_add(1);
        self.flushed = self.taken.len();
        if self.fails_flushed {
            return Err(ErrorKind::Other.into());
        }
        Ok(())
    }
}
