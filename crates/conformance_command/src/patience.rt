//! A reader whose reads are made again where nothing comes (profile).
ghost use Rattle.std.specs.Prelude.{◌≡◌};

use std::io;
use std::io::Read;
use std::marker::Model;

/// A reader, of which a read that fails is made again, so many times in all. Contracts see the reader.
#[derive(Drop)]
pub(crate) struct Waiting<R> {
    reader: R,
    /// How many times the next read is made.
    patience: u32,
    /// How many times those are made behind one that did not fail.
    later: u32,
}

impl<R> Model for Waiting<R> {
    ghost Value = { R };

    ghost view = { λ waiting. waiting.reader };
}

impl<R> Waiting<R> {
    /// This reader, whose reads are made so many times at most, and once where that is 0: up to the first that does not
    /// fail, and from then on.
    pub(crate) fn new(reader: R, first: u32, later: u32) -> Waiting<R>
        ensures { result ≡ reader }
    {
        Waiting {
            reader,
            patience: first,
            later,
        }
    }

    /// The reader back.
    pub(crate) fn into_inner(self) -> R
        ensures { result ≡ self }
    {
        let Waiting {
            reader,
            patience: _,
            later: _,
        } = self;
        reader
    }
}

impl<R: Read> Read for Waiting<R> {
    ghost remaining = { λ waiting. R.remaining waiting };

    fn read(&mut self, buf: &mut [u8]) -> io::Result<usize> {
        for _again in 1..self.patience {
            if let Ok(count) = self.reader.read(buf) {
                self.patience = self.later;
                return Ok(count);
            }
        }
        match self.reader.read(buf) {
            Ok(count) => {
                self.patience = self.later;
                Ok(count)
            }
            Err(error) => Err(error),
        }
    }
}
