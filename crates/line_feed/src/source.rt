//! A reader up to its end (profile).
ghost use Rattle.std.specs.Prelude.{◌≡◌, ℕ, ◌<◌, ◌++◌, ◌||◌, List, length, true, false, Ok, IfErr};
ghost use Rattle.std.specs.Io.KnownBytes.{Consumes, Keeps, IsAtEnd};
ghost use Rattle.line_feed.specs.declared.feed_fault.FeedFault.TheVariants.{Reading};

use crate::arrival::Arrival;
use crate::feed_fault::FeedFault;
use crate::held::Held;
use std::io::{ErrorKind, Read};
use std::marker::Model;

/// The most bytes that one read asks for.
const READ_MAX: usize = 4096;

/// A reader, which is not read again once it was at its end. Contracts see it as one value, `Reader`.
#[derive(Drop)]
pub(crate) struct Source<R: Read> {
    reader: R,
    /// Whether it was at its end.
    ended: bool,
    /// Whether a read failed of which nothing was told yet.
    failed: bool,
}

impl<R: Read> Model for Source<R> {
    ghost use Rattle.std.specs.Prelude.{◌≡◌, true};
    ghost use Rattle.std.specs.Io.KnownBytes.{IsAtEnd};
    ghost use Rattle.line_feed.specs.Reading.{Reader};

    ghost Value = { Reader };

    ghost view = { λ s. record { left = R.remaining s.reader; ended = s.ended; failed = s.failed } };

    ghost invariant = { λ s. s.ended ≡ true → IsAtEnd (R.remaining s.reader) };
}

impl<R: Read> Source<R> {
    /// This reader, which was not read yet.
    pub(crate) fn new(reader: R) -> Source<R>
        ensures { result ≡ record { left = R.remaining reader; ended = false; failed = false } }
    {
        Source {
            reader,
            ended: false,
            failed: false,
        }
    }

    /// Whether the next call of `read_into` reads nothing: the reader was at its end, or a failed read is to be told.
    pub(crate) fn is_done(&self) -> bool
        ensures { result ≡ self.now.ended || self.now.failed }
    {
        self.ended || self.failed
    }

    /// The next call of `read_into` tells that a read failed.
    pub(crate) fn fail(&mut self)
        ensures { self.new ≡ record self.old { failed = true } }
    {
        self.failed = true;
    }

    /// Waits until a read would not wait, where one is to be made, and then does as `read_into`. It reads whatever the
    /// arrival answers.
    pub(crate) fn wait_into<A: Arrival>(
        &mut self,
        arrival: &mut A,
        held: &mut Held,
    ) -> Result<bool, FeedFault>
        requires room { length held.old < 65537 }
        ensures read { (bytes : List ℕ) × (held.new ≡ held.old ++ bytes) × Consumes self.old.left self.new.left bytes }
        ensures ended { result ≡ Ok false → Keeps self.old.left self.new.left × IsAtEnd self.new.left
            × (held.new ≡ held.old) }
        ensures failed { IfErr result (λ fault. (fault ≡ Reading) × Keeps self.old.left self.new.left
            × (held.new ≡ held.old)) }
    {
        if !self.is_done() {
            let _is_there = arrival.wait(None);
        }
        self.read_into(held)
    }

    /// Makes one read, and holds what it brought, which may be nothing; whether the reader is not at its end.
    ///
    /// Errors: `Reading` where the read failed, and nothing was read.
    pub(crate) fn read_into(&mut self, held: &mut Held) -> Result<bool, FeedFault>
        requires room { length held.old < 65537 }
        ensures read { (bytes : List ℕ) × (held.new ≡ held.old ++ bytes) × Consumes self.old.left self.new.left bytes }
        ensures ended { result ≡ Ok false → Keeps self.old.left self.new.left × IsAtEnd self.new.left
            × (held.new ≡ held.old) }
        ensures failed { IfErr result (λ fault. (fault ≡ Reading) × Keeps self.old.left self.new.left
            × (held.new ≡ held.old)) }
    {
        if self.failed {
            self.failed = false;
            return Err(FeedFault::Reading);
        }
        if self.ended {
            return Ok(false);
        }
        let mut buffer = [0u8; READ_MAX];
        let room = held.room().min(READ_MAX);
        match self.reader.read(&mut buffer[..room]) {
            Ok(0) => {
                self.ended = true;
                Ok(false)
            }
            Ok(count) => {
                held.put(&buffer[..count]);
                Ok(true)
            }
            Err(error) if error.kind() == ErrorKind::Interrupted => Ok(true),
            Err(_) => Err(FeedFault::Reading),
        }
    }
}
