//! What goes over a connection with faults (profile).
ghost use Rattle.std.specs.Prelude.{◌≡◌, ◌≤◌, ◌<◌, ℕ, [], length, take, false, None};
ghost use Rattle.std.specs.Io.{WritesAtMost};
ghost use Rattle.std.specs.Io.KnownBytes.{Keeps, WriteAppends};
ghost use Rattle.bad_line.specs.Passages.{TakesAll, opened};
ghost use Rattle.bad_line.specs.Ends.{End, Writes, Delivers};

use crate::connections::clock::hold;
use crate::connections::effect::Effects;
use crate::connections::passage::Passage;
use crate::rules::{LineFaults, Way};
use std::io;
use std::io::{ErrorKind, Write};
use std::marker::Model;
use std::time::Clock;

/// How many bytes one write takes at most.
const WRITE_MAX: usize = 512;

/// A writer with faults: its device gets what comes out of what is written, in order. Where the connection breaks each
/// write fails from then on.
///
/// A write takes at most 512 bytes, and answers how many. What comes out of them and can't be written waits, and the
/// next call writes it first, or fails and takes nothing.
#[derive(Drop)]
pub struct FaultyWriter<'a, W, T, E> {
    device: W,
    passage: Passage,
    time: &'a T,
    effects: &'a E,
}

impl<'a, W, T, E> Model for FaultyWriter<'a, W, T, E> {
    ghost use Rattle.bad_line.specs.Ends.{End};

    ghost Value = { End W };

    ghost view = { λ w. record { device = w.device; direction = w.passage } };
}

impl<'a, W, T, E> FaultyWriter<'a, W, T, E> {
    /// The device with these faults, to which nothing was written yet.
    pub(crate) fn new(
        device: W,
        faults: LineFaults,
        time: &'a T,
        effects: &'a E,
    ) -> FaultyWriter<'a, W, T, E>
        ensures { result ≡ record { device = device; direction = opened faults } }
    {
        FaultyWriter {
            device,
            passage: Passage::new(faults),
            time,
            effects,
        }
    }

    /// Whether the connection has broken.
    fn is_broken(&self) -> bool
        ensures { result ≡ self.now.direction.is_broken }
    {
        self.passage.is_broken()
    }

    /// The device and the faults back. What waits, and what is held of a segment whose end has not come, is lost.
    pub(crate) fn into_parts(self) -> (W, LineFaults)
        ensures device { result.0 ≡ self.entry.device }
        ensures faults { result.1 ≡ self.entry.direction.cutting.faults }
    {
        let FaultyWriter {
            device,
            passage,
            time: _,
            effects: _,
        } = self;
        (device, passage.into_faults())
    }
}

impl<'a, W: Write, T: Clock, E: Effects> FaultyWriter<'a, W, T, E> {
    /// Writes what waits, by as many writes as it takes. Where one fails, the rest waits.
    fn deliver(&mut self) -> io::Result<()>
        ensures { Delivers W.contents self.old self.new result }
    {
        while !self.passage.waiting().is_empty() {
            let count = self.device.write(self.passage.waiting())?;
            if count == 0 {
                return Err(ErrorKind::WriteZero.into());
            }
            self.passage.give(count);
        }
        Ok(())
    }

    /// Takes bytes, of which what comes out waits. The caller knows that nothing waits and the connection holds.
    fn take(&mut self, bytes: &[u8]) -> usize
        requires few { length bytes.now ≤ 512 }
        requires nothing_waits { self.old.direction.waiting ≡ [] }
        requires holds { self.old.direction.is_broken ≡ false }
        ensures takes { TakesAll self.old.direction self.new.direction bytes.now result }
        ensures device { self.new.device ≡ self.old.device }
    {
        let count = self.passage.take(bytes, Way::Reply, self.effects);
        if !self.passage.waiting().is_empty() {
            hold(self.time, self.passage.pace());
        }
        count
    }
}

/// The first of the bytes, at most 512.
fn first(bytes: &[u8]) -> &[u8]
    ensures first { result.now ≡ take 512 bytes.now }
    ensures few { length result.now ≤ 512 }
{
    &bytes[..bytes.len().min(WRITE_MAX)]
}

impl<'a, W: Write, T: Clock, E: Effects> Write for FaultyWriter<'a, W, T, E> {
    fn write(&mut self, buf: &[u8]) -> io::Result<usize>
        ensures bound { WritesAtMost result buf.now }
        ensures bytes { WriteAppends None None result buf.now }
        ensures writes { Writes W.contents self.old self.new result buf.now }
    {
        match self.deliver() {
            Err(error) => Err(error),
            Ok(()) => {
                if self.is_broken() {
                    return Err(ErrorKind::BrokenPipe.into());
                }
                let count = self.take(first(buf));
                let _ = self.deliver();
                Ok(count)
            }
        }
    }

    fn flush(&mut self) -> io::Result<()>
        ensures bytes { Keeps None None }
        ensures delivers { Delivers W.contents self.old self.new result }
    {
        match self.deliver() {
            Err(error) => Err(error),
            Ok(()) => self.device.flush(),
        }
    }
}
