//! What comes of a connection with faults (profile).
ghost use Rattle.std.specs.Prelude.{◌≡◌, ◌≢◌, ◌≤◌, ◌<◌, ◌⊎◌, ℕ, [], length, take, true, false, MatchResult, None};
ghost use Rattle.std.specs.Prelude.{IsTrue};
ghost use Rattle.std.specs.Bool.{MatchBool};
ghost use Rattle.std.specs.Io.{ReadsAtMost};
ghost use Rattle.std.specs.Io.KnownBytes.{Consumes, IsAtEnd, Keeps, ReadConsumes};
ghost use Rattle.bad_line.specs.Passages.{opened};
ghost use Rattle.bad_line.specs.Ends.{End, Fills, FillsUp, Reads, IsEnd, HandsOn, ComesToEnd, ReadsOn};

use crate::connections::arrivals::Arrivals;
use crate::connections::clock::{hold, now};
use crate::connections::effect::Effects;
use crate::connections::passage::Passage;
use crate::rules::{LineFaults, Way};
use crate::segments::OUT_MAX;
use arrayvec::ArrayVec;
use std::io::{ErrorKind, Read};
use std::marker::Model;
use std::time::{Clock, Duration};
use std::{io, thread};

/// How many bytes one read of the device takes at most.
const READ_MAX: usize = 512;

/// How many reads of the device one read makes at most.
const READS_MAX: u64 = u64::MAX;

/// When each byte that waits is due, by the clock, in milliseconds.
type Dues = ArrayVec<u64, OUT_MAX>;

/// A reader with faults: what is read of it is what comes out of what its device brings, in order. Where the connection
/// breaks it is at its end from then on.
///
/// What comes later is held side by side: while it waits the device is read on, as soon as something comes, as far as
/// there is room.
#[derive(Drop)]
pub struct FaultyReader<'a, R, A, T, E> {
    device: R,
    passage: Passage,
    dues: Dues,
    /// Whether the device was at its end.
    is_over: bool,
    arrivals: Option<A>,
    time: &'a T,
    effects: &'a E,
}

impl<'a, R, A, T, E> Model for FaultyReader<'a, R, A, T, E> {
    ghost use Rattle.bad_line.specs.Ends.{End};

    ghost Value = { End R };

    ghost view = { λ r. record { device = r.device; direction = r.passage } };
}

impl<'a, R, A: Drop, T, E> FaultyReader<'a, R, A, T, E> {
    /// The device with these faults, of which nothing was read yet, and what tells whether something has come on it.
    pub(crate) fn new(
        device: R,
        faults: LineFaults,
        arrivals: Option<A>,
        time: &'a T,
        effects: &'a E,
    ) -> FaultyReader<'a, R, A, T, E>
        ensures { result ≡ record { device = device; direction = opened faults } }
    {
        FaultyReader {
            device,
            passage: Passage::new(faults),
            dues: ArrayVec::new(),
            is_over: false,
            arrivals,
            time,
            effects,
        }
    }

    /// The device and the faults back. What waits, and what is held of a segment whose end has not come, is lost.
    pub(crate) fn into_parts(self) -> (R, LineFaults)
        ensures device { result.0 ≡ self.entry.device }
        ensures faults { result.1 ≡ self.entry.direction.cutting.faults }
    {
        let FaultyReader {
            device,
            passage,
            dues: _,
            is_over: _,
            arrivals: _,
            time: _,
            effects: _,
        } = self;
        (device, passage.into_faults())
    }

    /// Whether anything waits to be handed on.
    fn waits(&self) -> bool
        ensures { MatchBool result (self.now.direction.waiting ≢ []) (self.now.direction.waiting ≡ []) }
    {
        !self.passage.waiting().is_empty()
    }

    /// Whether the connection has broken.
    fn is_broken(&self) -> bool
        ensures { result ≡ self.now.direction.is_broken }
    {
        self.passage.is_broken()
    }
}

/// The first so many are let go.
fn drop_first(dues: &mut Dues, count: usize) {
    let count = count.min(dues.len());
    dues.drain(..count);
}

impl<'a, R: Read, A: Arrivals + Drop, T: Clock, E: Effects> FaultyReader<'a, R, A, T, E> {
    /// Makes one read of the device, and what it brought passes. Whether it brought anything. The caller knows that
    /// there is room and the connection holds.
    fn fill(&mut self) -> io::Result<bool>
        requires room { length self.old.direction.waiting ≤ 5120 }
        requires holds { self.old.direction.is_broken ≡ false }
        ensures { MatchResult result
            (λ some. MatchBool some (Fills R.remaining self.old self.new) (ComesToEnd R.remaining self.old self.new))
            (λ _. (self.new ≡ record self.old { device = self.new.device })
            × Keeps (R.remaining self.old.device) (R.remaining self.new.device)) }
    {
        let mut buffer = [0u8; READ_MAX];
        let count = self.device.read(&mut buffer)?;
        if count == 0 {
            self.is_over = true;
            return Ok(false);
        }
        self.passage
            .take(&buffer[..count], Way::Frame, self.effects);
        self.note();
        Ok(true)
    }

    /// Notes when what came out is due, and holds it where rules say so of one segment behind the other.
    fn note(&mut self)
        ensures { self.new ≡ self.old }
    {
        let waiting = self.passage.waiting().len();
        if waiting > self.dues.len() {
            hold(self.time, self.passage.pace());
        }
        let now = now(self.time);
        for mark in self.passage.marks() {
            let due = due_at(now, self.passage.delay(mark.number));
            put_up_to(&mut self.dues, mark.waiting, due);
        }
        put_up_to(&mut self.dues, waiting, now);
    }

    /// Hands on the first of what waits, as much as is due and there is room for, and at least a byte of it: how many.
    fn hand_on(&mut self, buffer: &mut [u8]) -> usize
        ensures bound { result ≤ length buffer.new }
        ensures hands { HandsOn self.old self.new (take result buffer.new) }
        ensures none { result ≡ 0 → 0 < length buffer.old → self.old.direction.waiting ≡ [] }
    {
        let due = due_by(self.dues.as_slice(), now(self.time));
        let waiting = self.passage.waiting();
        let count = waiting.len().min(buffer.len()).min(due.max(1));
        buffer[..count].copy_from_slice(&waiting[..count]);
        self.passage.give(count);
        drop_first(&mut self.dues, count);
        count
    }

    /// Whether something waits that is due.
    fn is_due(&self) -> bool
        ensures { IsTrue result → self.now.direction.waiting ≢ [] }
    {
        due_by(self.dues.as_slice(), now(self.time)) > 0 && self.waits()
    }

    /// Whether the device is to be read while something waits: something has come, and there is room. Else it waits
    /// until the first of it is due.
    fn comes(&self) -> bool
        ensures { IsTrue result → (self.now.direction.is_broken ≡ false)
            × (length self.now.direction.waiting ≤ 5120) }
    {
        let wait = until(self.dues.as_slice(), now(self.time));
        if self.is_over || self.is_broken() || !self.passage.has_room() {
            thread::sleep(self.time, wait);
            return false;
        }
        match &self.arrivals {
            Some(arrivals) => arrivals.comes_within(wait),
            None => {
                thread::sleep(self.time, wait);
                false
            }
        }
    }

    /// Something waits that is not due: the device is read on, where something has come on it.
    fn wait(&mut self) -> io::Result<()>
        requires { self.old.direction.waiting ≢ [] }
        ensures { MatchResult result
            (λ _. (self.new ≡ self.old) ⊎ ReadsOn R.remaining self.old self.new)
            (λ _. (self.new ≡ record self.old { device = self.new.device })
            × Keeps (R.remaining self.old.device) (R.remaining self.new.device)) }
    {
        if !self.comes() {
            return Ok(());
        }
        match self.fill() {
            Ok(true) => Ok(()),
            Ok(false) => Ok(()),
            Err(error) => Err(error),
        }
    }

    /// Nothing waits that is due: the device is read on. Whether there is more to come.
    fn go_on(&mut self) -> io::Result<bool>
        ensures { MatchResult result
            (λ more. MatchBool more ((self.new ≡ self.old) ⊎ ReadsOn R.remaining self.old self.new)
            (IsEnd R.remaining self.old self.new))
            (λ _. (self.new ≡ record self.old { device = self.new.device })
            × Keeps (R.remaining self.old.device) (R.remaining self.new.device)) }
    {
        if self.waits() {
            return match self.wait() {
                Ok(()) => Ok(true),
                Err(error) => Err(error),
            };
        }
        if self.is_broken() {
            return Ok(false);
        }
        self.fill()
    }

    /// Reads the device until something waits that is due, or the input is at its end. Whether something does.
    fn fill_up(&mut self) -> io::Result<bool>
        ensures { FillsUp R.remaining self.old self.new result }
    {
        for _read in 0..READS_MAX {
            if self.is_due() {
                return Ok(true);
            }
            match self.go_on() {
                Ok(true) => {}
                Ok(false) => return Ok(false),
                Err(error) => return Err(error),
            }
        }
        Err(ErrorKind::TimedOut.into())
    }
}

/// When that is due which came now, and comes so much later in each of the two directions. Its reply goes out at once,
/// so the frame waits for both.
fn due_at(now: u64, delay: u64) -> u64 {
    now.saturating_add(delay.saturating_mul(2))
}

/// So many bytes have a time at which they are due: those that have none yet get this.
fn put_up_to(dues: &mut Dues, waiting: usize, due: u64) {
    for _byte in dues.len()..waiting {
        let _ = dues.try_push(due);
    }
}

/// How many of the first are due by now.
fn due_by(dues: &[u64], now: u64) -> usize {
    for (place, due) in dues.iter().enumerate() {
        if *due > now {
            return place;
        }
    }
    dues.len()
}

/// How long it is until the first is due, and at least a millisecond.
fn until(dues: &[u64], now: u64) -> Duration {
    let first = match dues.first() {
        Some(due) => *due,
        None => now,
    };
    Duration::from_millis(first.saturating_sub(now).max(1))
}

impl<'a, R: Read, A: Arrivals + Drop, T: Clock, E: Effects> Read for FaultyReader<'a, R, A, T, E> {
    fn read(&mut self, buf: &mut [u8]) -> io::Result<usize>
        ensures bound { ReadsAtMost result buf.new }
        ensures bytes { ReadConsumes None None result buf.new }
        ensures reads { Reads R.remaining self.old self.new result buf.new }
    {
        if buf.is_empty() {
            return Ok(0);
        }
        match self.fill_up() {
            Ok(true) => Ok(self.hand_on(buf)),
            Ok(false) => Ok(0),
            Err(error) => Err(error),
        }
    }
}
