//! The last events, and what a browser is owed of them (profile).
ghost use Rattle.std.specs.Prelude.{◌≡◌, ◌≢◌, ◌≤◌, ◌<◌, ◌+◌, ◌-◌, ◌^◌, ℕ, List, [], ◌∷◌, length, map};
ghost use Rattle.std.specs.Prelude.{Some, IfOk, OnErr, IfErr, IfSome, IfNone, option_map};
ghost use Rattle.std.specs.List.{list_any};
ghost use Rattle.page.specs.Events.{Past, IsOneLine, ends_line, kept, next, from, with_line, due, is_gap};
ghost use Rattle.page.specs.declared.events.history.AddFault.TheVariants.{NotOneLine, NoNumber};

use std::alloc::Global;
use std::collections::VecDeque;
use std::marker::Model;

/// How many events are kept.
pub const KEPT_MAX: usize = 1000;

/// Why a line is no event.
#[derive(Clone, Copy, Debug, PartialEq, Eq)]
pub enum AddFault {
    /// A line feed or a carriage return is in it, so that it would be several lines to a browser.
    NotOneLine,
    /// There is no number left below 2^64.
    NoNumber,
    /// No memory was left.
    OutOfMemory,
}

/// The last 1,000 events. They have consecutive numbers, of which the one of the first event of all is told to
/// [`new`](History::new). Contracts see the number of the first one that is kept, and the lines.
#[derive(Drop)]
pub struct History {
    first: u64,
    lines: VecDeque<Vec<u8>>,
}

/// Whether a line ends in this text.
fn has_end(text: &[u8]) -> bool
    ensures { result ≡ list_any ends_line text.now }
{
    text.iter().any(|byte| *byte == b'\n' || *byte == b'\r')
}

impl Model for History {
    ghost use Rattle.std.specs.Prelude.{◌<◌, ◌≤◌, ◌+◌, ◌^◌, length, map};
    ghost use Rattle.page.specs.Events.{Past};

    ghost Value = { Past };

    ghost view = { λ h. record { first = h.first; lines = map (λ line. line.items) h.lines.items } };

    ghost invariant = { λ h. (h.first + length h.lines.items < 2 ^ 64) × (length h.lines.items ≤ 1000) };
}

impl History {
    /// No event yet; the first one gets this number. A program that begins with the time, in microseconds, gives none a
    /// number that one of its earlier runs gave.
    pub fn new(alloc: Global, first: u64) -> History
        ensures { result ≡ record { first = first; lines = [] } }
    {
        History {
            first,
            lines: VecDeque::new(alloc),
        }
    }

    /// The number of the first event that is kept, or of the next one.
    pub fn first(&self) -> u64
        ensures { result ≡ self.now.first }
    {
        self.first
    }

    /// The number of the event that comes next.
    pub fn next(&self) -> u64
        ensures { result ≡ next self.now }
    {
        self.first + self.lines.len() as u64
    }

    /// The line of the event of this number, if it is kept: the first of the events from this number on.
    pub fn line(&self, number: u64) -> Option<&[u8]>
        ensures some { IfSome result (λ line. (self.now.first ≤ number) × (from number (kept self.now)
            ≡ record { number = number; line = line.now } ∷ from (number + 1) (kept self.now))) }
        ensures none { IfNone result (self.now.first ≤ number → from number (kept self.now) ≡ []) }
    {
        if number < self.first {
            return None;
        }
        let place = (number - self.first) as usize;
        match self.lines.get(place) {
            Some(line) => Some(line.as_slice()),
            None => None,
        }
    }

    /// One more line is the last event, under the next number; of all the last 1,000 are kept.
    ///
    /// Errors: as [`AddFault`] has them; nothing changes then.
    pub fn add(&mut self, line: Vec<u8>) -> Result<(), AddFault>
        ensures ok { IfOk result (λ _. (self.new ≡ with_line self.old line.items) × IsOneLine line.items) }
        ensures err { OnErr result (self.new ≡ self.old) }
        ensures not_one { result ≡ Err NotOneLine → IsOneLine line.items → ⊥ }
        ensures no_number { result ≡ Err NoNumber → 2 ^ 64 ≤ next self.old + 1 }
    {
        if has_end(line.as_slice()) {
            return Err(AddFault::NotOneLine);
        }
        if self.next() == u64::MAX {
            return Err(AddFault::NoNumber);
        }
        match self.lines.push_back(line) {
            Ok(()) => {}
            Err(_) => return Err(AddFault::OutOfMemory),
        }
        if self.lines.len() > KEPT_MAX {
            self.lines.pop_front();
            self.first += 1;
        }
        Ok(())
    }

    /// From which number on a browser is owed events that names this one as its last: from the one behind it, as far as
    /// that is kept; from the first that is kept where it names none, or one that no event has had yet.
    pub fn due(&self, last: Option<u64>) -> u64
        ensures { result ≡ due last self.now }
    {
        match last {
            Some(last) if last < self.next() => self.first.max(last + 1),
            _ => self.first,
        }
    }

    /// Whether events between the one that it names and the first that is kept are gone.
    pub fn is_gap(&self, last: Option<u64>) -> bool
        ensures { result ≡ is_gap last self.now }
    {
        match last {
            Some(last) => last < self.first && last + 1 < self.first,
            None => false,
        }
    }
}
