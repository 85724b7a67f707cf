//! The ring of kept replies. Source: profile.
ghost use Rattle.std.specs.Prelude.{◌≡◌, ◌≢◌, ◌≤◌, ◌↔◌, [], length, IsTrue, IfOk, IfSome, IfNone, None, Contains, All};
ghost use Rattle.std.specs.Prelude.{slice_get, IsNone};
ghost use Rattle.reply_ring.specs.Ring.{kept_code, newest, keep, IsRing};

use circular_buffer::HeapCircularBuffer;
use std::alloc::{AllocError, Global};
use std::marker::Model;
use uecp_elements::Code;

/// How many pairs are held at most: the least that serves 126 newer messages. With one fewer, the oldest message that
/// may still come again would have no reply here.
const HELD_MAX: usize = 127;

/// The reply codes of the last numbered messages, each under its message's counter: at most 127 pairs, no counter
/// twice.
#[derive(Debug, Drop)]
pub struct ReplyRing {
    /// The counters of the pairs, the newest first, in room that was made for 127.
    counters: HeapCircularBuffer<u8>,
    /// The code of each counter that a pair has, by counter, and None for every other.
    codes: [Option<Code>; 256],
}

impl Model for ReplyRing {
    ghost use Rattle.std.specs.Prelude.{ℕ, List};
    ghost use Rattle.uecp_elements.specs.declared.code.Code.{Code};
    ghost use Rattle.reply_ring.specs.Table.{pairs_of, IsKept};

    ghost Value = { List (ℕ × Code) };

    ghost view = { λ r. pairs_of r.counters.items r.codes };

    ghost invariant = { λ r. IsKept r.counters.capacity r.counters.items r.codes };
}

impl ReplyRing {
    /// A ring that holds no pair. All its room is made here.
    pub fn new(alloc: Global) -> Result<ReplyRing, AllocError>
        ensures { IfOk result (λ ring. ring ≡ []) }
    {
        let counters = HeapCircularBuffer::with_capacity(alloc, HELD_MAX)?;
        Ok(ReplyRing {
            counters,
            codes: [None; 256],
        })
    }

    /// The code that is kept for the counter, or None where no held pair has it, as for the counter 0.
    ///
    /// ```
    /// let mut ring = ReplyRing::new(alloc)?;
    /// ring.keep(7, Code::Applied);
    /// let first = ring.find(7); // Some(Code::Applied)
    /// ```
    pub fn find(&self, counter: u8) -> Option<Code>
        ensures value { result ≡ kept_code self.now counter }
        ensures some { IfSome result (λ code. Contains self.now (counter, code)) }
        ensures none { IfNone result (All (λ pair. pair.0 ≢ counter) self.now) }
    {
        self.codes[usize::from(counter)]
    }

    /// The counter of the newest pair, which was kept last, or None where no pair is held.
    ///
    /// ```
    /// let mut ring = ReplyRing::new(alloc)?;
    /// ring.keep(7, Code::Applied);
    /// let last = ring.newest(); // Some(7)
    /// ```
    #[tactic(auto, using(crate::proofs::Entries::first_is_newest, crate::proofs::Entries::newest_none))]
    pub fn newest(&self) -> Option<u8>
        ensures value { result ≡ newest self.now }
        ensures none { (result ≡ None) ↔ (length self.now ≡ 0) }
    {
        self.counters.front().copied()
    }

    /// The pair at a place, the newest at 0: its counter and its code. None from [`len`](ReplyRing::len) on.
    ///
    /// ```
    /// for place in (0..ring.len()).rev() {
    ///     let pair = ring.pair(place); // Some, the oldest first
    /// }
    /// ```
    pub fn pair(&self, place: usize) -> Option<(u8, Code)>
        ensures value { result ≡ slice_get self.now place }
        ensures none { IsNone result ↔ (length self.now ≤ place) }
    {
        match self.counters.get(place) {
            None => None,
            Some(counter) => Some((
                *counter,
                self.codes[usize::from(*counter)].unwrap_or(Code::Applied),
            )),
        }
    }

    /// Keeps the code for the counter, and drops the oldest pair where 127 are held.
    ///
    /// The caller knows that the counter is not 0 and that [`find`](ReplyRing::find) gives no code for it.
    pub fn keep(&mut self, counter: u8, code: Code)
        requires numbered { counter ≢ 0 }
        requires fresh { kept_code self.old counter ≡ None }
        ensures { self.new ≡ keep self.old counter code }
    {
        if let Some(oldest) = self.counters.push_front(counter) {
            self.codes[usize::from(oldest)] = None;
        }
        self.codes[usize::from(counter)] = Some(code);
    }

    /// How many pairs are held, 0 to 127.
    pub fn len(&self) -> usize
        ensures value { result ≡ length self.now }
        ensures at_most { result ≤ 127 }
        // No counter stands in two of the pairs, and none is 0.
        ensures ring { IsRing self.now }
    {
        self.counters.len()
    }

    /// Whether no pair is held.
    pub fn is_empty(&self) -> bool
        ensures { IsTrue result ↔ (length self.now ≡ 0) }
    {
        self.counters.is_empty()
    }
}
