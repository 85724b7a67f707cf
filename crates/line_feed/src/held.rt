//! What was read and not yet taken (profile).
ghost use Rattle.std.specs.Prelude.{◌≡◌, ◌-◌, ◌+◌, ◌≤◌, ◌++◌, ℕ, List, [], length, drop, vec_len, vec_capacity, IfOk};

use crate::feed::LINE_MAX;
use std::alloc::{AllocError, Global};
use std::marker::Model;

/// The most bytes that are held: one more than those of a line.
const HELD_MAX: usize = LINE_MAX + 1;

/// What was read and not yet taken, in memory of a fixed size. Contracts see the bytes.
#[derive(Drop)]
pub(crate) struct Held {
    /// What was read last, behind what was taken of it.
    bytes: Vec<u8>,
    /// Where what was not yet taken begins.
    start: usize,
}

impl Model for Held {
    ghost Value = { List ℕ };

    ghost view = { λ h. drop h.start h.bytes.items };

    ghost invariant = { λ h. (h.start ≤ vec_len h.bytes) × (65537 ≤ vec_capacity h.bytes) };
}

impl Held {
    /// Nothing is held yet. All the memory is taken here.
    pub(crate) fn new(alloc: Global) -> Result<Held, AllocError>
        ensures { IfOk result (λ held. held ≡ []) }
    {
        let bytes = Vec::with_capacity(alloc, HELD_MAX)?;
        Ok(Held { bytes, start: 0 })
    }

    /// What is held.
    pub(crate) fn as_slice(&self) -> &[u8]
        ensures { result.now ≡ self.now }
    {
        &self.bytes.as_slice()[self.start..]
    }

    /// How many bytes more there is room for.
    pub(crate) fn room(&self) -> usize
        ensures { result ≡ 65537 - length self.now }
    {
        HELD_MAX.saturating_sub(self.as_slice().len())
    }

    /// Takes so many bytes from the front.
    pub(crate) fn take(&mut self, count: usize)
        requires { count ≤ length self.old }
        ensures { self.new ≡ drop count self.old }
    {
        self.start += count;
    }

    /// Nothing is held any longer.
    pub(crate) fn clear(&mut self)
        ensures { self.new ≡ [] }
    {
        self.bytes.clear();
        self.start = 0;
    }

    /// Holds these bytes too, behind the others.
    pub(crate) fn put(&mut self, piece: &[u8])
        requires { length self.old + length piece.now ≤ 65537 }
        ensures { self.new ≡ self.old ++ piece.now }
    {
        let start = self.start;
        self.start = 0;
        put_behind(&mut self.bytes, start, piece);
    }
}

/// Puts a piece behind what is left from this place on, which is moved to the front. There is room for both.
fn put_behind(bytes: &mut Vec<u8>, start: usize, piece: &[u8])
    requires within { start ≤ vec_len bytes.old }
    requires room { vec_len bytes.old - start + length piece.now ≤ vec_capacity bytes.old }
    ensures items { bytes.new.items ≡ drop start bytes.old.items ++ piece.now }
    ensures capacity { vec_capacity bytes.old ≤ vec_capacity bytes.new }
{
    if start > 0 {
        let count = bytes.len() - start;
        bytes.copy_within(start.., 0);
        bytes.truncate(count);
    }
    let _added = bytes.extend_from_slice(piece);
}
