//! A stream of bytes as it is cut into segments (profile).
ghost use Rattle.std.specs.Prelude.{◌≡◌, ◌≤◌, ◌<◌, ◌+◌, ◌*◌, ◌++◌, ℕ, List, [], ◌∷◌, length, take, option_to_list};
ghost use Rattle.std.specs.Prelude.{IfNone, IfSome};
ghost use Rattle.bad_line.specs.declared.rules.fate.Fate.{Fate as FateValue};
ghost use Rattle.bad_line.specs.Pieces.{IsHeld};
ghost use Rattle.bad_line.specs.Crossing.{Cutting, Crosses};
ghost use Rattle.bad_line.specs.Delays.{delay_in, pace_in};

use crate::rules::{Fate, LineFaults};
use crate::segments::outcome::{end, give};
use arrayvec::ArrayVec;
use std::marker::Model;

/// The byte that begins a segment.
const START: u8 = 0xFE;

/// The byte that ends one.
const END: u8 = 0xFF;

/// The most bytes of a segment, and so of what is held of one.
pub(crate) const SEGMENT_MAX: usize = 1024;

/// How many bytes that have come out wait at most.
pub const OUT_MAX: usize = 8192;

/// What has come out, and waits to be handed on.
pub type Out = ArrayVec<u8, OUT_MAX>;

/// What a call of [`Cutter::cross`] brought.
#[derive(Clone, Copy, Debug, PartialEq, Eq)]
pub struct Crossed {
    /// How many of the bytes were taken.
    pub used: usize,
    /// What comes of the segment that ended with the last of them, if one did.
    pub fate: Option<Fate>,
}

/// Cuts the bytes of one direction into segments as they come, and lets out what the rules let through. A segment is
/// FE, at most 1,022 bytes that are neither FE nor FF, and FF; its beginning is held until its end comes, or until it
/// is certain that it is none. Contracts see what is held, and the rules with how many segments have come.
#[derive(Drop)]
pub struct Cutter {
    held: ArrayVec<u8, SEGMENT_MAX>,
    faults: LineFaults,
}

impl Model for Cutter {
    ghost use Rattle.bad_line.specs.Crossing.{Cutting};
    ghost use Rattle.bad_line.specs.Pieces.{IsHeld};

    ghost Value = { Cutting };

    ghost view = { λ c. record { held = c.held.items; faults = c.faults } };

    ghost invariant = { λ c. IsHeld c.held.items };
}

impl Cutter {
    /// A stream with these faults, of which nothing is held.
    pub fn new(faults: LineFaults) -> Cutter
        ensures { result ≡ record { held = []; faults = faults } }
    {
        Cutter {
            held: ArrayVec::new(),
            faults,
        }
    }

    /// The faults back, with how many segments have come. What is held is lost.
    pub fn into_faults(self) -> LineFaults
        ensures { result ≡ self.faults }
    {
        let Cutter { held: _, faults } = self;
        faults
    }

    /// What is held of a segment whose end has not come.
    pub fn held(&self) -> &[u8]
        ensures held { result.now ≡ self.now.held }
        ensures beginning { IsHeld self.now.held }
    {
        self.held.as_slice()
    }

    /// How many milliseconds later the segment of this number comes.
    pub(crate) fn delay(&self, number: u64) -> u64
        ensures { result ≡ delay_in number self.now.faults.rules }
    {
        self.faults.delay(number)
    }

    /// For how many milliseconds the last segment that came is held, one behind the other.
    pub(crate) fn pace(&self) -> u64
        ensures { result ≡ pace_in self.now.faults.passed self.now.faults.rules }
    {
        self.faults.pace()
    }

    /// How many segments have come; 2^64 - 1 stands for more too.
    pub fn passed(&self) -> u64
        ensures { result ≡ self.now.faults.passed }
    {
        self.faults.passed()
    }

    /// Takes the bytes that come next, up to the end of the first segment among them, or all of them. What comes out is
    /// put behind what `out` has. The caller knows that there is room: of a stream that holds at most 1,023 bytes, and
    /// of 512 more, at most 3,070 come out.
    pub fn cross(&mut self, bytes: &[u8], out: &mut Out) -> Crossed
        requires room { length out.old.items + 2 * length self.old.held + 2 * length bytes.now ≤ 8192 }
        ensures used { result.used ≤ length bytes.now }
        ensures all { IfNone result.fate (result.used ≡ length bytes.now) }
        ensures some { IfSome result.fate (λ _. 0 < result.used) }
        ensures crosses { (made : List ℕ) × (out.new.items ≡ out.old.items ++ made)
            × Crosses self.old self.new (take result.used bytes.now) made (option_to_list result.fate) }
        ensures few { length out.new.items + 2 * length self.new.held
            ≤ length out.old.items + 2 * length self.old.held + 2 * result.used }
        ensures held { length self.new.held ≤ 1023 }
    {
        let _ = &self.held;
        for (place, byte) in bytes.iter().enumerate() {
            let fate = self.put(*byte, out);
            if fate.is_some() {
                return Crossed {
                    used: place + 1,
                    fate,
                };
            }
        }
        Crossed {
            used: bytes.len(),
            fate: None,
        }
    }

    /// The next byte comes: what comes of the segment that it ends, if it ends one.
    fn put(&mut self, byte: u8, out: &mut Out) -> Option<Fate>
        requires room { length out.old.items + 2 * length self.old.held + 2 ≤ 8192 }
        ensures crosses { (made : List ℕ) × (out.new.items ≡ out.old.items ++ made)
            × Crosses self.old self.new (byte ∷ []) made (option_to_list result) }
        ensures few { length out.new.items + 2 * length self.new.held
            ≤ length out.old.items + 2 * length self.old.held + 2 }
    {
        if byte == START {
            give(self.held.as_slice(), out);
            self.held.clear();
            self.held.push(START);
            return None;
        }
        if self.held.is_empty() {
            out.push(byte);
            return None;
        }
        self.held.push(byte);
        if byte == END {
            let fate = self.faults.pass(self.held.len());
            end(&mut self.held, fate, out);
            return Some(fate);
        }
        if self.held.is_full() {
            give(self.held.as_slice(), out);
            self.held.clear();
        }
        None
    }
}
