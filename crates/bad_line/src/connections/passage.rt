//! One direction of a connection with faults (profile).
ghost use Rattle.std.specs.Prelude.{◌≡◌, ◌<◌, ◌≤◌, length, drop, true, false, IsTrue};
ghost use Rattle.bad_line.specs.Delays.{delay_in, pace_in};
ghost use Rattle.bad_line.specs.Passages.{Direction, Takes, TakesAll, opened};

use crate::connections::effect::{Effects, tell_fate};
use crate::rules::{LineFaults, Way};
use crate::segments::{Cutter, Out};
use arrayvec::ArrayVec;
use std::marker::Model;

/// How many bytes may wait at most where others come, so that there is room for what comes out of those.
const WAITING_MAX: usize = 5120;

/// How many segments end at most with the bytes of one call.
const SEGMENTS_MAX: usize = 512;

/// The end of a segment that came: its number, and how many bytes waited behind what came out of it.
#[derive(Clone, Copy, Debug, Default)]
pub(crate) struct Mark {
    pub(crate) number: u64,
    pub(crate) waiting: usize,
}

/// The segments that came with one call, in order.
pub(crate) type Marks = ArrayVec<Mark, SEGMENTS_MAX>;

/// One direction of a connection: the stream as it is cut, and what has come out of it and was not handed on yet.
#[derive(Drop)]
pub(crate) struct Passage {
    cutter: Cutter,
    out: Out,
    /// How many bytes of `out` were handed on.
    given: usize,
    is_broken: bool,
    marks: Marks,
}

impl Model for Passage {
    ghost use Rattle.std.specs.Prelude.{◌≤◌, length, drop};
    ghost use Rattle.bad_line.specs.Passages.{Direction};

    ghost Value = { Direction };

    ghost view = { λ p. record { cutting = p.cutter; waiting = drop p.given p.out.items; is_broken = p.is_broken } };

    ghost invariant = { λ p. (p.given ≤ length p.out.items) × (length p.out.items ≤ 8192) };
}

impl Passage {
    /// A direction of a new connection, with the faults that go on.
    pub(crate) fn new(faults: LineFaults) -> Passage
        ensures { result ≡ opened faults }
    {
        Passage {
            cutter: Cutter::new(faults),
            out: ArrayVec::new(),
            given: 0,
            is_broken: false,
            marks: ArrayVec::new(),
        }
    }

    /// The faults back.
    pub(crate) fn into_faults(self) -> LineFaults
        ensures { result ≡ self.cutting.faults }
    {
        let Passage {
            cutter,
            out: _,
            given: _,
            is_broken: _,
            marks: _,
        } = self;
        cutter.into_faults()
    }

    /// Whether the connection has broken.
    pub(crate) fn is_broken(&self) -> bool
        ensures { result ≡ self.now.is_broken }
    {
        self.is_broken
    }

    /// What waits to be handed on.
    pub(crate) fn waiting(&self) -> &[u8]
        ensures { result.now ≡ self.now.waiting }
    {
        &self.out.as_slice()[self.given..]
    }

    /// So many of the first bytes that wait were handed on.
    pub(crate) fn give(&mut self, count: usize)
        requires { count ≤ length self.old.waiting }
        ensures { self.new ≡ record self.old { waiting = drop count self.old.waiting } }
    {
        self.given += count;
    }

    /// The segments that came with the last call of `take`.
    pub(crate) fn marks(&self) -> &[Mark] {
        self.marks.as_slice()
    }

    /// How many milliseconds later the segment of this number comes.
    pub(crate) fn delay(&self, number: u64) -> u64
        ensures { result ≡ delay_in number self.now.cutting.faults.rules }
    {
        self.cutter.delay(number)
    }

    /// For how many milliseconds the last segment that came is held, one behind the other.
    pub(crate) fn pace(&self) -> u64
        ensures { result ≡ pace_in self.now.cutting.faults.passed self.now.cutting.faults.rules }
    {
        self.cutter.pace()
    }

    /// Whether there is room for what comes out of 512 bytes.
    pub(crate) fn has_room(&self) -> bool
        ensures { IsTrue result → length self.now.waiting ≤ 5120 }
    {
        self.waiting().len() <= WAITING_MAX
    }

    /// Bytes come in this direction, at most 512, and there is room for what comes out: how many of them were taken.
    /// That is all of them, but where the connection breaks. What the line does to segments is told as it does it.
    pub(crate) fn take<E: Effects>(&mut self, bytes: &[u8], way: Way, effects: &E) -> usize
        requires few { length bytes.now ≤ 512 }
        requires room { length self.old.waiting ≤ 5120 }
        requires holds { self.old.is_broken ≡ false }
        ensures { TakesAll self.old self.new bytes.now result }
    {
        let_go(&mut self.out, self.given);
        self.given = 0;
        self.marks.clear();
        let crossed = cross_all(
            &mut self.cutter,
            &mut self.out,
            &mut self.marks,
            bytes,
            way,
            effects,
        );
        self.is_broken = crossed.is_broken;
        crossed.used
    }
}

/// The first so many bytes are let go.
fn let_go(out: &mut Out, count: usize)
    requires { count ≤ length out.old.items }
    ensures { out.new.items ≡ drop count out.old.items }
{
    out.drain(..count);
}

/// How many bytes crossed, and whether the connection has broken.
#[derive(Clone, Copy, Debug)]
struct Crossing {
    used: usize,
    is_broken: bool,
}

/// Bytes come, at most 512: all of them cross, or those up to the segment behind which the connection breaks. The
/// segments that end are marked.
fn cross_all<E: Effects>(
    cutter: &mut Cutter,
    out: &mut Out,
    marks: &mut Marks,
    bytes: &[u8],
    way: Way,
    effects: &E,
) -> Crossing
    requires few { length bytes.now ≤ 512 }
    requires room { length out.old.items ≤ 5120 }
    ensures takes { Takes (record { cutting = cutter.old; waiting = out.old.items; is_broken = false })
        (record { cutting = cutter.new; waiting = out.new.items; is_broken = result.is_broken }) bytes.now result.used }
    ensures all { result.is_broken ≡ false → result.used ≡ length bytes.now }
    ensures some { 0 < length bytes.now → 0 < result.used }
    ensures room { length out.new.items ≤ 8192 }
{
    let _ = cutter.held();
    let mut used = 0;
    let mut is_broken = false;
    while used < bytes.len() && !is_broken {
        let crossed = cutter.cross(&bytes[used..], out);
        used += crossed.used;
        if let Some(fate) = crossed.fate {
            let number = cutter.passed();
            tell_fate(way, number, fate, effects);
            let _ = marks.try_push(Mark {
                number,
                waiting: out.len(),
            });
            is_broken = fate.breaks;
        }
    }
    Crossing { used, is_broken }
}
