//! Whether what comes on a connection is of another protocol (profile). An encoder passes over bytes outside frames, so
//! a request of HTTP with frames in its body, as a web page can have a browser send one, would be a control line.
ghost use Rattle.std.specs.Prelude.{◌≡◌, ◌≢◌, ◌<◌, ◌≤◌, ◌++◌, [], length, take, true, IfOk, if◌then◌else◌};
ghost use Rattle.std.specs.Prelude.{nat_eq};
ghost use Rattle.std.specs.List.{list_any, starts_with};
ghost use Rattle.std.specs.Io.{ReadsAtMost};
ghost use Rattle.std.specs.Io.KnownBytes.{Keeps, ReadConsumes};
ghost use Rattle.device_edges.specs.declared.screen.Phase.TheVariants.{Judging, Ours, Foreign};
ghost use Rattle.device_edges.specs.Screen.{judged, left, unjudged, is_foreign, is_begun, was_foreign};

use arrayvec::ArrayVec;
use std::io;
use std::io::{ErrorKind, Read};
use std::marker::Model;

/// With what connections of HTTP and TLS begin: a method and a space, and the record of a handshake.
const OPENINGS: [&[u8]; 11] = [
    b"GET ",
    b"HEAD ",
    b"POST ",
    b"PUT ",
    b"DELETE ",
    b"CONNECT ",
    b"OPTIONS ",
    b"TRACE ",
    b"PATCH ",
    b"PRI ",
    b"\x16\x03",
];

/// How many bytes are held at most before they tell: as many as the longest opening has, and one.
const FIRST_MAX: usize = 9;

/// How far the first bytes of a connection are judged.
#[derive(Clone, Copy, Debug, PartialEq, Eq)]
pub enum Phase {
    /// They may be those of another protocol, or not.
    Judging,
    /// They are not.
    Ours,
    /// They are.
    Foreign,
}

/// A reader of which nothing is handed on where its first bytes are a method of HTTP and a space, or those of a
/// handshake of TLS; else all is. First bytes that may become such are held until it is known.
#[derive(Drop)]
pub struct Screened<R> {
    reader: R,
    phase: Phase,
    first: ArrayVec<u8, FIRST_MAX>,
}

impl<R> Model for Screened<R> {
    ghost use Rattle.device_edges.specs.Screen.{Screen};

    ghost Value = { Screen R };

    ghost view = { λ s. record { reader = s.reader; phase = s.phase; first = s.first.items } };
}

impl<R> Screened<R> {
    /// This reader, of which nothing was read yet.
    pub fn new(reader: R) -> Screened<R>
        ensures { result ≡ unjudged reader }
    {
        Screened {
            reader,
            phase: Phase::Judging,
            first: ArrayVec::new(),
        }
    }

    /// Whether its first bytes are those of another protocol.
    pub fn is_foreign(&self) -> bool
        ensures { result ≡ was_foreign self.now.phase }
    {
        match self.phase {
            Phase::Foreign => true,
            Phase::Judging | Phase::Ours => false,
        }
    }

    /// The reader back. First bytes that are held are lost.
    pub fn into_inner(self) -> R
        ensures { result ≡ self.reader }
    {
        let Screened {
            reader,
            phase: _,
            first: _,
        } = self;
        reader
    }

    /// Hands on of the first bytes what there is room for: how many.
    fn hand_on(&mut self, buf: &mut [u8]) -> usize
        requires { self.old.phase ≡ Ours }
        ensures hands { (self.old.first ≡ take result buf.new ++ self.new.first)
            × (self.new ≡ record self.old { first = self.new.first }) }
        ensures bound { result ≤ length buf.new }
        ensures none { result ≡ 0 → 0 < length buf.new → self.old.first ≡ [] }
    {
        let count = self.first.len().min(buf.len());
        buf[..count].copy_from_slice(&self.first[..count]);
        self.first.drain(..count);
        count
    }
}

impl<R: Read> Screened<R> {
    /// Reads until the first bytes tell whose connection it is: whether it is another protocol's.
    fn judge(&mut self) -> io::Result<bool>
        requires { self.old.phase ≡ Judging }
        ensures keeps { Keeps (left R.remaining self.old) (left R.remaining self.new) }
        ensures ok { IfOk result (λ foreign. self.new.phase ≡ (if foreign then Foreign else Ours)) }
    {
        for _read in 0..u64::MAX {
            match phase_of(self.first.as_slice()) {
                Phase::Judging => {}
                Phase::Ours => {
                    self.phase = Phase::Ours;
                    return Ok(false);
                }
                Phase::Foreign => {
                    self.phase = Phase::Foreign;
                    return Ok(true);
                }
            }
            let mut byte = [0u8];
            if self.reader.read(&mut byte)? == 0 {
                self.phase = Phase::Ours;
                return Ok(false);
            }
            self.first.push(byte[0]);
        }
        Err(ErrorKind::TimedOut.into())
    }

    /// The first read of the connection, which mostly tells whose it is.
    fn begin(&mut self, buf: &mut [u8]) -> io::Result<usize>
        requires phase { self.old.phase ≡ Judging }
        requires first { self.old.first ≡ [] }
        ensures bound { ReadsAtMost result buf.new }
        ensures bytes { ReadConsumes (left R.remaining self.old) (left R.remaining self.new) result buf.new }
    {
        let count = self.reader.read(buf)?;
        if count == 0 {
            return Ok(0);
        }
        match phase_of(&buf[..count]) {
            Phase::Ours => {
                self.phase = Phase::Ours;
                Ok(count)
            }
            Phase::Foreign => {
                self.phase = Phase::Foreign;
                Ok(0)
            }
            Phase::Judging => {
                hold(&buf[..count], &mut self.first);
                self.go_on(buf)
            }
        }
    }

    /// A read behind the first bytes that are held.
    fn go_on(&mut self, buf: &mut [u8]) -> io::Result<usize>
        requires { self.old.phase ≡ Judging }
        ensures bound { ReadsAtMost result buf.new }
        ensures bytes { ReadConsumes (left R.remaining self.old) (left R.remaining self.new) result buf.new }
    {
        if self.judge()? {
            return Ok(0);
        }
        self.pass(buf)
    }

    /// A read of a connection that is not another protocol's.
    fn pass(&mut self, buf: &mut [u8]) -> io::Result<usize>
        requires { self.old.phase ≡ Ours }
        ensures bound { ReadsAtMost result buf.new }
        ensures bytes { ReadConsumes (left R.remaining self.old) (left R.remaining self.new) result buf.new }
    {
        if self.first.is_empty() {
            return self.reader.read(buf);
        }
        Ok(self.hand_on(buf))
    }
}

impl<R: Read> Read for Screened<R> {
    ghost remaining = { left R.remaining };

    fn read(&mut self, buf: &mut [u8]) -> io::Result<usize> {
        match self.phase {
            Phase::Ours => self.pass(buf),
            Phase::Foreign => Ok(0),
            Phase::Judging => {
                if self.first.is_empty() {
                    self.begin(buf)
                } else {
                    self.go_on(buf)
                }
            }
        }
    }
}

/// What the first bytes of a connection tell of it.
fn phase_of(first: &[u8]) -> Phase
    ensures { result ≡ judged first.now }
{
    if begins_foreign(first) {
        Phase::Foreign
    } else if may_begin_foreign(first) {
        Phase::Judging
    } else {
        Phase::Ours
    }
}

/// Whether they begin as another protocol's.
pub(crate) fn begins_foreign(first: &[u8]) -> bool
    ensures { result ≡ is_foreign first.now }
{
    begins_as_one(first, &OPENINGS)
}

/// Whether another protocol's begin with them.
fn may_begin_foreign(first: &[u8]) -> bool
    ensures { result ≡ is_begun first.now }
{
    begins_one(first, &OPENINGS)
}

/// Whether the bytes begin as one of these.
fn begins_as_one(bytes: &[u8], openings: &[&[u8]]) -> bool
    ensures { result ≡ list_any (λ opening. starts_with nat_eq bytes.now opening.now) openings.now }
{
    openings.iter().any(|opening| bytes.starts_with(opening))
}

/// Whether one of these begins as the bytes.
fn begins_one(bytes: &[u8], openings: &[&[u8]]) -> bool
    ensures { result ≡ list_any (λ opening. starts_with nat_eq opening.now bytes.now) openings.now }
{
    openings.iter().any(|opening| opening.starts_with(bytes))
}

/// Holds these first bytes.
fn hold(bytes: &[u8], first: &mut ArrayVec<u8, FIRST_MAX>)
    requires empty { first.old.items ≡ [] }
    requires begun { is_begun bytes.now ≡ true }
    ensures { first.new.items ≡ bytes.now }
{
    match first.try_extend_from_slice(bytes) {
        Ok(()) => {}
        Err(_) => unreachable!(),
    }
}
