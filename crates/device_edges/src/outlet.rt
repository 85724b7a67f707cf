//! Lines that go out to a reader that is waited for no longer than so long (profile).
ghost use Rattle.std.specs.Prelude.{◌≡◌, ◌⊎◌, ◌++◌, ℕ, Bool, [], Ok, true, false, IfOk, OnOk, OnErr};
ghost use Rattle.std.specs.Io.{WritesAtMost};
ghost use Rattle.std.specs.Io.KnownBytes.{Keeps, WriteAppends};
ghost use Rattle.device_edges.specs.declared.outlet.Fate.TheVariants.{LeftOut};
ghost use Rattle.device_edges.specs.Outlet.{Comes, HasStopped, Stops, gap, is_stalled, lines_of, more, outlet_at_first};
ghost use Rattle.device_edges.specs.Outlet.{patience, standing, untold};

use itoa::Buffer;
use std::alloc::Global;
use std::io;
use std::io::{ErrorKind, Write};
use std::marker::Model;

/// How many bytes are written at once: as many as a pipe takes that takes any.
const PIECE: usize = 4096;

/// Whether who reads what is written takes more.
pub trait Taker {
    // What was answered of so many milliseconds, and how the value stands then.
    ghost answers: { Self → ℕ → Bool → Self → Type 0 } = { λ _ _ _ _. Unit {0} };

    /// Whether a write of up to 4,096 bytes would not wait, now or after so many milliseconds at most.
    fn takes(&mut self, milliseconds: u64) -> bool
        ensures { answers self.old milliseconds result self.new };
}

/// What comes of a text.
#[derive(Clone, Copy, Debug, PartialEq, Eq)]
pub enum Fate {
    /// It goes out whole.
    Told,
    /// Nothing of it goes out, and its lines are counted.
    LeftOut,
}

/// How it is told how many lines were left out: what stands before the number, and behind it.
#[derive(Debug, Drop)]
pub struct Wording<'a> {
    /// Before it.
    pub before: &'a str,
    /// Behind it, with the end of the line.
    pub behind: &'a str,
}

impl<'a> Model for Wording<'a> {
    ghost use Rattle.device_edges.specs.Outlet.{Wording};

    ghost Value = { Wording };

    ghost view = { λ w. record { before = w.before.now; behind = w.behind.now } };
}

/// A writer to which whole lines go, and which is waited for no longer than so long: what its reader does not take is
/// left out, and how much that is is told before the next line. Contracts see it as one value, `Outlet`.
#[derive(Drop)]
pub struct Outlet<W: Write, T: Taker> {
    writer: W,
    taker: T,
    owed: Vec<u8>,
    left_out: u64,
}

impl<W: Write, T: Taker> Model for Outlet<W, T> {
    ghost use Rattle.device_edges.specs.Outlet.{Outlet};

    ghost Value = { Outlet };

    ghost view = { λ o. record { held = W.contents o.writer; owed = o.owed.items; left_out = o.left_out } };
}

impl<W: Write, T: Taker> Outlet<W, T> {
    /// Lines will go to this writer, whose reader takes them.
    pub fn new(alloc: Global, writer: W, taker: T) -> Outlet<W, T>
        ensures { result ≡ outlet_at_first (W.contents writer) }
    {
        Outlet {
            writer,
            taker,
            owed: Vec::new(alloc),
            left_out: 0,
        }
    }

    /// Tells a text of whole lines, or leaves it out where the reader does not take it within so many milliseconds, or
    /// at once where it has stopped already.
    ///
    /// Errors: the writer failed, as where nobody reads any more; or memory was wanting.
    pub fn tell(
        &mut self,
        text: &[u8],
        wording: &Wording<'_>,
        milliseconds: u64,
    ) -> io::Result<Fate>
        ensures comes { IfOk result (λ fate. Comes wording.now fate text.now self.old self.new) }
        ensures stops { OnErr result (Stops wording.now text.now self.old self.new) }
        ensures waits { result ≡ Ok LeftOut → HasStopped T.answers (patience self.old milliseconds) }
    {
        let patience = if self.is_stalled() { 0 } else { milliseconds };
        if !self.takes(patience)? {
            self.left_out = self.left_out.saturating_add(lines_of(text) as u64);
            return Ok(Fate::LeftOut);
        }
        self.owe(text, wording)?;
        self.write_piece()?;
        self.pay(milliseconds)?;
        Ok(Fate::Told)
    }

    /// Hands these bytes on as they are, and waits for as long as it takes.
    ///
    /// Errors: the writer failed.
    pub fn pass(&mut self, bytes: &[u8]) -> io::Result<usize>
        ensures bound { WritesAtMost result bytes.now }
        ensures held { WriteAppends self.old.held self.new.held result bytes.now }
        ensures owed { self.new.owed ≡ self.old.owed }
        ensures left_out { self.new.left_out ≡ self.old.left_out }
    {
        self.writer.write(bytes)
    }

    /// Has the writer flushed.
    ///
    /// Errors: the writer failed.
    pub fn flush(&mut self) -> io::Result<()>
        ensures held { Keeps self.old.held self.new.held }
        ensures owed { self.new.owed ≡ self.old.owed }
        ensures left_out { self.new.left_out ≡ self.old.left_out }
    {
        self.writer.flush()
    }

    /// Nothing more will come: what is owed and how many lines were left out goes out where the reader takes it now.
    /// How many lines were not told in the end.
    pub fn close(&mut self, wording: &Wording<'_>) -> u64
        ensures untold { result ≡ untold self.new }
        ensures stands { Stops wording.now [] self.old self.new }
    {
        if self.is_stalled() {
            let _told = self.tell(&[], wording, 0);
        }
        self.left_out
            .saturating_add(lines_of(self.owed.as_slice()) as u64)
    }

    /// Whether lines were left out, or a text has gone out in part.
    fn is_stalled(&self) -> bool
        ensures { result ≡ is_stalled self.now }
    {
        self.left_out != 0 || self.owed.len() != 0
    }

    /// Whether nothing is owed, and the reader takes more within so many milliseconds.
    fn takes(&mut self, milliseconds: u64) -> io::Result<bool>
        ensures same { Keeps (standing self.old) (standing self.new) }
        ensures left_out { self.new.left_out ≡ self.old.left_out }
        ensures owed { result ≡ Ok true → self.new.owed ≡ [] }
        ensures stopped { result ≡ Ok false → HasStopped T.answers milliseconds }
    {
        self.pay(milliseconds)?;
        Ok(self.owed.is_empty() && self.taker.takes(milliseconds))
    }

    /// Owes this text, behind how many lines were left out.
    fn owe(&mut self, text: &[u8], wording: &Wording<'_>) -> io::Result<()>
        requires { self.old.owed ≡ [] }
        ensures held { self.new.held ≡ self.old.held }
        ensures owes { OnOk result ((self.new.owed ≡ gap wording.now self.old.left_out ++ text.now)
            × (self.new.left_out ≡ 0)) }
        ensures none { OnErr result ((self.new.owed ≡ []) × (self.new.left_out ≡ self.old.left_out)) }
    {
        if put_text(wording, self.left_out, text, &mut self.owed).is_err() {
            self.owed.clear();
            return Err(ErrorKind::OutOfMemory.into());
        }
        self.left_out = 0;
        Ok(())
    }

    /// Writes what is owed, piece by piece, as far as the reader takes each within so many milliseconds.
    fn pay(&mut self, milliseconds: u64) -> io::Result<()>
        ensures same { Keeps (standing self.old) (standing self.new) }
        ensures left_out { self.new.left_out ≡ self.old.left_out }
        ensures paid { OnOk result ((self.new.owed ≡ []) ⊎ HasStopped T.answers milliseconds) }
    {
        for _piece in 0..u64::MAX {
            if self.owed.is_empty() || !self.taker.takes(milliseconds) {
                return Ok(());
            }
            self.write_piece()?;
        }
        Err(ErrorKind::TimedOut.into())
    }

    /// Makes one write of what is owed, if anything is.
    fn write_piece(&mut self) -> io::Result<()>
        ensures same { Keeps (standing self.old) (standing self.new) }
        ensures left_out { self.new.left_out ≡ self.old.left_out }
    {
        if self.owed.is_empty() {
            return Ok(());
        }
        let most = self.owed.len().min(PIECE);
        match self.writer.write(&self.owed[..most]) {
            Ok(0) => Err(ErrorKind::WriteZero.into()),
            Ok(count) => {
                self.owed.drain(..count);
                Ok(())
            }
            Err(error) if error.kind() == ErrorKind::Interrupted => Ok(()),
            Err(error) => Err(error),
        }
    }
}

/// How many lines a text has.
fn lines_of(text: &[u8]) -> usize
    ensures { result ≡ lines_of text.now }
{
    text.iter().filter(|byte| **byte == 10).count()
}

/// Puts a text down behind how many lines were left out.
fn put_text(wording: &Wording<'_>, left_out: u64, text: &[u8], owed: &mut Vec<u8>) -> io::Result<()>
    requires { owed.old.items ≡ [] }
    ensures { OnOk result (owed.new.items ≡ gap wording.now left_out ++ text.now) }
{
    if left_out != 0 {
        owed.extend_from_slice(wording.before.as_bytes())?;
        owed.extend_from_slice(Buffer::new().format(left_out).as_bytes())?;
        owed.extend_from_slice(wording.behind.as_bytes())?;
    }
    owed.extend_from_slice(text)?;
    Ok(())
}
