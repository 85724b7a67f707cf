//! Bytes that come in pieces, cut into lines (profile).
ghost use Rattle.std.specs.Prelude.{◌≡◌, ◌≤◌, ◌-◌, ℕ, List, [], IfOk, OnErr, Ok, false, take, drop};
ghost use Rattle.std.specs.Prelude.{vec_len, IsTrue, ◌↔◌};
ghost use Rattle.std.specs.Io.KnownBytes.{Consumes, Keeps, IsAtEnd};
ghost use Rattle.page.specs.Lines.{Cutting, Cuts, IsLast, nothing_read};

use crate::intake::open_line::{Cut, OpenLine};
use memchr::memchr;
use std::alloc::{AllocError, Global};
use std::io;
use std::io::{ErrorKind, Read};
use std::marker::Model;

/// How many bytes are read at once.
const READ_MAX: usize = 65_536;

/// Bytes that were read, and the line that they are part of. What is kept of a line that is too long is bounded.
/// Contracts see the line that was handed out last, what is known of the next, and what was read and is not yet cut.
#[derive(Drop)]
pub struct Lines {
    piece: Vec<u8>,
    from: usize,
    to: usize,
    held: OpenLine,
}

impl Model for Lines {
    ghost Value = { Cutting };

    ghost view = { λ l. record { held = l.held; ahead = take (l.to - l.from) (drop l.from l.piece.items) } };

    ghost invariant = { λ l. (l.from ≤ l.to) × (l.to ≤ 65536) × (vec_len l.piece ≡ 65536) };
}

impl Lines {
    /// Nothing was read.
    pub fn new(alloc: Global) -> Result<Lines, AllocError>
        ensures { IfOk result (λ lines. lines ≡ nothing_read) }
    {
        Ok(Lines {
            piece: vec![in alloc; 0; READ_MAX]?,
            from: 0,
            to: 0,
            held: OpenLine::new(alloc),
        })
    }

    /// Makes one read, where all that was read is cut. Whether the reader is not at its end. Where a read would wait or
    /// was interrupted nothing came, and it is not at its end.
    ///
    /// Errors: those of the reader; nothing changes then.
    pub fn read<R: Read>(&mut self, reader: &mut R) -> io::Result<bool>
        requires { self.old.ahead ≡ [] }
        ensures read { IfOk result (λ _. (bytes : List ℕ) × (self.new ≡ record self.old { ahead = bytes })
            × Consumes (R.remaining reader.old) (R.remaining reader.new) bytes) }
        ensures ended { result ≡ Ok false → (self.new ≡ self.old) × IsAtEnd (R.remaining reader.new) }
        ensures err { OnErr result ((self.new ≡ self.old) × Keeps (R.remaining reader.old) (R.remaining reader.new)) }
    {
        self.from = 0;
        self.to = 0;
        match reader.read(self.piece.as_mut_slice()) {
            Ok(count) => {
                self.to = count;
                Ok(count > 0)
            }
            Err(error) => {
                if matches!(error.kind(), ErrorKind::WouldBlock | ErrorKind::Interrupted) {
                    Ok(true)
                } else {
                    Err(error)
                }
            }
        }
    }

    /// Whether all that was read is cut.
    pub fn is_cut(&self) -> bool
        ensures { IsTrue result ↔ (self.now.ahead ≡ []) }
    {
        self.piece.as_slice()[self.from..self.to].is_empty()
    }

    /// The next line of what was read, without its line feed; the one before is gone then.
    ///
    /// Errors: where memory is refused no line was cut, and the next call cuts the same.
    pub fn cut(&mut self) -> Result<Cut, AllocError>
        ensures cuts { IfOk result (Cuts self.old self.new) }
        ensures err { OnErr result (self.new ≡ self.old) }
    {
        let left = &self.piece.as_slice()[self.from..self.to];
        match memchr(b'\n', left) {
            Some(place) => {
                self.held.put(&left[..place])?;
                self.from += place + 1;
                Ok(self.held.end())
            }
            None => {
                self.held.put(left)?;
                self.from = self.to;
                Ok(Cut::Nothing)
            }
        }
    }

    /// At the end of the input: the line that no line feed ends, or nothing.
    pub fn last(&mut self) -> Cut
        ensures last { IsLast self.old.held self.new.held result }
        ensures ahead { self.new.ahead ≡ self.old.ahead }
    {
        self.held.last()
    }

    /// The line that was handed out last; nothing of one that was too long.
    pub fn line(&self) -> &[u8]
        ensures { result.now ≡ self.now.held.line }
    {
        self.held.line()
    }
}
