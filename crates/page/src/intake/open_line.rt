//! The line that bytes are put to until it ends (profile).
ghost use Rattle.std.specs.Prelude.{◌≡◌, ◌≤◌, true, List, [], Some, IfOk, OnErr, length};
ghost use Rattle.page.specs.Lines.{HeldLine, longer, begun_of, IsHanded, IsLast};

use std::alloc::{AllocError, Global};
use std::marker::Model;
use std::mem::swap;

/// The most bytes of a line without its line feed: what has more is no line of ours.
const LINE_MAX: usize = 65_536;

/// What comes next of the bytes that were read.
#[derive(Clone, Copy, Debug, PartialEq, Eq)]
pub enum Cut {
    /// A line.
    Line,
    /// A line of more than 65,536 bytes, which was passed over.
    TooLong,
    /// No line has ended.
    Nothing,
}

/// The line that was handed out last, and the beginning of the next. What is kept of either is bounded. Contracts see
/// both.
#[derive(Drop)]
pub(crate) struct OpenLine {
    line: Vec<u8>,
    part: Vec<u8>,
    is_long: bool,
}

impl Model for OpenLine {
    ghost Value = { HeldLine };

    ghost view = { λ l. record { line = l.line.items; begun = begun_of l.is_long l.part.items } };

    ghost invariant = { λ l. (length l.part.items ≤ 65536) × (l.is_long ≡ true → l.part.items ≡ []) };
}

impl OpenLine {
    /// Nothing came yet.
    pub(crate) fn new(alloc: Global) -> OpenLine
        ensures { result ≡ record { line = []; begun = Some [] } }
    {
        OpenLine {
            line: Vec::new(alloc),
            part: Vec::new(alloc),
            is_long: false,
        }
    }

    /// The line that was handed out last.
    pub(crate) fn line(&self) -> &[u8]
        ensures { result.now ≡ self.now.line }
    {
        self.line.as_slice()
    }

    /// The line goes on with these bytes. Of one that gets too long nothing is kept.
    pub(crate) fn put(&mut self, bytes: &[u8]) -> Result<(), AllocError>
        ensures ok { IfOk result (λ _. self.new.begun ≡ longer self.old.begun bytes.now) }
        ensures err { OnErr result (self.new ≡ self.old) }
    {
        if self.is_long {
            return Ok(());
        }
        if bytes.len() > LINE_MAX - self.part.len() {
            self.is_long = true;
            self.part.clear();
            return Ok(());
        }
        self.part.extend_from_slice(bytes)
    }

    /// The line ends here and is handed out, and the next begins.
    pub(crate) fn end(&mut self) -> Cut
        ensures { IsHanded self.old self.new result }
    {
        swap(&mut self.line, &mut self.part);
        self.part.clear();
        let was_long = self.is_long;
        self.is_long = false;
        if was_long { Cut::TooLong } else { Cut::Line }
    }

    /// The line ends here if it has begun, and is handed out.
    pub(crate) fn last(&mut self) -> Cut
        ensures { IsLast self.old self.new result }
    {
        if self.part.is_empty() && !self.is_long {
            Cut::Nothing
        } else {
            self.end()
        }
    }
}
