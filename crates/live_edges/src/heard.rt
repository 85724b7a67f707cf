//! The two ends of a connection, which tell a line what is written and what is heard (profile).
ghost use Rattle.std.specs.Prelude.{◌≡◌};
ghost use Rattle.live_edges.specs.Heard.{unheard};

use crate::line::now;
use crate::patience::Patience;
use crate::watch::Watch;
use std::io;
use std::io::{ErrorKind, Read, Write};
use std::marker::Model;
use std::time::Clock;

/// A reader, whether a reply came that was waited for, and whether it ended or failed otherwise than by its limit of
/// time. Where nothing was answered for as long as the patience lasts, each read fails, and nothing is read.
#[derive(Drop)]
pub struct ReadMeter<'a, R, T> {
    reader: R,
    heard: bool,
    broken: bool,
    edge: Edge<'a, T>,
}

/// A writer, whose frames wait for their replies. Where nothing was answered for as long as the line is waited for,
/// each write fails, and nothing is written.
#[derive(Drop)]
pub struct WriteMeter<'a, W, T> {
    writer: W,
    broken: bool,
    edge: Edge<'a, T>,
}

/// Where an end of a connection finds the time and the line, and how long it is waited for.
#[derive(Drop)]
pub(crate) struct Edge<'a, T> {
    pub(crate) clock: &'a T,
    pub(crate) watch: &'a Watch,
    pub(crate) patience: Patience,
}

impl<'a, R, T> Model for ReadMeter<'a, R, T> {
    ghost use Rattle.live_edges.specs.Heard.{Heard};

    ghost Value = { Heard R };

    ghost view = { λ m. record { reader = m.reader; heard = m.heard; broken = m.broken } };
}

impl<'a, W, T> Model for WriteMeter<'a, W, T> {
    ghost Value = { W };

    ghost view = { λ m. m.writer };
}

impl<'a, R, T> ReadMeter<'a, R, T> {
    /// The reader, of which nothing was read yet.
    pub(crate) fn new(reader: R, edge: Edge<'a, T>) -> ReadMeter<'a, R, T>
        ensures { result ≡ unheard reader }
    {
        ReadMeter {
            reader,
            heard: false,
            broken: false,
            edge,
        }
    }

    /// Whether a read brought a reply that was waited for.
    pub fn is_heard(&self) -> bool
        ensures { result ≡ self.now.heard }
    {
        self.heard
    }

    /// Whether a read found the end, or failed otherwise than by its limit of time.
    pub fn is_broken(&self) -> bool
        ensures { result ≡ self.now.broken }
    {
        self.broken
    }

    /// The reader back, as it is.
    pub fn into_inner(self) -> R
        ensures { result ≡ self.entry.reader }
    {
        let ReadMeter {
            reader,
            heard: _,
            broken: _,
            edge: _,
        } = self;
        reader
    }
}

impl<'a, W, T> WriteMeter<'a, W, T> {
    /// The writer, to which nothing was written yet.
    pub(crate) fn new(writer: W, edge: Edge<'a, T>) -> WriteMeter<'a, W, T>
        ensures { result ≡ writer }
    {
        WriteMeter {
            writer,
            broken: false,
            edge,
        }
    }

    /// Whether a write failed otherwise than by its limit of time.
    pub(crate) fn is_broken(&self) -> bool {
        self.broken
    }

    /// The writer back, as it is.
    pub fn into_inner(self) -> W
        ensures { result ≡ self.entry }
    {
        let WriteMeter {
            writer,
            broken: _,
            edge: _,
        } = self;
        writer
    }
}

impl<'a, T: Clock> Edge<'a, T> {
    /// Whether the connection may be read of now.
    fn may_be_read(&self) -> bool {
        self.watch
            .line()
            .may_be_read(&self.patience, now(self.clock))
    }

    /// Whether the connection may be written to now.
    fn may_be_written(&self) -> bool {
        self.watch
            .line()
            .may_be_written(&self.patience, now(self.clock))
    }
}

impl<'a, R: Read, T: Clock> Read for ReadMeter<'a, R, T> {
    ghost remaining = { λ heard. R.remaining heard.reader };

    fn read(&mut self, buf: &mut [u8]) -> io::Result<usize> {
        if !self.edge.may_be_read() {
            return Err(ErrorKind::TimedOut.into());
        }
        let read = self.reader.read(buf);
        match &read {
            Ok(0) => self.broken = true,
            Ok(count) => {
                let is_answered = self.edge.watch.line().heard(&buf[..*count]);
                self.heard = self.heard || is_answered;
            }
            Err(error) => self.broken = self.broken || !is_late(error),
        }
        read
    }
}

impl<'a, W: Write, T: Clock> Write for WriteMeter<'a, W, T> {
    ghost contents = { λ writer. W.contents writer };

    fn write(&mut self, buf: &[u8]) -> io::Result<usize> {
        if !self.edge.may_be_written() {
            return Err(ErrorKind::TimedOut.into());
        }
        let written = self.writer.write(buf);
        match &written {
            Ok(count) => self.edge.watch.line().wrote(&buf[..*count]),
            Err(error) => self.broken = self.broken || !is_late(error),
        }
        written
    }

    fn flush(&mut self) -> io::Result<()> {
        self.writer.flush()
    }
}

/// Whether a call was given up for its limit of time, or interrupted.
fn is_late(error: &io::Error) -> bool {
    matches!(
        error.kind(),
        ErrorKind::WouldBlock | ErrorKind::TimedOut | ErrorKind::Interrupted
    )
}
