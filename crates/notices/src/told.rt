//! A writer that remembers whether a write failed. Source: profile.
ghost use Rattle.std.specs.Prelude.{◌≡◌, true};
ghost use Rattle.notices.specs.Told.{Says, Shows};

use crate::saying::Notices;
use std::fmt::Display;
use std::io::Write;
use std::marker::Model;
use uecp_text::{RunFault, report, write_parts};

/// What is said goes to a writer, and it is remembered whether a write failed. It is the one way to its writer.
/// Contracts see it as one value, `Told`.
///
/// ```
/// let mut errors = NoticesTo::new(rt.stderr().lock());
/// errors.say(&[b"uecp: ", path.as_bytes(), b": no such file\n"]);
/// ```
#[derive(Drop)]
pub struct NoticesTo<W: Write> {
    writer: W,
    is_whole: bool,
}

impl<W: Write> Model for NoticesTo<W> {
    ghost use Rattle.notices.specs.Told.{Told};

    ghost Value = { Told };

    ghost view = { λ n. record { held = W.contents n.writer; is_whole = n.is_whole } };
}

impl<W: Write> NoticesTo<W> {
    /// Will say it to this writer.
    pub fn new(writer: W) -> NoticesTo<W>
        ensures { result ≡ record { held = W.contents writer; is_whole = true } }
    {
        NoticesTo {
            writer,
            is_whole: true,
        }
    }

    /// The writer back.
    pub fn into_inner(self) -> W
        ensures { W.contents result ≡ self.held }
    {
        let NoticesTo {
            writer,
            is_whole: _,
        } = self;
        writer
    }

    /// Whether each write went well so far.
    pub fn is_whole(&self) -> bool
        ensures { result ≡ self.now.is_whole }
    {
        self.is_whole
    }
}

impl<W: Write> NoticesTo<W> {
    /// Says a value as it shows itself. Where no write failed the writer got all of that, as far as it is known.
    pub fn show<D: Display>(&mut self, value: &D)
        ensures { Shows self.old self.new (D.output value.now) }
    {
        if write!(self.writer, "{value}").is_err() {
            self.is_whole = false;
        }
    }
}

impl<W: Write> Notices for NoticesTo<W> {
    ghost says = { λ before after bytes. Says before after bytes };

    fn say(&mut self, parts: &[&[u8]]) {
        if write_parts(parts, &mut self.writer).is_err() {
            self.is_whole = false;
        }
    }

    fn report(&mut self, fault: &RunFault) {
        if report(fault, &mut self.writer).is_err() {
            self.is_whole = false;
        }
    }
}
