//! One line of a file of cases (profile).
ghost use Rattle.std.specs.Prelude.{IfOk};
ghost use Rattle.conformance.specs.Lines.{IsLine, IsSpoken};
ghost use Rattle.uecp_text.specs.Words.{texts};

use crate::case::Step;
use crate::steps::{pieces_of, step_of};
use std::alloc::Global;
use uecp_text::words_of;

/// What one line says.
#[derive(Debug, Drop)]
pub enum Line<'a> {
    /// The form of the file, and its version.
    Form,
    /// A case begins, of this name.
    Name(&'a [u8]),
    /// Its group.
    Group(&'a [u8]),
    /// Its rule.
    Rule(&'a [u8]),
    /// It doesn't count against a device of another producer.
    Profile,
    /// Its bytes are written so many at a time.
    Pieces(u32),
    /// A step of it.
    Does(Step),
}

/// Why a line, or the place where it stands, is refused.
#[derive(Clone, Copy, Debug, PartialEq, Eq)]
pub enum CaseFault {
    /// The line says nothing that a file of cases may say.
    NotALine,
    /// The line may not stand there.
    OutOfPlace,
    /// There was no memory for it.
    OutOfMemory,
}

/// What the text of a line says.
pub(crate) fn line_of(alloc: Global, text: &[u8]) -> Result<Line<'_>, CaseFault>
    ensures { IfOk result (IsLine text.now) }
{
    if text == b"format 1".as_slice() {
        return Ok(Line::Form);
    }
    if text == b"profile".as_slice() {
        return Ok(Line::Profile);
    }
    if let Some(name) = text.strip_prefix(b"case ") {
        return Ok(Line::Name(name));
    }
    if let Some(group) = text.strip_prefix(b"group ") {
        return Ok(Line::Group(group));
    }
    if let Some(rule) = text.strip_prefix(b"rule ") {
        return Ok(Line::Rule(rule));
    }
    match words_of(alloc, text) {
        Ok(words) => spoken(alloc, words.as_slice()),
        Err(_) => Err(CaseFault::OutOfMemory),
    }
}

/// What a line says by its words.
fn spoken(alloc: Global, words: &[&[u8]]) -> Result<Line<'static>, CaseFault>
    ensures { IfOk result (IsSpoken (texts words.now)) }
{
    match pieces_of(words) {
        Some(size) => Ok(Line::Pieces(size)),
        None => match step_of(alloc, words) {
            Some(step) => Ok(Line::Does(step)),
            None => Err(CaseFault::NotALine),
        },
    }
}
