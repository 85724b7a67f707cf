//! What is said of a run that stopped (profile).
ghost use Rattle.std.specs.Prelude.{◌≡◌, ◌++◌, flat_map, OnOk, IfErr};
ghost use Rattle.std.specs.Option.{option_map};
ghost use Rattle.std.specs.Io.KnownBytes.{Appends};
ghost use Rattle.uecp_text.specs.Faults.{error_lines, named, question};
ghost use Rattle.uecp_text.specs.declared.run_fault.RunFault.TheVariants.{Writing, Text};
ghost use Rattle.uecp_text.specs.declared.text_fault.TextFault.TheVariants as flaw;
ghost use Rattle.uecp_text.specs.Written.{Begins};

use crate::run_fault::RunFault;
use crate::text_fault::{TextFault, Unsaid};
use crate::whole_writes::write_whole;
use itoa::Buffer;
use std::io::Write;

/// Writes the line that is said of a fault, with no memory. Where the writer fails, it has got a beginning of that
/// line, and the answer is `Writing`.
pub fn report<W: Write>(fault: &RunFault, writer: &mut W) -> Result<(), RunFault>
    ensures said { OnOk result (Appends (W.contents writer.old) (W.contents writer.new) (error_lines fault.now)) }
    ensures begun { Begins (W.contents writer.old) (W.contents writer.new) (error_lines fault.now) }
    ensures failed { IfErr result (λ why. why ≡ Writing) }
{
    let mut buffer = Buffer::new();
    match *fault {
        RunFault::Text(number, TextFault::Unsaid(unsaid)) => report_unsaid(number, &unsaid, writer),
        RunFault::Text(number, refusal) => {
            let digits = buffer.format(number).as_bytes();
            let text = refusal.text().as_bytes();
            write_parts(&[b"uecp: line ", digits, b": ", text, b"\n"], writer)
        }
        RunFault::Services(fault) => {
            let name = fault.name().as_bytes();
            write_parts(&[b"uecp: services: ", name, b"\n"], writer)
        }
        RunFault::NotAList => write_parts(&[b"uecp: services: NotAList\n"], writer),
        RunFault::Address => write_parts(&[b"uecp: address: NotExact\n"], writer),
        RunFault::TooLong => write_parts(&[b"uecp: input too long\n"], writer),
        RunFault::Reading => write_parts(&[b"uecp: reading failed\n"], writer),
        RunFault::Writing => write_parts(&[b"uecp: writing failed\n"], writer),
        RunFault::OutOfMemory => write_parts(&[b"uecp: out of memory\n"], writer),
        RunFault::Listening => write_parts(&[b"uecp: listening failed\n"], writer),
        RunFault::Connection => write_parts(&[b"uecp: connection failed\n"], writer),
        RunFault::Outstanding => Ok(()),
    }
}

/// Writes the line that is said of a line of phrases that says nothing.
fn report_unsaid<W: Write>(number: usize, unsaid: &Unsaid, writer: &mut W) -> Result<(), RunFault>
    ensures said { OnOk result (Appends (W.contents writer.old) (W.contents writer.new)
        (error_lines (Text number (flaw.Unsaid unsaid.now)))) }
    ensures begun { Begins (W.contents writer.old) (W.contents writer.new)
        (error_lines (Text number (flaw.Unsaid unsaid.now))) }
    ensures failed { IfErr result (λ why. why ≡ Writing) }
{
    let mut lines = Buffer::new();
    let line = lines.format(number).as_bytes();
    let mut columns = Buffer::new();
    let column = columns.format(unsaid.column).as_bytes();
    let mut room = [0u8; 4];
    let (open, character, close) = quoted(unsaid.character, &mut room);
    let what = unsaid.what.as_bytes();
    let (ask, word, mark) = asked(unsaid.nearest);
    write_parts(
        &[
            b"uecp: line ",
            line,
            b", column ",
            column,
            b": ",
            open,
            character,
            close,
            what,
            ask,
            word,
            mark,
            b"\n",
        ],
        writer,
    )
}

/// The parts of a character between quotes, where one is at fault.
fn quoted(character: Option<char>, room: &mut [u8; 4]) -> (&[u8], &[u8], &[u8])
    ensures { result.0.now ++ (result.1.now ++ result.2.now) ≡ named character }
{
    match character {
        Some(character) => (b"'", character.encode_utf8(room).as_bytes(), b"' "),
        None => (b"expected ", b"", b""),
    }
}

/// The parts of the question for the nearest word, where one is near.
fn asked(nearest: Option<&'static str>) -> (&'static [u8], &'static [u8], &'static [u8])
    ensures { result.0.now ++ (result.1.now ++ result.2.now)
        ≡ question (option_map (λ word. word.now) nearest.entry) }
{
    match nearest {
        Some(word) => (b"; did you mean ", word.as_bytes(), b"?"),
        None => (b"", b"", b""),
    }
}

/// Writes the parts one after another, as far as the writer takes them, with no memory. Where the writer fails, it has
/// got a beginning of them, and the answer is `Writing`.
pub fn write_parts<W: Write>(parts: &[&[u8]], writer: &mut W) -> Result<(), RunFault>
    ensures written { OnOk result (Appends (W.contents writer.old) (W.contents writer.new)
        (flat_map (λ part. part.now) parts.now)) }
    ensures begun { Begins (W.contents writer.old) (W.contents writer.new) (flat_map (λ part. part.now) parts.now) }
    ensures failed { IfErr result (λ why. why ≡ Writing) }
{
    for part in parts {
        write_whole(part, writer)?;
    }
    Ok(())
}
