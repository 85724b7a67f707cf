//! The commands from their input to their exit status (profile).
ghost use Rattle.std.specs.Prelude.{◌≡◌, IfErr, OnOk};
ghost use Rattle.std.specs.Io.KnownBytes.{Appends};
ghost use Rattle.uecp_text.specs.Input.{without_end};
ghost use Rattle.uecp_text.specs.Written.{Adds, Begins};
ghost use Rattle.uecp_text.specs.declared.run_fault.RunFault.TheVariants.{Writing};
ghost use Rattle.phrase_commands.specs.Quoting.{Quotes, QuotesInto, QuotesLines, TellsPhrases, string_line, taken};
ghost use Rattle.phrase_commands.specs.declared.page.TheConstants.{PHRASES};
ghost use Rattle.phrase_tokens.specs.View.{token_of};

use crate::page::PHRASES;
use crate::quoting::string_of;
use notices::{NoticesTo, fail};
use phrase_tokens::{Token, put_tokens};
use std::alloc::Global;
use std::io::{Read, Write};
use uecp_text::{Output, RunFault, first_input_line, read_all, write_parts};

/// Writes each line of the input as a string of a phrase, a line each, up to the first that no string can be, and
/// answers the exit status: 0 done, 1 a line was refused, 3 memory, reading or writing failed, or the input is too
/// long. All that stands in a line is text, also spaces at its ends and a `#`. An input of no bytes is one empty line.
pub fn run_quote<R: Read, W: Write, E: Write>(
    alloc: Global,
    reader: &mut R,
    writer: &mut W,
    errors: &mut NoticesTo<E>,
) -> u8
    // 0: of each line its string was written, and nothing else; nothing was said on `errors`. 1: no string says one of
    // the lines; those of the lines before it were written, and nothing else. 3: it failed, and a beginning of the
    // strings was written.
    ensures { QuotesLines result (R.remaining reader.old) (R.remaining reader.new) (W.contents writer.old)
        (W.contents writer.new) errors.old errors.new }
{
    match quote(alloc, reader, writer) {
        Ok(()) => 0,
        Err(fault) => fail(&fault, errors),
    }
}

/// Writes the strings of the lines. What was written stands where it stopped.
fn quote<R: Read, W: Write>(alloc: Global, reader: &mut R, writer: &mut W) -> Result<(), RunFault>
    ensures { Quotes (R.remaining reader.old) (R.remaining reader.new) (W.contents writer.old) (W.contents writer.new)
        result }
{
    let input = read_all(alloc, reader)?;
    let lines = taken(input.as_slice());
    let mut output = Output::new(alloc);
    let ran = put_strings(alloc, lines, &mut output);
    output.check()?;
    output.write_out(writer)?;
    ran
}

/// What is taken of an input: all of it; and of one that has no bytes one empty line.
fn taken(input: &[u8]) -> &[u8]
    ensures { result.now ≡ taken input.now }
{
    match input {
        [] => b"\n",
        _ => input,
    }
}

/// Adds the strings of the lines, up to the first that no string can be.
fn put_strings(alloc: Global, lines: &[u8], output: &mut Output) -> Result<(), RunFault>
    ensures { QuotesInto lines.now output.old output.new result }
{
    let mut rest = lines;
    let mut number = 1;
    while !rest.is_empty() {
        let (line, more) = first_input_line(rest);
        match string_of(alloc, without_end(line)) {
            Ok(string) => put_string(string, output),
            Err(fault) => return Err(fault.at(number)),
        }
        rest = more;
        number += 1;
    }
    Ok(())
}

/// Adds a string and the end of its line.
fn put_string(string: Token, output: &mut Output)
    ensures { Adds output.old output.new (string_line (token_of string)) }
{
    put_tokens(&[string], output);
    output.end();
}

/// The line without its line feed and one carriage return before that. A line with no line feed stays whole.
fn without_end(line: &[u8]) -> &[u8]
    ensures { result.now ≡ without_end line.now }
{
    match line.strip_suffix(b"\r\n") {
        Some(text) => text,
        None => line.strip_suffix(b"\n").unwrap_or(line),
    }
}

/// Writes the page of phrases, and answers the exit status: 0 done, 3 writing failed.
pub fn tell_phrases<W: Write, E: Write>(writer: &mut W, errors: &mut NoticesTo<E>) -> u8
    ensures { TellsPhrases result (W.contents writer.old) (W.contents writer.new) errors.old errors.new }
{
    match write_page(writer) {
        Ok(()) => 0,
        Err(fault) => fail(&fault, errors),
    }
}

/// Writes the page.
fn write_page<W: Write>(writer: &mut W) -> Result<(), RunFault>
    ensures written { OnOk result (Appends (W.contents writer.old) (W.contents writer.new) PHRASES.now) }
    ensures begun { Begins (W.contents writer.old) (W.contents writer.new) PHRASES.now }
    ensures failed { IfErr result (λ fault. fault ≡ Writing) }
{
    write_parts(&[PHRASES.as_bytes()], writer)?;
    writer.flush().map_err(|_| RunFault::Writing)
}
