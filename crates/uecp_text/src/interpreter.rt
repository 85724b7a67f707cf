//! What takes the texts of an input, and the run over them (profile).
ghost use Rattle.std.specs.Prelude.{◌≡◌, ℕ, List, [], true};
ghost use Rattle.uecp_text.specs.Run.{Meaning, Takes, TakesLine, RunsOn, RunsInto, RunsWhole};
ghost use Rattle.uecp_text.specs.Input.{said, under, texts_of};
ghost use Rattle.uecp_text.specs.Written.{Adds};

use crate::input::{first_input_line, read_all, text_of};
use crate::output::Output;
use crate::run_fault::RunFault;
use crate::text_fault::TextFault;
use std::alloc::Global;
use std::io::{Read, Write};

/// Whether the run goes on after a text that was taken.
#[derive(Clone, Copy, Debug, PartialEq, Eq)]
pub enum Taken {
    /// The next text comes.
    GoesOn,
    /// The run ends here, since what the text asks for is outstanding.
    Ends,
}

/// Something that takes what the lines of an input say, one after another. Contracts see its value; `meaning` tells, of
/// a value and a text, what the text comes to and which value it leaves, and `closing` the lines that end an output.
pub trait Interpreter {
    // What a text comes to, and the value that it leaves.
    ghost meaning: { Meaning Self };

    // The lines that come last.
    ghost closing: { Self → List ℕ };

    /// Takes one text, and adds what it brings to the output. Where it is refused nothing is added; where memory is
    /// wanting nothing is said of the value and of the output.
    fn take(&mut self, alloc: Global, text: &[u8], output: &mut Output) -> Result<Taken, TextFault>
        ensures { Takes meaning self.old text.now output.old result self.new output.new };

    /// Adds the lines that come last.
    fn close(&self, output: &mut Output)
        ensures { Adds output.old output.new (closing self.now) };
}

/// Runs the interpreter over all that the reader has, up to the first text that is refused or ends the run; where there
/// is none the closing lines come last. What there is to say is written out at the end, also where the run stopped.
///
/// Errors: `Line` where a text was refused, `Outstanding` where one ended the run; `TooLong`, `Reading` and `Writing`
/// of the input and the output; `OutOfMemory`.
pub fn run<R: Read, W: Write, I: Interpreter>(
    alloc: Global,
    reader: &mut R,
    interpreter: &mut I,
    writer: &mut W,
) -> Result<(), RunFault>
    ensures { RunsWhole I.meaning interpreter.old I.closing (R.remaining reader.old) (R.remaining reader.new)
        (W.contents writer.old) (W.contents writer.new) result }
{
    let input = read_all(alloc, reader)?;
    let mut output = Output::new(alloc);
    let ran = run_into(alloc, input.as_slice(), interpreter, &mut output);
    output.write_out(writer)?;
    ran
}

/// The same over an input, into an output.
fn run_into<I: Interpreter>(
    alloc: Global,
    input: &[u8],
    interpreter: &mut I,
    output: &mut Output,
) -> Result<(), RunFault>
    ensures { RunsInto I.meaning interpreter.old I.closing input.now output.old result output.new }
{
    let mut lines = Output::new(alloc);
    run_lines(alloc, input, interpreter, &mut lines, output)?;
    lines.clear();
    interpreter.close(&mut lines);
    lines.check()?;
    Ok(output.append(&lines)?)
}

/// Takes what the lines of the input say, up to the first text at which the run stops. What they bring is kept in
/// `lines` until that is long, and then added to the output; so where memory is wanting the output stays.
fn run_lines<I: Interpreter>(
    alloc: Global,
    input: &[u8],
    interpreter: &mut I,
    lines: &mut Output,
    output: &mut Output,
) -> Result<(), RunFault>
    requires empty { lines.old.bytes ≡ [] }
    requires whole { lines.old.is_whole ≡ true }
    ensures { RunsOn I.meaning interpreter.old (texts_of input.now) output.old result interpreter.new output.new }
{
    let mut rest = input;
    let mut number = 1;
    while !rest.is_empty() {
        let (line, more) = first_input_line(rest);
        match take_line(alloc, number, line, interpreter, lines) {
            Ok(()) => {}
            Err(RunFault::OutOfMemory) => return Err(RunFault::OutOfMemory),
            Err(fault) => {
                output.append(lines)?;
                return Err(fault);
            }
        }
        if lines.is_long() {
            output.append(lines)?;
            lines.clear();
        }
        rest = more;
        number += 1;
    }
    Ok(output.append(lines)?)
}

/// Takes what the line of this number says, if it says anything, and adds what it brings to the lines. Where memory is
/// wanting nothing is said of them.
#[inline(always)]
fn take_line<I: Interpreter>(
    alloc: Global,
    number: usize,
    line: &[u8],
    interpreter: &mut I,
    lines: &mut Output,
) -> Result<(), RunFault>
    ensures { TakesLine I.meaning interpreter.old (under number (said line.now) []) lines.old result interpreter.new
        lines.new }
{
    let Some(text) = text_of(line) else {
        return Ok(());
    };
    match interpreter.take(alloc, text, lines) {
        Ok(Taken::GoesOn) => Ok(()),
        Ok(Taken::Ends) => Err(RunFault::Outstanding),
        Err(fault) => Err(fault.at(number)),
    }
}
