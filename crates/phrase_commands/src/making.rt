//! The command `make --words --fit` (profile).
ghost use Rattle.std.specs.Prelude.{◌≡◌, ◌≤◌, ◌++◌, ℕ, List, IfOk, IfErr, length, option_map};
ghost use Rattle.std.specs.String.{string_bytes};
ghost use Rattle.uecp_text.specs.Input.{lines_of};
ghost use Rattle.phrase_commands.specs.Scripts.{AreTaken, IsFitted, Makes, MakesFitted, TakesFitted};

use commands::{Job, MakeOptions};
use line_batches::say_fitted;
use notices::{NoticesTo, fail};
use rds_text::Region;
use std::alloc::{AllocError, Global};
use std::io::{Read, Write};
use titles::refitted_line;
use uecp_jobs::run_job;
use uecp_text::{RunFault, TextFault, first_input_line, read_all, text_of};

/// Makes the frames of a script of phrases of which a line that says nothing as it stands is made to fit, and answers
/// the exit status: 0 done, 1 a line was refused, 3 memory, reading or writing failed. What was taken in the place of a
/// line is said on `errors` with its number.
pub fn run_make_fitted<R: Read, W: Write, E: Write>(
    alloc: Global,
    region: Region,
    reader: &mut R,
    writer: &mut W,
    errors: &mut NoticesTo<E>,
) -> u8
    ensures { MakesFitted region result (R.remaining reader.old) (R.remaining reader.new) (W.contents writer.old)
        (W.contents writer.new) errors.old errors.new }
{
    match read_all(alloc, reader) {
        Err(fault) => fail(&fault, errors),
        Ok(input) => match script_of(alloc, region, input.as_slice(), errors) {
            Ok(script) => make(alloc, region, script.as_slice(), writer, errors),
            Err(_) => fail(&RunFault::OutOfMemory, errors),
        },
    }
}

/// Makes the frames of a script, and answers the exit status.
fn make<W: Write, E: Write>(
    alloc: Global,
    region: Region,
    script: &[u8],
    writer: &mut W,
    errors: &mut NoticesTo<E>,
) -> u8
    ensures { Makes region result script.now (W.contents writer.old) (W.contents writer.new) errors.old errors.new }
{
    let job = Job::MakeWith(MakeOptions {
        words: Some(region),
    });
    let mut reader = script;
    run_job(alloc, &job, &mut reader, writer, errors)
}

/// The script that is taken in the place of these lines, of which is said what was made to fit.
///
/// Errors: want of memory.
fn script_of<E: Write>(
    alloc: Global,
    region: Region,
    input: &[u8],
    errors: &mut NoticesTo<E>,
) -> Result<Vec<u8>, AllocError>
    requires { length input.now ≤ 1048576 }
    ensures taken { IfOk result (λ script. AreTaken region 1 (lines_of input.now) script.items errors.old errors.new) }
    ensures wanting { IfErr result (λ _. (script : List ℕ) × (before after : List (List ℕ))
        × (lines_of input.now ≡ before ++ after) × AreTaken region 1 before script errors.old errors.new) }
{
    let mut script = Vec::new(alloc);
    let mut rest = input;
    let mut number = 1;
    while !rest.is_empty() {
        let (line, more) = first_input_line(rest);
        let fitted = fitted_in(alloc, region, line)?;
        take(number, line, &fitted, &mut script, errors)?;
        rest = more;
        number += 1;
    }
    Ok(script)
}

/// What stands for a line with its strings made to fit, where it says nothing as it stands, and something so.
///
/// Errors: want of memory.
fn fitted_in(alloc: Global, region: Region, line: &[u8]) -> Result<Option<String>, AllocError>
    ensures { IfOk result (λ fitted. IsFitted region line.now (option_map string_bytes fitted)) }
{
    match text_of(line) {
        None => Ok(None),
        Some(text) => match refitted_line(alloc, region, text) {
            Ok((_, fitted)) => Ok(fitted),
            Err(TextFault::OutOfMemory) => Err(AllocError),
            Err(_) => Ok(None),
        },
    }
}

/// Adds a line, or what stands for it, to a script; and says the latter then.
///
/// Errors: want of memory; then nothing was said.
fn take<E: Write>(
    number: usize,
    line: &[u8],
    fitted: &Option<String>,
    script: &mut Vec<u8>,
    errors: &mut NoticesTo<E>,
) -> Result<(), AllocError>
    ensures taken { IfOk result (λ _. (taken : List ℕ) × (script.new.items ≡ script.old.items ++ taken)
        × TakesFitted number line.now (option_map string_bytes fitted.now) taken errors.old errors.new) }
    ensures unsaid { IfErr result (λ _. errors.new ≡ errors.old) }
{
    match fitted {
        None => script.extend_from_slice(line),
        Some(fitted) => {
            script.extend_from_slice(fitted.as_str().as_bytes())?;
            script.push(b'\n')?;
            say_fitted(number, fitted.as_str(), errors);
            Ok(())
        }
    }
}
