//! Standard input and its lines (profile).
ghost use Rattle.std.specs.Prelude.{◌≡◌, ◌<◌, ◌≤◌, ◌∷◌, ℕ, List, Err, IfOk, IfErr, option_copied, length, drop};
ghost use Rattle.memchr.specs.Find.{IsFirstByte, is_byte};
ghost use Rattle.uecp_text.specs.Input.{lines_of, without_end, without_last_spaces, trimmed, said};
ghost use Rattle.uecp_text.specs.Run.{IsInput, IsUnread};

use crate::run_fault::RunFault;
use memchr::memchr;
use std::alloc::Global;
use std::io::Read;

/// The most bytes of input that a run takes.
const INPUT_MAX: usize = 1_048_576;

/// The most bytes that one read asks for.
const READ_MAX: usize = 4096;

/// So many bytes of a line are looked at one by one for its end.
const NEAR: usize = 3;

/// All of the input up to its end.
///
/// Errors: `TooLong` as soon as one byte more than the limit was read; `Reading` where a read failed; `OutOfMemory`.
pub fn read_all<R: Read>(alloc: Global, reader: &mut R) -> Result<Vec<u8>, RunFault>
    ensures input { IfOk result (λ all. IsInput (R.remaining reader.old) (R.remaining reader.new) all.items) }
    ensures refused { IfErr result (IsUnread (R.remaining reader.old) (R.remaining reader.new)) }
{
    let mut all = Vec::new(alloc);
    let mut buffer = [0u8; READ_MAX];
    while all.len() <= INPUT_MAX {
        let room = (INPUT_MAX + 1 - all.len()).min(READ_MAX);
        match reader.read(&mut buffer[..room]) {
            Err(_) => return Err(RunFault::Reading),
            Ok(0) => return Ok(all),
            Ok(count) => all.extend_from_slice(&buffer[..count])?,
        }
    }
    Err(RunFault::TooLong)
}

/// What a line says: what stands between its spaces, or None where that is empty or a comment.
pub fn text_of(line: &[u8]) -> Option<&[u8]>
    ensures { option_copied result ≡ said line.now }
{
    let text = without_spaces(without_end(line));
    match text {
        [] | [b'#', ..] => None,
        _ => Some(text),
    }
}

/// The text without the spaces at its start and at its end.
fn without_spaces(text: &[u8]) -> &[u8]
    ensures { result.now ≡ trimmed text.now }
{
    let first = text.iter().take_while(|byte| **byte == b' ').count();
    without_last_spaces(&text[first..])
}

/// The text without the spaces at its end.
fn without_last_spaces(text: &[u8]) -> &[u8]
    ensures { result.now ≡ without_last_spaces text.now }
{
    let last = text.iter().rev().take_while(|byte| **byte == b' ').count();
    &text[..text.len() - last]
}

/// The line without its line feed and one carriage return before that. A line with no line feed stays whole.
fn without_end(line: &[u8]) -> &[u8]
    ensures { result.now ≡ without_end line.now }
{
    match line.strip_suffix(b"\r\n") {
        Some(text) => text,
        None => line.strip_suffix(b"\n").unwrap_or(line),
    }
}

/// The first line of an input that is not empty, with its line feed if it has one, and what follows it.
pub fn first_input_line(input: &[u8]) -> (&[u8], &[u8])
    requires { 0 < length input.now }
    ensures lines { lines_of input.now ≡ result.0.now ∷ lines_of result.1.now }
    ensures shorter { length result.1.now < length input.now }
{
    match line_feed(input) {
        Some(place) => input.split_at(place + 1),
        None => (input, &[]),
    }
}

/// The place of the first line feed. The first bytes are looked at one by one, since in a short line it is among them.
#[inline(always)]
fn line_feed(input: &[u8]) -> Option<usize>
    ensures { IsFirstByte (is_byte 0x0A) input.now result }
{
    let near = input.len().min(NEAR);
    'near: for place in 0..near {
        if input[place] == b'\n' {
            return Some(place);
        }
    }
    match memchr(b'\n', &input[near..]) {
        Some(place) => Some(near + place),
        None => None,
    }
}

/// What is left of some bytes once this many of them were used.
pub fn rest_after(bytes: &[u8], used: usize) -> &[u8]
    requires { used ≤ length bytes.now }
    ensures { result.now ≡ drop used bytes.now }
{
    &bytes[used..]
}
