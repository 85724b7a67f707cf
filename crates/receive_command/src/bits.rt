//! Bits are heard from a reader to its end (profile).
ghost use Rattle.std.specs.Prelude.{◌≡◌, ◌&&◌, is_some};
ghost use Rattle.receive_command.specs.Bits.{ReceivesBits};

use crate::bit_input::{BitHearing, hear_bits, note_foreign};
use commands::{ReceiveOptions, ShownForm};
use notices::{NoticesTo, fail};
use std::alloc::Global;
use std::io::{ErrorKind, Read, Write};
use std::time::Clock;
use uecp_text::{Output, RunFault};

/// The most bytes that are asked for at once.
const READ_MAX: usize = 4096;

/// Tells what a receiver shows of the groups in a stream of bits, the characters 0 and 1, as it changes: wherever the
/// stream begins, and behind each group before more is read. White space is nothing; anything else is said on `errors`
/// once, and passed over. It answers the exit status: 0 at the end of the input, 1 there where some of it was neither
/// bit nor white space, 3 where memory, reading or writing failed, which is said on `errors`.
pub fn run_receive_bits<R: Read, W: Write, E: Write, C: Clock>(
    alloc: Global,
    job: &ReceiveOptions,
    clock: Option<&C>,
    reader: &mut R,
    writer: &mut W,
    errors: &mut NoticesTo<E>,
) -> u8
    ensures { ReceivesBits job.now.form (job.now.time && is_some clock.entry) result
        (R.remaining reader.old) (R.remaining reader.new) (W.contents writer.old) (W.contents writer.new)
        errors.old errors.new }
{
    let clock = if job.time { clock } else { None };
    receive_bits(alloc, job.form, clock, reader, writer, errors)
}

/// Hears one read after another, and answers the exit status.
fn receive_bits<R: Read, W: Write, E: Write, C: Clock>(
    alloc: Global,
    form: ShownForm,
    clock: Option<&C>,
    reader: &mut R,
    writer: &mut W,
    errors: &mut NoticesTo<E>,
) -> u8
    ensures { ReceivesBits form (is_some clock.entry) result
        (R.remaining reader.old) (R.remaining reader.new) (W.contents writer.old) (W.contents writer.new)
        errors.old errors.new }
{
    let mut hearing = BitHearing::new();
    let mut output = Output::new(alloc);
    let mut buffer = [0u8; READ_MAX];
    for _turn in 0..u64::MAX {
        match reader.read(&mut buffer) {
            Ok(0) => return u8::from(hearing.foreign),
            Ok(count) => {
                let bytes = &buffer[..count];
                note_foreign(bytes, &mut hearing, errors);
                match hear_bits(form, clock, bytes, &mut hearing, &mut output, writer) {
                    Ok(()) => {}
                    Err(fault) => return fail(&fault, errors),
                }
            }
            Err(error) if error.kind() == ErrorKind::Interrupted => {}
            Err(_) => return fail(&RunFault::Reading, errors),
        }
    }
    fail(&RunFault::Reading, errors)
}
