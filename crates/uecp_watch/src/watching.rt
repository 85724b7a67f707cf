//! A control line as it is read (profile).
ghost use Rattle.std.specs.Prelude.{is_some};
ghost use Rattle.uecp_watch.specs.Watching.{Watches};

use crate::telling::tell;
use output_forms::Form;
use std::alloc::Global;
use std::io::{ErrorKind, Read, Write};
use std::time::Clock;
use uecp_frame::Deframer;
use uecp_text::{Output, RunFault};

/// The most bytes that one read asks for.
const READ_MAX: usize = 4096;

/// Tells what the bytes of a control line hold as they come, up to the end of the reader: after each read that ended a
/// segment the time, where there is a clock, and the lines of its findings are written out, before the next read. What
/// it keeps of the line is the segment that has not ended. A read that was interrupted is made again.
///
/// Errors: `Reading` where a read failed, and all that was read before it is told; `Writing`; `OutOfMemory` where there
/// was none for the lines of one read.
pub fn watch<R: Read, W: Write, C: Clock>(
    alloc: Global,
    form: Form,
    clock: Option<&C>,
    reader: &mut R,
    writer: &mut W,
) -> Result<(), RunFault>
    ensures { Watches form (is_some clock.entry) (R.remaining reader.old) (R.remaining reader.new)
        (W.contents writer.old)
        (W.contents writer.new) result }
{
    let mut deframer = Deframer::new();
    let mut output = Output::new(alloc);
    let mut buffer = [0u8; READ_MAX];
    for _turn in 0..u64::MAX {
        match reader.read(&mut buffer) {
            Ok(0) => return Ok(()),
            Ok(count) => tell(
                form,
                clock,
                &mut deframer,
                &buffer[..count],
                &mut output,
                writer,
            )?,
            Err(error) if error.kind() == ErrorKind::Interrupted => {}
            Err(_) => return Err(RunFault::Reading),
        }
    }
    Err(RunFault::Reading)
}
