//! What is said where words ask for no job (profile).
ghost use Rattle.std.specs.Prelude.{◌≡◌, ◌≢◌, ◌⊎◌, ◌≤◌, IfErr};
ghost use Rattle.uecp_text.specs.declared.run_fault.RunFault.TheVariants.{Writing};
ghost use Rattle.command_line.specs.Usages.{AsksForText, SaysFailure, SaysMistake};

use crate::usage::Usage;
use clap::Error;
use notices::{NoticesTo, fail};
use std::io::Write;
use uecp_text::RunFault;

/// Says why words ask for no job, and answers the exit status. A text that was asked for goes to the writer.
pub fn refuse<W: Write, E: Write>(usage: &Usage, writer: &mut W, errors: &mut NoticesTo<E>) -> u8
    ensures status { (result ≤ 3) × (result ≢ 1) }
    ensures text { result ≡ 0 → AsksForText usage.now × (errors.new ≡ errors.old) }
    ensures mistaken { result ≡ 2 → SaysMistake usage.now errors.old errors.new
        × (writer.new ≡ writer.old) }
    ensures failed { result ≡ 3 → SaysFailure errors.old errors.new
        × (AsksForText usage.now ⊎ (writer.new ≡ writer.old)) }
{
    match usage {
        Usage::Refused(error) if error.use_stderr() => {
            errors.show(error);
            2
        }
        Usage::Refused(error) => match show_text(error, writer) {
            Ok(()) => 0,
            Err(fault) => fail(&fault, errors),
        },
        Usage::NotAList => fail(&RunFault::NotAList, errors),
        Usage::OutOfMemory => fail(&RunFault::OutOfMemory, errors),
    }
}

/// Writes out the text of an error. `Writing` where the writer fails.
fn show_text<W: Write>(error: &Error, writer: &mut W) -> Result<(), RunFault>
    ensures { IfErr result (λ fault. fault ≡ Writing) }
{
    write!(writer, "{error}").map_err(|_| RunFault::Writing)?;
    writer.flush().map_err(|_| RunFault::Writing)
}
