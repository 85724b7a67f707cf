//! What is in a state. Source: profile.
ghost use Rattle.std.specs.Prelude.{◌≡◌, ◌⊎◌, OnOk, IfErr};
ghost use Rattle.std.specs.Io.KnownBytes.{Appends};
ghost use Rattle.uecp_text.specs.declared.run_fault.RunFault.{RunFault};
ghost use Rattle.uecp_text.specs.Faults.{Fails, error_lines};
ghost use Rattle.uecp_text.specs.Written.{Begins};
ghost use Rattle.state_files.specs.declared.reading.Found.{Found};
ghost use Rattle.state_files.specs.declared.fault.StateFault.{StateFault};
ghost use Rattle.state_jobs.specs.Texts.{fault_line};
ghost use Rattle.state_jobs.specs.StateLines.{found_lines};
ghost use Rattle.notices.specs.Told.{Says};

use crate::open_states::OpenStates;
use crate::state_lines::put_found;
use crate::texts::fail_file;
use notices::{NoticesTo, fail};
use state_files::Found;
use std::alloc::Global;
use std::io::Write;
use uecp_text::{Output, RunFault};

/// Tells what is in the state at this path, and answers the exit status: 0 done, 3 it can't be read, or memory or
/// writing failed.
pub fn tell_state<S: OpenStates, W: Write, E: Write>(
    alloc: Global,
    path: &str,
    states: &S,
    writer: &mut W,
    errors: &mut NoticesTo<E>,
) -> u8
    ensures status { (result ≡ 0) ⊎ (result ≡ 3) }
    // 0: the lines of what was found were written. Nothing was said on `errors`.
    ensures done { result ≡ 0 → ((found : Found) × S.finds states.now path.now found
        × Appends (W.contents writer.old) (W.contents writer.new) (found_lines found)) × (errors.new ≡ errors.old) }
    // 3: the state could not be read, and nothing was written; or memory or writing failed, and a beginning of the
    // lines was.
    ensures failed { result ≡ 3 → ((fault : StateFault) × S.hides states.now path.now fault
        × (writer.new ≡ writer.old)
        × Says errors.old errors.new (fault_line path.now fault))
        ⊎ ((found : Found) × (fault : RunFault) × S.finds states.now path.now found × Fails fault
        × Begins (W.contents writer.old) (W.contents writer.new) (found_lines found)
        × Says errors.old errors.new (error_lines fault)) }
{
    match states.read_state(path) {
        Err(fault) => fail_file(path, fault, errors),
        Ok(found) => match write_found(alloc, &found, writer) {
            Ok(()) => 0,
            Err(fault) => fail(&fault, errors),
        },
    }
}

/// Writes the lines of what was found.
fn write_found<W: Write>(alloc: Global, found: &Found, writer: &mut W) -> Result<(), RunFault>
    ensures written { OnOk result (Appends (W.contents writer.old) (W.contents writer.new) (found_lines found.now)) }
    ensures begun { Begins (W.contents writer.old) (W.contents writer.new) (found_lines found.now) }
    ensures failed { IfErr result Fails }
{
    let mut output = Output::new(alloc);
    put_found(found, &mut output);
    if output.check().is_err() {
        return Err(RunFault::OutOfMemory);
    }
    output.write_out(writer)
}
