//! A job from its input to its exit status (profile).
ghost use Rattle.std.specs.Prelude.{◌≡◌, ◌⊎◌, ◌≤◌, Err, IfOk};
ghost use Rattle.uecp_text.specs.declared.run_fault.RunFault.{RunFault};
ghost use Rattle.uecp_text.specs.declared.run_fault.RunFault.TheVariants.{OutOfMemory};
ghost use Rattle.uecp_jobs.specs.Setups.{IsSetup, RefusesSetup};
ghost use Rattle.air_jobs.specs.AirJobs.{options_of, IsDone, IsRefused, IsUndescribed, HasFailed, DoesAir};

use crate::answering::AnsweringOnAir;
use notices::{Notices, fail};
use output_forms::Form;
use std::alloc::Global;
use std::io::{Read, Write};
use uecp_jobs::Setup;
use uecp_text::{RunFault, run};

/// What is asked of the command `answer` with groups of its store behind.
#[derive(Clone, Copy, Debug)]
pub struct AirJob<'a> {
    /// The encoder.
    pub setup: Setup<'a>,
    /// Whether the store is written out at the end of the input, before the groups.
    pub store: bool,
    /// The form of all that is written.
    pub form: Form,
    /// How many groups.
    pub groups: u32,
}

/// Does the job and answers the exit status: 0 done, 1 a line was refused, 2 the services were refused, 3 memory,
/// reading or writing failed. What the lines before a refusal bring is written all the same, and no group. Why a run
/// stopped is said on `errors`, as far as that takes it.
pub fn run_answer_on_air<R: Read, W: Write, E: Notices>(
    alloc: Global,
    job: &AirJob<'_>,
    reader: &mut R,
    writer: &mut W,
    errors: &mut E,
) -> u8
    ensures status { result ≤ 3 }
    ensures done { result ≡ 0 → IsDone job.now (R.remaining reader.old) (R.remaining reader.new) (W.contents writer.old)
        (W.contents writer.new) × (errors.new ≡ errors.old) }
    ensures refused { result ≡ 1 → IsRefused job.now (R.remaining reader.old) (R.remaining reader.new)
        (W.contents writer.old) (W.contents writer.new) (E.says errors.old errors.new) }
    ensures undescribed { result ≡ 2 → IsUndescribed job.now (E.says errors.old errors.new)
        × (reader.new ≡ reader.old) × (writer.new ≡ writer.old) }
    ensures failed { result ≡ 3 → HasFailed job.now (R.remaining reader.old) (R.remaining reader.new)
        (W.contents writer.old) (W.contents writer.new) (E.says errors.old errors.new) }
{
    match answer_on_air(alloc, job, reader, writer) {
        Ok(()) => 0,
        Err(fault) => fail(&fault, errors),
    }
}

/// Does the job. The options are judged before anything is read or written.
fn answer_on_air<R: Read, W: Write>(
    alloc: Global,
    job: &AirJob<'_>,
    reader: &mut R,
    writer: &mut W,
) -> Result<(), RunFault>
    ensures described { IfOk result (λ _. IsSetup (options_of job.now)) }
    ensures does { ((fault : RunFault) × (result ≡ Err fault) × ((fault ≡ OutOfMemory)
        ⊎ RefusesSetup (options_of job.now) fault) × (reader.new ≡ reader.old) × (writer.new ≡ writer.old))
        ⊎ DoesAir job.now (R.remaining reader.old) (R.remaining reader.new) (W.contents writer.old)
        (W.contents writer.new) result }
{
    let mut answering = AnsweringOnAir::new(alloc, job)?;
    run(alloc, reader, &mut answering, writer)
}
