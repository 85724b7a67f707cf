//! A job from its input to its exit status (profile).
ghost use Rattle.std.specs.Prelude.{◌≡◌, ◌⊎◌, ◌≤◌, Err, IfOk};
ghost use Rattle.uecp_text.specs.declared.run_fault.RunFault.{RunFault};
ghost use Rattle.uecp_text.specs.declared.run_fault.RunFault.TheVariants.{OutOfMemory};
ghost use Rattle.uecp_jobs.specs.Setups.{IsSetup, RefusesSetup};
ghost use Rattle.ladders.specs.Jobs.{options_of, IsDone, IsRefused, IsUndescribed, HasFailed, DoesLadder};

use crate::playing::Drawing;
use commands::LadderForm;
use notices::{Notices, fail};
use std::alloc::Global;
use std::io::{Read, Write};
use uecp_jobs::Setup;
use uecp_text::{RunFault, run};

/// What is asked of the command `line` that draws a ladder.
#[derive(Clone, Copy, Debug)]
pub struct LadderJob<'a> {
    /// The encoder at the line's end.
    pub setup: Setup<'a>,
    /// How the ladder is drawn.
    pub form: LadderForm,
}

/// Does the job and answers the exit status: 0 done, 1 a line was refused, 2 the services were refused, 3 memory,
/// reading or writing failed. Nothing is drawn of a script with a line that is refused. Why a run stopped is said on
/// `errors`, as far as that takes it.
pub fn run_ladder<R: Read, W: Write, E: Notices>(
    alloc: Global,
    job: &LadderJob<'_>,
    reader: &mut R,
    writer: &mut W,
    errors: &mut E,
) -> u8
    ensures status { result ≤ 3 }
    ensures done { result ≡ 0 → IsDone job.now (R.remaining reader.old) (R.remaining reader.new) (W.contents writer.old)
        (W.contents writer.new) × (errors.new ≡ errors.old) }
    ensures refused { result ≡ 1 → IsRefused job.now (R.remaining reader.old) (R.remaining reader.new)
        (W.contents writer.old) (W.contents writer.new) (E.says errors.old errors.new) }
    ensures undescribed { result ≡ 2 → IsUndescribed job.now (E.says errors.old errors.new)
        × (reader.new ≡ reader.old) × (writer.new ≡ writer.old) }
    ensures failed { result ≡ 3 → HasFailed job.now (R.remaining reader.old) (R.remaining reader.new)
        (W.contents writer.old) (W.contents writer.new) (E.says errors.old errors.new) }
{
    match draw_ladder(alloc, job, reader, writer) {
        Ok(()) => 0,
        Err(fault) => fail(&fault, errors),
    }
}

/// Does the job. The options are judged before anything is read or written.
fn draw_ladder<R: Read, W: Write>(
    alloc: Global,
    job: &LadderJob<'_>,
    reader: &mut R,
    writer: &mut W,
) -> Result<(), RunFault>
    ensures described { IfOk result (λ _. IsSetup (options_of job.now)) }
    ensures does { ((fault : RunFault) × (result ≡ Err fault) × ((fault ≡ OutOfMemory)
        ⊎ RefusesSetup (options_of job.now) fault) × (reader.new ≡ reader.old) × (writer.new ≡ writer.old))
        ⊎ DoesLadder job.now (R.remaining reader.old) (R.remaining reader.new) (W.contents writer.old)
        (W.contents writer.new) result }
{
    match Drawing::new(alloc, job) {
        Ok(mut drawing) => run(alloc, reader, &mut drawing, writer),
        Err(fault) => Err(fault),
    }
}
