//! The limits of a device (profile).
ghost use Rattle.std.specs.Prelude.{◌≡◌};
ghost use Rattle.device_jobs.specs.Limits.{connections_of, turns_of};

use commands::EncoderOptions;
use device_serving::Limits;

/// Those of a job: without end as many as can be counted.
///
/// ```
/// let limits = limits_of(&job); // forever: u64::MAX connections of u32::MAX reads
/// ```
pub fn limits_of(job: &EncoderOptions) -> Limits
    ensures connections { result.connections ≡ connections_of job.now }
    ensures turns { result.turns ≡ turns_of job.now }
    ensures store { result.store ≡ job.now.store }
{
    Limits {
        connections: if job.forever {
            u64::MAX
        } else {
            u64::from(job.connections)
        },
        turns: if job.forever { u32::MAX } else { job.turns },
        store: job.store,
    }
}
