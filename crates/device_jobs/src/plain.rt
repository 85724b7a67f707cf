//! An encoder with its state in a file that is no device. Source: profile.
ghost use Rattle.std.specs.Prelude.{◌≡◌, ◌≢◌, ◌≤◌, ℕ, false, Some, option_map};
ghost use Rattle.std.specs.String.{string_bytes};
ghost use Rattle.commands.specs.Jobs.{is_device};
ghost use Rattle.commands.specs.declared.job.Job.TheVariants.{EncoderWith};
ghost use Rattle.uecp_jobs.specs.Jobs.{IsUndescribed};
ghost use Rattle.state_jobs.specs.Kept.{SaysWhy};
ghost use Rattle.device_serving.specs.Logging.{Log};
ghost use Rattle.device_jobs.specs.Serving.{HasServedDevice};
ghost use Rattle.device_jobs.specs.Kept.{HasServedKept, plain_log};
ghost use Rattle.notices.specs.Told.{Says};

use crate::limits::limits_of;
use crate::serving::serve_in;
use commands::EncoderOptions;
use device_serving::LogLines;
use notices::{NoticesTo, fail};
use output_forms::Form;
use state_jobs::OpenStates;
use std::alloc::Global;
use std::io;
use std::io::{ErrorKind, Write};
use std::time::{Clock, Duration};
use uecp_jobs::{Setup, new_encoder};
use uecp_net::Connections;

/// No clock: nobody asks it for the time.
struct NoClock;

impl Clock for NoClock {
    fn monotonic(&self) -> io::Result<Duration> {
        Err(ErrorKind::Unsupported.into())
    }

    fn since_1970(&self) -> io::Result<Duration> {
        Err(ErrorKind::Unsupported.into())
    }
}

/// Is the encoder that these options ask for, with its state in the file at this path, where nothing else is asked for
/// that only a device does: a device that tells how each connection ended and nothing else. Answers the exit status: 0
/// done, 2 the services were refused, 3 the state can't be opened, saved or closed, there was no connection to be had,
/// or memory or writing failed. The options are judged before the state is opened, and the state before the first
/// connection.
///
/// ```
/// let status = run_encoder_in(alloc, &options, "tx1.db", &states, &mut output, &mut errors, &mut listening);
/// // connection 1 replies 3
/// ```
pub fn run_encoder_in<S: OpenStates, W: Write, E: Write, C: Connections>(
    alloc: Global,
    options: &EncoderOptions,
    path: &str,
    states: &S,
    writer: &mut W,
    errors: &mut NoticesTo<E>,
    connect: &mut C,
) -> u8
    requires plain { is_device options.now ≡ false }
    requires state { option_map string_bytes options.now.state ≡ Some path.now }
    ensures status { (result ≤ 3) × (result ≢ 1) }
    // It is a device that tells so.
    ensures serves { (loan : ℕ) × (log : Log) × HasServedDevice C.opens C.closes C.Input.remaining C.Output.contents
        (S.gives_encoder states.now) (S.refuses_encoder states.now) (S.closes_encoder states.now)
        S.EncoderKeeper.TOGETHER_MAX S.EncoderKeeper.READ_MAX S.EncoderKeeper.leaves S.EncoderKeeper.is_clean
        S.EncoderKeeper.saves S.EncoderKeeper.fails options.now connect.old connect.new
        (plain_log loan (W.contents writer.old)) log errors.old errors.new result
        × (log.held ≡ W.contents writer.new) }
    // 0: whatever the connections are, each has its line, and a crash leaves the encoder as the last one left it.
    ensures kept { result ≡ 0 → HasServedKept (S.gives_encoder states.now) S.EncoderKeeper.leaves
        S.EncoderKeeper.is_clean path.now options.now (W.contents writer.old) (W.contents writer.new) }
    // 0: nothing was said on `errors`.
    ensures same { result ≡ 0 → errors.new ≡ errors.old }
    // 2: the options describe no encoder. No state was opened, no connection, and nothing was written.
    ensures undescribed { result ≡ 2 → IsUndescribed (EncoderWith options.now) (Says errors.old errors.new)
        × (writer.new ≡ writer.old) × (connect.new ≡ connect.old) }
    // 3: why was said.
    ensures said { result ≡ 3 → SaysWhy path.now errors.old errors.new }
{
    let setup = Setup {
        site: options.site,
        encoder: options.encoder,
        sets: options.sets,
        services: options.services.as_slice(),
    };
    match new_encoder(alloc, &setup) {
        Err(fault) => fail(&fault, errors),
        Ok(encoder) => {
            let address = encoder.address();
            let limits = limits_of(options);
            let mut log: LogLines<'_, W, NoClock> = LogLines::new(
                alloc,
                Form::Lines,
                None,
                false,
                writer,
            );
            let status = serve_in(
                &setup, address, limits, path, states, &mut log, errors, connect,
            );
            let _writer = log.finish();
            status
        }
    }
}
