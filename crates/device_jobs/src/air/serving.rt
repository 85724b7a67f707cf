//! A device on the air with its state in a file or with none. Source: profile.
ghost use Rattle.std.specs.Prelude.{◌≡◌, ◌≤◌, ◌⊎◌, IsTrue};
ghost use Rattle.uecp_frame.specs.Address.{is_exact};
ghost use Rattle.uecp_jobs.specs.Setups.{options_of as options_in, encoder_at_first};
ghost use Rattle.carousel.specs.Service.{main_service, is_told};
ghost use Rattle.device_jobs.specs.Serving.{HasNoState};
ghost use Rattle.device_jobs.specs.AirServing.{HasBeenOnAir, AirsIn, AirsUnkept, TellsNoPi};

use crate::limits::limits_of;
use carousel::{Carousel, has_pi};
use commands::EncoderOptions;
use device_serving::{Limits, LogLines, Moments, run_on_air};
use kept_jobs::fail_state;
use notices::{NoticesTo, fail};
use rds_store::RdsStore;
use state_jobs::{OpenStates, closed_so, fail_file};
use std::alloc::Global;
use std::io::Write;
use std::time::Clock;
use uecp_encoder::{Encoder, NotSaved};
use uecp_frame::Address;
use uecp_jobs::{Setup, new_encoder};

/// Is the device on the air that the job asks for, where what comes and when the next group is due is for `moments` to
/// say, and answers the exit status: 0 all connections were served, 2 the services or the address were refused, 3 the
/// state can't be opened, saved or closed, nothing more was to be waited for, or memory or writing failed. With a state
/// in a file it goes on from that; else it begins with a new encoder. The options are judged before the state is
/// opened, and the state before the first moment. Where it was told no PI, that is said before the first group. What
/// the carousel sends begins with the first segment of the name.
pub fn run_on_air_from<S: OpenStates, W: Write, T: Clock, E: Write, M: Moments>(
    alloc: Global,
    job: &EncoderOptions,
    states: &S,
    log: &mut LogLines<'_, W, T>,
    errors: &mut NoticesTo<E>,
    moments: &mut M,
) -> u8
    ensures status { result ≤ 3 }
    ensures airs { HasBeenOnAir M.waits M.closes M.sends M.Input.remaining M.Output.contents
        (S.gives_encoder states.now)
        (S.refuses_encoder states.now) (S.closes_encoder states.now) S.EncoderKeeper.TOGETHER_MAX
        S.EncoderKeeper.READ_MAX S.EncoderKeeper.leaves S.EncoderKeeper.is_clean S.EncoderKeeper.saves
        S.EncoderKeeper.fails job.now moments.old moments.new log.old log.new errors.old errors.new result }
{
    let setup = Setup {
        site: job.site,
        encoder: job.encoder,
        sets: job.sets,
        services: job.services.as_slice(),
    };
    let limits = limits_of(job);
    match new_encoder(alloc, &setup) {
        Err(fault) => fail(&fault, errors),
        Ok(mut encoder) => match &job.state {
            Some(path) => {
                let address = encoder.address();
                let path = path.as_str();
                air_in(&setup, address, limits, path, states, log, errors, moments)
            }
            None => air_unkept(&setup, limits, &mut encoder, log, errors, moments),
        },
    }
}

/// Opens the state, is on the air, and closes it.
fn air_in<S: OpenStates, W: Write, T: Clock, E: Write, M: Moments>(
    setup: &Setup<'_>,
    address: Address,
    limits: Limits,
    path: &str,
    states: &S,
    log: &mut LogLines<'_, W, T>,
    errors: &mut NoticesTo<E>,
    moments: &mut M,
) -> u8
    requires { IsTrue (is_exact address) }
    ensures { AirsIn S.EncoderKeeper.TOGETHER_MAX S.EncoderKeeper.READ_MAX S.EncoderKeeper.leaves
        S.EncoderKeeper.is_clean S.EncoderKeeper.saves S.EncoderKeeper.fails M.waits M.closes M.sends M.Input.remaining
        M.Output.contents limits.turns limits.connections limits.store (S.gives_encoder states.now) (S.closes_encoder
        states.now) path.now address setup.now.sets setup.now.services.now moments.old moments.new log.old log.new
        errors.old errors.new result
        ⊎ (HasNoState (S.refuses_encoder states.now) path.now errors.old errors.new result
        × (moments.new ≡ moments.old) × (log.new ≡ log.old)) }
{
    match states.open_encoder(path, address, setup.sets, setup.services) {
        Err(fault) => fail_file(path, fault, errors),
        Ok((mut encoder, mut keeper)) => {
            tell_no_pi(encoder.target(), errors);
            let mut carousel = Carousel::restarted();
            let status = run_on_air(
                limits,
                &mut encoder,
                &mut keeper,
                log,
                errors,
                &mut carousel,
                moments,
            );
            closed_so(path, status, states.close_encoder(keeper), errors)
        }
    }
}

/// Is on the air with no state, from this new encoder on.
fn air_unkept<W: Write, T: Clock, E: Write, M: Moments>(
    setup: &Setup<'_>,
    limits: Limits,
    encoder: &mut Encoder<RdsStore>,
    log: &mut LogLines<'_, W, T>,
    errors: &mut NoticesTo<E>,
    moments: &mut M,
) -> u8
    requires { encoder.old ≡ encoder_at_first (options_in setup.now) }
    ensures { AirsUnkept M.waits M.closes M.sends M.Input.remaining M.Output.contents (options_in setup.now)
        limits.turns limits.connections limits.store moments.old moments.new log.old log.new errors.old
        errors.new result }
{
    tell_no_pi(encoder.target(), errors);
    let mut carousel = Carousel::restarted();
    run_on_air(
        limits,
        encoder,
        &mut NotSaved,
        log,
        errors,
        &mut carousel,
        moments,
    )
}

/// Says that 0000 is on the air, where no PI was told. A text that can't be written changes nothing.
fn tell_no_pi<E: Write>(store: &RdsStore, errors: &mut NoticesTo<E>)
    ensures { TellsNoPi (is_told (main_service store.now)) errors.old errors.new }
{
    if !has_pi(store) {
        let _ = fail_state("air: no PI yet, 0000 is on the air", errors);
    }
}
