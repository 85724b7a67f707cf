//! A device with its state in a file or with none. Source: profile.
ghost use Rattle.std.specs.Prelude.{◌≡◌, ◌≢◌, ◌≤◌, ◌⊎◌, IsTrue, Result};
ghost use Rattle.uecp_frame.specs.Address.{is_exact};
ghost use Rattle.uecp_jobs.specs.Setups.{IsSetup, options_of as options_in, encoder_at_first};
ghost use Rattle.device_jobs.specs.Serving.{HasServedDevice, HasNoState, ServesIn, ServesUnkept};

use crate::limits::limits_of;
use commands::EncoderOptions;
use device_serving::{Limits, LogLines, run_device};
use notices::{NoticesTo, fail};
use rds_store::RdsStore;
use state_jobs::{OpenStates, closed_so, fail_file};
use std::alloc::Global;
use std::io::Write;
use std::time::Clock;
use uecp_encoder::{Encoder, NotSaved};
use uecp_frame::Address;
use uecp_jobs::{Setup, new_encoder};
use uecp_net::Connections;

/// Is the device that the job asks for, over connections that come from here, and answers the exit status: 0 all
/// connections were served, 2 the services or the address were refused, 3 the state can't be opened, saved or closed,
/// there was no connection to be had, or memory or writing failed. With a state in a file it goes on from that; else it
/// begins with a new encoder. The options are judged before the state is opened, and the state before the first
/// connection.
pub fn run_device_from<S: OpenStates, W: Write, T: Clock, E: Write, C: Connections>(
    alloc: Global,
    job: &EncoderOptions,
    states: &S,
    log: &mut LogLines<'_, W, T>,
    errors: &mut NoticesTo<E>,
    connect: &mut C,
) -> u8
    ensures status { (result ≤ 3) × (result ≢ 1) }
    ensures serves { HasServedDevice C.opens C.closes C.Input.remaining C.Output.contents (S.gives_encoder states.now)
        (S.refuses_encoder states.now) (S.closes_encoder states.now) S.EncoderKeeper.TOGETHER_MAX
        S.EncoderKeeper.READ_MAX S.EncoderKeeper.leaves S.EncoderKeeper.is_clean S.EncoderKeeper.saves
        S.EncoderKeeper.fails job.now connect.old connect.new log.old log.new errors.old errors.new result }
    ensures loan { log.new.loan ≡ log.old.loan }
{
    let setup = Setup {
        site: job.site,
        encoder: job.encoder,
        sets: job.sets,
        services: job.services.as_slice(),
    };
    let limits = limits_of(job);
    match new_encoder(alloc, &setup) {
        Err(fault) => fail(&fault, errors),
        Ok(mut encoder) => match &job.state {
            Some(path) => {
                let address = encoder.address();
                let path = path.as_str();
                serve_in(&setup, address, limits, path, states, log, errors, connect)
            }
            None => serve_unkept(&setup, limits, &mut encoder, log, errors, connect),
        },
    }
}

/// Opens the state, serves, and closes it.
pub(crate) fn serve_in<S: OpenStates, W: Write, T: Clock, E: Write, C: Connections>(
    setup: &Setup<'_>,
    address: Address,
    limits: Limits,
    path: &str,
    states: &S,
    log: &mut LogLines<'_, W, T>,
    errors: &mut NoticesTo<E>,
    connect: &mut C,
) -> u8
    requires { IsTrue (is_exact address) }
    ensures serves { ServesIn S.EncoderKeeper.TOGETHER_MAX S.EncoderKeeper.READ_MAX S.EncoderKeeper.leaves
        S.EncoderKeeper.is_clean S.EncoderKeeper.saves S.EncoderKeeper.fails C.opens C.closes C.Input.remaining
        C.Output.contents limits.turns limits.connections limits.store (S.gives_encoder states.now) (S.closes_encoder
        states.now) path.now address setup.now.sets setup.now.services.now connect.old connect.new log.old log.new
        errors.old errors.new result
        ⊎ (HasNoState (S.refuses_encoder states.now) path.now errors.old errors.new result
        × (connect.new ≡ connect.old) × (log.new ≡ log.old)) }
    ensures status { (result ≡ 0) ⊎ (result ≡ 3) }
    ensures same { result ≡ 0 → errors.new ≡ errors.old }
    ensures loan { log.new.loan ≡ log.old.loan }
{
    match states.open_encoder(path, address, setup.sets, setup.services) {
        Err(fault) => fail_file(path, fault, errors),
        Ok((mut encoder, mut keeper)) => {
            let status = run_device(limits, &mut encoder, &mut keeper, log, errors, connect);
            closed_so(path, status, states.close_encoder(keeper), errors)
        }
    }
}

/// Serves with no state, from this new encoder on.
fn serve_unkept<W: Write, T: Clock, E: Write, C: Connections>(
    setup: &Setup<'_>,
    limits: Limits,
    encoder: &mut Encoder<RdsStore>,
    log: &mut LogLines<'_, W, T>,
    errors: &mut NoticesTo<E>,
    connect: &mut C,
) -> u8
    requires { encoder.old ≡ encoder_at_first (options_in setup.now) }
    ensures status { (result ≡ 0) ⊎ (result ≡ 3) }
    ensures serves { ServesUnkept C.opens C.closes C.Input.remaining C.Output.contents (options_in setup.now)
        limits.turns
        limits.connections limits.store connect.old connect.new log.old log.new errors.old
        errors.new result }
    ensures loan { log.new.loan ≡ log.old.loan }
{
    run_device(limits, encoder, &mut NotSaved, log, errors, connect)
}
