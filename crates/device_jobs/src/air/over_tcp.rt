//! A device on the air over TCP. Source: profile.
ghost use Rattle.std.specs.Prelude.{◌≡◌, ◌≤◌, false, IfOk, MatchResult, option_map};
ghost use Rattle.uecp_jobs.specs.Setups.{IsSetup};
ghost use Rattle.device_jobs.specs.Limits.{options_of, limit_of};
ghost use Rattle.device_edges.specs.Screen.{unsaid};
ghost use Rattle.air_edges.specs.Edge.{edge_at_first};
ghost use Rattle.device_jobs.specs.AirOverTcp.{HasAiredTcp, HasNotAired, IsFoundAt, IsLogOf, form_of};

use crate::air::serving::run_on_air_from;
use crate::over_tcp::{
    address_of, allowed_of, fail_address, fail_allow, fail_bind, limit_of, yielding_of,
};
use air_edges::{Addresses, AirForm, OnAir, ScreenedSockets, TcpSockets};
use commands::EncoderOptions;
use device_edges::{Allowed, BindFault, Idle, Screened};
use device_serving::LogLines;
use kept_jobs::fail_state;
use notices::{NoticesTo, fail};
use state_jobs::OpenStates;
use std::alloc::Global;
use std::io::{Read, Write};
use std::net::{Net, SocketAddr, TcpListener, TcpStream};
use std::time::Clock;
use uecp_jobs::{Setup, new_encoder};

/// Is the device on the air that the job asks for, over TCP, and answers the exit status: that of
/// [`run_on_air_from`](crate::run_on_air_from), or 2 where the address is none, the options describe no encoder, or a
/// bad line is asked for too, and 3 where nobody can listen there. The groups go out at the same address as the job's,
/// at the port of the air. What is wrong with those who listen to them is told on `notices`, and on `foreign` that a
/// connection was another protocol's, of which nothing is taken.
pub fn run_on_air_over_tcp<
    'a,
    W: Write,
    E: Write,
    M: Write,
    N: Net<Listener = TcpListener, Stream = TcpStream> + Clock,
    S: OpenStates,
>(
    alloc: Global,
    job: &EncoderOptions,
    writer: &mut W,
    errors: &mut NoticesTo<E>,
    notices: &'a mut M,
    foreign: &'a mut M,
    net: &'a N,
    states: &S,
) -> u8
    ensures status { result ≤ 3 }
    ensures airs { HasAiredTcp ⟦<Screened<Idle<TcpStream>> as Read>⟧.remaining ⟦<TcpStream as Write>⟧.contents
        (S.gives_encoder states.now) (S.refuses_encoder states.now) (S.closes_encoder states.now)
        S.EncoderKeeper.TOGETHER_MAX S.EncoderKeeper.READ_MAX S.EncoderKeeper.leaves S.EncoderKeeper.is_clean
        S.EncoderKeeper.saves S.EncoderKeeper.fails job.now (M.contents notices.old) (unsaid (M.contents foreign.old))
        (W.contents writer.old) errors.old errors.new result }
{
    let places = match begin(alloc, job, errors) {
        Ok(places) => places,
        Err(status) => return status,
    };
    let allowed = match allowed_of(alloc, job) {
        Ok(allowed) => allowed,
        Err(fault) => return fail_allow(fault, errors),
    };
    match edge_of(alloc, net, job, places, allowed, notices, foreign) {
        Err(fault) => fail_bind(fault, errors),
        Ok(mut edge) => {
            let mut log = log_of(alloc, job, net, writer);
            run_on_air_from(alloc, job, states, &mut log, errors, &mut edge)
        }
    }
}

/// Where the job has it listen, once its options are judged; or the exit status, and why was said.
fn begin<E: Write>(
    alloc: Global,
    job: &EncoderOptions,
    errors: &mut NoticesTo<E>,
) -> Result<Addresses, u8>
    ensures { MatchResult result
        (λ places. IsFoundAt job.now places × IsSetup (options_of job.now) × (errors.new ≡ errors.old))
        (λ status. HasNotAired job.now errors.old errors.new status) }
{
    let places = places_of(job, errors)?;
    let setup = Setup {
        site: job.site,
        encoder: job.encoder,
        sets: job.sets,
        services: job.services.as_slice(),
    };
    if let Err(fault) = new_encoder(alloc, &setup) {
        return Err(fail(&fault, errors));
    }
    Ok(places)
}

/// The edge of the job, at these places.
fn edge_of<'a, N: Net<Listener = TcpListener, Stream = TcpStream> + Clock, M: Write>(
    alloc: Global,
    net: &'a N,
    job: &EncoderOptions,
    places: Addresses,
    allowed: Option<Allowed>,
    notices: &'a mut M,
    foreign: &'a mut M,
) -> Result<OnAir<'a, ScreenedSockets<TcpSockets<'a, N>, &'a mut M>, TcpStream, M>, BindFault>
    ensures { IfOk result (λ edge. edge ≡ edge_at_first (record {
      connect = record { places = places; is_open = false };
      notice = unsaid (M.contents foreign.old);
    }) (form_of job.now.air_bits) (limit_of job.now.idle) (M.contents notices.old)) }
{
    let sockets = ScreenedSockets::new(
        TcpSockets::new(alloc, net, places, yielding_of(job), allowed)?,
        foreign,
    );
    match OnAir::new(
        alloc,
        sockets,
        form_of(job.air_bits),
        limit_of(job.idle),
        notices,
    ) {
        Ok(edge) => Ok(edge),
        Err(_) => Err(BindFault::Failed),
    }
}

/// The form in which groups go out.
fn form_of(air_bits: bool) -> AirForm
    ensures { result ≡ form_of air_bits }
{
    if air_bits {
        AirForm::Bits
    } else {
        AirForm::Lines
    }
}

/// The log of the job.
fn log_of<'a, W: Write, T: Clock>(
    alloc: Global,
    job: &EncoderOptions,
    clock: &'a T,
    writer: &'a mut W,
) -> LogLines<'a, W, T>
    ensures { IsLogOf job.now (W.contents writer.old) result }
{
    let clock = if job.log && job.time {
        Some(clock)
    } else {
        None
    };
    LogLines::new(alloc, job.form, clock, job.log, writer)
}

/// Where the job has it listen; or the exit status, and why was said.
fn places_of<E: Write>(job: &EncoderOptions, errors: &mut NoticesTo<E>) -> Result<Addresses, u8>
    ensures { MatchResult result (λ places. IsFoundAt job.now places × (errors.new ≡ errors.old))
        (λ status. HasNotAired job.now errors.old errors.new status) }
{
    let Some(air) = job.air else {
        let _ = fail_state("air-bits: without --air", errors);
        return Err(2);
    };
    if job.faults.is_some() {
        let _ = fail_state("air: not with --faults", errors);
        return Err(2);
    }
    match address_of(job) {
        Ok(studio) => Ok(Addresses {
            studio,
            air: SocketAddr::new(studio.ip(), air),
        }),
        Err(fault) => Err(fail_address(fault, errors)),
    }
}
