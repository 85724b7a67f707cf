//! The job `encoder`, from its options to its exit status (profile).
ghost use Rattle.std.specs.Prelude.{◌≡◌, ◌≢◌, ◌⊎◌, ◌<◌, ◌≤◌, List, None, Err, OnOk, IfErr, length};
ghost use Rattle.std.specs.Io.KnownBytes.{Appends};
ghost use Rattle.uecp_text.specs.declared.run_fault.RunFault.{RunFault};
ghost use Rattle.uecp_text.specs.declared.run_fault.RunFault.TheVariants.{Listening};
ghost use Rattle.uecp_text.specs.Faults.{Fails};
ghost use Rattle.uecp_text.specs.Written.{Adds, Begins};
ghost use Rattle.uecp_net.specs.Sessions.{Outcome, Sessions};
ghost use Rattle.uecp_jobs.specs.Jobs.{RefusesJob, IsUndescribed};
ghost use Rattle.uecp_jobs.specs.EncoderRun.{IsEncoder, ServedAll, Serves, HasNotServedAll, connection_line};
ghost use Rattle.uecp_jobs.specs.EncoderRun.{connection_lines, ending_words};

use crate::setup::{Setup, new_encoder};
use commands::Job;
use notices::{Notices, fail};
use std::alloc::Global;
use std::io::Write;
use uecp_encoder::{Encoder, ServeFault, Served, Target};
use uecp_net::{Connections, serve_connection};
use uecp_text::{Output, RunFault};

/// Does the job of `encoder` and answers the exit status: 0 done, 2 the services were refused, 3 there was no
/// connection to be had, or memory or writing failed. Each line is written out before the next connection is opened.
pub fn run_encoder_over<W: Write, E: Notices, C: Connections>(
    alloc: Global,
    job: &Job,
    writer: &mut W,
    errors: &mut E,
    connect: &mut C,
) -> u8
    requires { IsEncoder job.now }
    ensures status { (result ≤ 3) × (result ≢ 1) }
    // 0: all connections were served, and each has its line. Nothing was said on `errors`.
    ensures done { result ≡ 0 → ServedAll C.opens C.closes C.Input.remaining C.Output.contents job.now connect.old
        connect.new (W.contents writer.old) (W.contents writer.new) × (errors.new ≡ errors.old) }
    // 2: the options describe no encoder. No connection was opened, and nothing was written.
    ensures undescribed { result ≡ 2 → IsUndescribed job.now (E.says errors.old errors.new)
        × (writer.new ≡ writer.old) × (connect.new ≡ connect.old) }
    // 3: there was no connection to be had, and each that was served has its line; or memory or writing failed, and a
    // beginning of the lines of those that were served was written.
    ensures failed { result ≡ 3 → HasNotServedAll C.opens C.closes C.Input.remaining C.Output.contents job.now
        connect.old connect.new (W.contents writer.old) (W.contents writer.new) (E.says errors.old errors.new) }
{
    match serve_all(alloc, job, writer, connect) {
        Ok(()) => 0,
        Err(fault) => fail(&fault, errors),
    }
}

/// Serves the connections of the job. The options are judged before the first is opened.
fn serve_all<W: Write, C: Connections>(
    alloc: Global,
    job: &Job,
    writer: &mut W,
    connect: &mut C,
) -> Result<(), RunFault>
    requires { IsEncoder job.now }
    ensures { ((fault : RunFault) × (result ≡ Err fault) × RefusesJob job.now fault × (writer.new ≡ writer.old)
        × (connect.new ≡ connect.old)) ⊎ Serves C.opens C.closes C.Input.remaining C.Output.contents job.now connect.old
        connect.new (W.contents writer.old) (W.contents writer.new) result }
{
    match job {
        Job::Encoder {
            site,
            encoder,
            sets,
            services,
            connections,
            turns,
            ..
        } => {
            let setup = Setup {
                site: *site,
                encoder: *encoder,
                sets: *sets,
                services: services.as_slice(),
            };
            let mut encoder = new_encoder(alloc, &setup)?;
            match serve_connections(alloc, &mut encoder, *connections, *turns, connect, writer) {
                Ok(()) => Ok(()),
                Err(fault) => Err(fault),
            }
        }
        _ => unreachable!(),
    }
}

/// Serves so many connections, one after another, and writes a line of how each ended before the next is opened.
fn serve_connections<T: Target, C: Connections, W: Write>(
    alloc: Global,
    encoder: &mut Encoder<T>,
    connections: u32,
    turns: u32,
    connect: &mut C,
    writer: &mut W,
) -> Result<(), RunFault>
    // All were served, one after another, and each has its line.
    ensures served { OnOk result ((outcomes : List Outcome) × (length outcomes ≡ connections)
        × Sessions T.step C.opens C.closes C.Input.remaining C.Output.contents turns encoder.old connect.old outcomes
        encoder.new connect.new
        × Appends (W.contents writer.old) (W.contents writer.new) (connection_lines 1 outcomes)) }
    // Fewer were served, each of which has its line, and then there was no connection to be had.
    ensures refused { result ≡ Err Listening → (outcomes : List Outcome) × (last : C) × (length outcomes < connections)
        × Sessions T.step C.opens C.closes C.Input.remaining C.Output.contents turns encoder.old connect.old outcomes
        encoder.new last
        × C.opens last None connect.new
        × Appends (W.contents writer.old) (W.contents writer.new) (connection_lines 1 outcomes) }
    // There was no memory for the line of the last one that was served, or writing failed: the writer got a beginning
    // of the lines.
    ensures broken { IfErr result (λ fault. fault ≢ Listening
        → (outcomes : List Outcome) × (length outcomes ≤ connections)
        × Sessions T.step C.opens C.closes C.Input.remaining C.Output.contents turns encoder.old connect.old outcomes
        encoder.new connect.new
        × Begins (W.contents writer.old) (W.contents writer.new) (connection_lines 1 outcomes)) }
    ensures faults { IfErr result (λ fault. (fault ≡ Listening) ⊎ ((fault ≢ Listening) × Fails fault)) }
{
    let mut output = Output::new(alloc);
    for before in 0..connections {
        let Some(outcome) = serve_connection(encoder, turns, connect) else {
            return Err(RunFault::Listening);
        };
        put_connection(before + 1, outcome, &mut output);
        if output.check().is_err() {
            return Err(RunFault::OutOfMemory);
        }
        if output.write_out(writer).is_err() {
            return Err(RunFault::Writing);
        }
    }
    Ok(())
}

/// Puts down the line of the connection of this number.
fn put_connection(number: u32, outcome: Result<Served, ServeFault>, output: &mut Output)
    ensures { Adds output.old output.new (connection_line number outcome) }
{
    output.text("connection");
    output.decimal(number as usize);
    put_ending(outcome, output);
    output.end();
}

/// Puts down how a connection ended, in words.
///
/// ```
/// put_ending(Err(ServeFault::TurnsSpent), &mut output); // " turns spent"
/// ```
pub fn put_ending(outcome: Result<Served, ServeFault>, output: &mut Output)
    ensures { Adds output.old output.new (ending_words outcome) }
{
    match outcome {
        Ok(served) => {
            output.text(" replies");
            output.decimal(served.replies as usize);
        }
        Err(ServeFault::ReadFailed) => output.text(" read failed"),
        Err(ServeFault::WriteFailed { written }) => {
            output.text(" write failed");
            output.decimal(written as usize);
        }
        Err(ServeFault::TurnsSpent) => output.text(" turns spent"),
    }
}
