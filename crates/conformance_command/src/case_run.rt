//! One case over a connection (profile).
ghost use Rattle.std.specs.Prelude.{◌≡◌, ◌≢◌, ◌<◌, ◌-◌, length, take, None, Ok, OnOk, IfOk, IfErr, IsTrue};
ghost use Rattle.std.specs.Io.KnownBytes.{Appends};
ghost use Rattle.uecp_frame.specs.Address.{is_exact};
ghost use Rattle.uecp_link.specs.declared.joining.Joining.TheVariants.{Joined};
ghost use Rattle.conformance.specs.Sending.{case_sent, case_wants};
ghost use Rattle.conformance_command.specs.Running.{RunsCase, RunsNot, WentOn, IsUnjoined, all_failed};

use crate::clearing::{is_silent, read_away};
use crate::patience::Waiting;
use crate::reply_stream::hear;
use crate::way::Way;
use crate::went::{Outcome, Went};
use conformance::{Case, Expected, sent, wanted};
use std::alloc::Global;
use std::io::{Read, Write};
use uecp_encoder::Meter;
use uecp_frame::Address;
use uecp_link::{DriveFault, Joining, Server, join};
use uecp_net::Connections;

/// The most reads that are made to join the encoder, and to hear what comes of a case.
pub(crate) const READS_MAX: u32 = 16_384;

/// Why a case was not run.
#[derive(Clone, Copy, Debug, PartialEq, Eq)]
pub enum NotRun {
    /// There was no connection to be had.
    NoLine,
    /// There was no memory for what is to be sent or what is wanted, and no connection was asked for.
    OutOfMemory,
}

/// Runs a case over a connection of its own: joins the encoder at its own address, reads away what joining left, sends
/// what the case sends, in the pieces that it says, reads until nothing comes, and judges. A read that fails is one in
/// which nothing came: of joining it is made again, as often as `way` says, and more often where nothing came at all;
/// and where a reply is missing it is waited for until so many failed.
///
/// Errors: see [`NotRun`].
pub fn run_case<C: Connections>(
    alloc: Global,
    connect: &mut C,
    way: &Way,
    case: &Case<'_>,
) -> Result<Outcome, NotRun>
    requires exact { IsTrue (is_exact way.now.own) }
    requires some { 0 < way.now.patience }
    ensures runs { IfOk result (λ outcome. RunsCase C.opens C.closes C.Input.remaining C.Output.contents way.now.own
        way.now.patience way.now.silent case.now.steps.items connect.old connect.new outcome.went outcome.left
        outcome.came.items) }
    ensures not { IfErr result (λ why. RunsNot C.opens connect.old connect.new why) }
{
    let Ok(bytes) = sent(alloc, way.own, case.steps.as_slice()) else {
        return Err(NotRun::OutOfMemory);
    };
    let Ok(replies) = wanted(alloc, case.steps.as_slice()) else {
        return Err(NotRun::OutOfMemory);
    };
    let Some((input, output)) = connect.open() else {
        return Err(NotRun::NoLine);
    };
    let first = way.patience.min(way.silent);
    let mut waiting = Meter::new(Waiting::new(input, first, way.patience));
    let mut output = Meter::new(output);
    let mut server = Server::new(way.own);
    let mut behind = 0;
    let pass = join(
        &mut server,
        &mut waiting,
        &mut output,
        READS_MAX,
        &mut behind,
    );
    let unheard = is_unheard(pass, waiting.calls(), waiting.failures());
    let mut input = Meter::new(waiting.into_inner().into_inner());
    let exchange = Exchange {
        bytes: bytes.as_slice(),
        pieces: case.pieces,
        replies: replies.as_slice(),
    };
    let outcome = go_on(alloc, way, pass, unheard, exchange, &mut input, &mut output);
    connect.close(input.into_inner(), output.into_inner());
    Ok(outcome)
}

/// Whether nothing came of a pass that ended so, with so many reads, of which so many failed.
fn is_unheard(pass: Result<Joining, DriveFault>, reads: u128, failures: u128) -> bool
    ensures { result ≡ all_failed pass reads failures }
{
    match pass {
        Ok(Joining::Spent) => reads == failures,
        _ => false,
    }
}

/// What is sent over a connection, and what is wanted for it.
#[derive(Clone, Copy)]
struct Exchange<'a> {
    /// What is sent.
    bytes: &'a [u8],
    /// How many bytes a piece of it has; none where all goes at once.
    pieces: Option<u32>,
    /// The replies that are wanted, in order.
    replies: &'a [Expected],
}

#[tactic(auto, using(crate::proofs::Heard::heard_on))]
/// What is done on the two ends of a connection behind a pass that ended so, of which nothing came or something.
fn go_on<R: Read, W: Write>(
    alloc: Global,
    way: &Way,
    pass: Result<Joining, DriveFault>,
    unheard: bool,
    exchange: Exchange<'_>,
    input: &mut Meter<R>,
    output: &mut Meter<W>,
) -> Outcome
    requires { 0 < way.now.patience }
    ensures { WentOn R.remaining W.contents way.now.own way.now.patience way.now.silent exchange.entry.bytes.now
        exchange.entry.replies.now pass unheard input.old input.new output.old output.new result.went result.left
        result.came.items }
{
    let mut came = Vec::new(alloc);
    if pass != Ok(Joining::Joined) {
        let went = unjoined(way, unheard, input);
        return Outcome {
            went,
            left: 0,
            came,
        };
    }
    let left = read_away(input);
    if !left.is_quiet {
        return Outcome {
            went: Went::Floods,
            left: left.bytes,
            came,
        };
    }
    match send(exchange.bytes, piece_of(exchange), output) {
        Err(written) => Outcome {
            went: Went::NotSent(written),
            left: left.bytes,
            came,
        },
        Ok(()) => {
            let went = hear(way.own, way.patience, exchange.replies, input, &mut came);
            Outcome {
                went,
                left: left.bytes,
                came,
            }
        }
    }
}

/// How a case went whose encoder was not joined: where nothing came, that is waited for a while longer.
fn unjoined<R: Read>(way: &Way, unheard: bool, input: &mut Meter<R>) -> Went
    ensures { IsUnjoined R.remaining (way.now.silent - way.now.patience) unheard input.old input.new result }
{
    if !unheard {
        return Went::NotJoined;
    }
    if is_silent(way.silent.saturating_sub(way.patience), input) {
        Went::Silent
    } else {
        Went::NotJoined
    }
}

/// How many bytes are written at a time.
fn piece_of(exchange: Exchange<'_>) -> usize {
    match exchange.pieces {
        Some(size) => size as usize,
        None => exchange.bytes.len(),
    }
}

/// Writes bytes so many at a time, and one at a time where that is 0, or says how many of them were written.
fn send<W: Write>(bytes: &[u8], size: usize, output: &mut Meter<W>) -> Result<(), u64>
    ensures all { OnOk result (Appends (W.contents output.old.device) (W.contents output.new.device) bytes.now) }
    ensures some { IfErr result (λ written. (written < length bytes.now)
        × Appends (W.contents output.old.device) (W.contents output.new.device) (take written bytes.now)) }
{
    let size = size.max(1);
    let mut at = 0;
    while at < bytes.len() {
        let end = at + size.min(bytes.len() - at);
        if let Err(part) = output.write_whole(&bytes[at..end]) {
            return Err(at as u64 + part as u64);
        }
        at = end;
    }
    Ok(())
}
