//! The job `server`, from its input to its exit status (profile).
ghost use Rattle.std.specs.Prelude.{◌≡◌, ◌≢◌, ◌⊎◌, ℕ, ◌+◌, ◌≤◌, List, [], length, Result, Some, None, Ok, Err, IfOk};
ghost use Rattle.std.specs.Prelude.{IfErr, IsTrue};
ghost use Rattle.uecp_frame.specs.Address.{is_exact};
ghost use Rattle.uecp_text.specs.Input.{texts_of};
ghost use Rattle.uecp_jobs.specs.Jobs.{RefusesJob, IsUndescribed};
ghost use Rattle.uecp_jobs.specs.Messages.{refusal_in};
ghost use Rattle.uecp_jobs.specs.Setups.{RefusesAddress};
ghost use Rattle.uecp_jobs.specs.Batches.{batch_size};
ghost use Rattle.uecp_jobs.specs.ServerRun.{IsServer, RunsSender, SendsMessages, SendsNone, SendsUpTo, HasSentAll};
ghost use Rattle.uecp_jobs.specs.ServerRun.{HasSentBefore, HasNotSentAll, AreAcknowledged, AreAcknowledgedBefore};
ghost use Rattle.uecp_jobs.specs.ServerRun.{AreNotAcknowledged, SendsAs, SendsUpToAs};

use crate::batches::{join_first, send_batches};
use crate::messages::{Messages, messages_of};
use crate::server_setup::{ServerSetup, server_setup_of};
use crate::setup::address_of;
use commands::Job;
use notices::{Notices, fail};
use std::alloc::Global;
use std::io::{Read, Write};
use uecp_frame::{Address, Message};
use uecp_link::Server;
use uecp_net::{Connections, Limits, Sender};
use uecp_text::{RunFault, read_all};

/// The most messages that may be on their way at once.
const WINDOW_MAX: u8 = 8;

/// Does the job of `server` and answers the exit status: 0 done, 1 a line was refused, 2 the address was refused, 3 a
/// batch of messages is outstanding, or memory, reading or writing failed. The input is read to its end before the
/// first message is sent; what is said of a batch is written out before the next one is sent.
pub fn run_server_over<R: Read, W: Write, E: Notices, C: Connections>(
    alloc: Global,
    job: &Job,
    reader: &mut R,
    writer: &mut W,
    errors: &mut E,
    connect: &mut C,
) -> u8
    requires { IsServer job.now }
    ensures status { result ≤ 3 }
    // 0: all messages of the input were sent, each once, and acknowledged, and no line was refused. Nothing was said on
    // `errors`.
    ensures sent { result ≡ 0 → HasSentAll C.opens C.closes C.Input.remaining C.Output.contents job.now connect.old
        connect.new (R.remaining reader.old) (R.remaining reader.new) (W.contents writer.old) (W.contents writer.new)
        × (errors.new ≡ errors.old) }
    // 0: so there is one line for each message, in order.
    ensures acknowledged { result ≡ 0 → AreAcknowledged job.now (R.remaining reader.old) (R.remaining reader.new)
        (W.contents writer.old) (W.contents writer.new) }
    // 1: a line was refused, the messages before it were sent, each once, and acknowledged, and the line's number and
    // fault were said.
    ensures sent_before { result ≡ 1 → HasSentBefore C.opens C.closes C.Input.remaining C.Output.contents job.now
        connect.old connect.new (R.remaining reader.old) (R.remaining reader.new) (W.contents writer.old)
        (W.contents writer.new) (E.says errors.old errors.new) }
    // 1: so there is one line for each of those messages, in order.
    ensures acknowledged_before { result ≡ 1 → AreAcknowledgedBefore job.now (R.remaining reader.old)
        (R.remaining reader.new) (W.contents writer.old) (W.contents writer.new) (E.says errors.old errors.new) }
    // 2: the address is not that of one encoder. No connection was opened, and nothing was read or written.
    ensures undescribed { result ≡ 2 → IsUndescribed job.now (E.says errors.old errors.new)
        × (reader.new ≡ reader.old) × (writer.new ≡ writer.old) × (connect.new ≡ connect.old) }
    // 3: a batch is outstanding, and not before its tries on a connection are spent, or its connections; or memory or
    // writing failed behind a batch; or nothing was sent.
    ensures not_sent { result ≡ 3 → HasNotSentAll C.opens C.closes C.Input.remaining C.Output.contents job.now
        connect.old connect.new (R.remaining reader.old) (R.remaining reader.new) (W.contents writer.old)
        (W.contents writer.new) (E.says errors.old errors.new) }
    // 3: so the lines of the batches before that were written, and then that it is outstanding; or a beginning of that.
    ensures not_acknowledged { result ≡ 3 → AreNotAcknowledged job.now (R.remaining reader.old) (R.remaining reader.new)
        (W.contents writer.old) (W.contents writer.new) (E.says errors.old errors.new) }
{
    match send_all(alloc, job, reader, writer, connect) {
        Ok(()) => 0,
        Err(fault) => fail(&fault, errors),
    }
}

/// Sends the messages of the input. The address is judged before anything is read.
fn send_all<R: Read, W: Write, C: Connections>(
    alloc: Global,
    job: &Job,
    reader: &mut R,
    writer: &mut W,
    connect: &mut C,
) -> Result<(), RunFault>
    requires { IsServer job.now }
    ensures all { IfOk result (λ _. HasSentAll C.opens C.closes C.Input.remaining C.Output.contents job.now connect.old
        connect.new (R.remaining reader.old) (R.remaining reader.new) (W.contents writer.old) (W.contents writer.new)) }
    ensures some { IfErr result (λ fault. (RefusesJob job.now fault × (reader.new ≡ reader.old)
        × (writer.new ≡ writer.old) × (connect.new ≡ connect.old))
        ⊎ (SendsNone (R.remaining reader.old) (R.remaining reader.new) (W.contents writer.old) (W.contents writer.new)
        fault × (connect.new ≡ connect.old))
        ⊎ SendsUpTo C.opens C.closes C.Input.remaining C.Output.contents job.now connect.old connect.new
        (R.remaining reader.old) (R.remaining reader.new) (W.contents writer.old) (W.contents writer.new) fault) }
{
    match job {
        Job::Server {
            site,
            encoder,
            tries,
            turns,
            reconnects,
            window,
            ..
        } => {
            let setup = ServerSetup {
                site: *site,
                encoder: *encoder,
                limits: Limits {
                    tries: *tries,
                    turns: *turns,
                    reconnects: *reconnects,
                    reconnect_silent: false,
                },
                window: *window,
                join: false,
            };
            send_input(alloc, setup, reader, writer, connect)
        }
        Job::ServerWith(options) => {
            send_input(alloc, server_setup_of(options), reader, writer, connect)
        }
        _ => unreachable!(),
    }
}

/// Sends the messages of the input by a server that is made so. The address is judged before anything is read.
fn send_input<R: Read, W: Write, C: Connections>(
    alloc: Global,
    setup: ServerSetup,
    reader: &mut R,
    writer: &mut W,
    connect: &mut C,
) -> Result<(), RunFault>
    ensures all { IfOk result (λ _. (input : List ℕ) × SendsAs C.opens C.closes C.Input.remaining C.Output.contents
        setup input connect.old connect.new (R.remaining reader.old) (R.remaining reader.new) (W.contents writer.old)
        (W.contents writer.new) (Ok tt) × (refusal_in (texts_of input) ≡ None)) }
    ensures some { IfErr result (λ fault. (RefusesAddress setup.site setup.encoder fault × (reader.new ≡ reader.old)
        × (writer.new ≡ writer.old) × (connect.new ≡ connect.old))
        ⊎ (SendsNone (R.remaining reader.old) (R.remaining reader.new) (W.contents writer.old) (W.contents writer.new)
        fault × (connect.new ≡ connect.old))
        ⊎ SendsUpToAs C.opens C.closes C.Input.remaining C.Output.contents setup connect.old connect.new
        (R.remaining reader.old) (R.remaining reader.new) (W.contents writer.old) (W.contents writer.new) fault) }
{
    let Some(address) = address_of(setup.site, setup.encoder) else {
        return Err(RunFault::Address);
    };
    let input = read_all(alloc, reader)?;
    let messages = messages_of(alloc, input.as_slice())?;
    let list = messages.list.as_slice();
    send_messages(
        alloc,
        list,
        batch_size(setup.window),
        address,
        setup.limits,
        setup.join,
        writer,
        connect,
    )?;
    refusal(messages)
}

/// The refusal of the line after these messages, if there is one.
fn refusal(messages: Messages) -> Result<(), RunFault>
    ensures none { IfOk result (λ _. messages.refused ≡ None) }
    ensures some { IfErr result (λ fault. messages.refused ≡ Some fault) }
{
    match messages.refused {
        Some(fault) => Err(fault),
        None => Ok(()),
    }
}

/// How many messages a batch has at most: as many as the window says, but 1 where it says 0, and 8 where it says more.
pub fn batch_size(window: u8) -> usize
    ensures { result ≡ batch_size window }
{
    usize::from(window.clamp(1, WINDOW_MAX))
}

/// Sends these messages to the encoder at this address, by one sender, in batches of this size. The encoder is joined
/// first where that is asked for.
fn send_messages<W: Write, C: Connections>(
    alloc: Global,
    messages: &[Message],
    size: usize,
    address: Address,
    limits: Limits,
    join: bool,
    writer: &mut W,
    connect: &mut C,
) -> Result<(), RunFault>
    requires some { 1 ≤ size }
    requires most { size ≤ 8 }
    requires exact { IsTrue (is_exact address) }
    ensures { SendsMessages C.opens C.closes C.Input.remaining C.Output.contents address limits join size messages.now
        connect.old connect.new (W.contents writer.old) (W.contents writer.new) result }
{
    let mut sender = Sender::new(connect, Server::new(address), limits);
    let sent = run_sender(alloc, messages, size, join, &mut sender, writer);
    let _connect = sender.finish();
    sent
}

/// Joins the encoder where that is asked for, and then sends these messages, in batches of this size.
fn run_sender<W: Write, C: Connections>(
    alloc: Global,
    messages: &[Message],
    size: usize,
    join: bool,
    sender: &mut Sender<'_, C>,
    writer: &mut W,
) -> Result<(), RunFault>
    requires some { 1 ≤ size }
    requires most { size ≤ 8 }
    requires idle { sender.old.sender.server.held ≡ [] }
    ensures runs { RunsSender C.opens C.closes C.Input.remaining C.Output.contents join size sender.old messages.now
        (W.contents writer.old) (W.contents writer.new) result sender.new }
    ensures loan { sender.new.loan ≡ sender.old.loan }
{
    join_first(alloc, join, sender, writer)?;
    send_batches(alloc, messages, size, sender, writer)
}
