//! What a sender does and what is said of it: it joins its encoder first, and then sends its messages, batch by batch
//! (profile).
ghost use Rattle.std.specs.Prelude.{◌≡◌, ◌≢◌, ℕ, ◌+◌, ◌≤◌, [], length, IfOk};
ghost use Rattle.uecp_text.specs.Written.{Adds};
ghost use Rattle.uecp_net.specs.Sending.{submitted_all};
ghost use Rattle.uecp_jobs.specs.Batches.{acknowledged_line, batch_lines, fault_of, settled_lines, ended_by};
ghost use Rattle.uecp_jobs.specs.Batches.{SendsBatch, SendsOut};
ghost use Rattle.uecp_jobs.specs.JoiningFirst.{joining_line, joining_end, JoinsFirst};

use std::alloc::Global;
use std::io::Write;
use uecp_elements::Code;
use uecp_frame::Message;
use uecp_net::{Connections, Outstanding, Sender, Settled};
use uecp_text::{Output, RunFault};

/// Joins the encoder where that is asked for, and writes out what is said of it.
pub(crate) fn join_first<W: Write, C: Connections>(
    alloc: Global,
    join: bool,
    sender: &mut Sender<'_, C>,
    writer: &mut W,
) -> Result<(), RunFault>
    requires idle { sender.old.sender.server.held ≡ [] }
    ensures joins { JoinsFirst C.opens C.closes C.Input.remaining C.Output.contents join sender.old
        (W.contents writer.old) (W.contents writer.new) result sender.new }
    ensures idle { sender.new.sender.server.held ≡ [] }
    ensures loan { sender.new.loan ≡ sender.old.loan }
{
    if !join {
        return Ok(());
    }
    let joined = sender.join();
    let mut output = Output::new(alloc);
    output.text(joining_line(&joined));
    output.check()?;
    output.write_out(writer)?;
    joining_end(joined)
}

/// How a run ends whose encoder could not be joined, or that it goes on.
fn joining_end(joined: Result<(), Outstanding>) -> Result<(), RunFault>
    ensures { result ≡ joining_end joined }
{
    match joined {
        Ok(()) => Ok(()),
        Err(reason) => Err(fault_of(reason)),
    }
}

/// What is said of an encoder that was joined so, or could not be.
fn joining_line(joined: &Result<(), Outstanding>) -> &'static str
    ensures { result.now ≡ joining_line joined.now }
{
    match joined {
        Ok(()) => "joined\n",
        Err(_) => "not joined\n",
    }
}

/// How a run ends whose messages are outstanding, or whose encoder could not be joined, for this reason.
pub fn fault_of(reason: Outstanding) -> RunFault
    ensures { result ≡ fault_of reason }
{
    match reason {
        Outstanding::TriesSpent => RunFault::Outstanding,
        Outstanding::ConnectionFailed => RunFault::Connection,
    }
}

/// Sends these messages, batch by batch. What is said of each is written out before the next one is submitted.
pub(crate) fn send_batches<W: Write, C: Connections>(
    alloc: Global,
    messages: &[Message],
    size: usize,
    sender: &mut Sender<'_, C>,
    writer: &mut W,
) -> Result<(), RunFault>
    requires some { 1 ≤ size }
    requires most { size ≤ 8 }
    requires idle { sender.old.sender.server.held ≡ [] }
    ensures sends { (batches : ℕ) × SendsOut C.opens C.closes C.Input.remaining C.Output.contents size batches
        sender.old messages.now (W.contents writer.old) (W.contents writer.new) result sender.new }
    ensures loan { sender.new.loan ≡ sender.old.loan }
{
    let mut rest = messages;
    while !rest.is_empty() {
        let (batch, more) = rest.split_at(size.min(rest.len()));
        send_batch(alloc, batch, sender, writer)?;
        rest = more;
    }
    Ok(())
}

/// Sends these messages and writes out what is said of them.
fn send_batch<W: Write, C: Connections>(
    alloc: Global,
    batch: &[Message],
    sender: &mut Sender<'_, C>,
    writer: &mut W,
) -> Result<(), RunFault>
    requires some { batch.now ≢ [] }
    requires most { length batch.now ≤ 8 }
    requires idle { sender.old.sender.server.held ≡ [] }
    ensures sends { SendsBatch C.opens C.closes C.Input.remaining C.Output.contents sender.old batch.now
        (W.contents writer.old) (W.contents writer.new) result sender.new }
    ensures idle { IfOk result (λ _. sender.new.sender.server.held ≡ []) }
    ensures loan { sender.new.loan ≡ sender.old.loan }
{
    submit_all(batch, sender);
    let settled = sender.settle();
    let mut output = Output::new(alloc);
    put_batch(&settled, &mut output);
    output.check()?;
    output.write_out(writer)?;
    ended_by(settled)
}

/// How a run ends at a batch that was settled so, or that it goes on.
fn ended_by(settled: Result<Settled, Outstanding>) -> Result<(), RunFault>
    ensures { result ≡ ended_by settled }
{
    match settled {
        Ok(_) => Ok(()),
        Err(reason) => Err(fault_of(reason)),
    }
}

/// Submits these messages, one after another.
fn submit_all<C: Connections>(batch: &[Message], sender: &mut Sender<'_, C>)
    requires room { length sender.old.sender.server.held + length batch.now ≤ 8 }
    ensures { sender.new ≡ submitted_all sender.old batch.now }
{
    for message in batch {
        sender.submit(message);
    }
}

/// Puts down what is said of a batch that was settled so.
fn put_batch(settled: &Result<Settled, Outstanding>, output: &mut Output)
    ensures { Adds output.old output.new (settled_lines settled.now) }
{
    match settled {
        Ok(settled) => put_settled(settled, output),
        Err(_) => output.text("outstanding\n"),
    }
}

/// Puts down the lines of a batch whose messages are acknowledged, in order.
pub fn put_settled(settled: &Settled, output: &mut Output)
    ensures { Adds output.old output.new (batch_lines settled.now.codes.items settled.now.tries) }
{
    for code in settled.codes.as_slice() {
        put_acknowledged(*code, settled.tries, output);
    }
}

/// Puts down the line of a message that was acknowledged with this code in so many tries.
fn put_acknowledged(code: Code, tries: u32, output: &mut Output)
    ensures { Adds output.old output.new (acknowledged_line code tries) }
{
    output.text("acknowledged");
    output.byte(code.byte());
    output.text(" tries");
    output.decimal(tries as usize);
    output.end();
}
