//! The job `server` with its state kept. Source: profile.
ghost use Rattle.std.specs.Prelude.{◌≡◌, ◌⊎◌, ◌<◌, ◌≤◌, ◌^◌, [], length, false, true, IsTrue, Some, None};
ghost use Rattle.uecp_frame.specs.Address.{is_exact};
ghost use Rattle.uecp_jobs.specs.Batches.{batch_size};
ghost use Rattle.uecp_text.specs.declared.run_fault.RunFault.{RunFault};
ghost use Rattle.uecp_text.specs.Faults.{error_lines};
ghost use Rattle.uecp_net.specs.Keeping.{KeptServer, IsKept};
ghost use Rattle.kept_jobs.specs.declared.stop.KeptStop.{KeptStop};
ghost use Rattle.kept_jobs.specs.Stops.{Went, stop_lines};
ghost use Rattle.kept_jobs.specs.ServerKept.{IsReadWith, IsReasonFor, HasTakenInput, OutlivesRun};
ghost use Rattle.kept_jobs.specs.ServerRun.{IsTold};
ghost use Rattle.state_jobs.specs.ServerRun.{IsOfServer, RunsServer, SendsList};
ghost use Rattle.state_jobs.specs.ServerTold.{HasTold};

use crate::list::Listed;
use kept_jobs::{KeptStop, Start, fail_run};
use notices::Notices;
use sending::{Account, RunOptions, Teller, run_from};
use std::alloc::Global;
use std::io;
use std::io::{ErrorKind, Read, Write};
use std::time::{Clock, Duration};
use uecp_encoder::Keep;
use uecp_jobs::{Messages, ServerSetup, batch_size, messages_of};
use uecp_net::{Connections, SavedServer};
use uecp_text::read_all;

/// Sends the messages of the input to this server's encoder, with the server's state kept, and answers the exit
/// status: 0 done, 1 a line was refused, 3 a batch of messages is outstanding, the server could not be saved, or
/// memory, reading or writing failed. The input is read to its end first. Then it is told how many messages were taken
/// before, and how many of them wait; those are settled first, and then the input's are sent; what is said of a batch
/// is written out before the next one is submitted. Where a save fails nothing is told of that batch, and none is sent
/// after it.
///
/// A server that is not joined joins its encoder first. Where `join` asks for that of one that is, it begins anew: what
/// waits is given up, which is told.
///
/// What is kept at the start is to be this server, and its progress.
///
/// ```
/// let status = run_server_kept(
///     alloc, &options, Start { server, progress }, &mut keeper, &mut input, &mut output, &mut errors, &mut connecting,
/// );
/// ```
pub fn run_server_kept<K: Keep<SavedServer>, R: Read, W: Write, E: Notices, C: Connections>(
    alloc: Global,
    options: &ServerSetup,
    start: Start,
    keeper: &mut K,
    reader: &mut R,
    writer: &mut W,
    errors: &mut E,
    connect: &mut C,
) -> u8
    requires exact { IsTrue (is_exact start.server.address) }
    requires countable { start.progress.taken < 2 ^ 63 }
    ensures runs { (went : Went) × RunsServer C.opens C.closes C.Input.remaining C.Output.contents K.leaves K.is_clean
        K.saves K.fails options.now.window options.now.join options.now.limits (R.remaining reader.old)
        (R.remaining reader.new) connect.old connect.new (record {
          runs = start.server;
          keeper = keeper.old;
          progress = start.progress;
          held = W.contents writer.old;
        }) keeper.new (W.contents writer.new) went
        × IsTold E.says went result errors.old errors.new }
    ensures status { (result ≡ 0) ⊎ (result ≡ 1) ⊎ (result ≡ 3) }
    // 0: the input was read to its end, and no line of it is refused. Nothing was said on `errors`.
    ensures done { result ≡ 0 → IsReadWith None (R.remaining reader.old) (R.remaining reader.new)
        × (errors.new ≡ errors.old) }
    // 1: a line of it is refused, and its number and fault were said.
    ensures refused { result ≡ 1 → (fault : RunFault) × IsReadWith (Some fault) (R.remaining reader.old)
        (R.remaining reader.new) × E.says errors.old errors.new (error_lines fault) }
    // 3: why the run stopped was said; that the state failed only where a save did.
    ensures failed { result ≡ 3 → (stop : KeptStop) × IsReasonFor K.fails keeper.new stop
        × E.says errors.old errors.new (stop_lines stop) }
    // 0 or 1: whatever a crash leaves has taken all messages of the input, or all before the line that is refused, and
    // none of them waits, nor any that waited before.
    ensures kept { (result ≡ 0) ⊎ (result ≡ 1) → IsKept (K.leaves keeper.old) start.progress start.server
        → K.is_clean keeper.new → (left : KeptServer) → K.leaves keeper.new left
        → HasTakenInput (R.remaining reader.old) (R.remaining reader.new) start.progress left }
    // 0 or 1: how far the server had come was written, and what came of the messages that waited or of its encoder; and
    // then one line for each message of the input, or for each before the line that is refused, in order.
    ensures told { (result ≡ 0) ⊎ (result ≡ 1) → HasTold options.now.join (R.remaining reader.old)
        (R.remaining reader.new) start.progress start.server (W.contents writer.old) (W.contents writer.new) }
    // Whatever the status: a crash leaves the server as it was; or, where its encoder is to be joined, a new one; or
    // what calls of `settle_kept` and `send_kept` leave, one after another, of which the laws of those hold.
    ensures outlives { IsKept (K.leaves keeper.old) start.progress start.server → K.is_clean keeper.new
        → (left : KeptServer) → K.leaves keeper.new left
        → OutlivesRun C.opens C.closes C.Input.remaining C.Output.contents K.saves K.fails
        options.now.join (R.remaining reader.old) (R.remaining reader.new) start.progress start.server left }
    ensures clean { K.is_clean keeper.new → K.is_clean keeper.old }
{
    match send_all(alloc, options, start, keeper, reader, writer, connect) {
        Ok(()) => 0,
        Err(stop) => fail_run(&stop, errors),
    }
}

/// Sends the messages of the input.
fn send_all<K: Keep<SavedServer>, R: Read, W: Write, C: Connections>(
    alloc: Global,
    options: &ServerSetup,
    start: Start,
    keeper: &mut K,
    reader: &mut R,
    writer: &mut W,
    connect: &mut C,
) -> Result<(), KeptStop>
    requires exact { IsTrue (is_exact start.server.address) }
    requires countable { start.progress.taken < 2 ^ 63 }
    ensures runs { RunsServer C.opens C.closes C.Input.remaining C.Output.contents K.leaves K.is_clean K.saves K.fails
        options.now.window options.now.join options.now.limits (R.remaining reader.old) (R.remaining reader.new)
        connect.old connect.new (record {
          runs = start.server;
          keeper = keeper.old;
          progress = start.progress;
          held = W.contents writer.old;
        }) keeper.new (W.contents writer.new) result }
{
    let input = read_all(alloc, reader)?;
    let messages = messages_of(alloc, input.as_slice())?;
    let run = run_of(options);
    send_list(alloc, &run, messages, start, keeper, writer, connect)
}

/// How such a server runs: its encoder is taken for a new one at no time, and there is no station.
fn run_of(options: &ServerSetup) -> RunOptions<'static>
    ensures { IsOfServer options.now.window options.now.join options.now.limits result }
{
    RunOptions {
        limits: options.limits,
        size: batch_size(options.window),
        join: options.join,
        rejoin: false,
        account: Account::Batches,
        station: &[],
    }
}

/// Sends these messages by one sender, after what waits.
fn send_list<K: Keep<SavedServer>, W: Write, C: Connections>(
    alloc: Global,
    run: &RunOptions<'_>,
    messages: Messages,
    start: Start,
    keeper: &mut K,
    writer: &mut W,
    connect: &mut C,
) -> Result<(), KeptStop>
    requires exact { IsTrue (is_exact start.server.address) }
    requires countable { start.progress.taken < 2 ^ 63 }
    requires some { 1 ≤ run.now.size }
    requires most { run.now.size ≤ 8 }
    ensures few { length messages.list.items < 2 ^ 59 }
    ensures sends { SendsList C.opens C.closes C.Input.remaining C.Output.contents K.leaves K.is_clean K.saves K.fails
        run.now messages.list.items messages.refused connect.old connect.new (record {
          runs = start.server;
          keeper = keeper.old;
          progress = start.progress;
          held = W.contents writer.old;
        }) keeper.new (W.contents writer.new) result }
{
    let Messages { list, refused } = messages;
    let mut listed = Listed::new(list.as_slice(), refused);
    let mut teller = Teller::new(alloc, &NoClock, writer);
    let mut applied = true;
    let ran = run_from(
        run,
        start,
        keeper,
        &mut listed,
        &mut teller,
        connect,
        &mut applied,
    );
    let _writer = teller.finish();
    ran
}

/// No clock: nobody asks it for the time.
struct NoClock;

impl Clock for NoClock {
    fn monotonic(&self) -> io::Result<Duration> {
        Err(ErrorKind::Unsupported.into())
    }

    fn since_1970(&self) -> io::Result<Duration> {
        Err(ErrorKind::Unsupported.into())
    }
}
