//! The job of an encoder that runs for days. Source: profile.
ghost use Rattle.std.specs.Prelude.{◌≡◌, ◌⊎◌, Ok, Err};
ghost use Rattle.rds_store.specs.Value.{Store};
ghost use Rattle.rds_store.specs.Step.{step};
ghost use Rattle.uecp_encoder.specs.Keeping.{Kept, Settled};
ghost use Rattle.kept_jobs.specs.declared.stop.KeptStop.{KeptStop};
ghost use Rattle.kept_jobs.specs.Stops.{stop_lines};
ghost use Rattle.device_serving.specs.DeviceRun.{ServesNext, ServesFrom, RunsDevice, OutlivesRun};
ghost use Rattle.device_serving.specs.DeviceRun.{TellsStore, went, went_after, ended_so};
ghost use Rattle.notices.specs.Told.{Says};

use crate::limits::Limits;
use crate::log_lines::{LogFault, LogLines};
use kept_jobs::{KeptStop, fail_run};
use notices::NoticesTo;
use rds_store::RdsStore;
use std::io::Write;
use std::time::Clock;
use uecp_encoder::{BatchLimits, Encoder, Keep, KeptFault, SavedEncoder, Served, Target};
use uecp_net::{Connections, serve_connection_with};
use uecp_text::RunFault;

/// Where the log tells each event in objects, tells the lines of the store first. Serves so many connections, one after
/// another, and tells what the log is to tell; then, where that is asked for, the lines of the store. Answers the exit
/// status: 0 done, 3 there was no connection to be had, the encoder could not be saved, or memory or writing failed.
/// Where a line can't be written the connection is served to its end, and none is opened after it.
///
/// What is kept at the start is to be this encoder: a new one is saved first.
///
/// ```
/// let mut log = LogLines::new(alloc, Form::Words(Region::Europe), Some(&rt), true, &mut output);
/// let limits = Limits { connections: u64::MAX, turns: 100_000, store: true };
/// let status = run_device(limits, &mut encoder, &mut NotSaved, &mut log, &mut errors, &mut listening);
/// ```
pub fn run_device<
    K: Keep<SavedEncoder<RdsStore>> + BatchLimits,
    W: Write,
    Clk: Clock,
    E: Write,
    C: Connections,
>(
    limits: Limits,
    encoder: &mut Encoder<RdsStore>,
    keeper: &mut K,
    log: &mut LogLines<'_, W, Clk>,
    errors: &mut NoticesTo<E>,
    connect: &mut C,
) -> u8
    ensures status { (result ≡ 0) ⊎ (result ≡ 3) }
    // 0: all connections were served, and all was told. Nothing was said on `errors`.
    ensures done { result ≡ 0 → RunsDevice K.TOGETHER_MAX K.READ_MAX K.leaves K.is_clean K.saves K.fails C.opens
        C.closes C.Input.remaining C.Output.contents limits.turns limits.connections limits.store (record {
          encoder = encoder.old;
          keeper = keeper.old;
          connect = connect.old;
          log = log.old;
        }) (record {
          encoder = encoder.new;
          keeper = keeper.new;
          connect = connect.new;
          log = log.new;
        }) (Ok tt) × (errors.new ≡ errors.old) }
    // 3: some were served up to one at which the run stopped, and why was said.
    ensures failed { result ≡ 3 → (stop : KeptStop) × RunsDevice K.TOGETHER_MAX K.READ_MAX K.leaves K.is_clean K.saves
        K.fails C.opens C.closes C.Input.remaining C.Output.contents limits.turns limits.connections limits.store
        (record {
          encoder = encoder.old;
          keeper = keeper.old;
          connect = connect.old;
          log = log.old;
        }) (record {
          encoder = encoder.new;
          keeper = keeper.new;
          connect = connect.new;
          log = log.new;
        }) (Err stop) × Says errors.old errors.new (stop_lines stop) }
    // 0: whatever a crash leaves is the encoder.
    ensures settled { result ≡ 0 → Settled (K.leaves keeper.old) encoder.old → K.is_clean keeper.new
        → Settled (K.leaves keeper.new) encoder.new }
    // 3: it is the encoder too, unless a save failed.
    ensures outlives { Settled (K.leaves keeper.old) encoder.old → K.is_clean keeper.new → (left : Kept Store)
        → K.leaves keeper.new left → OutlivesRun K.TOGETHER_MAX K.READ_MAX step K.leaves K.is_clean K.saves K.fails
        C.opens C.closes C.Input.remaining C.Output.contents limits.turns (record {
          encoder = encoder.new;
          keeper = keeper.new;
          connect = connect.new;
          log = log.new;
        }) left }
    ensures clean { K.is_clean keeper.new → K.is_clean keeper.old }
    ensures loan { log.new.loan ≡ log.old.loan }
{
    match serve_and_store(limits, encoder, keeper, log, connect) {
        Ok(()) => 0,
        Err(stop) => fail_run(&stop, errors),
    }
}

/// Tells the lines of the store where the log tells them first, serves the connections, and then tells the lines where
/// that is asked for.
fn serve_and_store<
    K: Keep<SavedEncoder<RdsStore>> + BatchLimits,
    W: Write,
    Clk: Clock,
    C: Connections,
>(
    limits: Limits,
    encoder: &mut Encoder<RdsStore>,
    keeper: &mut K,
    log: &mut LogLines<'_, W, Clk>,
    connect: &mut C,
) -> Result<(), KeptStop>
    ensures runs { RunsDevice K.TOGETHER_MAX K.READ_MAX K.leaves K.is_clean K.saves K.fails C.opens C.closes
        C.Input.remaining C.Output.contents limits.turns limits.connections limits.store (record {
          encoder = encoder.old;
          keeper = keeper.old;
          connect = connect.old;
          log = log.old;
        }) (record {
          encoder = encoder.new;
          keeper = keeper.new;
          connect = connect.new;
          log = log.new;
        }) result }
{
    tell_store(log.tells_first(), encoder, log)?;
    serve_connections(
        limits.connections,
        limits.turns,
        encoder,
        keeper,
        log,
        connect,
    )?;
    tell_store(limits.store, encoder, log)
}

/// Tells the lines of the store where that is asked for, and says whether the run goes on.
pub fn tell_store<W: Write, Clk: Clock>(
    asked: bool,
    encoder: &Encoder<RdsStore>,
    log: &mut LogLines<'_, W, Clk>,
) -> Result<(), KeptStop>
    ensures tells { TellsStore asked encoder.now.value log.old log.new result }
{
    if asked {
        log.tell_store(encoder.target());
    }
    went(log)
}

/// How a run goes on: it stops where the log has ended.
fn went<W: Write, Clk: Clock>(log: &LogLines<'_, W, Clk>) -> Result<(), KeptStop>
    ensures { result ≡ went log.now.fault }
{
    match log.fault() {
        None => Ok(()),
        Some(LogFault::OutOfMemory) => Err(KeptStop::Run(RunFault::OutOfMemory)),
        Some(LogFault::Writing) => Err(KeptStop::Run(RunFault::Writing)),
    }
}

/// Serves so many connections, one after another, and tells how each ended before the next is opened.
fn serve_connections<
    T: Target,
    K: Keep<SavedEncoder<T>> + BatchLimits,
    W: Write,
    Clk: Clock,
    C: Connections,
>(
    connections: u64,
    turns: u32,
    encoder: &mut Encoder<T>,
    keeper: &mut K,
    log: &mut LogLines<'_, W, Clk>,
    connect: &mut C,
) -> Result<(), KeptStop>
    ensures serves { ServesFrom K.TOGETHER_MAX K.READ_MAX T.step K.leaves K.is_clean K.saves K.fails C.opens C.closes
        C.Input.remaining C.Output.contents turns connections (record {
          encoder = encoder.old;
          keeper = keeper.old;
          connect = connect.old;
          log = log.old;
        }) (record {
          encoder = encoder.new;
          keeper = keeper.new;
          connect = connect.new;
          log = log.new;
        }) result }
{
    for _before in 0..connections {
        serve_next(turns, encoder, keeper, log, connect)?;
    }
    Ok(())
}

/// Serves the next connection, and tells how it ended.
fn serve_next<
    T: Target,
    K: Keep<SavedEncoder<T>> + BatchLimits,
    W: Write,
    Clk: Clock,
    C: Connections,
>(
    turns: u32,
    encoder: &mut Encoder<T>,
    keeper: &mut K,
    log: &mut LogLines<'_, W, Clk>,
    connect: &mut C,
) -> Result<(), KeptStop>
    ensures serves { ServesNext K.TOGETHER_MAX K.READ_MAX T.step K.leaves K.is_clean K.saves K.fails C.opens C.closes
        C.Input.remaining C.Output.contents turns (record {
          encoder = encoder.old;
          keeper = keeper.old;
          connect = connect.old;
          log = log.old;
        }) (record {
          encoder = encoder.new;
          keeper = keeper.new;
          connect = connect.new;
          log = log.new;
        }) result }
{
    match serve_connection_with(encoder, keeper, log, turns, connect) {
        None => Err(KeptStop::Run(RunFault::Listening)),
        Some(ended) => {
            log.tell_ended(ended);
            went_after(log, ended)
        }
    }
}

/// How a run goes on after a connection that ended so: it stops where the log has ended, or a save failed.
pub fn went_after<W: Write, Clk: Clock>(
    log: &LogLines<'_, W, Clk>,
    ended: Result<Served, KeptFault>,
) -> Result<(), KeptStop>
    ensures { result ≡ went_after log.now.fault ended }
{
    went(log)?;
    ended_so(ended)
}

/// How a run goes on after a connection that ended so: it stops where a save failed.
fn ended_so(ended: Result<Served, KeptFault>) -> Result<(), KeptStop>
    ensures { result ≡ ended_so ended }
{
    match ended {
        Ok(_) | Err(KeptFault::Serve(_)) => Ok(()),
        Err(KeptFault::StateFailed) => Err(KeptStop::StateFailed),
    }
}
