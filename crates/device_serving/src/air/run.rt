//! The job of an encoder that is on the air. Source: profile.
ghost use Rattle.std.specs.Prelude.{◌≡◌, ◌⊎◌, ◌<◌, ℕ, None, Ok, Err};
ghost use Rattle.rds_store.specs.Value.{Store};
ghost use Rattle.uecp_encoder.specs.Keeping.{Kept, Settled};
ghost use Rattle.kept_jobs.specs.declared.stop.KeptStop.{KeptStop};
ghost use Rattle.kept_jobs.specs.Stops.{stop_lines};
ghost use Rattle.carousel.specs.Carousel.{Carousel as CarouselValue};
ghost use Rattle.device_serving.specs.ConnectionLines.{ended_lines};
ghost use Rattle.device_serving.specs.Logging.{Logs};
ghost use Rattle.device_serving.specs.DeviceRun.{went_after};
ghost use Rattle.device_serving.specs.AirRun.{ReadsOpen, DoesNext, DoesAll, Serves, RunsOnAir, OutlivesRun};
ghost use Rattle.device_serving.specs.AirLines.{ended_over};
ghost use Rattle.device_serving.specs.AirParts.{Comes};
ghost use Rattle.notices.specs.Told.{Says};

use crate::air::airing::send_next;
use crate::air::line::{OpenLine, Sent, ended_over, is_over};
use crate::air::moments::{Moment, Moments};
use crate::air::tally::{Turn, read_once};
use crate::limits::Limits;
use crate::log_lines::LogLines;
use crate::run::{tell_store, went_after};
use carousel::Carousel;
use kept_jobs::{KeptStop, fail_run};
use notices::NoticesTo;
use rds_store::RdsStore;
use std::io::Write;
use std::time::Clock;
use uecp_encoder::{BatchLimits, Encoder, Keep, Listener, SavedEncoder};
use uecp_text::RunFault;

/// How many moments a run waits for at most.
const MOMENTS_MAX: u64 = 1 << 63;

/// Where the log tells each event in objects, tells the lines of the store first. Serves so many connections, one after
/// another, and meanwhile sends the groups of the encoder's store, each when it
/// is due; tells what the log is to tell; then, where that is asked for, the lines of the store. Answers the exit
/// status: 0 done, 3 nothing more was to be waited for, the encoder could not be saved, or memory or writing failed.
///
/// One connection is open at a time. Each time something came on it one read of it is served, as
/// [`serve_with`](uecp_encoder::serve_with) does; it ends where the peer closes it, a read, a write or a save fails, or
/// so many reads were made. Where a line can't be written the connection is served to its end, and none is opened after
/// it; the groups go out until then.
///
/// A group that waits in the store is taken, and goes out once the encoder is saved without it. Where that save fails
/// it does not go out, and the run ends.
///
/// What is kept at the start is to be this encoder: a new one is saved first.
///
/// ```
/// let limits = Limits { connections: u64::MAX, turns: 100_000, store: true };
/// let status = run_on_air(
///     limits, &mut encoder, &mut NotSaved, &mut log, &mut errors, &mut carousel, &mut edge,
/// );
/// ```
pub fn run_on_air<
    K: Keep<SavedEncoder<RdsStore>> + BatchLimits,
    W: Write,
    Clk: Clock,
    E: Write,
    M: Moments,
>(
    limits: Limits,
    encoder: &mut Encoder<RdsStore>,
    keeper: &mut K,
    log: &mut LogLines<'_, W, Clk>,
    errors: &mut NoticesTo<E>,
    carousel: &mut Carousel,
    moments: &mut M,
) -> u8
    ensures status { (result ≡ 0) ⊎ (result ≡ 3) }
    // 0: all connections were served, and all was told. Nothing was said on `errors`.
    ensures done { result ≡ 0 → (left : ℕ) × RunsOnAir K.TOGETHER_MAX K.READ_MAX K.leaves K.is_clean K.saves K.fails
        M.waits M.closes M.sends M.Input.remaining M.Output.contents limits.turns limits.store
        (record {
          encoder = encoder.old;
          keeper = keeper.old;
          log = log.old;
          moments = moments.old;
          carousel = carousel.old;
          line = None;
          left = limits.connections;
        }) (record {
          encoder = encoder.new;
          keeper = keeper.new;
          log = log.new;
          moments = moments.new;
          carousel = carousel.new;
          line = None;
          left = left;
        }) (Ok tt)
        × (errors.new ≡ errors.old) }
    // 3: moments went by up to one at which the run stopped, and why was said.
    ensures failed { result ≡ 3 → (stop : KeptStop) × (left : ℕ)
        × RunsOnAir K.TOGETHER_MAX K.READ_MAX K.leaves K.is_clean K.saves K.fails M.waits M.closes M.sends
        M.Input.remaining M.Output.contents limits.turns limits.store
        (record {
          encoder = encoder.old;
          keeper = keeper.old;
          log = log.old;
          moments = moments.old;
          carousel = carousel.old;
          line = None;
          left = limits.connections;
        }) (record {
          encoder = encoder.new;
          keeper = keeper.new;
          log = log.new;
          moments = moments.new;
          carousel = carousel.new;
          line = None;
          left = left;
        }) (Err stop)
        × Says errors.old errors.new (stop_lines stop) }
    // 0: whatever a crash leaves is the encoder.
    ensures settled { result ≡ 0 → Settled (K.leaves keeper.old) encoder.old → K.is_clean keeper.new
        → Settled (K.leaves keeper.new) encoder.new }
    // 3: it is the encoder too, unless a save failed.
    ensures outlives { Settled (K.leaves keeper.old) encoder.old → K.is_clean keeper.new → (kept : Kept Store)
        → K.leaves keeper.new kept → (left : ℕ) × OutlivesRun K.TOGETHER_MAX K.READ_MAX K.leaves K.is_clean K.saves
        K.fails M.waits M.closes M.sends M.Input.remaining M.Output.contents limits.turns
        (record {
          encoder = encoder.new;
          keeper = keeper.new;
          log = log.new;
          moments = moments.new;
          carousel = carousel.new;
          line = None;
          left = left;
        }) kept }
    ensures clean { K.is_clean keeper.new → K.is_clean keeper.old }
{
    match serve_and_store(limits, encoder, keeper, log, carousel, moments) {
        Ok(()) => 0,
        Err(stop) => fail_run(&stop, errors),
    }
}

/// Tells the lines of the store where the log tells them first; serves and sends; and then tells the lines of the store
/// where that is asked for.
fn serve_and_store<K: Keep<SavedEncoder<RdsStore>> + BatchLimits, W: Write, Clk: Clock, M: Moments>(
    limits: Limits,
    encoder: &mut Encoder<RdsStore>,
    keeper: &mut K,
    log: &mut LogLines<'_, W, Clk>,
    carousel: &mut Carousel,
    moments: &mut M,
) -> Result<(), KeptStop>
    ensures runs { (left : ℕ) × RunsOnAir K.TOGETHER_MAX K.READ_MAX K.leaves K.is_clean K.saves K.fails M.waits M.closes
        M.sends M.Input.remaining M.Output.contents limits.turns limits.store
        (record {
          encoder = encoder.old;
          keeper = keeper.old;
          log = log.old;
          moments = moments.old;
          carousel = carousel.old;
          line = None;
          left = limits.connections;
        }) (record {
          encoder = encoder.new;
          keeper = keeper.new;
          log = log.new;
          moments = moments.new;
          carousel = carousel.new;
          line = None;
          left = left;
        }) result }
{
    tell_store(log.tells_first(), encoder, log)?;
    serve_all(
        limits.connections,
        limits.turns,
        encoder,
        keeper,
        log,
        carousel,
        moments,
    )?;
    tell_store(limits.store, encoder, log)
}

/// Serves and sends up to the end, and then gives back the connection that is open, if one is.
fn serve_all<K: Keep<SavedEncoder<RdsStore>> + BatchLimits, W: Write, Clk: Clock, M: Moments>(
    connections: u64,
    turns: u32,
    encoder: &mut Encoder<RdsStore>,
    keeper: &mut K,
    log: &mut LogLines<'_, W, Clk>,
    carousel: &mut Carousel,
    moments: &mut M,
) -> Result<(), KeptStop>
    ensures serves { (left : ℕ) × Serves K.TOGETHER_MAX K.READ_MAX K.leaves K.is_clean K.saves K.fails M.waits M.closes
        M.sends M.Input.remaining M.Output.contents turns
        (record {
          encoder = encoder.old;
          keeper = keeper.old;
          log = log.old;
          moments = moments.old;
          carousel = carousel.old;
          line = None;
          left = connections;
        }) (record {
          encoder = encoder.new;
          keeper = keeper.new;
          log = log.new;
          moments = moments.new;
          carousel = carousel.new;
          line = None;
          left = left;
        }) result }
{
    let mut line = None;
    let mut left = connections;
    let ended = do_all(
        turns, encoder, keeper, log, carousel, moments, &mut line, &mut left,
    );
    match line {
        Some(open) => {
            moments.close(open.input, open.output);
            ended
        }
        None => ended,
    }
}

/// Does what is asked for, moment after moment, up to the end.
fn do_all<K: Keep<SavedEncoder<RdsStore>> + BatchLimits, W: Write, Clk: Clock, M: Moments>(
    turns: u32,
    encoder: &mut Encoder<RdsStore>,
    keeper: &mut K,
    log: &mut LogLines<'_, W, Clk>,
    carousel: &mut Carousel,
    moments: &mut M,
    line: &mut Option<OpenLine<M::Input, M::Output>>,
    left: &mut u64,
) -> Result<(), KeptStop>
    ensures all { DoesAll K.TOGETHER_MAX K.READ_MAX K.leaves K.is_clean K.saves K.fails M.waits M.closes M.sends
        M.Input.remaining M.Output.contents turns
        (record {
          encoder = encoder.old;
          keeper = keeper.old;
          log = log.old;
          moments = moments.old;
          carousel = carousel.old;
          line = line.old;
          left = left.old;
        }) (record {
          encoder = encoder.new;
          keeper = keeper.new;
          log = log.new;
          moments = moments.new;
          carousel = carousel.new;
          line = line.new;
          left = left.new;
        }) result }
{
    for _moment in 0..MOMENTS_MAX {
        if *left == 0 {
            return Ok(());
        }
        do_next(turns, encoder, keeper, log, carousel, moments, line, left)?;
    }
    Err(KeptStop::Run(RunFault::Listening))
}

/// Waits once, and does what the moment that came asks for.
fn do_next<K: Keep<SavedEncoder<RdsStore>> + BatchLimits, W: Write, Clk: Clock, M: Moments>(
    turns: u32,
    encoder: &mut Encoder<RdsStore>,
    keeper: &mut K,
    log: &mut LogLines<'_, W, Clk>,
    carousel: &mut Carousel,
    moments: &mut M,
    line: &mut Option<OpenLine<M::Input, M::Output>>,
    left: &mut u64,
) -> Result<(), KeptStop>
    requires { 0 < left.old }
    ensures next { DoesNext K.TOGETHER_MAX K.READ_MAX K.leaves K.is_clean K.saves K.fails M.waits M.closes M.sends
        M.Input.remaining M.Output.contents turns
        (record {
          encoder = encoder.old;
          keeper = keeper.old;
          log = log.old;
          moments = moments.old;
          carousel = carousel.old;
          line = line.old;
          left = left.old;
        }) (record {
          encoder = encoder.new;
          keeper = keeper.new;
          log = log.new;
          moments = moments.new;
          carousel = carousel.new;
          line = line.new;
          left = left.new;
        }) result }
{
    match moments.wait(line.is_some()) {
        Moment::Connected(input, output) => {
            connect(turns, encoder, log, moments, line, input, output);
            Ok(())
        }
        Moment::Readable => read_open(encoder, keeper, log, moments, line, left),
        Moment::Due => send_next(encoder, keeper, moments, carousel),
        Moment::Over => Err(KeptStop::Run(RunFault::Listening)),
    }
}

/// Takes a connection that came as the one that is open, or gives it back where one is.
fn connect<W: Write, Clk: Clock, M: Moments>(
    turns: u32,
    encoder: &mut Encoder<RdsStore>,
    log: &mut LogLines<'_, W, Clk>,
    moments: &mut M,
    line: &mut Option<OpenLine<M::Input, M::Output>>,
    input: M::Input,
    output: M::Output,
)
    ensures { Comes M.closes turns line.old input output encoder.old encoder.new log.old log.new moments.old moments.new
        line.new }
{
    match line.take() {
        Some(open) => {
            *line = Some(open);
            moments.close(input, output);
        }
        None => {
            encoder.line_lost();
            log.begin();
            *line = Some(OpenLine {
                input,
                output,
                left: turns,
                sent: Sent {
                    replies: 0,
                    bytes: 0,
                },
            });
        }
    }
}

/// Makes one read of the connection that is open, if one is, and goes on with it or ends it.
fn read_open<K: Keep<SavedEncoder<RdsStore>> + BatchLimits, W: Write, Clk: Clock, M: Moments>(
    encoder: &mut Encoder<RdsStore>,
    keeper: &mut K,
    log: &mut LogLines<'_, W, Clk>,
    moments: &mut M,
    line: &mut Option<OpenLine<M::Input, M::Output>>,
    left: &mut u64,
) -> Result<(), KeptStop>
    requires { 0 < left.old }
    ensures reads { (carousel : CarouselValue) → ReadsOpen K.TOGETHER_MAX K.READ_MAX K.leaves K.is_clean K.saves K.fails
        M.closes M.Input.remaining
        M.Output.contents line.old (record {
          encoder = encoder.old;
          keeper = keeper.old;
          log = log.old;
          moments = moments.old;
          carousel = carousel;
          line = line.old;
          left = left.old;
        }) (record {
          encoder = encoder.new;
          keeper = keeper.new;
          log = log.new;
          moments = moments.new;
          carousel = carousel;
          line = line.new;
          left = left.new;
        }) result }
{
    match line.take() {
        None => Ok(()),
        Some(open) => {
            let sent = open.sent;
            let turn = read_once(encoder, keeper, log, open);
            if is_over(turn.line.left, turn.ended) {
                *left -= 1;
                end_line(sent, turn, log, moments)
            } else {
                *line = Some(turn.line);
                Ok(())
            }
        }
    }
}

/// Gives the two ends of a connection back that is over, over which this was sent before its last read, and tells how
/// it ended.
fn end_line<W: Write, Clk: Clock, M: Moments>(
    sent: Sent,
    turn: Turn<M::Input, M::Output>,
    log: &mut LogLines<'_, W, Clk>,
    moments: &mut M,
) -> Result<(), KeptStop>
    ensures closes { M.closes moments.old turn.line.input turn.line.output moments.new }
    ensures tells { Logs (λ stamp. ended_lines log.old.form stamp log.old.number (ended_over sent turn.ended)) log.old
        log.new }
    ensures goes { result ≡ went_after log.new.fault turn.ended }
{
    let ended = turn.ended;
    moments.close(turn.line.input, turn.line.output);
    log.tell_ended(ended_over(sent, ended));
    went_after(log, ended)
}
