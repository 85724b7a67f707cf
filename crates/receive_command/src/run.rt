//! Lines are heard as they come (profile).
ghost use Rattle.std.specs.Prelude.{◌≡◌, ◌&&◌, is_some};
ghost use Rattle.receive_command.specs.Receiving.{Receives, at_first};

use crate::line_input::{Buffers, Hearing, hear_next};
use commands::{ReceiveOptions, ShownForm};
use line_feed::Feed;
use notices::{NoticesTo, fail};
use rds_groups::Receiver;
use std::alloc::Global;
use std::io::Write;
use std::time::Clock;
use uecp_text::{Output, RunFault};

/// Tells what a receiver shows of the groups that the lines are, as it changes: behind each line what changed is
/// written and flushed before the next line is waited for. A line that is no group is refused on `errors` by its
/// number and passed over, and the run goes on. It answers the exit status: 0 at the end of the input, 1 there where a
/// line was refused, 3 where memory, reading or writing failed, which is said on `errors`.
pub fn run_receive<F: Feed, W: Write, E: Write, C: Clock>(
    alloc: Global,
    job: &ReceiveOptions,
    clock: Option<&C>,
    feed: &mut F,
    writer: &mut W,
    errors: &mut NoticesTo<E>,
) -> u8
    ensures { Receives job.now.form (job.now.time && is_some clock.entry) result
        (at_first (F.remaining feed.old) (W.contents writer.old) errors.old)
        (F.remaining feed.new) (W.contents writer.new) errors.new }
{
    let clock = if job.time { clock } else { None };
    receive(alloc, job.form, clock, feed, writer, errors)
}

/// Hears one line after another, and answers the exit status.
fn receive<F: Feed, W: Write, E: Write, C: Clock>(
    alloc: Global,
    form: ShownForm,
    clock: Option<&C>,
    feed: &mut F,
    writer: &mut W,
    errors: &mut NoticesTo<E>,
) -> u8
    ensures { Receives form (is_some clock.entry) result
        (at_first (F.remaining feed.old) (W.contents writer.old) errors.old)
        (F.remaining feed.new) (W.contents writer.new) errors.new }
{
    let mut buffers = Buffers {
        line: Vec::new(alloc),
        output: Output::new(alloc),
    };
    let mut hearing = Hearing::new();
    for _turn in 0..u64::MAX {
        let next = hear_next(
            alloc,
            form,
            clock,
            feed,
            &mut hearing,
            &mut buffers,
            writer,
            errors,
        );
        match next {
            Ok(goes_on) => {
                if !goes_on {
                    return u8::from(hearing.refused);
                }
            }
            Err(fault) => return fail(&fault, errors),
        }
    }
    fail(&RunFault::Reading, errors)
}
