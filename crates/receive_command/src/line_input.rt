//! One line is heard, and what changed is told (profile).
ghost use Rattle.std.specs.Prelude.{◌≡◌, ◌⊎◌, ◌+◌, ◌-◌, ◌^◌, ◌||◌, min, ℕ, List, [], true, false, Ok, is_some};
ghost use Rattle.std.specs.Prelude.{IfOk, IfErr, OnOk, IsTrue};
ghost use Rattle.std.specs.Io.KnownBytes.{Keeps, IsAtEnd, Appends};
ghost use Rattle.rds_groups.specs.Shown.{switched_on};
ghost use Rattle.rds_groups.specs.View.{receiver_of};
ghost use Rattle.receive_command.specs.Shown.{shown_by};
ghost use Rattle.receive_command.specs.Told.{IsTold};
ghost use Rattle.receive_command.specs.DisplayView.{shown_in};
ghost use Rattle.receive_command.specs.GroupLines.{after_line};
ghost use Rattle.receive_command.specs.Receiving.{Hears, FailsFor, SaysOf, is_refused, refusal_line};
ghost use Rattle.receive_command.specs.View.{standing_of, NextIs, NextFails, FailsToTell};
ghost use Rattle.notices.specs.Told.{Says};

use crate::display::{Shown, put_change};
use crate::group_lines::{GroupLine, hear_line, read_group};
use commands::ShownForm;
use itoa::Buffer;
use line_feed::{Feed, FeedFault, Next};
use notices::{Notices, NoticesTo};
use rds_groups::Receiver;
use std::alloc::Global;
use std::io::Write;
use std::time::Clock;
use uecp_text::{Output, RunFault};

/// What was heard so far.
#[derive(Drop)]
pub(crate) struct Hearing {
    /// The receiver.
    pub(crate) receiver: Receiver,
    /// How many lines were taken; no more are counted than 2^64 - 1.
    pub(crate) lines: u64,
    /// Whether one of them was no group.
    pub(crate) refused: bool,
}

impl Hearing {
    /// Nothing was heard.
    pub(crate) fn new() -> Hearing
        ensures receiver { receiver_of result.receiver ≡ switched_on }
        ensures lines { result.lines ≡ 0 }
        ensures refused { result.refused ≡ false }
    {
        Hearing {
            receiver: Receiver::new(),
            lines: 0,
            refused: false,
        }
    }
}

/// What is used again for each line.
#[derive(Drop)]
pub(crate) struct Buffers {
    /// The line that is heard.
    pub(crate) line: Vec<u8>,
    /// What is told of it.
    pub(crate) output: Output,
}

/// Takes the next line, has the receiver hear it, and tells what changed. Whether there was one.
///
/// Errors: `Reading`, `Writing`; `OutOfMemory`, and then the line may be lost.
pub(crate) fn hear_next<F: Feed, W: Write, E: Write, C: Clock>(
    alloc: Global,
    form: ShownForm,
    clock: Option<&C>,
    feed: &mut F,
    hearing: &mut Hearing,
    buffers: &mut Buffers,
    writer: &mut W,
    errors: &mut NoticesTo<E>,
) -> Result<bool, RunFault>
    requires empty { buffers.old.output.bytes ≡ [] }
    requires whole { IsTrue buffers.old.output.is_whole }
    ensures heard { result ≡ Ok true → (is : GroupLine) × Hears form (is_some clock.entry) is
        (standing_of hearing.old (F.remaining feed.old) (W.contents writer.old) errors.old)
        (standing_of hearing.new (F.remaining feed.new) (W.contents writer.new) errors.new) }
    ensures ended { result ≡ Ok false → Keeps (F.remaining feed.old) (F.remaining feed.new)
        × IsAtEnd (F.remaining feed.new) × (hearing.new ≡ hearing.old)
        × (W.contents writer.new ≡ W.contents writer.old) × (errors.new ≡ errors.old) }
    ensures failed { IfErr result (λ fault. FailsFor fault form (is_some clock.entry)
        (standing_of hearing.old (F.remaining feed.old) (W.contents writer.old) errors.old)
        (F.remaining feed.new) (W.contents writer.new) × (errors.new ≡ errors.old)) }
    ensures empty { OnOk result (buffers.new.output.bytes ≡ []) }
    ensures whole { OnOk result (IsTrue buffers.new.output.is_whole) }
{
    let Some(group) = next_group(alloc, feed, &mut buffers.line)? else {
        return Ok(false);
    };
    let output = &mut buffers.output;
    hear_group(form, clock, &group, &mut hearing.receiver, output, writer)?;
    count(&group, hearing, errors);
    Ok(true)
}

/// The receiver hears what a line is, and what changed in what it shows is told.
///
/// Errors: `OutOfMemory` where there was none for the lines, and none of them is written; `Writing`.
pub(crate) fn hear_group<W: Write, C: Clock>(
    form: ShownForm,
    clock: Option<&C>,
    group: &GroupLine,
    receiver: &mut Receiver,
    output: &mut Output,
    writer: &mut W,
) -> Result<(), RunFault>
    requires empty { output.old.bytes ≡ [] }
    requires whole { IsTrue output.old.is_whole }
    ensures heard { receiver_of receiver.new ≡ after_line group.now (receiver_of receiver.old) }
    ensures told { OnOk result ((told : List ℕ)
        × IsTold form (is_some clock.entry) (shown_by (receiver_of receiver.old))
        (shown_by (receiver_of receiver.new)) told
        × Appends (W.contents writer.old) (W.contents writer.new) told) }
    ensures failed { IfErr result (FailsToTell form (is_some clock.entry) (shown_by (receiver_of receiver.old))
        (shown_by (receiver_of receiver.new)) (W.contents writer.old) (W.contents writer.new)) }
    ensures empty { OnOk result (output.new.bytes ≡ []) }
    ensures whole { OnOk result (IsTrue output.new.is_whole) }
{
    let before = Shown::of(receiver);
    hear_line(group, receiver);
    let after = Shown::of(receiver);
    tell(form, clock, &before, &after, output, writer)
}

/// What the next line is; None at the end of the input.
///
/// Errors: `Reading`; `OutOfMemory`, and then the line may be lost.
fn next_group<F: Feed>(
    alloc: Global,
    feed: &mut F,
    line: &mut Vec<u8>,
) -> Result<Option<GroupLine>, RunFault>
    ensures is { IfOk result (NextIs (F.remaining feed.old) (F.remaining feed.new)) }
    ensures failed { IfErr result (NextFails (F.remaining feed.old) (F.remaining feed.new)) }
{
    match feed.next(line) {
        Err(FeedFault::Reading) => Err(RunFault::Reading),
        Err(FeedFault::OutOfMemory) => Err(RunFault::OutOfMemory),
        Ok(Next::End) => Ok(None),
        Ok(Next::TooLong) => Ok(Some(GroupLine::NoGroup)),
        Ok(Next::Line) => match read_group(alloc, line.as_slice()) {
            Ok(group) => Ok(Some(group)),
            Err(_) => Err(RunFault::OutOfMemory),
        },
    }
}

/// Writes out what there is to tell of a change.
///
/// Errors: `OutOfMemory` where there was none for the lines, and none of them is written; `Writing`.
fn tell<W: Write, C: Clock>(
    form: ShownForm,
    clock: Option<&C>,
    before: &Shown,
    after: &Shown,
    output: &mut Output,
    writer: &mut W,
) -> Result<(), RunFault>
    requires empty { output.old.bytes ≡ [] }
    requires whole { IsTrue output.old.is_whole }
    ensures told { OnOk result ((told : List ℕ)
        × IsTold form (is_some clock.entry) (shown_in before.now) (shown_in after.now) told
        × Appends (W.contents writer.old) (W.contents writer.new) told) }
    ensures failed { IfErr result (FailsToTell form (is_some clock.entry) (shown_in before.now) (shown_in after.now)
        (W.contents writer.old) (W.contents writer.new)) }
    ensures empty { OnOk result (output.new.bytes ≡ []) }
    ensures whole { OnOk result (IsTrue output.new.is_whole) }
{
    put_change(form, clock, before, after, output);
    output.check()?;
    output.write_out(writer)
}

/// Counts a line, and refuses one that is no group.
fn count<E: Write>(group: &GroupLine, hearing: &mut Hearing, errors: &mut NoticesTo<E>)
    ensures lines { hearing.new.lines ≡ min (hearing.old.lines + 1) (2 ^ 64 - 1) }
    ensures refused { hearing.new.refused ≡ hearing.old.refused || is_refused group.now }
    ensures receiver { hearing.new.receiver ≡ hearing.old.receiver }
    ensures said { SaysOf group.now hearing.new.lines errors.old errors.new }
{
    hearing.lines = hearing.lines.saturating_add(1);
    if let GroupLine::NoGroup = group {
        hearing.refused = true;
        refuse(hearing.lines, errors);
    }
}

/// Says that the line of this number is no group, as far as that can be written.
fn refuse<E: Write>(number: u64, errors: &mut NoticesTo<E>)
    ensures { Says errors.old errors.new (refusal_line number) }
{
    let mut buffer = Buffer::new();
    let digits = buffer.format(number).as_bytes();
    errors.say(&[b"uecp: line ", digits, b": no group\n"]);
}
