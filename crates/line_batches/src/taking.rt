//! Lines are taken as they come, and make a batch. Source: profile.
ghost use Rattle.std.specs.Prelude.{◌≡◌, ◌≤◌, ◌+◌, ◌-◌, ◌^◌, ◌||◌, ◌<◌, true, false, length, min, ℕ, List, []};
ghost use Rattle.std.specs.Prelude.{Result, Ok, Err, None, IfOk, IfErr, IfSome, IfNone, codes, ◌++◌, ◌⊎◌};
ghost use Rattle.line_feed.specs.declared.feed.Next.{Next as Came};
ghost use Rattle.line_feed.specs.declared.feed.Next.TheVariants.{End};
ghost use Rattle.line_feed.specs.declared.feed_fault.FeedFault.{FeedFault as Fault};
ghost use Rattle.line_batches.specs.Intake.{GivesNext, NextFails, SaysOf, fitted_line, is_refusal};
ghost use Rattle.std.specs.Io.KnownBytes.{Keeps};
ghost use Rattle.notices.specs.Told.{Says};
ghost use Rattle.line_batches.specs.declared.taking.After.TheVariants.{GoesOn};
ghost use Rattle.line_batches.specs.Batches.{TakesBatch, TakesInto, TakesGiven, FailsNext, PutsGiven, GoesFurther};
ghost use Rattle.line_batches.specs.Batches.{IsNotKept, IsWhole, TellsRefused};
ghost use Rattle.line_feed.specs.declared.feed_fault.NotKept.{NotKept as Unkept};
ghost use Rattle.uecp_text.specs.declared.run_fault.RunFault.TheVariants.{Writing};

use crate::intake::{Given, Input, read_line};
use itoa::Buffer;
use line_feed::{Feed, FeedFault, Next, NotKept};
use notices::{Notices, NoticesTo};
use std::alloc::Global;
use std::io::Write;
use uecp_frame::Message;
use uecp_text::{RunFault, TextFault};

/// What was taken so far.
#[derive(Clone, Copy, Debug, PartialEq, Eq)]
pub struct Tally {
    /// How many lines; no more are counted than 2^64 - 1.
    pub lines: usize,
    /// Whether one of them was refused.
    pub refused: bool,
}

/// What comes after a batch.
#[derive(Debug, Drop)]
pub enum After {
    /// The next one.
    GoesOn,
    /// Nothing: the run ends so.
    Ends(Result<(), RunFault>),
}

/// How lines are read.
#[derive(Clone, Copy, Debug)]
pub struct Reading<'a> {
    /// What they are.
    pub input: Input<'a>,
    /// How many messages a batch has at most, 1 to 8.
    pub size: usize,
    /// Whether the run ends at a line that is refused.
    pub strict: bool,
}

/// Takes lines up to as many messages as a batch may have: it waits for the first, and then takes those that are there.
/// The batch is empty at the start.
pub fn take_batch<F: Feed, E: Write>(
    alloc: Global,
    reading: &Reading<'_>,
    feed: &mut F,
    line: &mut Vec<u8>,
    errors: &mut NoticesTo<E>,
    tally: &mut Tally,
    batch: &mut Vec<Message>,
) -> After
    requires empty { batch.old.items ≡ [] }
    requires some { 1 ≤ reading.now.size }
    ensures { TakesBatch F.remaining F.takes F.says F.passes reading.now.input reading.now.size reading.now.strict
        batch.new.items result (record {
          feed = feed.old;
          lines = tally.old.lines;
          refused = tally.old.refused;
          said = errors.old;
        }) (record {
          feed = feed.new;
          lines = tally.new.lines;
          refused = tally.new.refused;
          said = errors.new;
        }) }
{
    for _line in 0..u64::MAX {
        if let Some(after) = take_one(alloc, reading, feed, line, errors, tally, batch) {
            return after;
        }
    }
    After::Ends(Err(RunFault::Reading))
}

/// Takes the next line into the batch, and tells what comes after the batch where it ends there.
fn take_one<F: Feed, E: Write>(
    alloc: Global,
    reading: &Reading<'_>,
    feed: &mut F,
    line: &mut Vec<u8>,
    errors: &mut NoticesTo<E>,
    tally: &mut Tally,
    batch: &mut Vec<Message>,
) -> Option<After>
    requires room { length batch.old.items < reading.now.size }
    ensures { TakesInto F.remaining F.takes F.says F.passes reading.now.input reading.now.size reading.now.strict
        (record {
          feed = feed.old;
          lines = tally.old.lines;
          refused = tally.old.refused;
          said = errors.old;
        }) (record {
          feed = feed.new;
          lines = tally.new.lines;
          refused = tally.new.refused;
          said = errors.new;
        }) batch.old.items batch.new.items result }
{
    match take_line(alloc, &reading.input, feed, line, errors, tally) {
        Err(fault) => Some(After::Ends(Err(fault))),
        Ok(None) => Some(After::Ends(Ok(()))),
        Ok(Some(given)) => put_given(given, reading, feed, batch),
    }
}

/// Puts the message that a line gives into the batch, and tells what comes after the batch where it ends there.
fn put_given<F: Feed>(
    given: Given,
    reading: &Reading<'_>,
    feed: &mut F,
    batch: &mut Vec<Message>,
) -> Option<After>
    requires room { length batch.old.items < reading.now.size }
    ensures { PutsGiven F.remaining F.takes F.says F.passes reading.now.size reading.now.strict given batch.old.items
        batch.new.items result feed.old feed.new }
{
    match given {
        Given::Nothing => go_on(reading.size, batch, feed),
        Given::Gives(message, _fitted) => match batch.push(message) {
            Ok(()) => go_on(reading.size, batch, feed),
            Err(_) => Some(After::Ends(Err(RunFault::OutOfMemory))),
        },
        Given::Refused(_) => {
            if reading.strict {
                return Some(After::Ends(Ok(())));
            }
            go_on(reading.size, batch, feed)
        }
    }
}

/// What comes after a batch that is whole: the next one. It is whole where it has as many messages as it may have, or
/// one at least and no other line is there.
fn go_on<F: Feed>(size: usize, batch: &Vec<Message>, feed: &mut F) -> Option<After>
    requires some { 1 ≤ size }
    requires most { length batch.now.items ≤ size }
    ensures none { IfNone result (GoesFurther F.remaining F.takes F.says F.passes size batch.now.items feed.old
        feed.new) }
    ensures room { IfNone result (length batch.now.items < size) }
    ensures some { IfSome result (λ after. (after ≡ GoesOn)
        × IsWhole F.remaining F.takes F.says F.passes size batch.now.items feed.old feed.new) }
{
    if is_whole(size, batch, feed) {
        Some(After::GoesOn)
    } else {
        None
    }
}

/// Whether a batch is whole: it has as many messages as it may have, or one at least where no other line is there.
fn is_whole<F: Feed>(size: usize, batch: &Vec<Message>, feed: &mut F) -> bool
    requires some { 1 ≤ size }
    requires most { length batch.now.items ≤ size }
    ensures whole { result ≡ true → IsWhole F.remaining F.takes F.says F.passes size batch.now.items feed.old feed.new }
    ensures further { result ≡ false → GoesFurther F.remaining F.takes F.says F.passes size batch.now.items feed.old
        feed.new }
    ensures room { result ≡ false → length batch.now.items < size }
{
    if batch.is_empty() {
        return false;
    }
    batch.len() == size || !feed.is_there()
}

/// Takes a line, says what is wrong with one that is refused, and tells the feed of it; None at the end of the input.
///
/// Errors: `Reading`; `OutOfMemory`, and then the line may be lost; `Writing` where the feed could not keep it.
fn take_line<F: Feed, E: Write>(
    alloc: Global,
    input: &Input<'_>,
    feed: &mut F,
    line: &mut Vec<u8>,
    errors: &mut NoticesTo<E>,
    tally: &mut Tally,
) -> Result<Option<Given>, RunFault>
    ensures taken { IfOk result (TakesGiven F.remaining F.takes F.says F.passes input.now (record {
      feed = feed.old;
      lines = tally.old.lines;
      refused = tally.old.refused;
      said = errors.old;
    }) (record {
      feed = feed.new;
      lines = tally.new.lines;
      refused = tally.new.refused;
      said = errors.new;
    })) }
    ensures failed { IfErr result (λ fault. FailsNext F.remaining F.takes F.says F.passes (record {
      feed = feed.old;
      lines = tally.old.lines;
      refused = tally.old.refused;
      said = errors.old;
    }) (record {
      feed = feed.new;
      lines = tally.new.lines;
      refused = tally.new.refused;
      said = errors.new;
    }) fault ⊎ IsNotKept F.remaining F.takes F.says F.passes input.now (record {
      feed = feed.old;
      lines = tally.old.lines;
      refused = tally.old.refused;
      said = errors.old;
    }) (record {
      feed = feed.new;
      lines = tally.new.lines;
      refused = tally.new.refused;
      said = errors.new;
    }) fault) }
{
    let Some(given) = next_given(alloc, input, feed, line)? else {
        return Ok(None);
    };
    count_line(&given, errors, tally);
    tell_refused(&given, tally.lines, line.as_slice(), feed)?;
    Ok(Some(given))
}

/// Tells the feed of a line that is refused, of this number and of which this is held.
///
/// Errors: `Writing`, where the feed could not keep it.
fn tell_refused<F: Feed>(
    given: &Given,
    number: usize,
    held: &[u8],
    feed: &mut F,
) -> Result<(), RunFault>
    ensures keeps { Keeps (F.remaining feed.old) (F.remaining feed.new) }
    ensures told { IfOk result (λ _. TellsRefused F.remaining F.takes F.says F.passes given.now number held.now (Ok tt)
        feed.old feed.new) }
    ensures not_kept { IfErr result (λ fault. (fault ≡ Writing) × (is_refusal given.now ≡ true) × ((why : Unkept)
        × TellsRefused F.remaining F.takes F.says F.passes given.now number held.now (Err why) feed.old feed.new)) }
{
    match given {
        Given::Refused(fault) => match feed.pass_over(number, fault, held) {
            Ok(()) => Ok(()),
            Err(NotKept) => Err(RunFault::Writing),
        },
        _ => Ok(()),
    }
}

/// What the next line gives; None at the end of the input.
///
/// Errors: `Reading`; `OutOfMemory`, and then the line may be lost.
fn next_given<F: Feed>(
    alloc: Global,
    input: &Input<'_>,
    feed: &mut F,
    line: &mut Vec<u8>,
) -> Result<Option<Given>, RunFault>
    ensures gives { IfOk result (GivesNext input.now (F.remaining feed.old) (F.remaining feed.new) line.new.items) }
    ensures failed { IfErr result (NextFails (F.remaining feed.old) (F.remaining feed.new)) }
    ensures took { IfOk result (λ given. (next : Came) × F.takes feed.old (Ok next) line.new.items feed.new
        × (given ≡ None → next ≡ End)) }
    ensures asked { IfErr result (λ _. (answer : Result Came Fault) × (held : List ℕ)
        × F.takes feed.old answer held feed.new) }
{
    match feed.next(line) {
        Err(FeedFault::Reading) => Err(RunFault::Reading),
        Err(FeedFault::OutOfMemory) => Err(RunFault::OutOfMemory),
        Ok(Next::End) => Ok(None),
        Ok(Next::TooLong) => Ok(Some(Given::Refused(TextFault::MessageTooLong))),
        Ok(Next::Line) => match read_line(alloc, input, line.as_slice()) {
            Ok(given) => Ok(Some(given)),
            Err(_) => Err(RunFault::OutOfMemory),
        },
    }
}

/// Counts a line, and says what is wrong with one that is refused, and what was sent of one that was made to fit.
fn count_line<E: Write>(given: &Given, errors: &mut NoticesTo<E>, tally: &mut Tally)
    ensures lines { tally.new.lines ≡ min (tally.old.lines + 1) (2 ^ 64 - 1) }
    ensures refused { tally.new.refused ≡ tally.old.refused || is_refusal given.now }
    ensures said { SaysOf given.now tally.new.lines errors.old errors.new }
{
    tally.lines = tally.lines.saturating_add(1);
    match given {
        Given::Refused(fault) => {
            tally.refused = true;
            errors.report(&fault.at(tally.lines));
        }
        Given::Gives(_, Some(fitted)) => say_fitted(tally.lines, fitted.as_str(), errors),
        _ => {}
    }
}

/// Says what was sent in the place of the line of this number, which was made to fit.
pub fn say_fitted<E: Write>(number: usize, fitted: &str, errors: &mut NoticesTo<E>)
    ensures { Says errors.old errors.new (fitted_line number fitted.now) }
{
    let mut buffer = Buffer::new();
    let digits = buffer.format(number).as_bytes();
    say_line(digits, fitted.as_bytes(), errors);
}

/// Says the line of a number, in digits, and of what was sent.
fn say_line<'a, E: Write>(digits: &'a [u8], fitted: &'a [u8], errors: &mut NoticesTo<E>)
    ensures { Says errors.old errors.new
        (codes "uecp: line " ++ (digits.now ++ (codes ": fitted to " ++ (fitted.now ++ codes "\n")))) }
{
    errors.say(&[b"uecp: line ", digits, b": fitted to ", fitted, b"\n"]);
}
