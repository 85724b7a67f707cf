//! The lines of a run, put down and written out (profile).
ghost use Rattle.std.specs.Prelude.{◌≡◌, ◌+◌, ◌<◌, ◌^◌, ℕ, List, IsTrue, OnOk};
ghost use Rattle.uecp_text.specs.Written.{Adds};
ghost use Rattle.conformance_command.specs.Conformance.{TellsLines};
ghost use Rattle.conformance_command.specs.Telling.{reply_words, expected_words, verdict_words, why_words, note};
ghost use Rattle.conformance_command.specs.Telling.{tap_line, tap_lines, silent_line, tap_tally, first_line};
ghost use Rattle.conformance_command.specs.Telling.{case_lines, bail_line, last_line};

use crate::notes::{put_exchange, put_notes};
use crate::objects::{put_case_object, put_tally_object};
use crate::tally::{Tally, is_kept};
use crate::texts::put_tap_name;
use crate::way::Way;
use crate::went::{Outcome, Went};
use conformance::{Case, Expected, Reply, Verdict, noise};
use itoa::Buffer;
use std::alloc::{AllocError, Global};
use std::io::Write;
use uecp_text::{Output, RunFault};

/// Writes what stands first.
pub(crate) fn tell_first<W: Write>(
    alloc: Global,
    json: bool,
    cases: usize,
    writer: &mut W,
) -> Result<(), RunFault>
    ensures { TellsLines (first_line json cases) (W.contents writer.old) (W.contents writer.new) result }
{
    let mut output = Output::new(alloc);
    put_first(json, cases, &mut output);
    tell(&mut output, writer)
}

/// Writes the lines of a case of which this came.
pub(crate) fn tell_case<W: Write>(
    alloc: Global,
    way: &Way,
    number: usize,
    case: &Case<'_>,
    outcome: &Outcome,
    writer: &mut W,
) -> Result<(), RunFault>
    ensures { TellsLines (case_lines way.now number case.now outcome.now.went outcome.now.left outcome.now.came.items)
        (W.contents writer.old) (W.contents writer.new) result }
{
    let mut output = Output::new(alloc);
    match put_lines(alloc, way, number, case, outcome, &mut output) {
        Ok(()) => tell(&mut output, writer),
        Err(_) => Err(RunFault::OutOfMemory),
    }
}

/// Writes that there is no connection to be had.
pub(crate) fn tell_bail<W: Write>(alloc: Global, json: bool, writer: &mut W) -> Result<(), RunFault>
    ensures { TellsLines (bail_line json) (W.contents writer.old) (W.contents writer.new) result }
{
    let mut output = Output::new(alloc);
    put_bail(json, &mut output);
    tell(&mut output, writer)
}

/// Writes what stands last.
pub(crate) fn tell_last<W: Write>(
    alloc: Global,
    json: bool,
    cases: usize,
    tally: Tally,
    writer: &mut W,
) -> Result<(), RunFault>
    requires { tally.not_kept + tally.profile_not_kept < 2 ^ 64 }
    ensures { TellsLines (last_line json cases tally) (W.contents writer.old) (W.contents writer.new) result }
{
    let mut output = Output::new(alloc);
    put_last(json, cases, tally, &mut output);
    tell(&mut output, writer)
}

/// Writes out what was put down, if there was memory for all of it.
fn tell<W: Write>(output: &mut Output, writer: &mut W) -> Result<(), RunFault>
    ensures { (lines : List ℕ) → (IsTrue output.old.is_whole → output.old.bytes ≡ lines)
        → TellsLines lines (W.contents writer.old) (W.contents writer.new) result }
{
    if output.check().is_err() {
        return Err(RunFault::OutOfMemory);
    }
    output.write_out(writer)
}

/// Adds what stands first.
fn put_first(json: bool, cases: usize, output: &mut Output)
    ensures { Adds output.old output.new (first_line json cases) }
{
    if !json {
        output.text("TAP version 14\n1..");
        output.text(Buffer::new().format(cases));
        output.end();
    }
}

/// Adds the lines of a case of which this came.
#[tactic(auto, unfolding(crate::specs::Telling::case_lines))]
fn put_lines(
    alloc: Global,
    way: &Way,
    number: usize,
    case: &Case<'_>,
    outcome: &Outcome,
    output: &mut Output,
) -> Result<(), AllocError>
    ensures { OnOk result (Adds output.old output.new (case_lines way.now number case.now outcome.now.went
        outcome.now.left outcome.now.came.items)) }
{
    if way.json {
        let outside = noise(outcome.came.as_slice());
        put_case_object(number, case, outcome.went, outcome.left, outside, output);
        Ok(())
    } else {
        put_tap_lines(alloc, way, number, case, outcome, output)
    }
}

/// Adds the same in TAP.
fn put_tap_lines(
    alloc: Global,
    way: &Way,
    number: usize,
    case: &Case<'_>,
    outcome: &Outcome,
    output: &mut Output,
) -> Result<(), AllocError>
    ensures { OnOk result (Adds output.old output.new (tap_lines way.now number case.now outcome.now.went
        outcome.now.left outcome.now.came.items)) }
{
    put_tap(number, case, outcome.went, output);
    put_notes(outcome.left, outcome.came.as_slice(), output);
    put_exchange(alloc, way, case, outcome, output)?;
    put_silent(way.seconds, outcome.went, output);
    Ok(())
}

/// Adds what is told behind a case of which nothing came, and ends the run.
fn put_silent(seconds: u32, went: Went, output: &mut Output)
    ensures { Adds output.old output.new (silent_line seconds went) }
{
    match went {
        Went::Silent => {
            output.text("Bail out! nothing came for");
            output.decimal(seconds as usize);
            output.text(" s\n");
        }
        _ => {}
    }
}

/// Adds that there is no connection to be had.
fn put_bail(json: bool, output: &mut Output)
    ensures { Adds output.old output.new (bail_line json) }
{
    if !json {
        output.text("Bail out! connection failed\n");
    }
}

/// Adds what stands last.
fn put_last(json: bool, cases: usize, tally: Tally, output: &mut Output)
    requires { tally.not_kept + tally.profile_not_kept < 2 ^ 64 }
    ensures { Adds output.old output.new (last_line json cases tally) }
{
    if json {
        put_tally_object(cases, tally, output);
    } else {
        put_tally(tally, output);
    }
}

/// Adds how many cases are kept, how many are not, and how many of those don't count.
fn put_tally(tally: Tally, output: &mut Output)
    requires { tally.not_kept + tally.profile_not_kept < 2 ^ 64 }
    ensures { Adds output.old output.new (tap_tally tally) }
{
    output.text("#");
    output.decimal(tally.kept);
    output.text(" kept,");
    output.decimal(tally.not_kept + tally.profile_not_kept);
    output.text(" not kept,");
    output.decimal(tally.profile_not_kept);
    output.text(" of them profile\n");
}

/// Adds the line of a case in TAP.
fn put_tap(number: usize, case: &Case<'_>, went: Went, output: &mut Output)
    ensures { Adds output.old output.new (tap_line number case.now went) }
{
    output.text(if is_kept(went) { "ok" } else { "not ok" });
    output.decimal(number);
    output.text(" - ");
    put_tap_name(case.name, output);
    put_note(case.profile, went, output);
    output.end();
}

/// Adds what stands behind the name of a case.
fn put_note(profile: bool, went: Went, output: &mut Output)
    ensures { Adds output.old output.new (note profile went) }
{
    if is_kept(went) {
        output.text(if profile { " # profile" } else { "" });
    } else {
        output.text(if profile { " # TODO profile, " } else { " # " });
        put_why(went, output);
    }
}

/// Adds why a case is not kept.
fn put_why(went: Went, output: &mut Output)
    ensures { Adds output.old output.new (why_words went) }
{
    match went {
        Went::Judged(verdict) => put_difference(verdict, output),
        Went::NotJoined | Went::Silent => output.text("not joined"),
        Went::Floods => output.text("floods"),
        Went::NotSent(written) => {
            output.text("not sent behind byte");
            output.decimal(written as usize);
        }
        Went::NotQuiet => output.text("never quiet"),
        Went::NotHeard => output.text("out of memory"),
    }
}

/// Adds the first place where what came is not what is wanted.
fn put_difference(verdict: Verdict, output: &mut Output)
    ensures { Adds output.old output.new (verdict_words verdict) }
{
    match verdict {
        Verdict::Kept => {}
        Verdict::Missing(reply) => {
            output.text("wanted ");
            put_expected(reply, output);
            output.text(", came nothing");
        }
        Verdict::Another(reply, came) => {
            output.text("wanted ");
            put_expected(reply, output);
            output.text(", came ");
            put_reply(came, output);
        }
        Verdict::TooMany(came) => {
            output.text("wanted nothing, came ");
            put_reply(came, output);
        }
        Verdict::NoReply => output.text("came a frame that is no reply"),
        Verdict::Dropped(fault) => {
            output.text("came a segment that is no frame: ");
            output.text(fault.name());
        }
    }
}

/// Adds what is wanted.
fn put_expected(reply: Expected, output: &mut Output)
    ensures { Adds output.old output.new (expected_words reply) }
{
    match reply {
        Expected::This(reply) => put_reply(reply, output),
        Expected::Refusal(counter) => {
            output.text("refusal");
            output.byte(counter);
        }
    }
}

/// Adds a reply.
fn put_reply(reply: Reply, output: &mut Output)
    ensures { Adds output.old output.new (reply_words reply) }
{
    output.text("reply");
    output.byte(reply.counter);
    output.byte(reply.code);
}
