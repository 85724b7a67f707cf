//! What is told behind the line of a case, as comments of TAP (profile).
ghost use Rattle.std.specs.Prelude.{◌≡◌, flat_map, take, OnOk};
ghost use Rattle.uecp_frame.specs.Findings.{found};
ghost use Rattle.uecp_frame.specs.Feeding.{findings_of};
ghost use Rattle.uecp_text.specs.Written.{Adds};
ghost use Rattle.conformance.specs.Judging.{reply_frame};
ghost use Rattle.conformance_command.specs.Telling.{count_note, notes, message_note, frame_note, found_note};
ghost use Rattle.conformance_command.specs.Telling.{bytes_note};
ghost use Rattle.conformance_command.specs.Telling.{expected_bytes, expected_note, wanted_note, sent_of};
ghost use Rattle.conformance_command.specs.Telling.{exchange_notes};

use crate::tally::is_kept;
use crate::way::Way;
use crate::went::{Outcome, Went};
use conformance::{Case, Expected, Reply, noise, sent, wanted};
use rds_text::Region;
use std::alloc::{AllocError, Global};
use uecp_frame::{Address, Deframer, Found, Frame, FrameBytes, Message, encode};
use uecp_lines::put_fault;
use uecp_phrases::put_message;
use uecp_text::{Output, rest_after};

/// The element of an acknowledgement, which a reply carries.
const ACKNOWLEDGEMENT: u8 = 0x18;

/// Adds what says nothing of the rule: how many bytes joining had left, and how many came then that are no part of a
/// segment.
pub(crate) fn put_notes(left: usize, came: &[u8], output: &mut Output)
    ensures { Adds output.old output.new (notes left came.now) }
{
    put_count("bytes left by joining:", left, output);
    put_count("bytes that are no part of a segment:", noise(came), output);
}

/// Adds a comment with a number, where it is not 0.
fn put_count(text: &str, count: usize, output: &mut Output)
    ensures { Adds output.old output.new (count_note text.now count) }
{
    if count != 0 {
        output.text("# ");
        output.text(text);
        output.decimal(count);
        output.end();
    }
}

/// Adds what was sent, wanted and came of a case that is not kept, where that is asked for.
#[tactic(auto, unfolding(crate::specs::Telling::exchange_notes))]
pub(crate) fn put_exchange(
    alloc: Global,
    way: &Way,
    case: &Case<'_>,
    outcome: &Outcome,
    output: &mut Output,
) -> Result<(), AllocError>
    ensures { OnOk result (Adds output.old output.new (exchange_notes way.now case.now outcome.now.went
        outcome.now.came.items)) }
{
    if !way.verbose || is_kept(outcome.went) {
        return Ok(());
    }
    let bytes = sent(alloc, way.own, case.steps.as_slice())?;
    let replies = wanted(alloc, case.steps.as_slice())?;
    put_bytes("sent", sent_part(outcome.went, bytes.as_slice()), output);
    put_wanted(way.own, replies.as_slice(), output);
    put_bytes("came", outcome.came.as_slice(), output);
    Ok(())
}

/// What was sent of the bytes of a case that went so.
fn sent_part(went: Went, bytes: &[u8]) -> &[u8]
    ensures { result.now ≡ sent_of went bytes.now }
{
    match went {
        Went::NotJoined | Went::Silent | Went::Floods => &bytes[..0],
        Went::NotSent(written) => first_of(written, bytes),
        Went::Judged(_) | Went::NotQuiet | Went::NotHeard => bytes,
    }
}

/// The first so many of the bytes, or all where there are no more.
fn first_of(count: u64, bytes: &[u8]) -> &[u8]
    ensures { result.now ≡ take count bytes.now }
{
    if count < bytes.len() as u64 {
        &bytes[..count as usize]
    } else {
        bytes
    }
}

/// Adds bytes behind a word for what they are, in hexadecimal, and what is found in them, in words.
#[tactic(auto, unfolding(crate::specs::Telling::bytes_note))]
fn put_bytes(word: &str, bytes: &[u8], output: &mut Output)
    ensures { Adds output.old output.new (bytes_note word.now bytes.now) }
{
    output.text("# ");
    output.text(word);
    output.row(bytes);
    output.end();
    put_all_found(bytes, output);
}

/// Adds what is found in bytes, in words.
fn put_all_found(bytes: &[u8], output: &mut Output)
    ensures { Adds output.old output.new (flat_map found_note (found bytes.now)) }
{
    let mut deframer = Deframer::new();
    let mut rest = bytes;
    while !rest.is_empty() {
        let fed = deframer.feed(rest);
        rest = rest_after(rest, fed.used);
        put_found(&fed.found, output);
    }
}

/// Adds the lines of what a piece ended: none, a frame's, or that of a segment that is no frame.
fn put_found(found: &Found, output: &mut Output)
    ensures { Adds output.old output.new (flat_map found_note (findings_of found.now)) }
{
    match found {
        Found::Nothing => {}
        Found::Frame(frame) => put_frame(frame, output),
        Found::Refused(fault) => {
            output.text("#   # ");
            put_fault(*fault, output);
        }
    }
}

/// Adds the lines of a frame.
fn put_frame(frame: &Frame, output: &mut Output)
    ensures { Adds output.old output.new (frame_note frame.now) }
{
    output.text("#   frame");
    output.number(frame.address.value());
    output.byte(frame.counter);
    output.end();
    put_words(frame.message.bytes(), output);
}

/// Adds the line of a message, unless it is empty.
#[tactic(auto, unfolding(crate::specs::Telling::message_note))]
fn put_words(message: &[u8], output: &mut Output)
    ensures { Adds output.old output.new (message_note message.now) }
{
    if !message.is_empty() {
        output.text("#   ");
        put_message(Region::Europe, message, output);
        output.end();
    }
}

/// Adds the replies that are wanted, in hexadecimal and in words.
#[tactic(auto, unfolding(crate::specs::Telling::wanted_note))]
fn put_wanted(own: Address, replies: &[Expected], output: &mut Output)
    ensures { Adds output.old output.new (wanted_note own replies.now) }
{
    output.text("# wanted");
    output.text(if replies.is_empty() { " -" } else { "" });
    put_wanted_bytes(own, replies, output);
    output.end();
    put_wanted_words(own, replies, output);
}

/// Adds the replies that are wanted in hexadecimal.
fn put_wanted_bytes(own: Address, replies: &[Expected], output: &mut Output)
    ensures { Adds output.old output.new (flat_map (expected_bytes own) replies.now) }
{
    for reply in replies {
        put_expected_bytes(own, *reply, output);
    }
}

/// Adds the replies that are wanted in words.
fn put_wanted_words(own: Address, replies: &[Expected], output: &mut Output)
    ensures { Adds output.old output.new (flat_map (expected_note own) replies.now) }
{
    for reply in replies {
        put_expected_words(own, *reply, output);
    }
}

/// Adds a reply that is wanted in hexadecimal, or that any refusal is.
fn put_expected_bytes(own: Address, expected: Expected, output: &mut Output)
    ensures { Adds output.old output.new (expected_bytes own expected) }
{
    match expected {
        Expected::This(reply) => {
            let mut bytes = FrameBytes::new();
            encode(&frame_of(own, reply), &mut bytes);
            output.text(" ");
            output.digits(bytes.as_slice());
        }
        Expected::Refusal(counter) => {
            output.text(" refusal");
            output.byte(counter);
        }
    }
}

/// Adds a reply that is wanted in words, or that any refusal is.
fn put_expected_words(own: Address, expected: Expected, output: &mut Output)
    ensures { Adds output.old output.new (expected_note own expected) }
{
    match expected {
        Expected::This(reply) => put_frame(&frame_of(own, reply), output),
        Expected::Refusal(counter) => {
            output.text("#   refusal");
            output.byte(counter);
            output.end();
        }
    }
}

/// The frame of a reply.
fn frame_of(own: Address, reply: Reply) -> Frame
    ensures { result ≡ reply_frame own reply }
{
    let bytes = [ACKNOWLEDGEMENT, reply.code, reply.counter];
    let Some(message) = Message::from_bytes(&bytes) else {
        unreachable!();
    };
    Frame {
        address: own,
        counter: 0,
        message,
    }
}
