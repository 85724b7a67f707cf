//! Both ends on a line: what the tests of it share, and its first steps.
mod counts;
mod driving;
mod failing;
mod hostile;
mod lateness;
mod memory;
mod noise;
mod outstanding;
mod restarts;
mod server;
mod takes;
mod turns;
mod window;

use crate::tests::asserting::{holds, same};
use faulty_io::{ADD, CountTarget, EMPTY_1, new_store_encoder, own_address, texts_of};
use rds_store::RdsStore;
use std::alloc::Global;
use std::process::Abort;
use uecp_elements::Code;
use uecp_encoder::{Encoder, Target};
use uecp_frame::Message;
use uecp_link::{DriveFault, Driven, HeardWhat, Line, LineEvent, LineRefusal, Side, Stepped};

/// No element, counter FF.
const EMPTY_254: [u8; 9] = *b"\xFE\x00\x41\xFD\x02\x00\x52\x5D\xFF";

/// The message of these bytes, at most 255.
pub(crate) fn message(rt: &impl Abort, bytes: &[u8]) -> Message {
    Message::from_bytes(bytes).expect(rt, "short")
}

/// A new line of site 1, encoder 1.
pub(crate) fn new_line<T: Target + Drop>(rt: &impl Abort, alloc: Global, target: T) -> Line<T> {
    let line = Line::new(alloc, own_address(), target).or(Err("no memory"));
    line.expect(rt, "a line")
}

/// A new store with one data set and service 01.
fn new_store(rt: &impl Abort, alloc: Global) -> RdsStore {
    RdsStore::new(alloc, 1, &[0x01]).expect(rt, "a store")
}

/// A new line over such a store.
fn new_store_line(rt: &impl Abort, alloc: Global) -> Line<RdsStore> {
    new_line(rt, alloc, new_store(rt, alloc))
}

/// A new encoder over such a store.
pub(crate) fn store_encoder(rt: &impl Abort, alloc: Global) -> Encoder<RdsStore> {
    new_store_encoder(alloc, 1).expect(rt, "an encoder")
}

/// The whole frame of a number.
pub(crate) fn frame<'a>(number: usize) -> LineEvent<'a> {
    LineEvent::Frame { number, cut: &[] }
}

/// The whole reply to a number.
pub(crate) fn reply<'a>(number: usize) -> LineEvent<'a> {
    LineEvent::Reply { number, cut: &[] }
}

/// A fresh delivery, or one of a repeat.
pub(crate) fn delivered(fresh: bool, code: Code) -> Result<Stepped, LineRefusal> {
    Ok(Stepped::Delivered { fresh, code })
}

/// The message is acknowledged with this code.
pub(crate) fn acknowledged(code: Code) -> Result<Stepped, LineRefusal> {
    Ok(Stepped::Acknowledged(code))
}

/// A server hears a reply with code 00 to this counter, for which it waits.
pub(crate) fn heard_applied(counter: u8) -> HeardWhat {
    HeardWhat::Acknowledged {
        counter,
        code: Code::Applied,
    }
}

/// A message is acknowledged with code 00 in this try.
pub(crate) fn driven_in(tries: u32) -> Result<Driven, DriveFault> {
    Ok(Driven {
        code: Code::Applied,
        tries,
    })
}

/// A step of the line comes to this.
pub(crate) fn steps<T: Target>(
    rt: &impl Abort,
    line: &mut Line<T>,
    event: &LineEvent<'_>,
    stepped: Result<Stepped, LineRefusal>,
) {
    same!(rt; line.step(event), stepped);
}

/// A new line of site 1, encoder 1, after these events, and how many it refused.
fn played<T: Target + Drop>(
    rt: &impl Abort,
    alloc: Global,
    target: T,
    events: &[LineEvent<'_>],
) -> (Line<T>, usize) {
    let played = Line::play(alloc, own_address(), target, events).or(Err("no memory"));
    played.expect(rt, "a line")
}

/// This end loses the line.
fn is_lost<T: Target>(rt: &impl Abort, line: &mut Line<T>, side: Side) {
    steps(rt, line, &LineEvent::LineLost(side), Ok(Stepped::Lost));
}

/// The next message is submitted.
pub(crate) fn is_taken<T: Target>(rt: &impl Abort, line: &mut Line<T>, bytes: &[u8]) {
    let number = line.sent().len();
    let message = message(rt, bytes);
    steps(
        rt,
        line,
        &LineEvent::Submit(&message),
        Ok(Stepped::Numbered(number)),
    );
}

/// The last message goes over the line, and so does the reply to it.
pub(crate) fn goes_over<T: Target>(rt: &impl Abort, line: &mut Line<T>, code: Code) {
    let number = line.applied();
    steps(rt, line, &frame(number), delivered(true, code));
    steps(rt, line, &reply(number), acknowledged(code));
    holds!(rt; line.server().is_idle());
}

/// The frame that the line's server lends.
fn lent<'a, T: Target>(rt: &impl Abort, line: &'a Line<T>) -> &'a [u8] {
    line.server().outgoing().expect(rt, "outstanding")
}

#[test]
fn with_memory_a_new_line_takes_its_first_message(rt: HostRuntime) {
    let mut line = new_store_line(&rt, rt.alloc());
    is_taken(&rt, &mut line, &[]);
    holds!(rt; lent(&rt, &line) == EMPTY_1.as_slice());
}

#[test]
fn with_memory_a_line_is_played(rt: HostRuntime) {
    let empty = Message::new();
    let submit = [LineEvent::Submit(&empty)];
    let store = new_store(&rt, rt.alloc());
    let (line, refused) = played(&rt, rt.alloc(), store, &submit);
    same!(rt; (line.sent().len(), refused), (1, 0));
}

#[test]
fn with_memory_a_line_runs(rt: HostRuntime) {
    let empty = Message::new();
    let submit = [LineEvent::Submit(&empty)];
    let mut line = new_store_line(&rt, rt.alloc());
    same!(rt; line.run(&submit), 0);
    let numbers = (line.sent().len(), line.applied(), line.acknowledged());
    same!(rt; numbers, (1, 0, 0));
}

/// The frame of a text and the reply to it come in pieces, cut in five ways.
fn comes_in_pieces(rt: &impl Abort, line: &mut Line<RdsStore>) {
    let cuts: [&[u16]; 5] = [&[1; 15], &[], &[0, 0, 5, 0, 999], &[65535, 1], &[0]];
    is_taken(rt, line, &ADD);
    let mut fresh = true;
    for cut in cuts {
        let event = LineEvent::Frame { number: 0, cut };
        steps(rt, line, &event, delivered(fresh, Code::Applied));
        fresh = false;
    }
    same!(rt; texts_of(line.encoder().target(), 1), Some(1));
    let mut stepped = Stepped::Acknowledged(Code::Applied);
    for cut in cuts {
        let event = LineEvent::Reply { number: 0, cut };
        steps(rt, line, &event, Ok(stepped));
        stepped = Stepped::Stray;
    }
    same!(rt; line.encoder().counts().repeats, 4);
}

#[test]
fn however_it_is_cut_a_frame_is_the_same(rt: HostRuntime) {
    let mut line = new_store_line(&rt, rt.alloc());
    comes_in_pieces(&rt, &mut line);
}

/// Two messages, the frame of the second too early, that of the first twice and its reply twice, and what a third would
/// have.
fn script<'a>(message: &'a Message) -> [LineEvent<'a>; 9] {
    [
        LineEvent::Submit(message),
        LineEvent::Submit(message),
        frame(1),
        LineEvent::Frame {
            number: 0,
            cut: &[1, 2],
        },
        frame(0),
        reply(0),
        reply(0),
        frame(2),
        reply(2),
    ]
}

#[test]
fn a_run_passes_over_the_refused_events(rt: HostRuntime) {
    let add = message(&rt, &ADD);
    let events = script(&add);
    let target = CountTarget::default();
    let (line, refused) = played(&rt, rt.alloc(), target, &events);
    let sent = (line.sent().len(), line.applied(), line.acknowledged());
    same!(rt; (sent, refused), ((2, 1, 1), 2));
    let target = line.encoder().target();
    same!(rt; (target.messages, target.bytes), (1, 7));
    same!(rt; line.encoder().counts().repeats, 1);
}

#[test]
fn refusals_have_numbers_and_names(rt: HostRuntime) {
    let rows = [
        (LineRefusal::Busy, 1, "Busy"),
        (LineRefusal::NotSent, 2, "NotSent"),
        (LineRefusal::TooLate, 3, "TooLate"),
        (LineRefusal::HoldsAFrame, 4, "HoldsAFrame"),
        (LineRefusal::OutOfMemory, 5, "OutOfMemory"),
    ];
    for (refusal, number, name) in rows {
        same!(rt; (refusal.number(), refusal.name()), (number, name));
    }
}
