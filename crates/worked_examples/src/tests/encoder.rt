mod hostile;
mod keeping;
mod memory;
mod order;
mod serving;

use crate::tests::asserting::{holds, same};
use crate::tests::making::store_encoder;
use faulty_io::{
    APPLIED_1, APPLIED_2, CountTarget, EMPTY_1, EMPTY_2, comes_to, own_address, pi_of, replies,
    texts_of,
};
use rds_store::RdsStore;
use std::alloc::Global;
use std::process::Abort;
use uecp_encoder::{Counts, Encoder, Target, What};
use uecp_frame::FrameFault;

/// PI C201, counter 01.
const PI_1: [u8; 13] = *b"\xFE\x00\x41\x01\x05\x01\x00\x00\xC2\x01\x67\xA8\xFF";
/// PI FEFF, counter 02.
const PI_2: [u8; 15] = *b"\xFE\x00\x41\x02\x05\x01\x00\x00\xFD\x01\xFD\x02\xF1\x03\xFF";
/// No element, counter 01, for all encoders of all sites.
const EMPTY_1_FOR_ALL: [u8; 8] = *b"\xFE\x00\x00\x01\x00\x48\x0E\xFF";
/// No element, counter 00.
const EMPTY_0: [u8; 8] = *b"\xFE\x00\x41\x00\x00\x51\xA2\xFF";
/// No element, counter 01, for another encoder.
const EMPTY_1_FOR_ANOTHER: [u8; 8] = *b"\xFE\x00\x42\x01\x00\x3B\xC3\xFF";

/// The encoder has not what comes before this yet, and passes it over.
fn is_not_next<T: Target>(encoder: &mut Encoder<T>, bytes: &[u8]) -> bool {
    matches!(encoder.feed(bytes).what, What::NotNext)
}

/// The encoder waits for more than these bytes.
fn is_begun<T: Target>(encoder: &mut Encoder<T>, bytes: &[u8]) -> bool {
    matches!(encoder.feed(bytes).what, What::Nothing)
}

/// The encoder drops these bytes, for this fault.
fn is_dropped<T: Target>(encoder: &mut Encoder<T>, bytes: &[u8], fault: FrameFault) -> bool {
    matches!(encoder.feed(bytes).what, What::Dropped(found) if found == fault)
}

/// The frame has counter 00.
fn is_unnumbered<T: Target>(encoder: &mut Encoder<T>, bytes: &[u8]) -> bool {
    matches!(encoder.feed(bytes).what, What::Unnumbered)
}

/// The frame is for another encoder.
fn is_for_another<T: Target>(encoder: &mut Encoder<T>, bytes: &[u8]) -> bool {
    matches!(encoder.feed(bytes).what, What::NotForMe)
}

/// A new encoder answers the frame with this reply, and then has this programme.
fn applies(rt: &impl Abort, alloc: Global, (frame, reply): (&[u8], &[u8]), pi: u16) {
    let mut encoder = store_encoder(rt, alloc, 1);
    holds!(rt; replies(&mut encoder, frame, reply, true), frame);
    same!(rt; pi_of(encoder.target(), 1), Some(pi));
}

#[test]
fn a_new_encoder_applies_a_message_and_answers_its_code(rt: HostRuntime) {
    applies(&rt, rt.alloc(), (&PI_1, &APPLIED_1), 0xc201);
    // An unknown element follows the last of them, so nothing of its message is kept.
    let unknown = b"\xFE\x00\x41\x01\x06\x01\x00\x00\x12\x34\x99\xFD\x02\xA8\xFF";
    let refusal = b"\xFE\x00\x41\x00\x03\x18\x03\x01\x15\xED\xFF";
    applies(&rt, rt.alloc(), (unknown, refusal), 0x0000);
}

/// The second message comes before and after the first.
fn waits_for_the_first(rt: &impl Abort, encoder: &mut Encoder<RdsStore>) {
    holds!(rt; is_not_next(encoder, &PI_2));
    same!(rt; pi_of(encoder.target(), 1), Some(0));
    holds!(rt; replies(encoder, &EMPTY_1, &APPLIED_1, true));
    holds!(rt; replies(encoder, &PI_2, &APPLIED_2, true));
    same!(rt; pi_of(encoder.target(), 1), Some(0xfeff));
}

#[test]
fn a_second_message_waits_for_the_first(rt: HostRuntime) {
    let mut encoder = store_encoder(&rt, rt.alloc(), 1);
    waits_for_the_first(&rt, &mut encoder);
}

/// Frames that are damaged, by a wrong byte behind an FD twice, another length, another check and one that is too
/// short.
const DAMAGED: [(&[u8], FrameFault); 5] = [
    (
        b"\xFE\x00\x41\x02\x05\x01\x00\x00\xFD\x01\xFD\x03\xF1\x03\xFF",
        FrameFault::BadStuffing(10),
    ),
    (
        b"\xFE\x00\x41\x02\x05\x01\x00\x00\xFD\x01\xFD\x02\xF1\x03\xFD\xFF",
        FrameFault::BadStuffing(14),
    ),
    (
        b"\xFE\x00\x41\x01\x04\x01\x00\x00\xC2\x01\x67\xA8\xFF",
        FrameFault::WrongLength,
    ),
    (
        b"\xFE\x00\x41\x01\x05\x01\x00\x00\xC2\x01\x67\xA9\xFF",
        FrameFault::WrongCheck,
    ),
    (b"\xFE\xFF", FrameFault::TooShort),
];

/// Five damaged frames come, and then two whole ones.
fn drops_what_is_damaged(rt: &impl Abort, encoder: &mut Encoder<RdsStore>) {
    for (bytes, fault) in &DAMAGED {
        holds!(rt; is_dropped(encoder, bytes, *fault), bytes);
    }
    same!(rt; encoder.counts().dropped, 5);
    same!(rt; pi_of(encoder.target(), 1), Some(0));
    // Nothing was kept for the counters that stood in them.
    holds!(rt; replies(encoder, &PI_1, &APPLIED_1, true));
    holds!(rt; replies(encoder, &PI_2, &APPLIED_2, true));
}

#[test]
fn damaged_frames_are_dropped_and_counted(rt: HostRuntime) {
    let mut encoder = store_encoder(&rt, rt.alloc(), 1);
    drops_what_is_damaged(&rt, &mut encoder);
}

/// These bytes come one by one, and the encoder waits for more.
fn begins_with(rt: &impl Abort, encoder: &mut Encoder<RdsStore>, bytes: &[u8]) {
    for byte in bytes {
        holds!(rt; is_begun(encoder, &[*byte]));
    }
}

/// A segment is open when a frame begins, and the frame comes in pieces of one byte.
fn comes_byte_by_byte(rt: &impl Abort, encoder: &mut Encoder<RdsStore>) {
    begins_with(rt, encoder, b"\xFE\x00\x41");
    holds!(rt; is_dropped(encoder, &[0xfe], FrameFault::Unended));
    begins_with(rt, encoder, &PI_1[1..12]);
    holds!(rt; replies(encoder, &[0xff], &APPLIED_1, true));
    same!(rt; pi_of(encoder.target(), 1), Some(0xc201));
}

#[test]
fn a_frame_begun_in_an_open_segment_comes_byte_by_byte(rt: HostRuntime) {
    let mut encoder = store_encoder(&rt, rt.alloc(), 1);
    comes_byte_by_byte(&rt, &mut encoder);
}

#[test]
fn out_of_order_unnumbered_for_another_and_for_all(rt: HostRuntime) {
    let mut encoder = store_encoder(&rt, rt.alloc(), 1);
    holds!(rt; is_not_next(&mut encoder, b"\xFE\x00\x41\x07\x00\xC8\x35\xFF"));
    holds!(rt; is_unnumbered(&mut encoder, &EMPTY_0));
    holds!(rt; is_for_another(&mut encoder, &EMPTY_1_FOR_ANOTHER));
    holds!(rt; replies(&mut encoder, &EMPTY_1_FOR_ALL, &APPLIED_1, true));
}

/// A counter, a message and its code.
const CODES: [(u8, &[u8], u8); 14] = [
    (1, &[0x0a, 0x00, 0x00, 0x01, 0x00], 0x00),
    (2, &[0x0a, 0x00, 0x00, 0x00], 0x00),
    (3, &[0x0a, 0x00, 0x00, 0x42], 0x07),
    (4, &[0x0a, 0x00, 0x00, 0x03, 0x40, 0x48], 0x07),
    (5, &[0x0a, 0x00, 0x00, 0x01, 0x20], 0x06),
    (6, &[0x0a, 0x00, 0x00, 0x01, 0x60], 0x06),
    (7, &[0x1c, 0x02], 0x00),
    (8, &[0x01, 0x00, 0x00, 0xab, 0xcd], 0x00),
    (9, &[0x01, 0xfe, 0x00, 0x11, 0x11], 0x00),
    (10, &[0x1c, 0x03], 0x04),
    (11, &[0x1c, 0xfe], 0x04),
    (12, &[0x07, 0x01, 0x05, 0xff], 0x05),
    (13, &[0x07, 0x01, 0x00, 0x20], 0x06),
    (14, &[0x18, 0x00, 0x01], 0x09),
];

/// An encoder of two data sets with nothing kept answers each code, and its store is as the messages make it.
fn gives_each_code(rt: &impl Abort, encoder: &mut Encoder<RdsStore>) {
    for (counter, message, code) in &CODES {
        holds!(rt; comes_to(encoder, *counter, message, *code), message);
    }
    let store = encoder.target();
    same!(rt; (pi_of(store, 1), pi_of(store, 2)), (Some(0x1111), Some(0xabcd)));
    same!(rt; (store.current(), texts_of(store, 1)), (2, Some(0)));
}

#[test]
fn each_code_comes_in_the_reply(rt: HostRuntime) {
    let mut encoder = store_encoder(&rt, rt.alloc(), 2);
    gives_each_code(&rt, &mut encoder);
}

/// A new encoder over this target, which is handed back where there is no memory for it.
fn new_or_handed_back(rt: &impl Abort, alloc: Global, target: CountTarget) -> Encoder<CountTarget> {
    let made = Encoder::new(alloc, own_address(), target);
    if let Err(fault) = &made {
        same!(rt; fault.target, target);
    }
    made.ok().expect(rt, "memory")
}

/// Frames that the encoder passes over, each of which it uses to its end.
fn passes_over(rt: &impl Abort, encoder: &mut Encoder<CountTarget>) {
    for frame in [&EMPTY_0, &EMPTY_1_FOR_ANOTHER, &EMPTY_1_FOR_ANOTHER] {
        same!(rt; encoder.feed(frame).used, 8);
    }
}

/// A message comes three times, and another once, and then frames that are passed over.
fn is_given_each_once(rt: &impl Abort, encoder: &mut Encoder<CountTarget>) {
    same!(rt; encoder.counts(), Counts::default());
    for fresh in [true, false, false] {
        holds!(rt; replies(encoder, &PI_1, &APPLIED_1, fresh));
    }
    holds!(rt; replies(encoder, &EMPTY_2, &APPLIED_2, true));
    passes_over(rt, encoder);
    let target = *encoder.target();
    same!(rt; (target.messages, target.bytes), (2, 5));
    let counts = Counts {
        fresh: 2,
        repeats: 2,
        not_for_me: 2,
        unnumbered: 1,
        dropped: 0,
    };
    same!(rt; encoder.counts(), counts);
}

#[test]
fn any_target_is_given_each_message_once(rt: HostRuntime) {
    let mut encoder = new_or_handed_back(&rt, rt.alloc(), CountTarget::default());
    is_given_each_once(&rt, &mut encoder);
}
