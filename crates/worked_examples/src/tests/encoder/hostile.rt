//! Bytes in which no frame stands.
use super::PI_1;
use crate::tests::asserting::{holds, same};
use crate::tests::making::count_encoder;
use faulty_io::{
    APPLIED_1, CountTarget, KNOWN_FRAMES, altered, comes_to, holds_no_frame, replies, spelling_of,
};
use std::alloc::Global;
use std::process::Abort;
use uecp_encoder::{Counts, Encoder, Target};

/// Feeds all of these bytes: each call uses one or more while any is left.
fn hears<T: Target>(encoder: &mut Encoder<T>, bytes: &[u8]) {
    let mut rest = bytes;
    for _ in bytes {
        let used = encoder.feed(rest).used;
        rest = &rest[used..];
    }
}

/// An encoder that counts, which has applied one message, under counter 01.
fn with_one_message(rt: &impl Abort, alloc: Global) -> Encoder<CountTarget> {
    let mut encoder = count_encoder(rt, alloc);
    holds!(rt; replies(&mut encoder, &PI_1, &APPLIED_1, true));
    encoder
}

/// Hears one place of the bytes with each value, where that leaves no frame, and then loses the line. Its target stays.
fn hears_altered(
    rt: &impl Abort,
    alloc: Global,
    encoder: &mut Encoder<CountTarget>,
    bytes: &[u8],
    place: usize,
) {
    let before = *encoder.target();
    for value in 0..=255 {
        let hostile = altered(bytes, place, value);
        if holds_no_frame(alloc, hostile.as_slice()).expect(rt, "memory") {
            hears(encoder, hostile.as_slice());
            encoder.line_lost();
            same!(rt; *encoder.target(), before, (place, value));
        }
    }
}

/// The same of each place of the bytes.
fn hears_each_altered(
    rt: &impl Abort,
    alloc: Global,
    encoder: &mut Encoder<CountTarget>,
    bytes: &[u8],
) {
    for place in 0..bytes.len() {
        hears_altered(rt, alloc, encoder, bytes, place);
    }
}

/// One message was fresh, and its reply is kept.
fn has_kept_one(rt: &impl Abort, encoder: &mut Encoder<CountTarget>) {
    let counts = encoder.counts();
    let expected = Counts {
        fresh: 1,
        dropped: counts.dropped,
        ..Counts::default()
    };
    same!(rt; counts, expected);
    // One kept reply more, and the first would be gone after these.
    for counter in 0x02..0x80 {
        holds!(rt; comes_to(encoder, counter, &[], 0x00));
    }
    holds!(rt; replies(encoder, &PI_1, &APPLIED_1, false));
}

#[test]
fn bytes_without_a_frame_change_neither_target_nor_kept_replies(rt: HostRuntime) {
    let mut encoder = with_one_message(&rt, rt.alloc());
    for line in KNOWN_FRAMES.lines() {
        let bytes = spelling_of(line).expect(&rt, line);
        hears_each_altered(&rt, rt.alloc(), &mut encoder, bytes.as_slice());
    }
    has_kept_one(&rt, &mut encoder);
}
