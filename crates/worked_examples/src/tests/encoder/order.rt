//! Messages that come in the order of their counters, and out of it.
use super::{EMPTY_0, is_unnumbered};
use crate::tests::asserting::{holds, same};
use crate::tests::making::{count_encoder, store_encoder};
use faulty_io::{ADD, comes_to, framed, texts_of};
use std::process::Abort;
use uecp_encoder::{Counts, Encoder, Target, What};

/// The encoder uses all of these bytes, and has not what comes before them yet.
fn is_passed_over<T: Target>(encoder: &mut Encoder<T>, bytes: &[u8]) -> bool {
    let answer = encoder.feed(bytes);
    answer.used == bytes.len() && matches!(answer.what, What::NotNext)
}

/// Sends a text under a counter that is not the next: there is no reply, and nothing is counted.
fn is_not_next<T: Target>(rt: &impl Abort, encoder: &mut Encoder<T>, counter: u8) {
    let before = encoder.counts();
    holds!(rt; is_passed_over(encoder, framed(counter, &ADD).as_slice()), counter);
    same!(rt; encoder.counts(), before);
}

/// Whatever comes first, and however often, counter 01 is the first that is taken.
fn begins_with_01<T: Target>(rt: &impl Abort, encoder: &mut Encoder<T>) {
    for counter in 2..=255 {
        is_not_next(rt, encoder, counter);
        is_not_next(rt, encoder, counter);
    }
    holds!(rt; comes_to(encoder, 1, &ADD, 0x00));
}

/// After 01, whatever is ahead of 02 is not taken, and no reply to it is kept: it is applied later, in its turn.
fn waits_for_02<T: Target>(rt: &impl Abort, encoder: &mut Encoder<T>) {
    for counter in 3..=255 {
        is_not_next(rt, encoder, counter);
        is_not_next(rt, encoder, counter);
    }
    for counter in 2..=4 {
        holds!(rt; comes_to(encoder, counter, &ADD, 0x00));
    }
}

#[test]
fn a_store_waits_for_each_message_in_its_turn(rt: HostRuntime) {
    let mut encoder = store_encoder(&rt, rt.alloc(), 1);
    begins_with_01(&rt, &mut encoder);
    same!(rt; texts_of(encoder.target(), 1), Some(1));
    waits_for_02(&rt, &mut encoder);
    same!(rt; texts_of(encoder.target(), 1), Some(4));
    let fresh = Counts {
        fresh: 4,
        ..Counts::default()
    };
    same!(rt; encoder.counts(), fresh);
}

#[test]
fn any_target_waits_for_each_message_in_its_turn(rt: HostRuntime) {
    let mut encoder = count_encoder(&rt, rt.alloc());
    begins_with_01(&rt, &mut encoder);
    same!(rt; encoder.target().messages, 1);
    waits_for_02(&rt, &mut encoder);
    same!(rt; (encoder.target().messages, encoder.target().bytes), (4, 28));
}

/// The counters 01 to FF in turn are the next each, and after FF comes 01: neither 00 nor 02.
fn counts_to_ff_and_on<T: Target>(rt: &impl Abort, encoder: &mut Encoder<T>) {
    for counter in 1..=255 {
        holds!(rt; comes_to(encoder, counter, &[], 0x00));
    }
    holds!(rt; is_unnumbered(encoder, &EMPTY_0));
    is_not_next(rt, encoder, 2);
    for counter in 1..=255 {
        holds!(rt; comes_to(encoder, counter, &[], 0x00));
    }
    is_not_next(rt, encoder, 2);
}

#[test]
fn after_ff_comes_01_for_a_store(rt: HostRuntime) {
    let mut encoder = store_encoder(&rt, rt.alloc(), 1);
    counts_to_ff_and_on(&rt, &mut encoder);
    same!(rt; texts_of(encoder.target(), 1), Some(0));
}

#[test]
fn after_ff_comes_01_for_any_target(rt: HostRuntime) {
    let mut encoder = count_encoder(&rt, rt.alloc());
    counts_to_ff_and_on(&rt, &mut encoder);
    same!(rt; (encoder.target().messages, encoder.target().bytes), (510, 0));
}
