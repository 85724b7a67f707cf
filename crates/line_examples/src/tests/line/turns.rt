//! A line beside a bare encoder that is given the same frames: full sets, late frames and a whole turn of the counter.
use super::{
    EMPTY_254, delivered, frame, goes_over, is_taken, lent, new_line, new_store_line, reply, steps,
    store_encoder,
};
use crate::tests::asserting::{holds, same};
use faulty_io::{ADD, ADD_1, APPLIED_1, CountTarget, EMPTY_1, replies, reply_made, texts_of};
use rds_store::RdsStore;
use std::process::Abort;
use uecp_elements::Code;
use uecp_encoder::{Encoder, What};
use uecp_link::{Line, LineRefusal, Stepped};

/// Nine texts, for the last of which there is no room until it is too late. The bare encoder is given the same frames.
fn refuses_the_ninth_text(
    rt: &impl Abort,
    line: &mut Line<RdsStore>,
    encoder: &mut Encoder<RdsStore>,
) {
    let add_8 = b"\xFE\x00\x41\x09\x07\x0A\x00\x00\x03\x40\x48\x49\x1B\xDC\xFF";
    let full_8 = b"\xFE\x00\x41\x00\x03\x18\x0B\x09\x1D\x4C\xFF";
    let applied_9 = b"\xFE\x00\x41\x00\x03\x18\x00\x0A\xF1\xD5\xFF";
    for counter in 1..9 {
        is_taken(rt, line, &ADD);
        let reply = reply_made(0x00, counter);
        holds!(rt; replies(encoder, lent(rt, line), reply.as_slice(), true));
        goes_over(rt, line, Code::Applied);
    }
    is_taken(rt, line, &ADD);
    holds!(rt; lent(rt, line) == add_8.as_slice());
    holds!(rt; replies(encoder, add_8, full_8, true));
    goes_over(rt, line, Code::BufferFull);
    is_taken(rt, line, &[0x0a, 0x00, 0x00, 0x00]);
    holds!(rt; replies(encoder, lent(rt, line), applied_9, true));
    goes_over(rt, line, Code::Applied);
    same!(rt; texts_of(line.encoder().target(), 1), Some(0));
    steps(rt, line, &frame(8), delivered(false, Code::BufferFull));
    same!(rt; texts_of(line.encoder().target(), 1), Some(0));
    let mut codes = [Code::Applied; 10];
    codes[8] = Code::BufferFull;
    holds!(rt; line.codes() == codes.as_slice());
    same!(rt; (line.applied(), line.acknowledged()), (10, 10));
}

#[test]
fn a_refused_message_is_acknowledged_and_never_applied_late(rt: HostRuntime) {
    let mut line = new_store_line(&rt, rt.alloc());
    let mut encoder = store_encoder(&rt, rt.alloc());
    refuses_the_ninth_text(&rt, &mut line, &mut encoder);
}

/// A text and 127 empty messages, after 126 of which the frame of the text comes again. The bare encoder is given the
/// same frames.
fn comes_again_for_so_long(
    rt: &impl Abort,
    line: &mut Line<RdsStore>,
    encoder: &mut Encoder<RdsStore>,
) {
    is_taken(rt, line, &ADD);
    holds!(rt; lent(rt, line) == ADD_1.as_slice());
    holds!(rt; replies(encoder, &ADD_1, &APPLIED_1, true));
    goes_over(rt, line, Code::Applied);
    for counter in 0x02..0x80 {
        is_taken(rt, line, &[]);
        let reply = reply_made(0x00, counter);
        holds!(rt; replies(encoder, lent(rt, line), reply.as_slice(), true));
        goes_over(rt, line, Code::Applied);
    }
    same!(rt; line.sent().len(), 127);
    holds!(rt; replies(encoder, &ADD_1, &APPLIED_1, false));
    steps(rt, line, &frame(0), delivered(false, Code::Applied));
    steps(rt, line, &reply(0), Ok(Stepped::Stray));
    is_taken(rt, line, &[]);
    steps(rt, line, &frame(0), Err(LineRefusal::TooLate));
    steps(rt, line, &reply(0), Err(LineRefusal::TooLate));
    same!(rt; texts_of(line.encoder().target(), 1), Some(1));
    // A bare encoder knows no numbers: after one more message it has no reply to the frame, which is not the next
    // either.
    let reply = reply_made(0x00, 0x80);
    holds!(rt; replies(encoder, lent(rt, line), reply.as_slice(), true));
    holds!(rt; matches!(encoder.feed(&ADD_1).what, What::NotNext));
    same!(rt; texts_of(encoder.target(), 1), Some(1));
}

#[test]
fn a_frame_comes_again_after_126_messages_and_no_later(rt: HostRuntime) {
    let mut line = new_store_line(&rt, rt.alloc());
    let mut encoder = store_encoder(&rt, rt.alloc());
    comes_again_for_so_long(&rt, &mut line, &mut encoder);
}

/// Messages for each counter and one more. The bare encoder is given the same frames.
fn goes_once_round(rt: &impl Abort, line: &mut Line<CountTarget>, encoder: &mut Encoder<RdsStore>) {
    let applied_254 = b"\xFE\x00\x41\x00\x03\x18\x00\xFD\x02\x4E\x6F\xFF";
    for number in 0..256 {
        is_taken(rt, line, &[]);
        match number {
            0 | 255 => {
                holds!(rt; lent(rt, line) == EMPTY_1.as_slice());
                holds!(rt; replies(encoder, &EMPTY_1, &APPLIED_1, true));
            }
            254 => {
                holds!(rt; lent(rt, line) == EMPTY_254.as_slice());
                holds!(rt; replies(encoder, &EMPTY_254, applied_254, true));
            }
            _ => same!(rt; encoder.feed(lent(rt, line)).used, lent(rt, line).len()),
        }
        goes_over(rt, line, Code::Applied);
    }
    steps(rt, line, &frame(0), Err(LineRefusal::TooLate));
    steps(rt, line, &reply(0), Err(LineRefusal::TooLate));
    same!(rt; line.encoder().counts(), encoder.counts());
    let target = line.encoder().target();
    same!(rt; (target.messages, target.bytes), (256, 0));
}

#[test]
fn the_256th_message_is_spelled_as_the_first_and_is_fresh(rt: HostRuntime) {
    let mut line = new_line(&rt, rt.alloc(), CountTarget::default());
    let mut encoder = store_encoder(&rt, rt.alloc());
    goes_once_round(&rt, &mut line, &mut encoder);
}
