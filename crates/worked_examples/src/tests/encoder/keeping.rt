//! What an encoder keeps: its replies, through repeats, a lost line and a group that is taken.
use super::{PI_2, is_begun, is_not_next};
use crate::tests::asserting::{holds, same};
use crate::tests::making::store_encoder;
use faulty_io::{
    ADD_1, APPLIED_1, APPLIED_2, EMPTY_1, EMPTY_2, comes_to, framed, pi_of, replies, texts_of,
};
use rds_store::RdsStore;
use std::process::Abort;
use uecp_encoder::{Encoder, What};
use uecp_frame::Found;

#[test]
fn an_empty_message_changes_nothing_and_its_reply_is_kept(rt: HostRuntime) {
    let mut encoder = store_encoder(&rt, rt.alloc(), 1);
    holds!(rt; replies(&mut encoder, &EMPTY_1, &APPLIED_1, true));
    holds!(rt; replies(&mut encoder, &EMPTY_2, &APPLIED_2, true));
    same!(rt; (pi_of(encoder.target(), 1), texts_of(encoder.target(), 1)), (Some(0), Some(0)));
    // All sets but the current one are none here.
    holds!(rt; comes_to(&mut encoder, 3, &[0x01, 0xfe, 0x00, 0x12, 0x34], 0x00));
    // Another message under the kept counter gets the kept reply.
    holds!(rt; replies(&mut encoder, &PI_2, &APPLIED_2, false));
    same!(rt; pi_of(encoder.target(), 1), Some(0));
}

/// The first text of service 01 in set 1.
fn has_first_text(rt: &impl Abort, store: &RdsStore, bytes: &[u8]) {
    let service = store.service(1, 0x01).expect(rt, "service 01");
    let text = service.texts().first().expect(rt, "a text");
    same!(rt; text.text(), bytes);
}

/// Two empty messages, and then a text twice.
fn adds_once(rt: &impl Abort, encoder: &mut Encoder<RdsStore>) {
    let add = b"\xFE\x00\x41\x03\x07\x0A\x00\x00\x03\x40\x48\x49\xF4\x44\xFF";
    let reply = b"\xFE\x00\x41\x00\x03\x18\x00\x03\x60\xFC\xFF";
    holds!(rt; replies(encoder, &EMPTY_1, &APPLIED_1, true));
    holds!(rt; replies(encoder, &EMPTY_2, &APPLIED_2, true));
    holds!(rt; replies(encoder, add, reply, true));
    holds!(rt; replies(encoder, add, reply, false));
    has_first_text(rt, encoder.target(), b"HI");
    same!(rt; texts_of(encoder.target(), 1), Some(1));
}

#[test]
fn a_text_sent_twice_is_added_once(rt: HostRuntime) {
    let mut encoder = store_encoder(&rt, rt.alloc(), 1);
    adds_once(&rt, &mut encoder);
}

/// A text and 127 empty messages, and the frame of the text before and after the last of them.
fn is_kept_for_126_messages(rt: &impl Abort, encoder: &mut Encoder<RdsStore>) {
    holds!(rt; replies(encoder, &ADD_1, &APPLIED_1, true));
    for counter in 0x02..0x80 {
        holds!(rt; comes_to(encoder, counter, &[], 0x00));
    }
    holds!(rt; replies(encoder, &ADD_1, &APPLIED_1, false));
    same!(rt; texts_of(encoder.target(), 1), Some(1));
    holds!(rt; comes_to(encoder, 0x80, &[], 0x00));
    // It is known no more, and it is not the next either: it is not applied again.
    holds!(rt; is_not_next(encoder, &ADD_1));
    same!(rt; texts_of(encoder.target(), 1), Some(1));
}

#[test]
fn a_reply_is_kept_for_126_further_messages_and_no_longer(rt: HostRuntime) {
    let mut encoder = store_encoder(&rt, rt.alloc(), 1);
    is_kept_for_126_messages(&rt, &mut encoder);
}

/// Eight texts fill set 2, a text for both sets is refused, and comes again when there is room.
fn keeps_its_refusal(rt: &impl Abort, encoder: &mut Encoder<RdsStore>) {
    let to_set_2 = [0x0a, 0x02, 0x00, 0x03, 0x40, 0x48, 0x49];
    for counter in 1..9 {
        holds!(rt; comes_to(encoder, counter, &to_set_2, 0x00));
    }
    let to_all = b"\xFE\x00\x41\x09\x07\x0A\xFD\x02\x00\x03\x40\x48\x49\x4F\x63\xFF";
    let full = b"\xFE\x00\x41\x00\x03\x18\x0B\x09\x1D\x4C\xFF";
    holds!(rt; replies(encoder, to_all, full, true));
    // There is room again, and the refused message is not applied late.
    let empties_set_2 = [0x0a, 0x02, 0x00, 0x00];
    same!(rt; texts_of(encoder.target(), 2), Some(8));
    holds!(rt; comes_to(encoder, 0x0a, &empties_set_2, 0x00));
    holds!(rt; replies(encoder, to_all, full, false));
    same!(rt; (texts_of(encoder.target(), 1), texts_of(encoder.target(), 2)), (Some(0), Some(0)));
}

#[test]
fn a_full_set_refuses_and_the_refusal_is_kept(rt: HostRuntime) {
    let mut encoder = store_encoder(&rt, rt.alloc(), 2);
    keeps_its_refusal(&rt, &mut encoder);
}

/// The encoder uses all of these bytes, and says nothing.
fn uses_and_drops(encoder: &mut Encoder<RdsStore>, bytes: &[u8]) -> bool {
    let answer = encoder.feed(bytes);
    answer.used == bytes.len() && matches!(answer.what, What::Nothing)
}

/// A copy of the encoder's deframer finds the frame of counter 02 behind these bytes.
fn copy_finds_second(encoder: &Encoder<RdsStore>, bytes: &[u8]) -> bool {
    let mut copy = encoder.deframer().copy();
    matches!(copy.feed(bytes).found, Found::Frame(frame) if frame.counter == 2)
}

/// The line is lost in the middle of a frame.
fn loses_the_line(rt: &impl Abort, encoder: &mut Encoder<RdsStore>) {
    holds!(rt; replies(encoder, &ADD_1, &APPLIED_1, true));
    let (begun, rest) = PI_2.split_at(9);
    holds!(rt; is_begun(encoder, begun));
    holds!(rt; copy_finds_second(encoder, rest));
    encoder.line_lost();
    holds!(rt; uses_and_drops(encoder, rest));
    same!(rt; encoder.counts().dropped, 0);
    holds!(rt; replies(encoder, &ADD_1, &APPLIED_1, false));
    same!(rt; texts_of(encoder.target(), 1), Some(1));
}

#[test]
fn a_lost_line_drops_the_open_segment_alone(rt: HostRuntime) {
    let mut encoder = store_encoder(&rt, rt.alloc(), 1);
    loses_the_line(&rt, &mut encoder);
}

/// Block 4 of the group that is taken, if any is.
fn takes_block4(encoder: &mut Encoder<RdsStore>) -> Option<u16> {
    encoder.take_group().map(|group| group.block4)
}

/// A group is queued and taken, and its message comes again.
fn takes_its_group(rt: &impl Abort, encoder: &mut Encoder<RdsStore>) {
    let group = [0x24, 0x00, 0x43, 0x12, 0x34, 0x56, 0x78];
    same!(rt; encoder.take_group(), None);
    holds!(rt; comes_to(encoder, 0x01, &group, 0x00));
    let counts = encoder.counts();
    same!(rt; takes_block4(encoder), Some(0x5678));
    same!(rt; encoder.counts(), counts);
    holds!(rt; replies(encoder, framed(0x01, &group).as_slice(), &APPLIED_1, false));
    same!(rt; encoder.take_group(), None);
}

#[test]
fn a_group_taken_from_an_encoder_leaves_its_kept_replies(rt: HostRuntime) {
    let mut encoder = store_encoder(&rt, rt.alloc(), 1);
    takes_its_group(&rt, &mut encoder);
}
