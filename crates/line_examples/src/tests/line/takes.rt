//! Groups that the modulator takes between the messages.
use super::{
    acknowledged, delivered, frame, goes_over, is_lost, is_taken, message, new_line, new_store,
    new_store_line, played, reply, steps,
};
use crate::tests::asserting::{holds, same};
use faulty_io::{ADD, CountTarget, texts_of};
use rds_store::{Group, RdsStore};
use std::process::Abort;
use uecp_elements::Code;
use uecp_encoder::Target;
use uecp_link::{Line, LineEvent, Side, Stepped};

/// Queues a group of type 0A behind the others.
const GROUP: [u8; 7] = [0x24, 0x00, 0x43, 0x12, 0x34, 0x56, 0x78];

/// That group.
const QUEUED: Group = Group {
    kind: 0x00,
    bits: 0x03,
    block3: 0x1234,
    block4: 0x5678,
};

/// A take gives this group, or none.
fn gives<T: Target>(rt: &impl Abort, line: &mut Line<T>, group: Option<Group>) {
    steps(rt, line, &LineEvent::Take, Ok(Stepped::Taken(group)));
}

/// A message is submitted, applied with this code and acknowledged.
fn is_sent<T: Target>(rt: &impl Abort, line: &mut Line<T>, bytes: &[u8], code: Code) {
    is_taken(rt, line, bytes);
    goes_over(rt, line, code);
}

/// A group is queued and taken, and its message comes again.
fn is_taken_once(rt: &impl Abort, line: &mut Line<RdsStore>) {
    is_taken(rt, line, &GROUP);
    steps(rt, line, &frame(0), delivered(true, Code::Applied));
    gives(rt, line, Some(QUEUED));
    gives(rt, line, None);
    steps(rt, line, &frame(0), delivered(false, Code::Applied));
    holds!(rt; line.encoder().target().groups().is_empty());
    gives(rt, line, None);
    steps(rt, line, &reply(0), acknowledged(Code::Applied));
    let numbers = (line.sent().len(), line.applied(), line.acknowledged());
    same!(rt; numbers, (1, 1, 1));
}

#[test]
fn a_taken_group_does_not_come_back_with_a_retry(rt: HostRuntime) {
    let mut line = new_store_line(&rt, rt.alloc());
    is_taken_once(&rt, &mut line);
}

/// Two groups are queued, and three are taken.
fn go_out_in_order(rt: &impl Abort, line: &mut Line<RdsStore>) {
    for kind in 0..2u8 {
        is_sent(rt, line, &[0x24, kind, 0x40, 0, 0, 0, 0], Code::Applied);
    }
    for kind in 0..2u8 {
        let group = Group {
            kind,
            ..Group::default()
        };
        gives(rt, line, Some(group));
    }
    gives(rt, line, None);
}

#[test]
fn groups_go_out_in_the_order_in_which_they_were_queued(rt: HostRuntime) {
    let mut line = new_store_line(&rt, rt.alloc());
    go_out_in_order(&rt, &mut line);
}

/// One group is taken from a full queue.
fn makes_room(rt: &impl Abort, line: &mut Line<RdsStore>) {
    for _ in 0..32u8 {
        is_sent(rt, line, &GROUP, Code::Applied);
    }
    is_taken(rt, line, &GROUP);
    steps(rt, line, &frame(32), delivered(true, Code::BufferFull));
    gives(rt, line, Some(QUEUED));
    steps(rt, line, &frame(32), delivered(false, Code::BufferFull));
    same!(rt; line.encoder().target().groups().len(), 31);
    steps(rt, line, &reply(32), acknowledged(Code::BufferFull));
    is_sent(rt, line, &GROUP, Code::Applied);
    same!(rt; line.encoder().target().groups().len(), 32);
}

#[test]
fn a_take_makes_room_for_one_group(rt: HostRuntime) {
    let mut line = new_store_line(&rt, rt.alloc());
    makes_room(&rt, &mut line);
}

/// A group is taken while a segment is open at either end.
fn changes_the_queue(rt: &impl Abort, line: &mut Line<RdsStore>) {
    is_sent(rt, line, &ADD, Code::Applied);
    is_taken(rt, line, &GROUP);
    // A segment is open at either end, and ends after the take as it would have without it.
    let open = LineEvent::NoiseToEncoder(&[0xfe, 0x00]);
    steps(rt, line, &open, Ok(Stepped::Noise { dropped: 0 }));
    let open = LineEvent::NoiseToServer(&[0xfe, 0x00]);
    steps(rt, line, &open, Ok(Stepped::Noise { dropped: 0 }));
    let counts = (line.encoder().counts(), line.server().counts());
    gives(rt, line, None);
    same!(rt; (line.encoder().counts(), line.server().counts()), counts);
    same!(rt; texts_of(line.encoder().target(), 1), Some(1));
    same!(rt; (line.sent().len(), line.applied(), line.acknowledged()), (2, 1, 1));
    let end = LineEvent::NoiseToEncoder(&[0xff]);
    steps(rt, line, &end, Ok(Stepped::Noise { dropped: 1 }));
    let end = LineEvent::NoiseToServer(&[0xff]);
    steps(rt, line, &end, Ok(Stepped::Noise { dropped: 1 }));
    steps(rt, line, &frame(0), delivered(false, Code::Applied));
    steps(rt, line, &frame(1), delivered(true, Code::Applied));
    is_lost(rt, line, Side::Encoder);
    gives(rt, line, Some(QUEUED));
}

#[test]
fn a_take_changes_nothing_but_the_queue(rt: HostRuntime) {
    let mut line = new_store_line(&rt, rt.alloc());
    changes_the_queue(&rt, &mut line);
}

#[test]
fn a_target_without_groups_gives_none_and_stays(rt: HostRuntime) {
    let mut line = new_line(&rt, rt.alloc(), CountTarget::default());
    gives(&rt, &mut line, None);
    is_sent(&rt, &mut line, &GROUP, Code::Applied);
    let target = *line.encoder().target();
    gives(&rt, &mut line, None);
    same!(rt; *line.encoder().target(), target);
    same!(rt; line.encoder().counts().fresh, 1);
}

#[test]
fn a_run_goes_through_takes(rt: HostRuntime) {
    let group = message(&rt, &GROUP);
    let events = [
        LineEvent::Take,
        LineEvent::Submit(&group),
        frame(0),
        LineEvent::Take,
        frame(0),
        LineEvent::Take,
        reply(0),
    ];
    let store = new_store(&rt, rt.alloc());
    let (line, refused) = played(&rt, rt.alloc(), store, &events);
    same!(rt; (line.applied(), line.acknowledged(), refused), (1, 1, 0));
    holds!(rt; line.encoder().target().groups().is_empty());
}
