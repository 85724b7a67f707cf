//! Up to eight messages outstanding, and replies to them in any order.
use super::heard_applied;
use crate::tests::asserting::{holds, same};
use arrayvec::ArrayVec;
use faulty_io::{
    APPLIED_1, APPLIED_2, EMPTY_1, EMPTY_2, FaultyReader, FaultyWriter, framed, own_address,
    reply_made,
};
use std::alloc::Global;
use std::process::Abort;
use std::test::Fail;
use uecp_elements::Code;
use uecp_encoder::Meter;
use uecp_frame::Message;
use uecp_link::{DriveFault, HeardWhat, Server, Windowed, send_window};

/// The server waits for replies to these counters, the oldest first, and lends their frames.
fn waits_for(rt: &impl Abort, server: &Server, counters: &[u8]) {
    same!(rt; server.waiting(), counters.len());
    same!(rt; server.is_idle(), counters.is_empty());
    for (place, counter) in counters.iter().enumerate() {
        let frame = framed(*counter, &[]);
        holds!(rt; server.frame(place) == Some(frame.as_slice()));
        same!(rt; server.counter(place), Some(*counter));
    }
    holds!(rt; server.frame(counters.len()).is_none());
    same!(rt; server.counter(counters.len()), None);
    holds!(rt; server.outgoing() == server.frame(0));
}

/// The reply with code 00 to this counter comes, and then comes again.
fn is_acknowledged(rt: &impl Abort, server: &mut Server, counter: u8) {
    let reply = reply_made(0x00, counter);
    same!(rt; server.hear(reply.as_slice()).what, heard_applied(counter));
    same!(rt; server.hear(reply.as_slice()).what, HeardWhat::Stray);
}

/// How many messages are held: those from the oldest that waits up to the last one.
fn held(waiting: &[u8], last: u8) -> usize {
    match waiting {
        [] => 0,
        [oldest, ..] => (usize::from(last) + 255 - usize::from(*oldest)) % 255 + 1,
    }
}

/// Three turns of the counter with at most so many messages that wait. The replies come in an order that has nothing to
/// do with that of the messages.
fn three_turns(rt: &impl Abort, alloc: Global, window: usize) -> Result<(), Fail> {
    let mut server = Server::new(own_address());
    let mut waiting: Vec<u8> = Vec::new(alloc);
    let (mut last, mut sent) = (0u8, 0u32);
    for step in 0..3000usize {
        if step % 3 != 0 && waiting.len() < window && server.has_room() {
            last = if last == 0xff { 0x01 } else { last + 1 };
            sent = sent.saturating_add(1);
            server.submit(&Message::new());
            waiting.push(last)?;
        } else if !waiting.is_empty() {
            let place = step / 3 * 5 % waiting.len();
            let counter = waiting.remove(place);
            is_acknowledged(rt, &mut server, counter);
        }
        waits_for(rt, &server, waiting.as_slice());
        same!(rt; server.has_room(), held(waiting.as_slice(), last) < 8);
    }
    holds!(rt; sent >= 3 * 255, sent);
    Ok(())
}

#[test]
fn windows_of_one_to_eight_messages(rt: HostRuntime) -> Result<(), Fail> {
    for window in 1..=8 {
        three_turns(&rt, rt.alloc(), window)?;
    }
    Ok(())
}

#[test]
fn a_marked_message_is_held_while_an_older_one_waits(rt: HostRuntime) {
    let mut server = Server::new(own_address());
    for _ in 0..8u32 {
        holds!(rt; server.has_room());
        server.submit(&Message::new());
    }
    holds!(rt; !server.has_room());
    for counter in 2..=8 {
        is_acknowledged(&rt, &mut server, counter);
        holds!(rt; !server.has_room());
    }
    waits_for(&rt, &server, &[0x01]);
    is_acknowledged(&rt, &mut server, 0x01);
    holds!(rt; server.is_idle());
    holds!(rt; server.has_room());
}

/// One try of four turns for all messages that wait.
fn tries(
    rt: &impl Abort,
    server: &mut Server,
    reader: &mut Meter<FaultyReader<'_>>,
    writer: &mut Meter<FaultyWriter<'_>>,
    marks: &mut ArrayVec<(u8, Code), 8>,
) -> Result<Windowed, DriveFault> {
    assert!(rt; !server.is_idle());
    assert!(rt; marks.len() + server.waiting() <= 8);
    send_window(server, reader, writer, 4, marks)
}

/// A try comes to this, and to these marks in all.
fn comes_to(
    rt: &impl Abort,
    server: &mut Server,
    (reader, writer): (&mut Meter<FaultyReader<'_>>, &mut Meter<FaultyWriter<'_>>),
    marks: &mut ArrayVec<(u8, Code), 8>,
    comes: (Result<Windowed, DriveFault>, &[(u8, Code)]),
) {
    let (tried, marked) = comes;
    same!(rt; tries(rt, server, reader, writer, marks), tried);
    holds!(rt; marks.as_slice() == marked);
}

/// A server with two messages outstanding.
fn with_two(rt: &impl Abort) -> Server {
    let mut server = Server::new(own_address());
    for _ in 0..2u32 {
        holds!(rt; server.has_room());
        server.submit(&Message::new());
    }
    server
}

/// Both messages were written, and then the first again.
fn are_both_and_the_first(rt: &impl Abort, taken: &[u8]) {
    same!(rt; taken.len(), 24);
    holds!(rt; taken.starts_with(&EMPTY_1));
    holds!(rt; taken.get(8..16) == Some(EMPTY_2.as_slice()));
    holds!(rt; taken.ends_with(&EMPTY_1));
}

#[test]
fn one_try_for_two_messages_and_one_more_for_the_first(rt: HostRuntime) {
    let mut server = with_two(&rt);
    let mut replies = [0; 22];
    replies[..11].copy_from_slice(&APPLIED_2);
    replies[11..].copy_from_slice(&APPLIED_1);
    let mut reader = Meter::new(FaultyReader::new(&replies).giving(11).failing_at(&[2]));
    let mut writer = Meter::new(FaultyWriter::new());
    let mut marks = ArrayVec::new();
    let both = [(0x02, Code::Applied), (0x01, Code::Applied)];
    let first = (Ok(Windowed::Spent), &both[..1]);
    comes_to(
        &rt,
        &mut server,
        (&mut reader, &mut writer),
        &mut marks,
        first,
    );
    let second = (Ok(Windowed::Idle), both.as_slice());
    comes_to(
        &rt,
        &mut server,
        (&mut reader, &mut writer),
        &mut marks,
        second,
    );
    same!(rt; (reader.calls(), reader.failures()), (3, 1));
    are_both_and_the_first(&rt, writer.into_inner().taken());
}

#[test]
fn marks_are_kept_where_the_input_ends_and_where_a_write_fails(rt: HostRuntime) {
    let mut server = with_two(&rt);
    let mut reader = Meter::new(FaultyReader::new(&APPLIED_2));
    let mut writer = Meter::new(FaultyWriter::new());
    let mut narrow = Meter::new(FaultyWriter::new().taking(5).failing_at(&[2]));
    let mut marks = ArrayVec::new();
    let marked = [(0x02, Code::Applied)];
    let closed = (Err(DriveFault::Closed), marked.as_slice());
    comes_to(
        &rt,
        &mut server,
        (&mut reader, &mut writer),
        &mut marks,
        closed,
    );
    let failed = (
        Err(DriveFault::WriteFailed { written: 5 }),
        marked.as_slice(),
    );
    comes_to(
        &rt,
        &mut server,
        (&mut reader, &mut narrow),
        &mut marks,
        failed,
    );
    same!(rt; (server.waiting(), reader.calls()), (1, 2));
}
