//! A line and a server where memory is wanting.
use super::{
    delivered, driven_in, frame, goes_over, is_lost, is_taken, message, new_line, reply, steps,
};
use crate::tests::asserting::{holds, same};
use faulty_io::{
    ADD, APPLIED_1, CountTarget, EMPTY_1, FaultyReader, FaultyWriter, ScarceMemory, own_address,
};
use std::alloc::Global;
use std::process::Abort;
use std::test::Fail;
use uecp_elements::Code;
use uecp_encoder::Meter;
use uecp_frame::Message;
use uecp_link::{HeardWhat, Line, LineEvent, LineRefusal, Server, Side, Stepped, drive};

/// A target that was given messages before.
const TARGET: CountTarget = CountTarget {
    messages: 3,
    bytes: 5,
};

/// Whether there was memory for a new line; else its target is handed back.
fn is_made(rt: &impl Abort, alloc: Global) -> bool {
    match Line::new(alloc, own_address(), TARGET) {
        Ok(line) => {
            same!(rt; *line.encoder().target(), TARGET);
            true
        }
        Err(fault) => {
            same!(rt; fault.target, TARGET);
            false
        }
    }
}

#[test]
fn a_new_line_hands_the_target_back_where_memory_is_wanting(rt: HostRuntime) -> Result<(), Fail> {
    let mut memory = ScarceMemory::take_all(rt.alloc(), 4096)?;
    for refused in 0..128 {
        if is_made(&rt, rt.alloc()) {
            holds!(rt; refused > 0);
            return Ok(());
        }
        memory.give();
    }
    Err("always refused".into())
}

/// Whether there was memory for a line to be played; else its target is handed back.
fn is_played(rt: &impl Abort, alloc: Global) -> bool {
    match Line::play(alloc, own_address(), TARGET, &[]) {
        Ok((line, passed_over)) => {
            same!(rt; (*line.encoder().target(), passed_over), (TARGET, 0));
            true
        }
        Err(fault) => {
            same!(rt; fault.target, TARGET);
            false
        }
    }
}

#[test]
fn a_line_to_be_played_hands_the_target_back_where_memory_is_wanting(
    rt: HostRuntime,
) -> Result<(), Fail> {
    let mut memory = ScarceMemory::take_all(rt.alloc(), 4096)?;
    for refused in 0..128 {
        if is_played(&rt, rt.alloc()) {
            holds!(rt; refused > 0);
            return Ok(());
        }
        memory.give();
    }
    Err("always refused".into())
}

/// Whether there was memory for the submission; else nothing has changed.
fn is_submitted(rt: &impl Abort, line: &mut Line<CountTarget>, submit: &LineEvent<'_>) -> bool {
    let stepped = line.step(submit);
    if stepped == Ok(Stepped::Numbered(0)) {
        return true;
    }
    same!(rt; stepped, Err(LineRefusal::OutOfMemory));
    holds!(rt; line.sent().is_empty() && line.server().is_idle());
    false
}

/// How often the submission was refused before there was memory for it. A line with eight outstanding refuses it as
/// ever in the meantime.
fn refusals(
    rt: &impl Abort,
    line: &mut Line<CountTarget>,
    waiting: &mut Line<CountTarget>,
    submit: &LineEvent<'_>,
    memory: &mut ScarceMemory,
) -> usize {
    for refused in 0..1 << 11 {
        steps(rt, waiting, submit, Err(LineRefusal::Busy));
        if is_submitted(rt, line, submit) {
            return refused;
        }
        memory.give();
    }
    holds!(rt; false, "always refused");
    0
}

#[test]
fn a_submission_is_refused_where_memory_is_wanting_and_taken_later(rt: HostRuntime) {
    let add = message(&rt, &ADD);
    let submit = LineEvent::Submit(&add);
    let mut line = new_line(&rt, rt.alloc(), TARGET);
    let mut waiting = new_line(&rt, rt.alloc(), TARGET);
    for number in 0..8 {
        steps(&rt, &mut waiting, &submit, Ok(Stepped::Numbered(number)));
    }
    let mut memory = ScarceMemory::take_all(rt.alloc(), 1 << 16).expect(&rt, "scarce memory");
    // Room for the message and room for its code were wanting in turn.
    holds!(rt; refusals(&rt, &mut line, &mut waiting, &submit, &mut memory) > 1);
    goes_over(&rt, &mut line, Code::Applied);
}

/// Noise and a loss, a new start of each end, and a take.
fn goes_on(rt: &impl Abort, line: &mut Line<CountTarget>) {
    let noise = LineEvent::NoiseToEncoder(b"\xFE\xFF\x00");
    steps(rt, line, &noise, Ok(Stepped::Noise { dropped: 1 }));
    is_lost(rt, line, Side::Server);
    steps(rt, line, &LineEvent::EncoderRestart, Ok(Stepped::Restarted));
    steps(rt, line, &LineEvent::ServerRestart, Ok(Stepped::Restarted));
    steps(rt, line, &LineEvent::Take, Ok(Stepped::Taken(None)));
}

/// The last message goes over the line, and then comes again many times.
fn comes_again(rt: &impl Abort, line: &mut Line<CountTarget>) {
    let noise = LineEvent::NoiseToServer(b"\xFE\xFF\x00");
    goes_over(rt, line, Code::Applied);
    for _ in 0..10_000 {
        steps(rt, line, &frame(0), delivered(false, Code::Applied));
        steps(rt, line, &reply(0), Ok(Stepped::Stray));
        steps(rt, line, &noise, Ok(Stepped::Noise { dropped: 1 }));
        is_lost(rt, line, Side::Encoder);
    }
    same!(rt; (line.applied(), line.acknowledged()), (1, 1));
}

#[test]
fn a_line_takes_no_memory_for_what_goes_over_it(rt: HostRuntime) {
    let mut line = new_line(&rt, rt.alloc(), TARGET);
    is_taken(&rt, &mut line, &ADD);
    let _memory = ScarceMemory::take_all(rt.alloc(), 0).expect(&rt, "scarce memory");
    comes_again(&rt, &mut line);
    goes_on(&rt, &mut line);
}

/// The reply comes many times again, and then another message is submitted.
fn hears_strays(rt: &impl Abort, server: &mut Server) {
    for _ in 0..10_000 {
        let heard = server.hear(&APPLIED_1);
        same!(rt; (heard.used, heard.what), (11, HeardWhat::Stray));
    }
    holds!(rt; server.is_idle());
    server.submit(&Message::new());
    holds!(rt; server.outgoing().is_some());
    server.line_lost();
    server.restart();
    same!(rt; server.waiting(), 1);
}

#[test]
fn a_server_takes_no_memory(rt: HostRuntime) {
    let mut server = Server::new(own_address());
    let mut reader = Meter::new(FaultyReader::new(&APPLIED_1).giving(3));
    let mut writer = Meter::new(FaultyWriter::new());
    let _memory = ScarceMemory::take_all(rt.alloc(), 0).expect(&rt, "scarce memory");
    let answer = drive(&mut server, &mut reader, &mut writer, &Message::new(), 2, 4);
    same!(rt; answer, driven_in(1));
    same!(rt; writer.into_inner().taken(), EMPTY_1.as_slice());
    hears_strays(&rt, &mut server);
}
