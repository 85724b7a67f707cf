//! Noise on a line, which is judged with what is open before it.
use super::{acknowledged, delivered, frame, is_lost, is_taken, new_store_line, reply, steps};
use crate::tests::asserting::same;
use faulty_io::pi_of;
use rds_store::RdsStore;
use std::process::Abort;
use uecp_elements::Code;
use uecp_link::{Line, LineEvent, LineRefusal, Side, Stepped};

/// PI C201.
const PI: [u8; 5] = *b"\x01\x00\x00\xC2\x01";

/// What noise comes to.
fn noise(dropped: usize) -> Result<Stepped, LineRefusal> {
    Ok(Stepped::Noise { dropped })
}

/// A frame begins in one piece of noise and ends in another.
fn noise_to_the_encoder(rt: &impl Abort, line: &mut Line<RdsStore>) {
    let begun = LineEvent::NoiseToEncoder(b"\xFE\x00");
    let ended = LineEvent::NoiseToEncoder(b"\x41\x01\x05\x01\x00\x00\xC2\x01\x67\xA8\xFF");
    is_taken(rt, line, &PI);
    steps(rt, line, &begun, noise(0));
    steps(rt, line, &ended, Err(LineRefusal::HoldsAFrame));
    steps(rt, line, &frame(0), delivered(true, Code::Applied));
    same!(rt; line.encoder().counts().dropped, 1);
    steps(rt, line, &ended, noise(0));
    steps(rt, line, &begun, noise(0));
    is_lost(rt, line, Side::Server);
    steps(rt, line, &ended, Err(LineRefusal::HoldsAFrame));
    is_lost(rt, line, Side::Encoder);
    steps(rt, line, &ended, noise(0));
    same!(rt; line.encoder().counts().dropped, 1);
    same!(rt; pi_of(line.encoder().target(), 1), Some(0xc201));
}

#[test]
fn noise_is_judged_with_what_is_open_before_it(rt: HostRuntime) {
    let mut line = new_store_line(&rt, rt.alloc());
    noise_to_the_encoder(&rt, &mut line);
}

/// A frame of another encoder begins in one piece of noise and ends in another.
fn noise_to_the_server(rt: &impl Abort, line: &mut Line<RdsStore>) {
    let begun = LineEvent::NoiseToServer(b"\xFE\xFF\xFE\x00\xFE\x00\x42");
    let ended = LineEvent::NoiseToServer(b"\x00\x03\x18\x00\x02\xBE\x3D\xFF");
    is_taken(rt, line, &PI);
    steps(rt, line, &frame(0), delivered(true, Code::Applied));
    steps(rt, line, &begun, noise(2));
    // A frame of any address.
    steps(rt, line, &ended, Err(LineRefusal::HoldsAFrame));
    is_lost(rt, line, Side::Encoder);
    steps(rt, line, &ended, Err(LineRefusal::HoldsAFrame));
    is_lost(rt, line, Side::Server);
    steps(rt, line, &ended, noise(0));
    steps(rt, line, &begun, noise(2));
    steps(rt, line, &reply(0), acknowledged(Code::Applied));
    steps(rt, line, &ended, noise(0));
}

#[test]
fn noise_to_the_server_is_its_own(rt: HostRuntime) {
    let mut line = new_store_line(&rt, rt.alloc());
    noise_to_the_server(&rt, &mut line);
}
