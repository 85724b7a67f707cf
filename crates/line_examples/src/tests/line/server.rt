//! What a server answers to what it hears.
use super::{EMPTY_254, heard_applied};
use crate::tests::asserting::{holds, same};
use faulty_io::{APPLIED_1, APPLIED_2, EMPTY_1, own_address, reply_made};
use std::process::Abort;
use uecp_frame::{FrameFault, Message};
use uecp_link::{HeardWhat, Server};

/// Code 00 to counter 02, from another encoder.
const APPLIED_2_BY_ANOTHER: [u8; 11] = *b"\xFE\x00\x42\x00\x03\x18\x00\x02\xBE\x3D\xFF";

/// The server hears all of these bytes, and answers this.
fn hears(rt: &impl Abort, server: &mut Server, bytes: &[u8], what: HeardWhat) {
    let heard = server.hear(bytes);
    same!(rt; (heard.used, heard.what), (bytes.len(), what));
}

#[test]
fn after_counter_ff_comes_01(rt: HostRuntime) {
    let mut server = Server::new(own_address());
    let empty = Message::new();
    let mut counter = 0x00;
    for number in 0..256 {
        counter = if counter == 0xff { 0x01 } else { counter + 1 };
        holds!(rt; server.is_idle());
        server.submit(&empty);
        holds!(rt; server.outgoing() == server.outgoing());
        match number {
            0 | 255 => holds!(rt; server.outgoing() == Some(EMPTY_1.as_slice())),
            254 => holds!(rt; server.outgoing() == Some(EMPTY_254.as_slice())),
            _ => holds!(rt; server.outgoing().is_some()),
        }
        let reply = reply_made(0x00, counter);
        let what = heard_applied(counter);
        hears(&rt, &mut server, reply.as_slice(), what);
        holds!(rt; server.outgoing().is_none());
    }
}

#[test]
fn the_encoders_reply_to_the_outstanding_counter_alone_acknowledges(rt: HostRuntime) {
    let mut server = Server::new(own_address());
    let empty = Message::new();
    holds!(rt; server.is_idle());
    server.submit(&empty);
    hears(&rt, &mut server, &APPLIED_1, heard_applied(0x01));
    holds!(rt; server.is_idle());
    server.submit(&empty);
    hears(&rt, &mut server, &APPLIED_1, HeardWhat::Stray);
    hears(&rt, &mut server, &APPLIED_2_BY_ANOTHER, HeardWhat::Stray);
    // No code of the table.
    let unknown = reply_made(0x08, 0x02);
    hears(&rt, &mut server, unknown.as_slice(), HeardWhat::Stray);
    holds!(rt; !server.is_idle());
    // A reply in two pieces, the line being lost between them the first time.
    let (begun, ended) = APPLIED_2.split_at(4);
    hears(&rt, &mut server, begun, HeardWhat::Nothing);
    server.line_lost();
    hears(&rt, &mut server, ended, HeardWhat::Nothing);
    hears(&rt, &mut server, begun, HeardWhat::Nothing);
    hears(&rt, &mut server, ended, heard_applied(0x02));
    hears(&rt, &mut server, &APPLIED_2, HeardWhat::Stray);
    let short = HeardWhat::Dropped(FrameFault::TooShort);
    hears(&rt, &mut server, b"\xFE\xFF", short);
}
