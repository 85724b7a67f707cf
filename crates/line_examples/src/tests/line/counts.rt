//! What a server counts.
use crate::tests::asserting::{holds, same};
use faulty_io::{APPLIED_1, EMPTY_1, own_address, reply_made};
use std::process::Abort;
use uecp_frame::Message;
use uecp_link::{Server, ServerCounts};

/// The server hears all of these bytes in one piece, and has counted this.
fn counts(rt: &impl Abort, server: &mut Server, bytes: &[u8], counts: (u64, u64, u64)) {
    let (acknowledged, stray, dropped) = counts;
    let wanted = ServerCounts {
        acknowledged,
        stray,
        dropped,
    };
    same!(rt; server.hear(bytes).used, bytes.len());
    same!(rt; server.counts(), wanted);
}

#[test]
fn each_segment_raises_one_count(rt: HostRuntime) {
    let by_another = b"\xFE\x00\x42\x00\x03\x18\x00\x01\x8E\x5E\xFF";
    let unknown = reply_made(0x08, 0x01);
    let earlier = reply_made(0x00, 0xff);
    let mut server = Server::new(own_address());
    same!(rt; server.counts(), ServerCounts::default());
    counts(&rt, &mut server, &APPLIED_1, (0, 1, 0));
    holds!(rt; server.is_idle());
    server.submit(&Message::new());
    counts(&rt, &mut server, by_another, (0, 2, 0));
    counts(&rt, &mut server, unknown.as_slice(), (0, 3, 0));
    counts(&rt, &mut server, earlier.as_slice(), (0, 4, 0));
    counts(&rt, &mut server, &EMPTY_1, (0, 5, 0));
    counts(&rt, &mut server, b"\xFE\xFF", (0, 5, 1));
    counts(&rt, &mut server, b"\xFE\x00\x41", (0, 5, 1));
    server.line_lost();
    counts(&rt, &mut server, b"\xFF\x00", (0, 5, 1));
    counts(&rt, &mut server, &APPLIED_1, (1, 5, 1));
    counts(&rt, &mut server, &APPLIED_1, (1, 6, 1));
}
