//! Bytes in which no frame stands.
use super::heard_applied;
use crate::tests::asserting::{holds, same};
use faulty_io::{
    APPLIED_1, EMPTY_1, KNOWN_FRAMES, altered, holds_no_frame, own_address, spelling_of,
};
use std::alloc::Global;
use std::process::Abort;
use std::test::Fail;
use uecp_frame::Message;
use uecp_link::Server;

/// Hears one place of the bytes with each value, where that leaves no frame, and then loses the line. The message stays
/// outstanding.
fn hears_altered(
    rt: &impl Abort,
    alloc: Global,
    server: &mut Server,
    bytes: &[u8],
    place: usize,
) -> Result<(), Fail> {
    for value in 0..=255 {
        let hostile = altered(bytes, place, value);
        if holds_no_frame(alloc, hostile.as_slice())? {
            let mut rest = hostile.as_slice();
            for _ in 0..rest.len() {
                let used = server.hear(rest).used;
                rest = &rest[used..];
            }
            server.line_lost();
            holds!(rt; server.outgoing() == Some(EMPTY_1.as_slice()), (place, value));
        }
    }
    Ok(())
}

#[test]
fn bytes_without_a_frame_leave_the_message_outstanding(rt: HostRuntime) -> Result<(), Fail> {
    let mut server = Server::new(own_address());
    server.submit(&Message::new());
    for line in KNOWN_FRAMES.lines() {
        let bytes = spelling_of(line).ok_or("no spelling")?;
        for place in 0..bytes.len() {
            hears_altered(&rt, rt.alloc(), &mut server, bytes.as_slice(), place)?;
        }
    }
    same!(rt; server.hear(&APPLIED_1).what, heard_applied(0x01));
    Ok(())
}
