//! A message that is driven where no read succeeds and writes end somewhere, and then sent again over good ends.
use super::driven_in;
use crate::tests::asserting::{holds, same};
use faulty_io::{APPLIED_1, FaultyReader, FaultyWriter, own_address};
use std::process::Abort;
use uecp_encoder::Meter;
use uecp_frame::Message;
use uecp_link::{DriveFault, Server, drive, resend};

/// Two tries of four reads, all of which fail, over a writer that takes one byte a call and fails at these calls. Then
/// the message is sent again, over good ends.
fn drives(rt: &impl Abort, failing: &[u32], fault: DriveFault) {
    let mut server = Server::new(own_address());
    let mut silent = Meter::new(FaultyReader::new(&APPLIED_1).failing_at(&[
        1, 2, 3, 4, 5, 6, 7, 8,
    ]));
    let mut narrow = Meter::new(FaultyWriter::new().taking(1).failing_at(failing));
    let driven = drive(&mut server, &mut silent, &mut narrow, &Message::new(), 2, 4);
    same!(rt; driven, Err(fault));
    assert!(rt; server.waiting() == 1);
    let mut reader = Meter::new(FaultyReader::new(&APPLIED_1));
    let mut writer = Meter::new(FaultyWriter::new());
    let driven = resend(&mut server, &mut reader, &mut writer, 2, 4);
    same!(rt; driven, driven_in(1));
    holds!(rt; server.is_idle());
}

#[test]
fn wherever_writes_end_the_message_is_outstanding(rt: HostRuntime) {
    for written in 0..16_u32 {
        let fault = DriveFault::WriteFailed {
            written: u64::from(written),
        };
        drives(&rt, &[written + 1], fault);
    }
    // Both tries were written by then.
    drives(&rt, &[17], DriveFault::TriesSpent);
    drives(&rt, &[], DriveFault::TriesSpent);
}
