//! `drive` and `resend`, over a reader and a writer that fail where they are told to.
use super::driven_in;
use crate::tests::asserting::{holds, same};
use faulty_io::{APPLIED_1, APPLIED_2, EMPTY_1, FaultyReader, FaultyWriter, own_address};
use std::process::Abort;
use uecp_encoder::Meter;
use uecp_frame::Message;
use uecp_link::{DriveFault, Driven, Server, drive, resend};

/// What a message is read and written over.
type Ends<'a, 'b> = (
    &'a mut Meter<FaultyReader<'b>>,
    &'a mut Meter<FaultyWriter<'b>>,
);

/// A new message in so many tries of four turns comes to this.
fn drives(
    rt: &impl Abort,
    server: &mut Server,
    (reader, writer): Ends<'_, '_>,
    tries: u32,
    driven: Result<Driven, DriveFault>,
) {
    holds!(rt; server.is_idle());
    same!(rt; drive(server, reader, writer, &Message::new(), tries, 4), driven);
}

/// The message that waits is sent again, in so many tries and turns, and is acknowledged in the first.
fn sends_again(
    rt: &impl Abort,
    server: &mut Server,
    (reader, writer): Ends<'_, '_>,
    tries: u32,
    turns: u32,
) {
    assert!(rt; server.waiting() == 1);
    same!(rt; resend(server, reader, writer, tries, turns), driven_in(1));
}

#[test]
fn acknowledged_at_once(rt: HostRuntime) {
    let mut server = Server::new(own_address());
    let mut reader = Meter::new(FaultyReader::new(&APPLIED_1));
    let mut writer = Meter::new(FaultyWriter::new());
    drives(
        &rt,
        &mut server,
        (&mut reader, &mut writer),
        2,
        driven_in(1),
    );
    holds!(rt; server.is_idle());
    same!(rt; (reader.calls(), reader.failures()), (1, 0));
    same!(rt; writer.into_inner().taken(), EMPTY_1.as_slice());
}

#[test]
fn acknowledged_after_a_failed_read_and_another_reply(rt: HostRuntime) {
    let mut server = Server::new(own_address());
    let mut bytes = [0; 22];
    bytes[..11].copy_from_slice(&APPLIED_2);
    bytes[11..].copy_from_slice(&APPLIED_1);
    let mut reader = Meter::new(FaultyReader::new(&bytes).giving(6).failing_at(&[1]));
    let mut writer = Meter::new(FaultyWriter::new().taking(3));
    drives(
        &rt,
        &mut server,
        (&mut reader, &mut writer),
        2,
        driven_in(2),
    );
    same!(rt; (reader.calls(), reader.failures()), (5, 1));
    let output = writer.into_inner();
    same!(rt; output.taken().len(), 16);
    holds!(rt; output.taken().starts_with(&EMPTY_1));
    holds!(rt; output.taken().ends_with(&EMPTY_1));
}

#[test]
fn outstanding_after_the_end_of_input(rt: HostRuntime) {
    let mut server = Server::new(own_address());
    let mut nothing = Meter::new(FaultyReader::new(b""));
    let mut writer = Meter::new(FaultyWriter::new());
    drives(
        &rt,
        &mut server,
        (&mut nothing, &mut writer),
        2,
        Err(DriveFault::Closed),
    );
    holds!(rt; server.waiting() == 1);
    server.line_lost();
    let mut reader = Meter::new(FaultyReader::new(&APPLIED_1));
    sends_again(&rt, &mut server, (&mut reader, &mut writer), 2, 4);
    holds!(rt; server.is_idle());
}

#[test]
fn no_try_writes_nothing(rt: HostRuntime) {
    let mut server = Server::new(own_address());
    let mut reader = Meter::new(FaultyReader::new(&APPLIED_1));
    let mut writer = Meter::new(FaultyWriter::new());
    drives(
        &rt,
        &mut server,
        (&mut reader, &mut writer),
        0,
        Err(DriveFault::TriesSpent),
    );
    holds!(rt; server.waiting() == 1);
    same!(rt; writer.calls(), 0);
    same!(rt; reader.calls(), 0);
}

#[test]
fn a_failed_write_says_how_much_was_written(rt: HostRuntime) {
    let mut server = Server::new(own_address());
    let mut reader = Meter::new(FaultyReader::new(&APPLIED_1).failing_at(&[1]));
    let mut writer = Meter::new(FaultyWriter::new().taking(5).taking_none_at(&[4]));
    drives(
        &rt,
        &mut server,
        (&mut reader, &mut writer),
        3,
        Err(DriveFault::WriteFailed { written: 13 }),
    );
    holds!(rt; server.waiting() == 1);
    sends_again(&rt, &mut server, (&mut reader, &mut writer), 1, 1);
}

#[test]
fn all_tries_are_made(rt: HostRuntime) {
    let mut server = Server::new(own_address());
    let mut reader = Meter::new(FaultyReader::new(&APPLIED_2).giving(1));
    let mut writer = Meter::new(FaultyWriter::new());
    drives(
        &rt,
        &mut server,
        (&mut reader, &mut writer),
        2,
        Err(DriveFault::TriesSpent),
    );
    same!(rt; (reader.calls(), writer.calls()), (8, 2));
}
