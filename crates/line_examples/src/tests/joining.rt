//! A server that knows nothing of an encoder joins it, from each state that the encoder's counters can be in.
ghost use Rattle.std.specs.Prelude.{◌+◌, ◌%◌, ◌^◌, ◌==◌, None, length, if◌then◌else◌};
ghost use Rattle.uecp_elements.specs.declared.code.Code.TheVariants.{Applied};

use super::line::{
    acknowledged, delivered, frame, goes_over, heard_applied, is_taken, message, new_line, reply,
    steps,
};
use crate::tests::asserting::{holds, same};
use faulty_io::{FaultyReader, FaultyWriter, new_encoder, own_address, replies, reply_made};
use rds_store::Group;
use std::alloc::Global;
use std::ops::Range;
use std::process::Abort;
use std::test::Fail;
use uecp_elements::Code;
use uecp_encoder::{Encoder, Meter, Target, serve};
use uecp_link::{Joining, Line, Server, join};

/// Counts the messages that have a byte, and their bytes. An empty message leaves it as it is.
#[derive(Clone, Copy, Debug, Default, PartialEq, Eq)]
struct BytesTarget {
    messages: u64,
    bytes: u64,
}

impl Target for BytesTarget {
    ghost step = { λ v m. (
      (if length m == 0 then v else record {
        messages = (v.messages + 1) % 2 ^ 64;
        bytes = (v.bytes + length m) % 2 ^ 64;
      }),
      Applied,
    ) };

    ghost taken = { λ v. (v, None) };

    fn apply(&mut self, message: &[u8]) -> Code {
        if !message.is_empty() {
            self.messages = self.messages.wrapping_add(1);
            self.bytes = self.bytes.wrapping_add(message.len() as u64);
        }
        Code::Applied
    }

    fn take(&mut self) -> Option<Group> {
        None
    }
}

/// The message of a number, of 1 to 8 bytes.
fn bytes_of<'a>(number: u16) -> &'a [u8] {
    &b"\xFD\xFE\xFF\x00\x01\x18\x41\x81"[..usize::from(number) % 8 + 1]
}

/// What so many messages make of a new target.
fn made(count: u16) -> BytesTarget {
    let mut target = BytesTarget::default();
    for number in 0..count {
        let _ = target.apply(bytes_of(number));
    }
    target
}

/// The messages of these numbers, under the counters from 01 on. The frame of each comes twice, and is fresh the first
/// time; the reply acknowledges it.
fn act_once(
    rt: &impl Abort,
    server: &mut Server,
    encoder: &mut Encoder<BytesTarget>,
    numbers: Range<u16>,
) {
    let mut counter = 0;
    for number in numbers {
        counter = counter % 255 + 1;
        let reply = reply_made(0x00, counter);
        holds!(rt; server.has_room());
        server.submit(&message(rt, bytes_of(number)));
        for fresh in [true, false] {
            let frame = server.outgoing().expect(rt, "outstanding");
            holds!(rt; replies(encoder, frame, reply.as_slice(), fresh));
        }
        same!(rt; server.hear(reply.as_slice()).what, heard_applied(counter));
    }
}

/// After so many messages, each of which came twice, the encoder gets the pass. It applies the empty messages from its
/// next counter to FF; those before are repeats, as far as it has kept the replies to their counters.
fn answers(
    rt: &impl Abort,
    encoder: &mut Encoder<BytesTarget>,
    pass: &[u8],
    writer: &mut Meter<FaultyWriter<'_>>,
    count: u16,
) {
    let before = u64::from(count);
    let (fresh, repeats) = (255 - before % 255, (before % 255).min(127));
    let mut reader = Meter::new(FaultyReader::new(pass));
    holds!(rt; serve(encoder, &mut reader, writer, 64).is_ok());
    let counts = (encoder.counts().fresh, encoder.counts().repeats);
    same!(rt; counts, (before + fresh, before + repeats));
    same!(rt; *encoder.target(), made(count));
}

/// The server writes the pass and reads these replies.
fn joins(rt: &impl Abort, server: &mut Server, pass: &[u8], replies: &[u8]) {
    let mut reader = Meter::new(FaultyReader::new(replies));
    let mut writer = Meter::new(FaultyWriter::new());
    holds!(rt; server.is_idle());
    let mut behind = 0;
    let joined = join(server, &mut reader, &mut writer, 4096, &mut behind);
    same!(rt; joined, Ok(Joining::Joined));
    holds!(rt; writer.into_inner().taken() == pass);
}

/// After so many messages of one server another joins, and two messages of this one follow.
fn is_joined(rt: &impl Abort, encoder: &mut Encoder<BytesTarget>, pass: &[u8], count: u16) {
    let mut server = Server::new(own_address());
    act_once(rt, &mut server, encoder, 0..count);
    let mut writer = Meter::new(FaultyWriter::new());
    answers(rt, encoder, pass, &mut writer, count);
    let mut server = Server::new(own_address());
    joins(rt, &mut server, pass, writer.into_inner().taken());
    let after = count.saturating_add(2);
    act_once(rt, &mut server, encoder, count..after);
    same!(rt; *encoder.target(), made(after));
}

/// A server writes its pass, and makes no read.
fn write_pass(rt: &impl Abort, writer: &mut Meter<FaultyWriter<'_>>) {
    let mut server = Server::new(own_address());
    let mut reader = Meter::new(FaultyReader::new(b""));
    let mut behind = 0;
    let joined = join(&mut server, &mut reader, writer, 0, &mut behind);
    same!(rt; joined, Ok(Joining::Spent));
}

/// A new encoder over a target that counts bytes.
fn bytes_encoder(rt: &impl Abort, alloc: Global) -> Encoder<BytesTarget> {
    new_encoder(alloc, BytesTarget::default()).expect(rt, "an encoder")
}

#[test]
fn a_server_joins_from_every_state(rt: HostRuntime) {
    let mut writer = Meter::new(FaultyWriter::new());
    write_pass(&rt, &mut writer);
    let pass = writer.into_inner();
    for count in (0..256).chain([256, 300, 510, 1000]) {
        let mut encoder = bytes_encoder(&rt, rt.alloc());
        is_joined(&rt, &mut encoder, pass.taken(), count);
    }
}

/// The messages of these numbers go over a line.
fn go_over(rt: &impl Abort, line: &mut Line<BytesTarget>, numbers: Range<u16>) {
    for number in numbers {
        is_taken(rt, line, bytes_of(number));
        goes_over(rt, line, Code::Applied);
    }
}

/// Three more messages are applied, and the second of them is acknowledged.
fn three_more(rt: &impl Abort, line: &mut Line<BytesTarget>, count: u16) {
    for number in count..count.saturating_add(3) {
        is_taken(rt, line, bytes_of(number));
        let event = frame(usize::from(number));
        steps(rt, line, &event, delivered(true, Code::Applied));
    }
    let event = reply(usize::from(count) + 1);
    steps(rt, line, &event, acknowledged(Code::Applied));
}

/// The server of a line on which so many messages were applied is started again, and gives up those that wait, which
/// are so many. Two messages of the new one go over, from number 0 on.
fn starts_again(rt: &impl Abort, line: &mut Line<BytesTarget>, count: u16, waiting: usize) {
    same!(rt; line.replace_server(), waiting);
    holds!(rt; line.sent().is_empty() && line.codes().is_empty());
    same!(rt; *line.encoder().target(), made(count));
    let after = count.saturating_add(2);
    go_over(rt, line, count..after);
    same!(rt; (line.sent().len(), line.acknowledged()), (2, 2));
    same!(rt; *line.encoder().target(), made(after));
}

/// A new line on which so many messages went over.
fn with_messages(rt: &impl Abort, alloc: Global, count: u16) -> Line<BytesTarget> {
    let mut line = new_line(rt, alloc, BytesTarget::default());
    go_over(rt, &mut line, 0..count);
    line
}

#[test]
fn a_server_is_started_again_in_every_state(rt: HostRuntime) {
    for count in (0..256).chain([256, 300, 510, 1000]) {
        let mut line = with_messages(&rt, rt.alloc(), count);
        starts_again(&rt, &mut line, count, 0);
    }
    for count in [0, 1, 124, 125, 252, 253, 254, 255, 300, 510, 1000] {
        let mut line = with_messages(&rt, rt.alloc(), count);
        three_more(&rt, &mut line, count);
        starts_again(&rt, &mut line, count.saturating_add(3), 2);
    }
}

#[test]
fn a_line_of_a_new_encoder_is_as_a_new_line(rt: HostRuntime) -> Result<(), Fail> {
    let address = own_address();
    let encoder = Encoder::new(rt.alloc(), address, BytesTarget::default());
    let mut line = Line::of_encoder(rt.alloc(), address, encoder.ok().ok_or("no memory")?);
    go_over(&rt, &mut line, 0..1);
    same!(rt; *line.encoder().target(), made(1));
    Ok(())
}
