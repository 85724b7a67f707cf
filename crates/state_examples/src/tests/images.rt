//! An encoder and a server, each kept as an image that is spelled out here, and read again.
use crate::tests::asserting::{holds, same};
use end_images::{ImageFault, KeptServer, put_encoder, put_server, read_encoder, read_server};
use faulty_io::{framed, new_store_encoder, own_address, reply_made};
use rds_store::RdsStore;
use std::alloc::Global;
use std::process::Abort;
use std::test::Fail;
use uecp_elements::Code;
use uecp_encoder::{Encoder, Outcome};
use uecp_frame::Message;
use uecp_link::Server;

/// An encoder at site 1, encoder 1, with one data set and the service 01, to which 1C 01 came under counter 01. The
/// check of the 51 bytes before the last two is 9280, by the polynomial 1021 bit by bit.
const ENCODER: &[u8; 53] = b"\x01\x45\x00\x41\x01\x01\x01\x01\x01\x00\
\x05\x01\x01\x01\x00\x00\
\x0B\x02\x01\x01\x20\x20\x20\x20\x20\x20\x20\x20\
\x04\x03\x01\x01\x00\
\x04\x05\x01\x01\x00\
\x04\x07\x01\x01\x00\
\x04\x0A\x01\x01\x00\
\x02\x1C\x01\
\x92\x80";

/// A server of that encoder that has joined and took five messages of its input; it has sent two, and holds both, the
/// second marked. The check of the 23 bytes before the last two is D0CA.
const SERVER: &[u8; 25] = b"\x01\x53\x00\x41\x01\x00\x00\x00\x00\x00\x00\x00\x05\x02\x02\
\x00\x02\x1C\x01\
\x01\x02\x1C\x01\
\xD0\xCA";

/// The frame with 1C 01 under counter 01 comes, and is applied.
fn applies_one(rt: &impl Abort, encoder: &mut Encoder<RdsStore>) {
    let heard = encoder.hear(framed(1, &[0x1C, 0x01]).as_slice());
    holds!(rt; matches!(heard.outcome, Outcome::Reply { code: Code::Applied, counter: 1, fresh: true }));
}

/// The encoder that was read from its image.
fn has_one(rt: &impl Abort, again: &Encoder<RdsStore>) {
    same!(rt; again.kept().find(1), Some(Code::Applied));
    same!(rt; again.kept().len(), 1);
    same!(rt; again.target().set_count(), 1);
    same!(rt; again.counts().fresh, 0);
}

/// A new encoder with one data set and service 01.
fn store_encoder(rt: &impl Abort, alloc: Global) -> Encoder<RdsStore> {
    new_store_encoder(alloc, 1).expect(rt, "an encoder")
}

/// The encoder's image.
fn image_of(rt: &impl Abort, alloc: Global, encoder: &Encoder<RdsStore>) -> Vec<u8> {
    let mut image = Vec::new(alloc);
    put_encoder(encoder, &mut image).expect(rt, "an image");
    image
}

/// The encoder of this image.
fn encoder_of(rt: &impl Abort, alloc: Global, image: &[u8]) -> Encoder<RdsStore> {
    read_encoder(alloc, image).expect(rt, "an encoder")
}

/// The encoder is written as this image, and read from it.
fn is_kept_as(rt: &impl Abort, alloc: Global, encoder: &Encoder<RdsStore>, spelled: &[u8]) {
    let image = image_of(rt, alloc, encoder);
    holds!(rt; image.as_slice() == spelled);
    has_one(rt, &encoder_of(rt, alloc, image.as_slice()));
}

#[test]
fn an_encoder_is_written_and_read(rt: HostRuntime) {
    let mut encoder = store_encoder(&rt, rt.alloc());
    applies_one(&rt, &mut encoder);
    is_kept_as(&rt, rt.alloc(), &encoder, ENCODER.as_slice());
}

/// The message goes out twice, and the second of them is acknowledged.
fn acknowledges_the_second(rt: &impl Abort, server: &mut Server) {
    let message = Message::from_bytes(&[0x1C, 0x01]).expect(rt, "short");
    for _ in 0..2u8 {
        holds!(rt; server.has_room());
        server.submit(&message);
    }
    let reply = reply_made(0x00, 2);
    same!(rt; server.hear(reply.as_slice()).used, reply.len());
}

/// The server that was read from its image.
fn holds_both(rt: &impl Abort, kept: &KeptServer) {
    holds!(rt; kept.joined);
    same!(rt; kept.taken, 5);
    same!(rt; kept.server.last(), 2);
    same!(rt; kept.server.held_count(), 2);
    same!(rt; kept.server.waiting(), 1);
}

#[test]
fn a_server_is_written_and_read(rt: HostRuntime) -> Result<(), Fail> {
    let mut server = Server::new(own_address());
    acknowledges_the_second(&rt, &mut server);
    let mut image = Vec::new(rt.alloc());
    put_server(true, 5, &server, &mut image)?;
    holds!(rt; image.as_slice() == SERVER.as_slice());
    holds_both(&rt, &read_server(rt.alloc(), SERVER.as_slice())?);
    Ok(())
}

/// These bytes are refused as an encoder's image.
fn is_no_encoder(rt: &impl Abort, alloc: Global, bytes: &[u8], fault: ImageFault) {
    same!(rt; read_encoder(alloc, bytes).err(), Some(fault), bytes);
}

/// These bytes are refused as a server's image.
fn is_no_server(rt: &impl Abort, alloc: Global, bytes: &[u8], fault: ImageFault) {
    same!(rt; read_server(alloc, bytes).err(), Some(fault), bytes);
}

/// All of the bytes but the last.
fn without_last(bytes: &[u8]) -> &[u8] {
    match bytes.split_last() {
        Some((_, front)) => front,
        None => bytes,
    }
}

#[test]
fn other_bytes_are_refused(rt: HostRuntime) {
    let alloc = rt.alloc();
    is_no_encoder(&rt, alloc, SERVER.as_slice(), ImageFault::OtherEnd);
    is_no_server(&rt, alloc, ENCODER.as_slice(), ImageFault::OtherEnd);
    is_no_encoder(&rt, alloc, &[0x02, 0x45], ImageFault::Newer(2));
    is_no_server(&rt, alloc, &[], ImageFault::Damaged);
    is_no_encoder(&rt, alloc, without_last(ENCODER), ImageFault::Damaged);
    is_no_server(&rt, alloc, without_last(SERVER), ImageFault::Damaged);
    is_no_encoder(&rt, alloc, without_last(SERVER), ImageFault::Damaged);
}

#[test]
fn a_changed_bit_is_refused(rt: HostRuntime) {
    for place in 0..25 {
        let mut bytes = *SERVER;
        bytes[place] ^= 0x01;
        is_no_server(&rt, rt.alloc(), &bytes, ImageFault::Damaged);
    }
    for place in 0..53 {
        let mut bytes = *ENCODER;
        bytes[place] ^= 0x01;
        is_no_encoder(&rt, rt.alloc(), &bytes, ImageFault::Damaged);
    }
}
