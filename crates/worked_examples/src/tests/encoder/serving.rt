//! `serve` and its meters, over a reader and a writer that fail where they are told to.
use super::PI_2;
use crate::tests::asserting::same;
use crate::tests::making::store_encoder;
use faulty_io::{ADD_1, APPLIED_1, APPLIED_2, FaultyReader, FaultyWriter, pi_of, texts_of};
use rds_store::RdsStore;
use std::alloc::Global;
use std::process::Abort;
use uecp_encoder::{Encoder, Failed, Meter, ServeFault, Served, serve};

/// A read of up to eight bytes comes to this.
fn reads(rt: &impl Abort, reader: &mut Meter<FaultyReader<'_>>, comes_to: Result<usize, Failed>) {
    same!(rt; reader.read(&mut [0u8; 8]), comes_to);
}

/// A write of "abc" comes to this.
fn writes(rt: &impl Abort, writer: &mut Meter<FaultyWriter<'_>>, comes_to: Result<usize, Failed>) {
    same!(rt; writer.write(b"abc"), comes_to);
}

/// The device was written to so often and never flushed, and took these bytes.
fn has_taken(rt: &impl Abort, device: &FaultyWriter<'_>, writes: u32, bytes: &[u8]) {
    same!(rt; (device.writes(), device.flushes()), (writes, 0));
    same!(rt; device.taken(), bytes);
}

/// Three reads, the first of which fails.
fn counts_reads(rt: &impl Abort) {
    let mut reader = Meter::new(FaultyReader::new(b"abc").failing_at(&[1]));
    reads(rt, &mut reader, Err(Failed));
    reads(rt, &mut reader, Ok(3));
    reads(rt, &mut reader, Ok(0));
    same!(rt; (reader.calls(), reader.failures(), reader.empty()), (3, 1, 1));
    same!(rt; reader.into_inner().reads(), 3);
}

/// Three writes, of which the second takes nothing and the third fails.
fn counts_writes(rt: &impl Abort) {
    let device = FaultyWriter::new().taking(2).taking_none_at(&[2]);
    let mut writer = Meter::new(device.failing_at(&[3]));
    writes(rt, &mut writer, Ok(2));
    writes(rt, &mut writer, Err(Failed));
    writes(rt, &mut writer, Err(Failed));
    same!(rt; (writer.calls(), writer.failures()), (3, 2));
    has_taken(rt, &writer.into_inner(), 3, b"ab");
}

#[test]
fn a_meter_counts_calls_failures_and_empty_reads(rt: HostRuntime) {
    counts_reads(&rt);
    counts_writes(&rt);
}

/// A read comes to this, and is one of the device.
fn reads_once(rt: &impl Abort, device: FaultyReader<'_>, comes_to: Result<usize, Failed>) {
    let mut reader = Meter::new(device);
    reads(rt, &mut reader, comes_to);
    let calls = reader.calls();
    same!(rt; (calls, reader.into_inner().reads()), (1, 1));
}

#[test]
fn a_counted_read_is_one_read_of_the_device(rt: HostRuntime) {
    reads_once(&rt, FaultyReader::new(b"abc"), Ok(3));
    reads_once(&rt, FaultyReader::new(b"abc").giving(2), Ok(2));
    reads_once(&rt, FaultyReader::new(b"abc").failing_at(&[1]), Err(Failed));
    reads_once(&rt, FaultyReader::new(b""), Ok(0));
}

/// A write comes to this, and is one of the device.
fn writes_once(rt: &impl Abort, device: FaultyWriter<'_>, comes_to: Result<usize, Failed>) {
    let mut writer = Meter::new(device);
    writes(rt, &mut writer, comes_to);
    let calls = writer.calls();
    let device = writer.into_inner();
    same!(rt; (calls, device.writes(), device.flushes()), (1, 1, 0));
}

#[test]
fn a_counted_write_is_one_write_of_the_device(rt: HostRuntime) {
    writes_once(&rt, FaultyWriter::new(), Ok(3));
    writes_once(&rt, FaultyWriter::new().taking(2), Ok(2));
    writes_once(&rt, FaultyWriter::new().failing_at(&[1]), Err(Failed));
    writes_once(&rt, FaultyWriter::new().taking_none_at(&[1]), Err(Failed));
}

#[test]
fn a_whole_write_says_where_it_stopped(rt: HostRuntime) {
    let mut writer = Meter::new(FaultyWriter::new().taking(2).failing_at(&[5]));
    same!(rt; writer.write_whole(b""), Ok(()));
    same!(rt; writer.write_whole(b"abc"), Ok(()));
    same!(rt; writer.write_whole(b"defgh"), Err(4));
    same!(rt; (writer.calls(), writer.failures()), (5, 1));
    has_taken(&rt, &writer.into_inner(), 5, b"abcdefg");
}

/// A text is applied while its reply is cut short, and comes again.
fn replies_in_full(rt: &impl Abort, encoder: &mut Encoder<RdsStore>) {
    let mut narrow = Meter::new(FaultyWriter::new().taking(3).failing_at(&[2]));
    let mut input = Meter::new(FaultyReader::new(&ADD_1));
    let served = serve(encoder, &mut input, &mut narrow, 64);
    same!(rt; served, Err(ServeFault::WriteFailed { written: 3 }));
    same!(rt; texts_of(encoder.target(), 1), Some(1));
    encoder.line_lost();
    let mut whole = Meter::new(FaultyWriter::new());
    let mut input = Meter::new(FaultyReader::new(&ADD_1).giving(4));
    let served = serve(encoder, &mut input, &mut whole, 64);
    same!(rt; served, Ok(Served { read: 15, replies: 1 }));
    same!(rt; serve(encoder, &mut input, &mut whole, 0), Err(ServeFault::TurnsSpent));
    same!(rt; whole.into_inner().taken(), APPLIED_1.as_slice());
    same!(rt; texts_of(encoder.target(), 1), Some(1));
}

#[test]
fn a_reply_that_was_cut_short_is_given_again(rt: HostRuntime) {
    let mut encoder = store_encoder(&rt, rt.alloc(), 1);
    replies_in_full(&rt, &mut encoder);
}

/// The first read fails, and the second brings a text.
fn fails_to_read(rt: &impl Abort, encoder: &mut Encoder<RdsStore>) {
    let mut output = Meter::new(FaultyWriter::new());
    let mut input = Meter::new(FaultyReader::new(&ADD_1).failing_at(&[1]));
    let served = serve(encoder, &mut input, &mut output, 1);
    same!(rt; served, Err(ServeFault::ReadFailed));
    let served = serve(encoder, &mut input, &mut output, 1);
    same!(rt; served, Err(ServeFault::TurnsSpent));
    same!(rt; output.into_inner().taken(), APPLIED_1.as_slice());
}

#[test]
fn a_failed_read_ends_the_call_and_loses_nothing(rt: HostRuntime) {
    let mut encoder = store_encoder(&rt, rt.alloc(), 1);
    fails_to_read(&rt, &mut encoder);
}

/// The frame is served, and brings so many replies, which are these bytes.
fn brings(rt: &impl Abort, encoder: &mut Encoder<RdsStore>, frame: &[u8; 15], replies: &[u8]) {
    let mut input = Meter::new(FaultyReader::new(frame));
    let mut output = Meter::new(FaultyWriter::new());
    let served = serve(encoder, &mut input, &mut output, 64);
    let all = Served {
        read: 15,
        replies: if replies.is_empty() { 0 } else { 1 },
    };
    same!(rt; served, Ok(all));
    same!(rt; output.into_inner().taken(), replies);
}

/// The second message comes before and after the first.
fn comes_out_of_its_turn(rt: &impl Abort, encoder: &mut Encoder<RdsStore>) {
    brings(rt, encoder, &PI_2, b"");
    brings(rt, encoder, &ADD_1, &APPLIED_1);
    brings(rt, encoder, &PI_2, &APPLIED_2);
    same!(rt; (texts_of(encoder.target(), 1), pi_of(encoder.target(), 1)), (Some(1), Some(0xfeff)));
}

#[test]
fn a_frame_out_of_its_turn_gets_no_reply(rt: HostRuntime) {
    let mut encoder = store_encoder(&rt, rt.alloc(), 1);
    comes_out_of_its_turn(&rt, &mut encoder);
}

/// Adds the text "HI" under counter 01, and then sets PI FEFF under counter 02.
const BOTH: [u8; 30] =
    *b"\xFE\x00\x41\x01\x07\x0A\x00\x00\x03\x40\x48\x49\x32\x23\xFF\xFE\x00\x41\x02\x05\x01\x00\x00\xFD\x01\xFD\x02\xF1\x03\xFF";

/// The line is lost, and both frames come again whole: both are answered, each has acted once, and nothing was dropped.
fn serves_both(rt: &impl Abort, encoder: &mut Encoder<RdsStore>, repeats: u64) {
    encoder.line_lost();
    let mut input = Meter::new(FaultyReader::new(&BOTH));
    let mut output = Meter::new(FaultyWriter::new());
    let served = serve(encoder, &mut input, &mut output, 64);
    let both = Served {
        read: 30,
        replies: 2,
    };
    same!(rt; served, Ok(both));
    let counts = encoder.counts();
    same!(rt; (counts.fresh, counts.repeats, counts.dropped), (2, repeats, 0));
    same!(rt; (texts_of(encoder.target(), 1), pi_of(encoder.target(), 1)), (Some(1), Some(0xfeff)));
}

/// Reads give one byte, and this one fails: so much was written before, and so many frames come again.
fn a_read_fails(rt: &impl Abort, alloc: Global, failing: u32, (written, repeats): (usize, u64)) {
    let mut encoder = store_encoder(rt, alloc, 1);
    let calls = [failing];
    let mut input = Meter::new(FaultyReader::new(&BOTH).giving(1).failing_at(&calls));
    let mut output = Meter::new(FaultyWriter::new());
    let served = serve(&mut encoder, &mut input, &mut output, 64);
    same!(rt; served, Err(ServeFault::ReadFailed));
    same!(rt; output.into_inner().taken().len(), written);
    serves_both(rt, &mut encoder, repeats);
}

#[test]
fn whichever_read_fails_each_frame_acts_once(rt: HostRuntime) {
    for failing in 1..=31 {
        let row = match failing {
            1..=15 => (0, 0),
            16..=30 => (11, 1),
            _ => (22, 2),
        };
        a_read_fails(&rt, rt.alloc(), failing, row);
    }
}

/// The writer takes so many bytes, one at a call, and then fails; so many messages were applied before.
fn writes_end(
    rt: &impl Abort,
    alloc: Global,
    (output, written): (FaultyWriter<'_>, u64),
    fresh: u64,
) {
    let mut encoder = store_encoder(rt, alloc, 1);
    let mut input = Meter::new(FaultyReader::new(&BOTH));
    let mut output = Meter::new(output.taking(1));
    let served = serve(&mut encoder, &mut input, &mut output, 64);
    same!(rt; served, Err(ServeFault::WriteFailed { written }));
    same!(rt; encoder.counts().fresh, fresh);
    serves_both(rt, &mut encoder, fresh);
}

#[test]
fn wherever_writes_end_each_frame_acts_once(rt: HostRuntime) {
    for written in 0..=21_u32 {
        let calls = [written + 1];
        let fresh = if written <= 10 { 1 } else { 2 };
        let failing = FaultyWriter::new().failing_at(&calls);
        writes_end(&rt, rt.alloc(), (failing, u64::from(written)), fresh);
        let empty = FaultyWriter::new().taking_none_at(&calls);
        writes_end(&rt, rt.alloc(), (empty, u64::from(written)), fresh);
    }
}
