//! When the output is flushed: at the end of a job, and by the jobs with connections after each line.
use super::network::{APPLIED_BOTH, Given, Prepared, REPLY_SIZE, encoder_job, server_job};
use super::{Comes, Ends, NOT_HEX, PIECES, REPLY, answer, came_to, comes_to};
use crate::tests::asserting::same;
use faulty_io::{FaultyWriter, Taken};
use std::alloc::Global;
use std::process::Abort;
use std::test::Fail;

/// What a run says whose output fails.
const FAILED: &str = "uecp: writing failed\n";

/// All of the output was flushed, by so many flushes.
fn is_flushed(rt: &impl Abort, writer: &FaultyWriter<'_>, flushes: u32) {
    let length = writer.taken().len();
    same!(rt; (writer.flushes(), writer.flushed()), (flushes, length));
}

#[test]
fn a_job_is_flushed_at_its_end(rt: HostRuntime) -> Result<(), Fail> {
    let job = answer(rt.alloc(), &[0x01])?;
    let mut ends = Ends {
        writer: FaultyWriter::new().taking(7),
        ..Ends::new(PIECES.as_bytes())
    };
    comes_to(&rt, rt.alloc(), &job, &mut ends, (1, REPLY, NOT_HEX));
    is_flushed(&rt, &ends.writer, 1);
    Ok(())
}

/// `encoder` with two connections that give nothing flushes its output, which goes to this writer, after each line. It
/// comes to this, with so many connections.
fn encoder_flushes(
    rt: &impl Abort,
    alloc: Global,
    writer: FaultyWriter<'_>,
    connections: u32,
    comes: Comes<'_>,
) -> Result<(), Fail> {
    let job = encoder_job(alloc, &[0x01], 2)?;
    let given: [Given; 2] = [(b"", &[]), (b"", &[])];
    let mut outputs = [Taken::new(), Taken::new()];
    let mut prepared = Prepared::new(&given, REPLY_SIZE, &mut outputs);
    let mut ends = Ends {
        writer,
        ..Ends::new(b"")
    };
    let status = ends.encode(alloc, &job, &mut prepared);
    same!(rt; prepared.opened(), connections as usize);
    came_to(rt, &ends, status, comes);
    is_flushed(rt, &ends.writer, connections);
    Ok(())
}

#[test]
fn each_line_of_an_encoder_is_flushed(rt: HostRuntime) -> Result<(), Fail> {
    let both = (0, "connection 1 replies 0\nconnection 2 replies 0\n", "");
    encoder_flushes(&rt, rt.alloc(), FaultyWriter::new(), 2, both)?;
    let first = (3, "connection 1 replies 0\n", FAILED);
    let writer = FaultyWriter::new().failing_flushed();
    encoder_flushes(&rt, rt.alloc(), writer, 1, first)
}

/// `server` with two messages and a connection that gives this flushes its output, which goes to this writer, after
/// each line. It comes to this, with so many flushes.
fn server_flushes(
    rt: &impl Abort,
    alloc: Global,
    given: &[Given<'_>],
    writer: FaultyWriter<'_>,
    flushes: u32,
    comes: Comes<'_>,
) -> Result<(), Fail> {
    let job = server_job(alloc, 1, 3, 1)?;
    let mut outputs = [Taken::new()];
    let mut prepared = Prepared::new(given, REPLY_SIZE, &mut outputs);
    let mut ends = Ends {
        writer,
        ..Ends::new(b"-\n-\n")
    };
    let status = ends.serve(alloc, &job, &mut prepared);
    same!(rt; prepared.opened(), 1);
    came_to(rt, &ends, status, comes);
    is_flushed(rt, &ends.writer, flushes);
    Ok(())
}

#[test]
fn each_line_of_a_server_is_flushed(rt: HostRuntime) -> Result<(), Fail> {
    let alloc = rt.alloc();
    let replies: Given = (&APPLIED_BOTH, &[]);
    let both = (0, "acknowledged 00 tries 1\nacknowledged 00 tries 1\n", "");
    server_flushes(&rt, alloc, &[replies], FaultyWriter::new(), 2, both)?;
    let first = (3, "acknowledged 00 tries 1\n", FAILED);
    let writer = FaultyWriter::new().failing_flushed();
    server_flushes(&rt, alloc, &[replies], writer, 1, first)
}
