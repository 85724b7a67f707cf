//! `encoder` over connections, some of which break.
use super::{Given, Prepared, encoder_job, have_got};
use crate::tests::jobs::{Comes, Ends, came_to};
use faulty_io::{ADD_1, APPLIED_1, FaultyWriter, Taken};
use std::alloc::Global;
use std::process::Abort;
use std::test::Fail;

/// Runs `encoder` with these services and so many connections over these, with these writes of output failing, and
/// compares what it comes to and what each connection got that was opened.
fn encodes(
    rt: &impl Abort,
    alloc: Global,
    given: &[Given<'_>],
    (services, connections): (&[u8], u32),
    failing: &[u32],
    comes: Comes<'_>,
    got: &[&[u8]],
) -> Result<(), Fail> {
    let job = encoder_job(alloc, services, connections)?;
    let mut outputs = [Taken::new(), Taken::new()];
    let mut prepared = Prepared::new(given, usize::MAX, &mut outputs);
    let mut ends = Ends {
        writer: FaultyWriter::new().failing_at(failing),
        ..Ends::new(b"")
    };
    let status = ends.encode(alloc, &job, &mut prepared);
    let opened = prepared.opened();
    came_to(rt, &ends, status, comes);
    have_got(rt, &outputs, opened, got);
    Ok(())
}

#[test]
fn connections_of_encoder(rt: HostRuntime) -> Result<(), Fail> {
    let alloc = rt.alloc();
    let failing: Given = (&ADD_1, &[2]);
    let good: Given = (&ADD_1, &[]);
    let reply = APPLIED_1.as_slice();
    let lines = "connection 1 read failed\nconnection 2 replies 1\n";
    let one = [0x01].as_slice();
    let twice = [0x01, 0x01].as_slice();
    let done: Comes = (0, lines, "");
    let refused: Comes = (3, lines, "uecp: listening failed\n");
    let unwritten: Comes = (3, "", "uecp: writing failed\n");
    let mistaken: Comes = (2, "", "uecp: services: ServiceTwice\n");
    let two = [failing, good];
    let no_line: Comes = (3, "", "uecp: listening failed\n");
    encodes(&rt, alloc, &two, (one, 2), &[], done, &[reply, reply])?;
    encodes(&rt, alloc, &[], (one, 2), &[], no_line, &[])?;
    encodes(&rt, alloc, &two, (one, 3), &[], refused, &[reply, reply])?;
    encodes(&rt, alloc, &two, (one, 2), &[1], unwritten, &[reply])?;
    encodes(&rt, alloc, &two, (twice, 2), &[], mistaken, &[])
}
