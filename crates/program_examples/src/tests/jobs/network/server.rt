//! `server` over connections, some of which break or are silent, with one message on its way or several.
ghost use Rattle.uecp_jobs.specs.ServerRun.{IsServer};

use super::{
    APPLIED_BOTH, EMPTY_BOTH, Given, Prepared, REPLY_SIZE, have_got, patient_job, server_job,
};
use crate::tests::jobs::{Comes, Ends, came_to};
use faulty_io::{APPLIED_1, APPLIED_2, EMPTY_1, Taken};
use std::alloc::Global;
use std::process::Abort;
use std::test::Fail;
use uecp_jobs::Job;

/// No element, counter 01, three times.
const THRICE: [u8; 24] =
    *b"\xFE\x00\x41\x01\x00\x62\x93\xFF\xFE\x00\x41\x01\x00\x62\x93\xFF\xFE\x00\x41\x01\x00\x62\x93\xFF";

/// Runs `server` over these connections, a reply a read, with the defaults of its options but for site, reconnects and
/// window, and compares what it comes to and what each connection got that was opened.
fn serves(
    rt: &impl Abort,
    alloc: Global,
    given: &[Given<'_>],
    (site, reconnects, window): (u16, u32, u8),
    input: &str,
    comes: Comes<'_>,
    got: &[&[u8]],
) -> Result<(), Fail> {
    let job = server_job(alloc, site, reconnects, window)?;
    serves_so(rt, alloc, given, &job, input, comes, got);
    Ok(())
}

/// The same of a message, with so many reconnects, which silence takes too.
fn serves_past_silence(
    rt: &impl Abort,
    alloc: Global,
    given: &[Given<'_>],
    reconnects: u32,
    comes: Comes<'_>,
    got: &[&[u8]],
) -> Result<(), Fail> {
    let job = patient_job(alloc, 1, reconnects, 1)?;
    serves_so(rt, alloc, given, &job, "-\n", comes, got);
    Ok(())
}

/// The same of this job.
fn serves_so(
    rt: &impl Abort,
    alloc: Global,
    given: &[Given<'_>],
    job: &Job,
    input: &str,
    comes: Comes<'_>,
    got: &[&[u8]],
)
    requires { IsServer job.now }
{
    let mut outputs = [Taken::new(), Taken::new(), Taken::new(), Taken::new()];
    let mut prepared = Prepared::new(given, REPLY_SIZE, &mut outputs);
    let mut ends = Ends::new(input.as_bytes());
    let status = ends.serve(alloc, job, &mut prepared);
    let opened = prepared.opened();
    came_to(rt, &ends, status, comes);
    have_got(rt, &outputs, opened, got);
}

#[test]
fn a_message_of_server_over_connections(rt: HostRuntime) -> Result<(), Fail> {
    let alloc = rt.alloc();
    let good: Given = (&APPLIED_1, &[]);
    let closed: Given = (b"", &[]);
    let silent: Given = (&APPLIED_1, &[1, 2, 3]);
    let once = EMPTY_1.as_slice();
    let done: Comes = (0, "acknowledged 00 tries 1\n", "");
    let failed: Comes = (3, "outstanding\n", "uecp: connection failed\n");
    let spent: Comes = (3, "outstanding\n", "");
    serves(&rt, alloc, &[good], (1, 3, 1), "-\n", done, &[once])?;
    serves(
        &rt,
        alloc,
        &[closed, good],
        (1, 1, 1),
        "-\n",
        done,
        &[once, once],
    )?;
    serves(
        &rt,
        alloc,
        &[closed, good],
        (1, 0, 1),
        "-\n",
        failed,
        &[once],
    )?;
    serves(&rt, alloc, &[], (1, 3, 1), "-\n", failed, &[])?;
    serves(
        &rt,
        alloc,
        &[silent, good],
        (1, 3, 1),
        "-\n",
        spent,
        &[THRICE.as_slice()],
    )?;
    serves(
        &rt,
        alloc,
        &[closed, silent, good],
        (1, 3, 1),
        "-\n",
        spent,
        &[once, THRICE.as_slice()],
    )
}

#[test]
fn a_message_of_server_past_silent_connections(rt: HostRuntime) -> Result<(), Fail> {
    let alloc = rt.alloc();
    let good: Given = (&APPLIED_1, &[]);
    let closed: Given = (b"", &[]);
    let silent: Given = (&APPLIED_1, &[1, 2, 3]);
    let once = EMPTY_1.as_slice();
    let thrice = THRICE.as_slice();
    let done: Comes = (0, "acknowledged 00 tries 1\n", "");
    let failed: Comes = (3, "outstanding\n", "uecp: connection failed\n");
    let spent: Comes = (3, "outstanding\n", "");
    serves_past_silence(&rt, alloc, &[silent, good], 1, done, &[thrice, once])?;
    serves_past_silence(&rt, alloc, &[silent, closed], 1, failed, &[thrice, once])?;
    serves_past_silence(&rt, alloc, &[silent], 1, spent, &[thrice])?;
    serves_past_silence(&rt, alloc, &[silent, good], 0, spent, &[thrice])?;
    serves_past_silence(
        &rt,
        alloc,
        &[silent, silent, silent, silent],
        3,
        spent,
        &[thrice, thrice, thrice, thrice],
    )
}

#[test]
fn input_of_server_without_a_message_or_with_a_refused_line(rt: HostRuntime) -> Result<(), Fail> {
    let alloc = rt.alloc();
    let good: Given = (&APPLIED_1, &[]);
    let once = EMPTY_1.as_slice();
    let nothing: Comes = (0, "", "");
    let first: Comes = (1, "", "uecp: line 1: not hex\n");
    let second: Comes = (1, "acknowledged 00 tries 1\n", "uecp: line 2: not hex\n");
    let no_address: Comes = (2, "", "uecp: address: NotExact\n");
    serves(
        &rt,
        alloc,
        &[good],
        (1, 3, 1),
        "\n# nothing\n",
        nothing,
        &[],
    )?;
    serves(&rt, alloc, &[good], (1, 3, 1), "0\n-\n", first, &[])?;
    serves(&rt, alloc, &[good], (1, 3, 1), "-\n0\n", second, &[once])?;
    serves(&rt, alloc, &[good], (0, 3, 1), "-\n", no_address, &[])
}

#[test]
fn two_messages_of_server_on_their_way_at_once(rt: HostRuntime) -> Result<(), Fail> {
    let alloc = rt.alloc();
    let turned =
        b"\xFE\x00\x41\x00\x03\x18\x00\x02\x70\xDD\xFF\xFE\x00\x41\x00\x03\x18\x00\x01\x40\xBE\xFF".as_slice();
    let retried: Given = (turned, &[2]);
    let silent: Given = (turned, &[2, 3, 4]);
    let second: Given = (&APPLIED_2, &[]);
    let first: Given = (&APPLIED_1, &[]);
    let once = EMPTY_1.as_slice();
    let both = EMPTY_BOTH.as_slice();
    let and_again =
        b"\xFE\x00\x41\x01\x00\x62\x93\xFF\xFE\x00\x41\x02\x00\x37\xC0\xFF\xFE\x00\x41\x01\x00\x62\x93\xFF".as_slice();
    let and_twice =
        b"\xFE\x00\x41\x01\x00\x62\x93\xFF\xFE\x00\x41\x02\x00\x37\xC0\xFF\xFE\x00\x41\x01\x00\x62\x93\xFF\xFE\x00\x41\x01\x00\x62\x93\xFF".as_slice();
    let two: Comes = (0, "acknowledged 00 tries 2\nacknowledged 00 tries 2\n", "");
    let moved: Comes = (0, "acknowledged 00 tries 1\nacknowledged 00 tries 1\n", "");
    let spent: Comes = (3, "outstanding\n", "");
    let failed: Comes = (3, "outstanding\n", "uecp: connection failed\n");
    let input = "-\n-\n";
    serves(&rt, alloc, &[retried], (1, 3, 2), input, two, &[and_again])?;
    serves(
        &rt,
        alloc,
        &[second, first],
        (1, 1, 2),
        input,
        moved,
        &[both, once],
    )?;
    serves(&rt, alloc, &[silent], (1, 3, 2), input, spent, &[and_twice])?;
    serves(&rt, alloc, &[second], (1, 0, 2), input, failed, &[both])
}

#[test]
fn a_batch_of_server_that_ends_before_its_window(rt: HostRuntime) -> Result<(), Fail> {
    let alloc = rt.alloc();
    let both: Given = (&APPLIED_BOTH, &[]);
    let three: Given = (
        b"\xFE\x00\x41\x00\x03\x18\x00\x01\x40\xBE\xFF\xFE\x00\x41\x00\x03\x18\x00\x02\x70\xDD\xFF\xFE\x00\x41\x00\x03\x18\x00\x03\x60\xFC\xFF",
        &[],
    );
    let sent_both = EMPTY_BOTH.as_slice();
    let sent_three =
        b"\xFE\x00\x41\x01\x00\x62\x93\xFF\xFE\x00\x41\x02\x00\x37\xC0\xFF\xFE\x00\x41\x03\x07\x0A\x00\x00\x03\x40\x48\x49\xF4\x44\xFF".as_slice();
    let lines = "acknowledged 00 tries 1\nacknowledged 00 tries 1\n";
    let refused: Comes = (1, lines, "uecp: line 3: not hex\n");
    let done: Comes = (
        0,
        "acknowledged 00 tries 1\nacknowledged 00 tries 1\nacknowledged 00 tries 1\n",
        "",
    );
    serves(
        &rt,
        alloc,
        &[both],
        (1, 3, 2),
        "-\n-\n0\n",
        refused,
        &[sent_both],
    )?;
    serves(
        &rt,
        alloc,
        &[both],
        (1, 3, 8),
        "-\n-\n0\n-\n",
        refused,
        &[sent_both],
    )?;
    serves(
        &rt,
        alloc,
        &[three],
        (1, 3, 8),
        "-\n-\n0A000003404849\n",
        done,
        &[sent_three],
    )
}
