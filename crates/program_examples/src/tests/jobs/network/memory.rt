//! The two jobs with connections where memory is wanting, until a run has all that it asks for.
ghost use Rattle.uecp_jobs.specs.EncoderRun.{IsEncoder};
ghost use Rattle.uecp_jobs.specs.ServerRun.{IsServer};

use super::{APPLIED_BOTH, EMPTY_BOTH, Given, Prepared, REPLY_SIZE, encoder_job, server_job};
use crate::tests::asserting::holds;
use crate::tests::jobs::Ends;
use crate::tests::jobs::memory::{ROOM, TIMES, wrote};
use faulty_io::{ADD_1, APPLIED_1, EMPTY_1, ScarceMemory, Taken};
use std::alloc::Global;
use std::process::Abort;
use std::test::Fail;
use uecp_jobs::Job;

/// One run of `server` with this input, over a connection that gives this: whether it had memory, wrote this output and
/// sent this.
fn server_runs(
    rt: &impl Abort,
    alloc: Global,
    job: &Job,
    given: &[Given<'_>],
    comes: (&[u8], &str, &[u8]),
) -> bool
    requires { IsServer job.now }
{
    let (input, output, sent) = comes;
    let mut outputs = [Taken::new()];
    let mut prepared = Prepared::new(given, REPLY_SIZE, &mut outputs);
    let mut ends = Ends::new(input);
    let status = ends.serve(alloc, job, &mut prepared);
    let ended = wrote(rt, &ends, status, &[output]).is_some();
    holds!(rt; !ended || outputs[0].as_slice() == sent);
    ended
}

/// Runs it until memory suffices.
fn server_in_the_end(
    rt: &impl Abort,
    alloc: Global,
    job: &Job,
    given: &[Given<'_>],
    comes: (&[u8], &str, &[u8]),
) -> Result<(), Fail>
    requires { IsServer job.now }
{
    let mut memory = ScarceMemory::take_all(alloc, ROOM)?;
    for refused in 0..TIMES {
        if server_runs(rt, alloc, job, given, comes) {
            holds!(rt; refused > 0);
            return Ok(());
        }
        memory.give();
    }
    Err("always refused".into())
}

#[test]
fn a_server_that_is_refused_memory(rt: HostRuntime) -> Result<(), Fail> {
    let job = server_job(rt.alloc(), 1, 3, 1)?;
    let good: Given = (&APPLIED_1, &[]);
    let comes = (
        b"-\n".as_slice(),
        "acknowledged 00 tries 1\n",
        EMPTY_1.as_slice(),
    );
    server_in_the_end(&rt, rt.alloc(), &job, &[good], comes)
}

#[test]
fn a_server_with_a_batch_of_two_that_is_refused_memory(rt: HostRuntime) -> Result<(), Fail> {
    let job = server_job(rt.alloc(), 1, 3, 2)?;
    let both: Given = (&APPLIED_BOTH, &[]);
    let output = "acknowledged 00 tries 1\nacknowledged 00 tries 1\n";
    let comes = (b"-\n-\n".as_slice(), output, EMPTY_BOTH.as_slice());
    server_in_the_end(&rt, rt.alloc(), &job, &[both], comes)
}

/// One run of `encoder` over a connection that breaks and one that ends: whether it had memory, wrote its lines and
/// sent its reply over each.
fn encoder_runs(rt: &impl Abort, alloc: Global, job: &Job) -> bool
    requires { IsEncoder job.now }
{
    let two: [Given; 2] = [(&ADD_1, &[2]), (&ADD_1, &[])];
    let mut outputs = [Taken::new(), Taken::new()];
    let mut prepared = Prepared::new(&two, usize::MAX, &mut outputs);
    let mut ends = Ends::new(b"");
    let status = ends.encode(alloc, job, &mut prepared);
    let lines = "connection 1 read failed\nconnection 2 replies 1\n";
    let ended = wrote(rt, &ends, status, &[lines]).is_some();
    for output in &outputs {
        holds!(rt; !ended || output.as_slice() == APPLIED_1.as_slice());
    }
    ended
}

/// Runs it until memory suffices.
fn encoder_in_the_end(rt: &impl Abort, alloc: Global, job: &Job) -> Result<(), Fail>
    requires { IsEncoder job.now }
{
    let mut memory = ScarceMemory::take_all(alloc, ROOM)?;
    for refused in 0..TIMES {
        if encoder_runs(rt, alloc, job) {
            holds!(rt; refused > 0);
            return Ok(());
        }
        memory.give();
    }
    Err("always refused".into())
}

#[test]
fn an_encoder_that_is_refused_memory(rt: HostRuntime) -> Result<(), Fail> {
    let job = encoder_job(rt.alloc(), &[0x01], 2)?;
    encoder_in_the_end(&rt, rt.alloc(), &job)
}
