//! As much input as there may be, none at all, and lines that are refused.
ghost use Rattle.std.specs.Prelude.{IfOk};
ghost use Rattle.uecp_jobs.specs.Jobs.{IsLocal};

use super::{Ends, answer, comes_to};
use std::alloc::Global;
use std::process::Abort;
use std::test::Fail;
use uecp_jobs::Job;

/// The job writes nothing of this input, and comes to this status and this text of errors.
fn writes_nothing(rt: &impl Abort, alloc: Global, job: &Job, input: &[u8], comes: (u8, &str))
    requires { IsLocal job.now }
{
    let (status, said) = comes;
    comes_to(rt, alloc, job, &mut Ends::new(input), (status, "", said));
}

/// A line to the encoder of site 1, encoder 1, with one data set and the service 01.
fn line(alloc: Global) -> Result<Job, Fail>
    ensures { IfOk result IsLocal }
{
    Ok(Job::Line {
        site: 1,
        encoder: 1,
        sets: 1,
        services: Vec::from_slice(alloc, &[0x01])?,
        store: false,
    })
}

#[test]
fn an_empty_input_ends_with_0(rt: HostRuntime) -> Result<(), Fail> {
    let alloc = rt.alloc();
    let job = answer(alloc, &[0x01])?;
    writes_nothing(&rt, alloc, &job, b"", (0, ""));
    writes_nothing(&rt, alloc, &Job::Show, b"", (0, ""));
    writes_nothing(&rt, alloc, &Job::Make, b"", (0, ""));
    let totals = (0, "sent 0 applied 0 acknowledged 0\n", "");
    comes_to(&rt, alloc, &line(alloc)?, &mut Ends::new(b""), totals);
    Ok(())
}

#[test]
fn as_long_a_submission_as_there_may_be(rt: HostRuntime) -> Result<(), Fail> {
    let alloc = rt.alloc();
    let job = line(alloc)?;
    let mut script = Vec::from_slice(alloc, b"submit ")?;
    script.resize(7 + 510, b'0')?;
    let numbered = "numbered 0\nsent 1 applied 0 acknowledged 0\n";
    let mut ends = Ends::new(script.as_slice());
    comes_to(&rt, alloc, &job, &mut ends, (0, numbered, ""));
    script.extend_from_slice(b"00")?;
    let too_long = (1, "uecp: line 1: message too long\n");
    writes_nothing(&rt, alloc, &job, script.as_slice(), too_long);
    Ok(())
}

#[test]
fn one_line_feed_more_than_there_may_be(rt: HostRuntime) -> Result<(), Fail> {
    let alloc = rt.alloc();
    let job = answer(alloc, &[0x01])?;
    let mut input = Vec::new(alloc);
    input.resize(1_048_576, b'\n')?;
    writes_nothing(&rt, alloc, &job, input.as_slice(), (0, ""));
    input.push(b'\n')?;
    let too_long = (3, "uecp: input too long\n");
    writes_nothing(&rt, alloc, &job, input.as_slice(), too_long);
    Ok(())
}

#[test]
fn lines_that_are_refused(rt: HostRuntime) -> Result<(), Fail> {
    let alloc = rt.alloc();
    let mut script = Vec::from_slice(alloc, b"frame 0041 01\nraw ")?;
    script.resize(18 + 510, b'0')?;
    script.extend_from_slice(b"\nraw 00\n")?;
    let too_long = (1, "uecp: line 3: message too long\n");
    writes_nothing(&rt, alloc, &Job::Make, script.as_slice(), too_long);
    let unknown = (1, "uecp: line 1: not a command\n");
    let job = line(alloc)?;
    let mistyped: [&[u8]; 4] = [
        b"frame x\n",
        b"frmae 0 1 2\n",
        b"submit - -\n",
        b"line-lost both\n",
    ];
    for script in mistyped {
        writes_nothing(&rt, alloc, &job, script, unknown);
    }
    Ok(())
}
