//! The program where memory is wanting: each request is refused in turn, until a run has all that it asks for.
ghost use Rattle.uecp_jobs.specs.Jobs.{IsLocal};

use super::{Ends, REPLY, answer};
use crate::tests::asserting::holds;
use faulty_io::ScarceMemory;
use std::alloc::Global;
use std::process::Abort;
use std::test::Fail;
use uecp_jobs::Job;

/// How often memory is given back at most.
pub(crate) const TIMES: usize = 1 << 15;
/// All that is given back then.
pub(crate) const ROOM: usize = TIMES * 16;

/// The frame that sets PI C201.
const PIECE: &str = "FE 00 41 01 05 01 00 00 C2 01 67 A8 FF\n";

/// Adds the text "HI", twice under counter 01.
const TWICE: &str =
    "FE 00 41 01 07 0A 00 00 03 40 48 49 32 23 FF\nFE 00 41 01 07 0A 00 00 03 40 48 49 32 23 FF\n";

const STORED: &str =
    "reply FE0041000318000140BEFF new\nreply FE0041000318000140BEFF kept\ncurrent 1\nservice 1 01 0000 2020202020202020 tp 0 ta 0 ms 0 pty 00 texts 1\ntext 0 0 4849\n";

const SCRIPT: &str = "frame 0041 03\nrt 00 00 40 4849\nframe 0041 01\npi 00 00 1234\nraw 99\n";

const FRAMES: &str = "FE004103070A000003404849F444FF\nFE00410106010000123499FD02A8FF\n";

const EVENTS: &str =
    "submit 0A000003404849\nsubmit -\nframe 0 1 2\nframe 0\nreply 0\nreply 0\nframe 1\n";

const PLAYED: &str =
    "numbered 0\nnumbered 1\ndelivered 0 new 00\ndelivered 0 kept 00\nacknowledged 00\nstray\ndelivered 1 new 00\nsent 2 applied 2 acknowledged 1\n";
/// The same where there was memory for one of the messages, whichever it is.
const FIRST_ALONE: &str =
    "numbered 0\nrefused 5 OutOfMemory\ndelivered 0 new 00\ndelivered 0 kept 00\nacknowledged 00\nstray\nrefused 2 NotSent\nsent 1 applied 1 acknowledged 1\n";

const SECOND_ALONE: &str =
    "refused 5 OutOfMemory\nnumbered 0\ndelivered 0 new 00\ndelivered 0 kept 00\nacknowledged 00\nstray\nrefused 2 NotSent\nsent 1 applied 1 acknowledged 1\n";
/// The same where there was memory for neither.
const UNPLAYED: &str =
    "refused 5 OutOfMemory\nrefused 5 OutOfMemory\nrefused 2 NotSent\nrefused 2 NotSent\nrefused 2 NotSent\nrefused 2 NotSent\nrefused 2 NotSent\nsent 0 applied 0 acknowledged 0\n";

/// Which of these outputs a run wrote that had its memory, and said nothing; or none where it was refused memory, and
/// wrote its text and the beginning of an output.
pub(crate) fn wrote(
    rt: &impl Abort,
    ends: &Ends<'_>,
    status: u8,
    outputs: &[&str],
) -> Option<usize> {
    let written = ends.writer.taken();
    if status == 3 {
        holds!(rt; ends.errors.taken() == b"uecp: out of memory\n".as_slice());
        holds!(rt; 
            outputs
                .iter()
                .any(|output| output.as_bytes().starts_with(written))
        );
        return None;
    }
    holds!(rt; status == 0 && ends.errors.taken().is_empty());
    let place = outputs
        .iter()
        .position(|output| output.as_bytes() == written);
    holds!(rt; place.is_some());
    place
}

/// Which of these outputs one run of the job wrote.
fn runs(rt: &impl Abort, alloc: Global, job: &Job, input: &str, outputs: &[&str]) -> Option<usize>
    requires { IsLocal job.now }
{
    let mut ends = Ends::new(input.as_bytes());
    let status = ends.run(alloc, job);
    wrote(rt, &ends, status, outputs)
}

/// The job is run until it comes to the first output.
fn runs_in_the_end(
    rt: &impl Abort,
    alloc: Global,
    job: &Job,
    input: &str,
    outputs: &[&str],
) -> Result<(), Fail>
    requires { IsLocal job.now }
{
    let mut memory = ScarceMemory::take_all(alloc, ROOM)?;
    for refused in 0..TIMES {
        if runs(rt, alloc, job, input, outputs) == Some(0) {
            holds!(rt; refused > 0);
            return Ok(());
        }
        memory.give();
    }
    Err("always refused".into())
}

#[test]
fn an_answer(rt: HostRuntime) -> Result<(), Fail> {
    let job = answer(rt.alloc(), &[0x01])?;
    runs_in_the_end(&rt, rt.alloc(), &job, PIECE, &[REPLY])
}

#[test]
fn an_answer_with_its_store(rt: HostRuntime) -> Result<(), Fail> {
    let job = Job::Answer {
        site: 1,
        encoder: 1,
        sets: 1,
        services: Vec::from_slice(rt.alloc(), &[0x01])?,
        store: true,
    };
    runs_in_the_end(&rt, rt.alloc(), &job, TWICE, &[STORED])
}

#[test]
fn a_show(rt: HostRuntime) -> Result<(), Fail> {
    let shown = "frame 0041 01\npi 00 00 C201\n";
    runs_in_the_end(&rt, rt.alloc(), &Job::Show, PIECE, &[shown])
}

#[test]
fn a_script_of_frames(rt: HostRuntime) -> Result<(), Fail> {
    runs_in_the_end(&rt, rt.alloc(), &Job::Make, SCRIPT, &[FRAMES])
}

#[test]
fn a_script_of_events(rt: HostRuntime) -> Result<(), Fail> {
    let job = Job::Line {
        site: 1,
        encoder: 1,
        sets: 1,
        services: Vec::from_slice(rt.alloc(), &[0x01])?,
        store: false,
    };
    let outputs = [PLAYED, FIRST_ALONE, SECOND_ALONE, UNPLAYED];
    runs_in_the_end(&rt, rt.alloc(), &job, EVENTS, &outputs)
}
