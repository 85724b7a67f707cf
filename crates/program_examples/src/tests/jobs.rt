//! The program over readers, writers and connections of the tests' own: what all of these tests share.
ghost use Rattle.std.specs.Prelude.{IfOk};
ghost use Rattle.uecp_jobs.specs.EncoderRun.{IsEncoder};
ghost use Rattle.uecp_jobs.specs.Jobs.{IsLocal};
ghost use Rattle.uecp_jobs.specs.ServerRun.{IsServer};

mod failing;
mod faults;
mod flushing;
mod limits;
mod memory;
mod network;
mod order;

use crate::tests::asserting::same;
use crate::tests::jobs::network::Prepared;
use faulty_io::{FaultyReader, FaultyWriter};
use std::alloc::Global;
use std::process::Abort;
use std::test::Fail;
use uecp_jobs::{Job, run_encoder, run_job, run_server};

/// The frame that sets PI C201, and a line that is not hex.
const PIECES: &str = "FE 00 41 01 05 01 00 00 C2 01 67 A8 FF\nFE 0\n";
/// What an encoder answers to the frame.
const REPLY: &str = "reply FE0041000318000140BEFF new\n";
/// What is said of the line.
const NOT_HEX: &str = "uecp: line 2: not hex\n";

/// What a run comes to: its status, its output and its text of errors.
type Comes<'a> = (u8, &'a str, &'a str);

/// What a run reads from, and what it writes its output and its text of errors to.
#[derive(Drop)]
struct Ends<'a> {
    reader: FaultyReader<'a>,
    writer: FaultyWriter<'a>,
    errors: FaultyWriter<'a>,
}

impl<'a> Ends<'a> {
    /// Ends that give this input, and never fail.
    fn new(input: &'a [u8]) -> Ends<'a> {
        Ends {
            reader: FaultyReader::new(input),
            writer: FaultyWriter::new(),
            errors: FaultyWriter::new(),
        }
    }

    /// Does a job with no connections, and gives its status.
    fn run(&mut self, alloc: Global, job: &Job) -> u8
        requires { IsLocal job.now }
    {
        run_job(
            alloc,
            job,
            &mut self.reader,
            &mut self.writer,
            &mut self.errors,
        )
    }

    /// Is an encoder over these connections, and gives its status.
    fn encode(&mut self, alloc: Global, job: &Job, connections: &mut Prepared<'_>) -> u8
        requires { IsEncoder job.now }
    {
        run_encoder(alloc, job, &mut self.writer, &mut self.errors, connections)
    }

    /// Is a server over these connections, and gives its status.
    fn serve(&mut self, alloc: Global, job: &Job, connections: &mut Prepared<'_>) -> u8
        requires { IsServer job.now }
    {
        run_server(
            alloc,
            job,
            &mut self.reader,
            &mut self.writer,
            &mut self.errors,
            connections,
        )
    }
}

/// The run over these ends ended with this status, and came to this.
fn came_to(rt: &impl Abort, ends: &Ends<'_>, status: u8, comes: Comes<'_>) {
    let (wanted, written, said) = comes;
    same!(rt; status, wanted);
    same!(rt; ends.writer.taken(), written.as_bytes());
    same!(rt; ends.errors.taken(), said.as_bytes());
}

/// The job comes to this over these ends.
fn comes_to(rt: &impl Abort, alloc: Global, job: &Job, ends: &mut Ends<'_>, comes: Comes<'_>)
    requires { IsLocal job.now }
{
    let status = ends.run(alloc, job);
    came_to(rt, ends, status, comes);
}

/// An encoder of site 1, encoder 1, with one data set and these services.
fn answer(alloc: Global, services: &[u8]) -> Result<Job, Fail>
    ensures { IfOk result IsLocal }
{
    Ok(Job::Answer {
        site: 1,
        encoder: 1,
        sets: 1,
        services: Vec::from_slice(alloc, services)?,
        store: false,
    })
}
