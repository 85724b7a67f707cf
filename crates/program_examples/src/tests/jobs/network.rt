//! The two jobs with connections, over connections that were prepared, some of which break.
ghost use Rattle.std.specs.Prelude.{IfOk};
ghost use Rattle.uecp_jobs.specs.EncoderRun.{IsEncoder};
ghost use Rattle.uecp_jobs.specs.ServerRun.{IsServer};

mod encoder;
mod memory;
mod server;

use crate::tests::asserting::same;
use commands::ServerOptions;
use faulty_io::{APPLIED_1, FaultyReader, Taken};
use std::alloc::Global;
use std::io;
use std::io::{ErrorKind, Write};
use std::process::Abort;
use std::slice::{Iter, IterMut};
use std::test::Fail;
use uecp_jobs::Job;
use uecp_net::Connect;

/// Code 00 to counter 01, and to counter 02.
pub(crate) const APPLIED_BOTH: [u8; 22] =
    *b"\xFE\x00\x41\x00\x03\x18\x00\x01\x40\xBE\xFF\xFE\x00\x41\x00\x03\x18\x00\x02\x70\xDD\xFF";
/// No element, counter 01, and no element, counter 02.
const EMPTY_BOTH: [u8; 16] = *b"\xFE\x00\x41\x01\x00\x62\x93\xFF\xFE\x00\x41\x02\x00\x37\xC0\xFF";
/// How many bytes a reply has here.
pub(crate) const REPLY_SIZE: usize = APPLIED_1.len();

/// What a connection gives: its bytes, and the reads that fail.
pub(crate) type Given<'a> = (&'a [u8], &'a [u32]);

/// The writing end of a connection, whose bytes stay with the test.
#[derive(Drop)]
pub(crate) struct Kept<'a> {
    taken: &'a mut Taken,
}

impl Write for Kept<'_> {
    fn write(&mut self, buf: &[u8]) -> io::Result<usize> {
        match self.taken.try_extend_from_slice(buf) {
            Ok(()) => Ok(buf.len()),
            Err(_) => Err(ErrorKind::Other.into()),
        }
    }

    fn flush(&mut self) -> io::Result<()> {
        Ok(())
    }
}

/// One connection after another, as prepared, which give at most so many bytes a read.
#[derive(Drop)]
pub(crate) struct Prepared<'a> {
    inputs: Iter<'a, Given<'a>>,
    at_most: usize,
    outputs: IterMut<'a, Taken>,
    opened: usize,
}

impl<'a> Prepared<'a> {
    /// Connections that give this, and take what is written.
    pub(crate) fn new(
        given: &'a [Given<'a>],
        at_most: usize,
        outputs: &'a mut [Taken],
    ) -> Prepared<'a> {
        Prepared {
            inputs: given.iter(),
            at_most,
            outputs: outputs.iter_mut(),
            opened: 0,
        }
    }

    /// How many of them were opened.
    pub(crate) fn opened(&self) -> usize {
        self.opened
    }
}

impl<'a> Connect for Prepared<'a> {
    type Input = FaultyReader<'a>;

    type Output = Kept<'a>;

    fn open(&mut self) -> Option<(FaultyReader<'a>, Kept<'a>)> {
        let (bytes, failing) = *self.inputs.next()?;
        let taken = self.outputs.next()?;
        self.opened = self.opened.saturating_add(1);
        let input = FaultyReader::new(bytes)
            .giving(self.at_most)
            .failing_at(failing);
        Some((input, Kept { taken }))
    }
}

/// `server` with the defaults of its options but for site, reconnects and window.
pub(crate) fn server_job(alloc: Global, site: u16, reconnects: u32, window: u8) -> Result<Job, Fail>
    ensures { IfOk result IsServer }
{
    Ok(Job::Server {
        site,
        encoder: 1,
        host: String::from_str(alloc, "127.0.0.1")?,
        port: 4000,
        tries: 3,
        timeout: 1000,
        turns: 16,
        reconnects,
        window,
    })
}

/// The same, going on over silence.
pub(crate) fn patient_job(
    alloc: Global,
    site: u16,
    reconnects: u32,
    window: u8,
) -> Result<Job, Fail>
    ensures { IfOk result IsServer }
{
    Ok(Job::ServerWith(ServerOptions {
        site,
        encoder: 1,
        host: String::from_str(alloc, "127.0.0.1")?,
        port: 4000,
        tries: 3,
        timeout: 1000,
        turns: 16,
        reconnects,
        window,
        join: false,
        reconnect_silent: true,
        verbose: false,
        state: None,
    }))
}

/// `encoder` with these services and so many connections.
pub(crate) fn encoder_job(alloc: Global, services: &[u8], connections: u32) -> Result<Job, Fail>
    ensures { IfOk result IsEncoder }
{
    Ok(Job::Encoder {
        site: 1,
        encoder: 1,
        sets: 1,
        services: Vec::from_slice(alloc, services)?,
        port: 4000,
        connections,
        turns: 100_000,
    })
}

/// Each connection that was opened got this.
fn have_got(rt: &impl Abort, outputs: &[Taken], opened: usize, got: &[&[u8]]) {
    same!(rt; opened, got.len());
    for (output, bytes) in outputs.iter().zip(got) {
        same!(rt; output.as_slice(), *bytes);
    }
}
