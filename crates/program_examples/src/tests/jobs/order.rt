//! When a run of `server` writes: its frames and its lines tell the time by one clock.
use super::network::{APPLIED_BOTH, REPLY_SIZE, server_job};
use crate::tests::asserting::same;
use arrayvec::ArrayVec;
use faulty_io::{FaultyReader, FaultyWriter};
use std::cell::Cell;
use std::io;
use std::io::Write;
use std::test::Fail;
use uecp_jobs::run_server;
use uecp_net::Connect;

/// Set beside the time of a call of `flush`.
const FLUSH: u8 = 0x80;

/// The times of calls, one after another.
type Times = ArrayVec<u8, 16>;

/// Writes down the time of each call; each takes one step of the clock.
#[derive(Drop)]
struct Timed<'a> {
    clock: &'a Cell<u8>,
    times: &'a mut Times,
}

impl Timed<'_> {
    /// Writes down the time, with this mark, and takes a step.
    fn step(&mut self, mark: u8) -> io::Result<()> {
        let now = self.clock.get();
        self.clock.set(now.saturating_add(1));
        match self.times.try_push(now | mark) {
            Ok(()) => Ok(()),
            Err(_) => Err(io::ErrorKind::Other.into()),
        }
    }
}

impl Write for Timed<'_> {
    fn write(&mut self, buf: &[u8]) -> io::Result<usize> {
        self.step(0)?;
        Ok(buf.len())
    }

    fn flush(&mut self) -> io::Result<()> {
        self.step(FLUSH)
    }
}

/// One connection, whose frames tell the time.
#[derive(Drop)]
struct TimedConnection<'a> {
    input: &'a [u8],
    output: Option<Timed<'a>>,
}

impl<'a> Connect for TimedConnection<'a> {
    type Input = FaultyReader<'a>;

    type Output = Timed<'a>;

    fn open(&mut self) -> Option<(FaultyReader<'a>, Timed<'a>)> {
        let output = self.output.take()?;
        let input = FaultyReader::new(self.input).giving(REPLY_SIZE);
        Some((input, output))
    }
}

#[test]
fn each_line_is_written_out_before_the_next_message_is_sent(rt: HostRuntime) -> Result<(), Fail> {
    let alloc = rt.alloc();
    let job = server_job(alloc, 1, 3, 1)?;
    let clock = Cell::new(0u8);
    let (mut frames, mut lines) = (Times::new(), Times::new());
    let output = Timed {
        clock: &clock,
        times: &mut frames,
    };
    let mut connection = TimedConnection {
        input: &APPLIED_BOTH,
        output: Some(output),
    };
    let mut writer = Timed {
        clock: &clock,
        times: &mut lines,
    };
    let mut reader = b"-\n-\n".as_slice();
    let mut errors = FaultyWriter::new();
    let status = run_server(
        alloc,
        &job,
        &mut reader,
        &mut writer,
        &mut errors,
        &mut connection,
    );
    drop(connection);
    drop(writer);
    same!(rt; status, 0);
    same!(rt; frames.as_slice(), [0u8, 3].as_slice());
    same!(rt; lines.as_slice(), [1, FLUSH | 2, 4, FLUSH | 5].as_slice());
    Ok(())
}
