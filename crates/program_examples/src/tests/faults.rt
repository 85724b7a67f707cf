//! Connections with faults over others whose bytes are known, and a clock that goes on by itself.
mod fates;
mod rules;

use crate::tests::asserting::{holds, same};
use bad_line::{
    Arrivals, Effect, Effects, Faulty, Rule, RulesFault, Span, Way, read_rules, write_effect,
};
use faulty_io::{FaultyReader, FaultyWriter};
use std::alloc::AllocError;
use std::cell::{Cell, RefCell};
use std::io;
use std::io::{Read, Write};
use std::process::Abort;
use std::time::{Clock, Duration};
use uecp_net::Connections;

/// Tells what is told into a writer.
#[derive(Drop)]
struct Lines<'a> {
    lines: RefCell<FaultyWriter<'a>>,
}

impl Effects for Lines<'_> {
    fn tell(&self, effect: Effect) {
        if let Ok(mut lines) = self.lines.try_borrow_mut() {
            let _ = write_effect(effect, &mut *lines);
        }
    }
}

/// A clock that goes on a second each time it is asked, and as long as it sleeps, and notes how many milliseconds it
/// slept.
#[derive(Drop)]
struct Ticking {
    seconds: Cell<u64>,
    slept: Cell<u64>,
}

impl Clock for Ticking {
    fn monotonic(&self) -> io::Result<Duration> {
        let now = self.seconds.get();
        self.seconds.set(now.saturating_add(1));
        Ok(Duration::from_secs(now))
    }

    fn since_1970(&self) -> io::Result<Duration> {
        Ok(Duration::from_secs(0))
    }

    fn sleep(&self, duration: Duration) {
        let milliseconds = duration.as_secs().saturating_mul(1000);
        let more = milliseconds.saturating_add(u64::from(duration.subsec_millis()));
        self.slept.set(self.slept.get().saturating_add(more));
        let now = self.seconds.get();
        self.seconds.set(now.saturating_add(duration.as_secs()));
    }
}

/// The writing end of a connection on which something has always come.
#[derive(Drop)]
struct Ready<'a> {
    writer: FaultyWriter<'a>,
}

impl Arrivals for Ready<'_> {
    fn another(&self) -> Option<Self> {
        Some(Ready {
            writer: FaultyWriter::new(),
        })
    }

    fn comes_within(&self, _limit: Duration) -> bool {
        true
    }
}

impl Write for Ready<'_> {
    fn write(&mut self, buf: &[u8]) -> io::Result<usize> {
        self.writer.write(buf)
    }

    fn flush(&mut self) -> io::Result<()> {
        self.writer.flush()
    }
}

/// Connections whose inputs are known, one after another.
#[derive(Drop)]
struct Prepared<'a> {
    inputs: &'a [&'a [u8]],
    /// How many were opened.
    opened: usize,
    /// What was written to those that were closed, one behind the other.
    output: FaultyWriter<'a>,
    /// The writes of each that fail, counted from 1.
    failing: &'a [u32],
}

impl<'a> Connections for Prepared<'a> {
    type Input = FaultyReader<'a>;

    type Output = Ready<'a>;

    ghost opens = { λ _ _ _. Unit {0} };

    ghost closes = { λ _ _ _ _. Unit {0} };

    fn open(&mut self) -> Option<(FaultyReader<'a>, Ready<'a>)> {
        let input = self.inputs.get(self.opened)?;
        self.opened = self.opened.saturating_add(1);
        let reader = FaultyReader::new(input).giving(3);
        let writer = FaultyWriter::new().failing_at(self.failing);
        Some((reader, Ready { writer }))
    }

    fn close(&mut self, _input: FaultyReader<'a>, output: Ready<'a>) {
        let _ = self.output.write(output.writer.taken());
    }
}

fn known<'a>(inputs: &'a [&'a [u8]], failing: &'a [u32]) -> Prepared<'a> {
    Prepared {
        inputs,
        opened: 0,
        output: FaultyWriter::new(),
        failing,
    }
}

fn told_none<'a>() -> Lines<'a> {
    Lines {
        lines: RefCell::new(FaultyWriter::new()),
    }
}

fn at_start() -> Ticking {
    Ticking {
        seconds: Cell::new(0),
        slept: Cell::new(0),
    }
}

/// What is read of a connection up to its end, behind what is read already.
fn read_all<R: Read>(reader: &mut R, all: &mut FaultyWriter<'_>) {
    let mut buffer = [0u8; 5];
    for _read in 0..100u8 {
        match reader.read(&mut buffer) {
            Ok(0) | Err(_) => return,
            Ok(count) => {
                let _ = all.write(&buffer[..count]);
            }
        }
    }
}

/// Writes all of the bytes, by as many writes as it takes, going on where one fails, as far as some are taken.
fn write_all<W: Write>(writer: &mut W, bytes: &[u8]) {
    let mut at = 0;
    for _write in 0..100u8 {
        if at >= bytes.len() {
            return;
        }
        if let Ok(count) = writer.write(&bytes[at..]) {
            at = at.saturating_add(count).min(bytes.len());
        }
    }
}

/// What was told is this.
fn told(rt: &impl Abort, lines: &Lines<'_>, wanted: &[u8]) {
    match lines.lines.try_borrow() {
        Ok(lines) => same!(*rt; lines.taken(), wanted),
        Err(_) => holds!(*rt; false),
    }
}

/// Four frames of one byte with bytes between them, and the beginning of a fifth.
const FRAMES: &[u8] = b"a\xFE1\xFFb\xFE2\xFF\xFE3\xFF\xFEc\xFE4\xFF\xFE5";
/// Two more.
const MORE: &[u8] = b"\xFE5\xFF\xFE6\xFF";

const fn one(number: u32) -> Span {
    Span {
        first: number,
        last: number,
    }
}

#[test]
fn frames_are_lost_doubled_and_damaged(rt: HostRuntime) -> Result<(), AllocError> {
    let (lines, time, inputs) = (told_none(), at_start(), [FRAMES]);
    let rules = [
        Rule::Lose(Way::Frame, one(1)),
        Rule::Repeat(Way::Frame, one(2)),
        Rule::Damage(Way::Frame, 4, 2),
        Rule::Lose(Way::Reply, one(3)),
        Rule::Pace(200, 1),
    ];
    let connect = known(&inputs, &[]);
    let mut faulty = Faulty::new(rt.alloc(), connect, &rules, 1, &time, &lines)?;
    let mut all = FaultyWriter::new();
    if let Some((mut input, output)) = faulty.open() {
        read_all(&mut input, &mut all);
        faulty.close(input, output);
    }
    same!(rt; all.taken(), b"ab\xFE2\xFF\xFE2\xFF\xFE3\xFF\xFEc\xFE\x14\xFF".as_slice());
    told(
        &rt,
        &lines,
        b"frame 1 lost\nframe 2 twice\nframe 4 damaged at byte 2\n",
    );
    holds!(rt; time.slept.get() > 0 && time.slept.get() % 200 == 0);
    Ok(())
}

/// Whether the next read gives these bytes.
fn gives<R: Read>(input: &mut R, wanted: &[u8]) -> bool {
    let mut buffer = [0u8; 64];
    match input.read(&mut buffer) {
        Ok(count) => &buffer[..count] == wanted,
        Err(_) => false,
    }
}

#[test]
fn what_is_delayed_is_held_side_by_side(rt: HostRuntime) -> Result<(), AllocError> {
    // the clock goes on a second each time it is asked, and the delay is an hour: all is read before any of it is due
    let (lines, time, inputs) = (told_none(), at_start(), [FRAMES]);
    let rules = [Rule::Delay(3_600_000, 2), Rule::Lose(Way::Frame, one(3))];
    let connect = known(&inputs, &[]);
    let mut faulty = Faulty::new(rt.alloc(), connect, &rules, 1, &time, &lines)?;
    if let Some((mut input, output)) = faulty.open() {
        holds!(rt; gives(&mut input, b"a"));
        holds!(rt; gives(&mut input, b"\xFE1\xFFb"));
        told(&rt, &lines, b"");
        holds!(rt; time.slept.get() == 0);
        let mut all = FaultyWriter::new();
        read_all(&mut input, &mut all);
        same!(rt; all.taken(), b"\xFE2\xFF\xFEc\xFE4\xFF".as_slice());
        // it slept once for the two delays, and not once for each segment
        holds!(rt; time.slept.get() < 7_200_000);
        faulty.close(input, output);
    }
    told(&rt, &lines, b"frame 3 lost\n");
    Ok(())
}

#[test]
fn counts_go_on_behind_a_break(rt: HostRuntime) -> Result<(), AllocError> {
    let (lines, time, inputs) = (told_none(), at_start(), [FRAMES, MORE]);
    let rules = [
        Rule::BreakAfter(Way::Frame, 2),
        Rule::Lose(Way::Frame, one(4)),
    ];
    let connect = known(&inputs, &[]);
    let mut faulty = Faulty::new(rt.alloc(), connect, &rules, 1, &time, &lines)?;
    let mut all = FaultyWriter::new();
    for _connection in 0..3u8 {
        if let Some((mut input, output)) = faulty.open() {
            read_all(&mut input, &mut all);
            faulty.close(input, output);
        }
    }
    same!(rt; all.taken(), b"a\xFE1\xFFb\xFE2\xFF\xFE5\xFF".as_slice());
    told(&rt, &lines, b"broken behind frame 2\nframe 4 lost\n");
    Ok(())
}

#[test]
fn connections_are_refused_at_first(rt: HostRuntime) -> Result<(), AllocError> {
    let (lines, time, inputs) = (told_none(), at_start(), [FRAMES, MORE, MORE]);
    let rules = [Rule::RefuseConnections(3000)];
    let connect = known(&inputs, &[]);
    let mut faulty = Faulty::new(rt.alloc(), connect, &rules, 1, &time, &lines)?;
    let mut all = FaultyWriter::new();
    if let Some((mut input, output)) = faulty.open() {
        holds!(rt; faulty.open().is_none());
        read_all(&mut input, &mut all);
        faulty.close(input, output);
    }
    same!(rt; all.taken(), MORE);
    told(&rt, &lines, b"connection refused\nconnection refused\n");
    Ok(())
}

#[test]
fn what_can_t_be_written_waits_and_nothing_is_doubled(rt: HostRuntime) -> Result<(), AllocError> {
    let (lines, time, inputs) = (told_none(), at_start(), [FRAMES]);
    let rules = [
        Rule::Repeat(Way::Reply, one(1)),
        Rule::BreakAfter(Way::Reply, 3),
    ];
    let connect = known(&inputs, &[1, 2, 4]);
    let mut faulty = Faulty::new(rt.alloc(), connect, &rules, 1, &time, &lines)?;
    if let Some((input, mut output)) = faulty.open() {
        write_all(&mut output, b"\xFE1\xFF");
        write_all(&mut output, b"\xFE2\xFFx");
        write_all(&mut output, b"\xFE3\xFF\xFE4\xFF");
        let _ = output.flush();
        faulty.close(input, output);
    }
    let closed = faulty.into_inner();
    same!(rt; closed.output.taken(), b"\xFE1\xFF\xFE1\xFF\xFE2\xFFx\xFE3\xFF".as_slice());
    told(&rt, &lines, b"reply 1 twice\nbroken behind reply 3\n");
    Ok(())
}

#[test]
fn the_rules_of_a_text_and_a_restart(rt: HostRuntime) -> Result<(), AllocError> {
    let (lines, time, inputs) = (told_none(), at_start(), [FRAMES, MORE]);
    let text = b"# the encoder begins anew\n\n  restart after 2 \r\n";
    let Ok(rules) = read_rules(rt.alloc(), text) else {
        holds!(rt; false);
        return Ok(());
    };
    let connect = known(&inputs, &[]);
    let mut faulty = Faulty::new(rt.alloc(), connect, rules.as_slice(), 1, &time, &lines)?;
    let mut all = FaultyWriter::new();
    if let Some((mut input, output)) = faulty.open() {
        read_all(&mut input, &mut all);
        faulty.close(input, output);
    }
    same!(rt; all.taken(), b"a\xFE1\xFFb\xFE2\xFF".as_slice());
    told(&rt, &lines, b"broken behind frame 2\n");
    holds!(rt; faulty.takes_restart());
    holds!(rt; !faulty.takes_restart());
    Ok(())
}

#[test]
fn the_line_that_spells_no_rule_is_named(rt: HostRuntime) {
    let text = b"lose frame 1\n# more\nlose\nlose\n";
    let fault = match read_rules(rt.alloc(), text) {
        Ok(_) => None,
        Err(fault) => Some(fault),
    };
    same!(rt; fault, Some(RulesFault::NotARule(3)));
}
