//! What a bad line did, and that nothing came on a connection or that it gave way, as it is told (profile).

use arrayvec::ArrayVec;
use bad_line::{Effect, Effects, write_effect};
use itoa::Buffer;
use json_lines::stamp_of;
use output_forms::Form;
use std::cell::RefCell;
use std::io;
use std::io::Write;
use std::net::IpAddr;
use std::time::Clock;
use uecp_text::write_parts;

/// How many bytes a line has at most.
const LINE_MAX: usize = 192;

/// Tells what a bad line did, and that nothing came on a connection, a line each behind the time, if there is a clock,
/// or an object of JSON; or nothing. Both ends of a connection borrow it, and no contract says what it writes.
#[derive(Drop)]
pub(crate) struct Told<'a, W: Write, C: Clock> {
    form: Form,
    clock: Option<&'a C>,
    lines: Option<RefCell<&'a mut W>>,
}

impl<'a, W: Write, C: Clock> Told<'a, W, C> {
    /// Tells on this writer in this form, or nothing.
    pub(crate) fn new(
        tells: bool,
        form: Form,
        clock: Option<&'a C>,
        writer: &'a mut W,
    ) -> Told<'a, W, C> {
        Told {
            form,
            clock,
            lines: if tells {
                Some(RefCell::new(writer))
            } else {
                None
            },
        }
    }
}

impl<'a, W: Write, C: Clock> Effects for Told<'a, W, C> {
    fn tell(&self, effect: Effect) {
        let mut text = Line::new();
        let _ = write_effect(effect, &mut text);
        self.say(b"bad_line", &text);
    }
}

impl<'a, W: Write, C: Clock> Told<'a, W, C> {
    /// Tells that a connection is closed since nothing came on it for so many seconds.
    pub(crate) fn tell_idle(&self, seconds: u32) {
        let mut buffer = Buffer::new();
        let mut text = Line::new();
        text.put(b"idle for ");
        text.put(buffer.format(seconds).as_bytes());
        text.put(b" s\n");
        self.say(b"idle", &text);
    }

    /// Tells that a connection gave way after so many seconds to one that waited.
    pub(crate) fn tell_yielding(&self, seconds: u32) {
        let mut buffer = Buffer::new();
        let mut text = Line::new();
        text.put(b"gave way after ");
        text.put(buffer.format(seconds).as_bytes());
        text.put(b" s\n");
        self.say(b"gave_way", &text);
    }

    /// Tells that no connection is taken from this address.
    pub(crate) fn tell_stranger(&self, address: &IpAddr) {
        let mut text = Line::new();
        let _ = writeln!(&mut text, "not allowed {address}");
        self.say(b"not_allowed", &text);
    }

    /// Tells that the encoder begins anew.
    pub(crate) fn tell_restart(&self) {
        let mut text = Line::new();
        text.put(b"encoder restarted\n");
        self.say(b"bad_line", &text);
    }

    /// Tells this line, as what it is where it is an object.
    fn say(&self, kind: &[u8], text: &Line) {
        let Some(lines) = &self.lines else {
            return;
        };
        let mut line = Line::new();
        match self.form {
            Form::Json => put_object(self.clock, kind, text, &mut line),
            Form::Lines | Form::Words(_) => put_line(self.clock, text, &mut line),
        }
        if let Ok(mut writer) = lines.try_borrow_mut() {
            let _ = write_parts(&[line.bytes.as_slice()], &mut **writer);
        }
    }
}

/// Puts what is told down as a line, behind the time if there is a clock.
fn put_line<C: Clock>(clock: Option<&C>, text: &Line, line: &mut Line) {
    if let Some(clock) = clock {
        let stamp = stamp_of(clock);
        line.put(stamp.as_str().as_bytes());
        line.put(b" ");
    }
    line.put(text.bytes.as_slice());
}

/// Puts it down as an object, with the time if there is a clock. What is said of it needs no escape in JSON.
fn put_object<C: Clock>(clock: Option<&C>, kind: &[u8], text: &Line, line: &mut Line) {
    line.put(b"{\"format\":1,\"kind\":\"");
    line.put(kind);
    line.put(b"\"");
    if let Some(clock) = clock {
        let stamp = stamp_of(clock);
        line.put(b",\"time\":\"");
        line.put(stamp.as_str().as_bytes());
        line.put(b"\"");
    }
    line.put(b",\"text\":\"");
    line.put(text.bytes.as_slice());
    line.end_text();
    line.put(b"\"}\n");
}

/// A line that is put together, so that it is one write.
#[derive(Drop)]
struct Line {
    bytes: ArrayVec<u8, LINE_MAX>,
}

impl Line {
    /// Nothing yet.
    fn new() -> Line {
        Line {
            bytes: ArrayVec::new(),
        }
    }

    /// Puts this behind what it has, as far as there is room.
    fn put(&mut self, part: &[u8]) {
        for byte in part {
            let _ = self.bytes.try_push(*byte);
        }
    }

    /// Takes the line feed at its end away, if it has one.
    fn end_text(&mut self) {
        if self.bytes.last() == Some(&b'\n') {
            let _ = self.bytes.pop();
        }
    }
}

impl Write for Line {
    fn write(&mut self, buf: &[u8]) -> io::Result<usize> {
        self.put(buf);
        Ok(buf.len())
    }

    fn flush(&mut self) -> io::Result<()> {
        Ok(())
    }
}
