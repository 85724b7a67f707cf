//! Lines that are refused, told as objects of JSON. Source: profile.

use json_lines::{close_line, null_field, number_field, open_line, put_name, stamp_of, time_field};
use output_forms::Form;
use std::alloc::Global;
use std::fmt::InlineText;
use std::io::Write;
use std::str;
use std::time::Clock;
use uecp_text::{Output, TextFault};

/// How many bytes of what is said of a line are told at most; each text has fewer.
const MEANING_MAX: usize = 256;

/// Where lines that are refused are told as objects, in the form of JSON alone, each with its time. What can't be
/// written changes nothing.
#[derive(Drop)]
pub struct RefusalObjects<'a, T: Clock, Q: Write> {
    alloc: Global,
    clock: &'a T,
    form: Form,
    writer: &'a mut Q,
}

impl<'a, T: Clock, Q: Write> RefusalObjects<'a, T, Q> {
    /// They are told so, in this form.
    pub(crate) fn new(
        alloc: Global,
        clock: &'a T,
        form: Form,
        writer: &'a mut Q,
    ) -> RefusalObjects<'a, T, Q> {
        RefusalObjects {
            alloc,
            clock,
            form,
            writer,
        }
    }

    /// Tells that the line of this number is refused, and why.
    pub(crate) fn tell(&mut self, number: usize, fault: &TextFault, line: &[u8]) {
        match self.form {
            Form::Lines | Form::Words(_) => {}
            Form::Json => {
                let mut output = Output::new(self.alloc);
                put_refusal(self.clock, number, fault, line, &mut output);
                if output.check().is_ok() {
                    let _ = output.write_out(self.writer);
                }
            }
        }
    }
}

/// The object of a line that is refused: when, its number, the column of its fault or null, what is said of that, and
/// its text, or null where that is no UTF-8.
fn put_refusal<T: Clock>(
    clock: &T,
    number: usize,
    fault: &TextFault,
    line: &[u8],
    output: &mut Output,
) {
    open_line("line_refused", output);
    time_field(stamp_of(clock).as_str(), output);
    number_field("number", number, output);
    put_column(fault, output);
    put_name("meaning", output);
    let meaning = InlineText::<MEANING_MAX>::new().and(*fault, MEANING_MAX);
    put_string(meaning.as_str().as_bytes(), output);
    put_text(line, output);
    close_line(output);
}

/// The column of the fault, where it has one.
fn put_column(fault: &TextFault, output: &mut Output) {
    match fault {
        TextFault::Unsaid(unsaid) => number_field("column", unsaid.column, output),
        _ => null_field("column", output),
    }
}

/// The text of a line, but for its line feed.
fn put_text(line: &[u8], output: &mut Output) {
    match str::from_utf8(line) {
        Ok(text) => {
            put_name("text", output);
            put_string(text.trim_end_matches('\n').as_bytes(), output);
        }
        Err(_) => null_field("text", output),
    }
}

/// A string of these bytes of UTF-8, with the escapes of JSON (RFC 8259).
fn put_string(text: &[u8], output: &mut Output) {
    output.text("\"");
    for byte in text {
        put_escaped(*byte, output);
    }
    output.text("\"");
}

/// A byte of it.
fn put_escaped(byte: u8, output: &mut Output) {
    match byte {
        b'"' => output.text("\\\""),
        b'\\' => output.text("\\\\"),
        0..=0x1F => {
            output.text("\\u00");
            output.digits(&[byte]);
        }
        _ => output.add(&[byte]),
    }
}
