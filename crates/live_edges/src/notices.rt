//! What is said of a line (profile).
ghost use Rattle.std.specs.Prelude.{ℕ, List};
ghost use Rattle.std.specs.Io.KnownBytes.{Appends};

use arrayvec::ArrayVec;
use itoa::Buffer;
use json_lines::stamp_of;
use std::fmt::InlineText;
use std::io::Write;
use std::time::Clock;
use uecp_net::DialFault;
use uecp_text::write_parts;

/// How many bytes a notice has at most; a name of a host has 253.
const LINE_MAX: usize = 512;

/// How many bytes the words for a fault of a connection have at most.
const WHY_MAX: usize = 30;

/// In which form it is said what becomes of a line.
#[derive(Clone, Copy, Debug, PartialEq, Eq)]
pub enum NoticeForm {
    /// As lines, behind `uecp: ` and the time.
    Lines,
    /// As objects of JSON, with the time.
    Objects,
}

/// Says that there is a connection to this host and port.
pub(crate) fn say_there<C: Clock, W: Write>(
    form: NoticeForm,
    clock: &C,
    host: &str,
    port: u16,
    notices: &mut W,
)
    ensures { (lines : List ℕ) × Appends (W.contents notices.old) (W.contents notices.new) lines }
{
    let mut line = begun(form, clock, b"connected");
    put_place(form, b"connected to ", host, port, &mut line);
    say(form, &mut line, notices);
}

/// Says that none can be made, and why.
pub(crate) fn say_away<C: Clock, W: Write>(
    form: NoticeForm,
    clock: &C,
    host: &str,
    port: u16,
    fault: Option<DialFault>,
    notices: &mut W,
)
    ensures { (lines : List ℕ) × Appends (W.contents notices.old) (W.contents notices.new) lines }
{
    let mut line = begun(form, clock, b"no_connection");
    put_place(form, b"no connection to ", host, port, &mut line);
    if let Some(fault) = fault {
        put_why(form, fault, &mut line);
    }
    say(form, &mut line, notices);
}

/// Says that the connection was lost.
pub(crate) fn say_lost<C: Clock, W: Write>(form: NoticeForm, clock: &C, notices: &mut W)
    ensures { (lines : List ℕ) × Appends (W.contents notices.old) (W.contents notices.new) lines }
{
    say_words(form, clock, b"lost", b"the connection is lost", notices);
}

/// Says that nothing is heard.
pub(crate) fn say_silent<C: Clock, W: Write>(form: NoticeForm, clock: &C, notices: &mut W)
    ensures { (lines : List ℕ) × Appends (W.contents notices.old) (W.contents notices.new) lines }
{
    let words = b"the encoder answers nothing: new, or deaf";
    say_words(form, clock, b"answers_nothing", words, notices);
}

/// Says that the line is given up.
pub(crate) fn say_given_up<C: Clock, W: Write>(form: NoticeForm, clock: &C, notices: &mut W)
    ensures { (lines : List ℕ) × Appends (W.contents notices.old) (W.contents notices.new) lines }
{
    say_words(form, clock, b"line_given_up", b"given up", notices);
}

/// Says what these words do, which as an object is of this kind.
fn say_words<C: Clock, W: Write>(
    form: NoticeForm,
    clock: &C,
    kind: &[u8],
    words: &[u8],
    notices: &mut W,
)
    ensures { (lines : List ℕ) × Appends (W.contents notices.old) (W.contents notices.new) lines }
{
    let mut line = begun(form, clock, kind);
    match form {
        NoticeForm::Lines => put(words, &mut line),
        NoticeForm::Objects => {}
    }
    say(form, &mut line, notices);
}

/// A notice that is put together, so that it is one write.
type NoticeText = ArrayVec<u8, LINE_MAX>;

/// The beginning of a notice, up to its time.
fn begun<C: Clock>(form: NoticeForm, clock: &C, kind: &[u8]) -> NoticeText {
    let stamp = stamp_of(clock);
    let stamp = stamp.as_str().as_bytes();
    let mut line = NoticeText::new();
    match form {
        NoticeForm::Lines => {
            put(b"uecp: ", &mut line);
            put(stamp, &mut line);
            put(b" ", &mut line);
        }
        NoticeForm::Objects => {
            put(b"{\"format\":1,\"kind\":\"", &mut line);
            put(kind, &mut line);
            put(b"\",\"time\":\"", &mut line);
            put(stamp, &mut line);
            put(b"\"", &mut line);
        }
    }
    line
}

/// Puts a host and a port down, as a line behind these words.
fn put_place(form: NoticeForm, words: &[u8], host: &str, port: u16, line: &mut NoticeText) {
    let mut buffer = Buffer::new();
    let port = buffer.format(port).as_bytes();
    match form {
        NoticeForm::Lines => {
            put(words, line);
            put(host.as_bytes(), line);
            put(b" port ", line);
            put(port, line);
        }
        NoticeForm::Objects => {
            put(b",\"host\":\"", line);
            put_plain(host.as_bytes(), line);
            put(b"\",\"port\":", line);
            put(port, line);
        }
    }
}

/// Puts down why there is no connection.
fn put_why(form: NoticeForm, fault: DialFault, line: &mut NoticeText) {
    let why = InlineText::<WHY_MAX>::new().and(fault, WHY_MAX);
    let why = why.as_str().as_bytes();
    match form {
        NoticeForm::Lines => {
            put(b": ", line);
            put(why, line);
        }
        NoticeForm::Objects => {
            put(b",\"why\":\"", line);
            put(why, line);
            put(b"\"", line);
        }
    }
}

/// Says what was put together, in one write. What can't be written changes nothing.
fn say<W: Write>(form: NoticeForm, line: &mut NoticeText, notices: &mut W)
    ensures { (lines : List ℕ) × Appends (W.contents notices.old) (W.contents notices.new) lines }
{
    match form {
        NoticeForm::Lines => put(b"\n", line),
        NoticeForm::Objects => put(b"}\n", line),
    }
    let _ = write_parts(&[line.as_slice()], notices);
}

/// Puts this behind what a line holds, as far as there is room.
fn put(part: &[u8], line: &mut NoticeText) {
    for byte in part {
        let _ = line.try_push(*byte);
    }
}

/// The same of a name, with `?` in the place of what a string of JSON has to escape, and of what is no ASCII.
fn put_plain(name: &[u8], line: &mut NoticeText) {
    for byte in name {
        let is_plain = *byte >= b' ' && *byte < 0x7F && *byte != b'"' && *byte != b'\\';
        let _ = line.try_push(if is_plain { *byte } else { b'?' });
    }
}
