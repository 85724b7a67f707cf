//! What is told of messages (profile).
ghost use Rattle.std.specs.Prelude.{◌≡◌, ◌+◌, ◌^◌, ◌<◌, length, decimal};
ghost use Rattle.std.specs.List.{list_all};
ghost use Rattle.uecp_text.specs.Written.{Adds};
ghost use Rattle.sending.specs.Lines.{code_words, refusal_words, reply_line, reply_lines, is_applied};
ghost use Rattle.sending.specs.Lines.{held_lines, unknown_lines, station_line, refused_line, refused_lines};
ghost use Rattle.sending.specs.Lines.{applied_line};

use itoa::Buffer;
use uecp_elements::Code;
use uecp_frame::Message;
use uecp_json::meaning;
use uecp_text::Output;

/// Puts down the lines of messages that were answered with these codes, the first of which has this number.
pub(crate) fn put_replies(first: u64, codes: &[Code], output: &mut Output)
    requires { first + length codes.now < 2 ^ 64 }
    ensures { Adds output.old output.new (reply_lines first codes.now) }
{
    if let Some((code, rest)) = codes.split_first() {
        put_reply(first, *code, output);
        put_replies(first + 1, rest, output);
    }
}

/// Puts down the lines of messages that are held, one after another, the first of which has this number: of each that
/// is not marked, by the next of these codes.
pub(crate) fn put_held(first: u64, marks: &[bool], codes: &[Code], output: &mut Output)
    requires { first + length marks.now < 2 ^ 64 }
    ensures { Adds output.old output.new (held_lines first marks.now codes.now) }
{
    if let Some((marked, rest)) = marks.split_first() {
        if *marked {
            put_held(first + 1, rest, codes, output);
        } else if let Some((code, later)) = codes.split_first() {
            put_reply(first, *code, output);
            put_held(first + 1, rest, later, output);
        }
    }
}

/// Puts down the line of the message of this number.
fn put_reply(number: u64, code: Code, output: &mut Output)
    ensures { Adds output.old output.new (reply_line number code) }
{
    put_decimal(number, output);
    put_code(code, output);
    output.end();
}

/// Puts down a number.
fn put_decimal(number: u64, output: &mut Output)
    ensures { Adds output.old output.new (decimal number) }
{
    let mut buffer = Buffer::new();
    output.text(buffer.format(number));
}

/// Puts down what the encoder did with a message that it answered so.
fn put_code(code: Code, output: &mut Output)
    ensures { Adds output.old output.new (code_words code) }
{
    match code {
        Code::Applied => output.text(" applied"),
        _ => put_refusal(code, output),
    }
}

/// Puts down that the encoder refused a message, and why.
fn put_refusal(code: Code, output: &mut Output)
    ensures { Adds output.old output.new (refusal_words code) }
{
    output.text(" refused");
    output.byte(code.byte());
    output.text(" ");
    output.text(meaning(code));
}

/// Whether each of these codes says that a message was applied.
pub(crate) fn all_applied(codes: &[Code]) -> bool
    ensures { result ≡ list_all is_applied codes.now }
{
    codes.iter().all(|&code| is_applied(code))
}

/// Whether this code says that a message was applied.
fn is_applied(code: Code) -> bool
    ensures { result ≡ is_applied code }
{
    matches!(code, Code::Applied)
}

/// Puts down the lines of so many messages of which can't be known whether they were applied, the first of which has
/// this number.
pub(crate) fn put_unknown(first: u64, count: usize, output: &mut Output)
    requires { first + count < 2 ^ 64 }
    ensures { Adds output.old output.new (unknown_lines first count) }
{
    if count > 0 {
        put_decimal(first, output);
        output.text(" unknown\n");
        put_unknown(first + 1, count - 1, output);
    }
}

/// Puts down the lines of messages of the station that the encoder refused, among those that it answered with these
/// codes, the first of which has this number.
pub(crate) fn put_refused(first: usize, codes: &[Code], output: &mut Output)
    requires { first + length codes.now < 2 ^ 64 }
    ensures { Adds output.old output.new (refused_lines first codes.now) }
{
    if let Some((code, rest)) = codes.split_first() {
        put_if_refused(first, *code, output);
        put_refused(first + 1, rest, output);
    }
}

/// Puts down the line of the message of this number of the station, where the encoder refused it.
fn put_if_refused(number: usize, code: Code, output: &mut Output)
    ensures { Adds output.old output.new (refused_line number code) }
{
    match code {
        Code::Applied => {}
        _ => put_station(number, code, output),
    }
}

/// Puts down the line of the message of this number of the station, which the encoder refused.
fn put_station(number: usize, code: Code, output: &mut Output)
    ensures { Adds output.old output.new (station_line number code) }
{
    output.text("station");
    output.decimal(number);
    put_refusal(code, output);
    output.end();
}

/// Puts down that all messages of the station were applied, where that holds and it has some.
pub(crate) fn put_applied(station: &[Message], all: bool, output: &mut Output)
    ensures { Adds output.old output.new (applied_line station.now all) }
{
    if !station.is_empty() && all {
        output.text("station applied\n");
    }
}
