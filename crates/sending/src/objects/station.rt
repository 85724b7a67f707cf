//! The lines of the beginning, and of the station (profile).
ghost use Rattle.std.specs.Prelude.{◌+◌, ◌^◌, ◌<◌, length};
ghost use Rattle.json_lines.specs.Texts.{fields_text};
ghost use Rattle.uecp_text.specs.Written.{Adds};
ghost use Rattle.sending.specs.Objects.{progress_line, joined_line, station_line, refused_line, refused_lines};
ghost use Rattle.sending.specs.Objects.{station_applied_line, progress_fields, refusal_fields};

use json_lines::{close_line, number_field, open_line, put_kind};
use uecp_elements::Code;
use uecp_json::put_code;
use uecp_text::Output;

/// The line of how many messages were taken since the state was made, and how many of them wait.
#[tactic(auto, using(json_lines::proofs::Public::parts))]
pub(crate) fn put_progress(taken: u64, outstanding: usize, output: &mut Output)
    ensures { Adds output.old output.new (progress_line taken outstanding) }
{
    open_line("progress", output);
    put_counts(taken, outstanding, output);
    close_line(output);
}

/// These two numbers.
fn put_counts(taken: u64, outstanding: usize, output: &mut Output)
    ensures { Adds output.old output.new (fields_text (progress_fields taken outstanding)) }
{
    number_field("taken", taken as usize, output);
    number_field("outstanding", outstanding, output);
}

/// The line of an encoder that was joined, or could not be.
pub(crate) fn put_joined(joined: bool, output: &mut Output)
    ensures { Adds output.old output.new (joined_line joined) }
{
    if joined {
        put_kind("joined", output);
    } else {
        put_kind("not_joined", output);
    }
}

/// The line of a station whose messages were all applied.
pub(crate) fn put_station_applied(output: &mut Output)
    ensures { Adds output.old output.new station_applied_line }
{
    put_kind("station_applied", output);
}

/// The lines of messages of the station that the encoder refused, among those that it answered with these codes, the
/// first of which has this number.
pub(crate) fn put_station_refused(first: usize, codes: &[Code], output: &mut Output)
    requires { first + length codes.now < 2 ^ 64 }
    ensures { Adds output.old output.new (refused_lines first codes.now) }
{
    if let Some((code, rest)) = codes.split_first() {
        put_if_refused(first, *code, output);
        put_station_refused(first + 1, rest, output);
    }
}

/// The line of the message of this number of the station, where the encoder refused it.
fn put_if_refused(number: usize, code: Code, output: &mut Output)
    ensures { Adds output.old output.new (refused_line number code) }
{
    match code {
        Code::Applied => {}
        _ => put_refused(number, code, output),
    }
}

/// The line of the message of this number of the station, which the encoder refused.
#[tactic(auto, using(json_lines::proofs::Public::parts))]
fn put_refused(number: usize, code: Code, output: &mut Output)
    ensures { Adds output.old output.new (station_line number code) }
{
    open_line("station_refused", output);
    put_refusal(number, code, output);
    close_line(output);
}

/// The number of a message and its code.
fn put_refusal(number: usize, code: Code, output: &mut Output)
    ensures { Adds output.old output.new (fields_text (refusal_fields number code)) }
{
    number_field("number", number, output);
    put_code(code, output);
}
