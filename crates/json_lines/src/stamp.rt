//! What a clock shows, as it stands before or within what is told (profile).
ghost use Rattle.std.specs.Prelude.{◌≡◌, codes, IsTrue};
ghost use Rattle.std.specs.List.{list_all};
ghost use Rattle.serde_json.specs.Data.{string};
ghost use Rattle.json_lines.specs.Stamps.{is_plain, IsShown, IsStamp};
ghost use Rattle.json_lines.specs.Texts.{field_text};
ghost use Rattle.uecp_text.specs.Written.{Adds};

use crate::fields::word_field;
use arrayvec::ArrayString;
use jiff::Timestamp;
use jiff::fmt::temporal::DateTimePrinter;
use std::time::Clock;
use uecp_text::Output;

/// How many characters a stamp has at most.
pub const STAMP_MAX: usize = 33;

/// A member: the time, as a stamp.
pub fn time_field(stamp: &str, output: &mut Output)
    requires { IsTrue (list_all is_plain stamp.now) }
    ensures { Adds output.old output.new (field_text (codes "time") (string stamp.now)) }
{
    word_field("time", stamp, output);
}

/// What the clock shows in UTC, to the millisecond; `-` where it tells no time.
pub fn stamp_of<C: Clock>(clock: &C) -> ArrayString<STAMP_MAX>
    ensures { IsStamp result.bytes }
{
    let Ok(now) = Timestamp::now(clock) else {
        return unknown();
    };
    let stamp = shown(now);
    if are_plain(stamp.as_str().as_bytes()) {
        stamp
    } else {
        unknown()
    }
}

/// What a clock in UTC shows at the instant, to the millisecond.
fn shown(instant: Timestamp) -> ArrayString<STAMP_MAX>
    ensures { IsShown result.bytes }
{
    let printer = DateTimePrinter::new().precision(Some(3));
    printer.timestamp_text(instant.to_plain())
}

/// The stamp of no time.
fn unknown() -> ArrayString<STAMP_MAX>
    ensures { result.bytes ≡ codes "-" }
{
    let mut stamp = ArrayString::new();
    stamp.push('-');
    stamp
}

/// Whether each of the bytes is such a character.
fn are_plain(bytes: &[u8]) -> bool
    ensures { result ≡ list_all is_plain bytes.now }
{
    bytes.iter().all(|&byte| is_plain(byte))
}

/// Whether the byte is a printable character of ASCII that stands for itself in JSON.
fn is_plain(byte: u8) -> bool
    ensures { result ≡ is_plain byte }
{
    (0x20..0x7F).contains(&byte) && byte != b'"' && byte != b'\\'
}
