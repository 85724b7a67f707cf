//! How a run ended, told as an object of JSON, the last. Source: profile.
ghost use Rattle.std.specs.Prelude.{◌≡◌, ◌⊎◌, ℕ, List, IsTrue};
ghost use Rattle.std.specs.List.{list_all};
ghost use Rattle.std.specs.Io.KnownBytes.{Appends};
ghost use Rattle.json_lines.specs.Stamps.{IsStamp, is_plain};
ghost use Rattle.json_lines.specs.Texts.{fields_text};
ghost use Rattle.uecp_text.specs.Written.{Adds, Begins};
ghost use Rattle.notices.specs.Told.{Says};
ghost use Rattle.send_commands.specs.Ended.{TellsEnd, TellsLine, ended_fields, ended_line, untold_line};

use json_lines::{close_line, number_field, open_line, stamp_of, time_field};
use kept_jobs::write_told;
use notices::{Notices, NoticesTo};
use output_forms::Form;
use std::alloc::Global;
use std::io::Write;
use std::time::Clock;
use uecp_text::Output;

/// Tells with which exit status a run ended, in the form of JSON alone: an object, with its time. Where that can't be
/// written it is said.
pub(crate) fn tell_ended<T: Clock, W: Write, E: Write>(
    alloc: Global,
    clock: &T,
    form: Form,
    status: u8,
    writer: &mut W,
    errors: &mut NoticesTo<E>,
)
    ensures { TellsEnd form status (W.contents writer.old) (W.contents writer.new) errors.old errors.new }
{
    match form {
        Form::Lines | Form::Words(_) => {}
        Form::Json => tell_line(alloc, stamp_of(clock).as_str(), status, writer, errors),
    }
}

/// Tells it, with this time.
fn tell_line<W: Write, E: Write>(
    alloc: Global,
    stamp: &str,
    status: u8,
    writer: &mut W,
    errors: &mut NoticesTo<E>,
)
    requires { IsTrue (list_all is_plain stamp.now) }
    ensures { (Appends (W.contents writer.old) (W.contents writer.new) (ended_line stamp.now status)
        × (errors.new ≡ errors.old))
        ⊎ (Begins (W.contents writer.old) (W.contents writer.new) (ended_line stamp.now status)
        × Says errors.old errors.new untold_line) }
{
    let mut output = Output::new(alloc);
    put_ended(stamp, status, &mut output);
    if write_told(&mut output, writer).is_err() {
        errors.say(&[b"uecp: the end of the run can't be told\n"]);
    }
}

/// The object of a run that ended with this status.
#[tactic(auto, using(json_lines::proofs::Public::parts))]
fn put_ended(stamp: &str, status: u8, output: &mut Output)
    requires { IsTrue (list_all is_plain stamp.now) }
    ensures { Adds output.old output.new (ended_line stamp.now status) }
{
    open_line("ended", output);
    put_fields(stamp, status, output);
    close_line(output);
}

/// Its members.
fn put_fields(stamp: &str, status: u8, output: &mut Output)
    requires { IsTrue (list_all is_plain stamp.now) }
    ensures { Adds output.old output.new (fields_text (ended_fields stamp.now status)) }
{
    time_field(stamp, output);
    number_field("status", usize::from(status), output);
}
