//! All that is shown, as an object of JSON (profile).
ghost use Rattle.std.specs.Prelude.{ℕ, List, ◌++◌, codes, is_some};
ghost use Rattle.json_lines.specs.Objects.{Field};
ghost use Rattle.json_lines.specs.Texts.{field_text, fields_text};
ghost use Rattle.uecp_text.specs.Written.{Adds};
ghost use Rattle.receive_command.specs.Told.{IsTimeIn, IsShownLine, pi_value, type_value, name_fields};
ghost use Rattle.receive_command.specs.Told.{radio_text_fields};
ghost use Rattle.receive_command.specs.Told.{flag_fields, shown_fields};
ghost use Rattle.receive_command.specs.DisplayView.{shown_in};

use crate::display::fields::{put_known, put_said};
use crate::display::shown::Shown;
use crate::display::times::put_time_field;
use json_lines::{block_field, close_line, null_field, number_field, open_line, said_fields};
use std::time::Clock;
use uecp_text::Output;

/// Adds the line of all that is shown, with the time where there is a clock.
pub(crate) fn put_object<C: Clock>(clock: Option<&C>, shown: &Shown, output: &mut Output)
    ensures { (line : List ℕ) × IsShownLine (is_some clock.entry) (shown_in shown.now) line
        × Adds output.old output.new line }
{
    open_line("shown", output);
    put_members(clock, shown, output);
    close_line(output);
}

/// The members behind the kind.
fn put_members<C: Clock>(clock: Option<&C>, shown: &Shown, output: &mut Output)
    ensures { (time : List Field) × IsTimeIn (is_some clock.entry) time
        × Adds output.old output.new (fields_text (time ++ shown_fields (shown_in shown.now))) }
{
    put_time_field(clock, output);
    put_fields(shown, output);
}

/// What is shown.
fn put_fields(shown: &Shown, output: &mut Output)
    ensures { Adds output.old output.new (fields_text (shown_fields (shown_in shown.now))) }
{
    put_pi(shown.pi, output);
    put_name(shown, output);
    put_flags(shown, output);
    put_radio_text(shown, output);
}

/// The programme identification.
fn put_pi(pi: Option<u16>, output: &mut Output)
    ensures { Adds output.old output.new (field_text (codes "pi") (pi_value pi)) }
{
    match pi {
        Some(pi) => block_field("pi", pi, output),
        None => null_field("pi", output),
    }
}

/// The name, as bytes and as characters.
fn put_name(shown: &Shown, output: &mut Output)
    ensures { Adds output.old output.new (fields_text (name_fields (shown_in shown.now).name)) }
{
    match &shown.name {
        Some(name) => said_fields("name", name, output),
        None => {
            null_field("name", output);
            null_field("text", output);
        }
    }
}

/// The flags and the programme type.
fn put_flags(shown: &Shown, output: &mut Output)
    ensures { Adds output.old output.new (fields_text (flag_fields (shown_in shown.now))) }
{
    put_known("tp", shown.tp, output);
    put_known("ta", shown.ta, output);
    put_known("music", shown.music, output);
    put_type(shown.pty, output);
}

/// The programme type.
fn put_type(pty: Option<u8>, output: &mut Output)
    ensures { Adds output.old output.new (field_text (codes "type") (type_value pty)) }
{
    match pty {
        Some(pty) => number_field("type", usize::from(pty), output),
        None => null_field("type", output),
    }
}

/// The RadioText, as bytes and as characters.
fn put_radio_text(shown: &Shown, output: &mut Output)
    ensures { Adds output.old output.new (fields_text (radio_text_fields (shown_in shown.now).text)) }
{
    match &shown.text {
        Some(text) => put_said("rt", text.as_slice(), output),
        None => null_field("rt", output),
    }
}
