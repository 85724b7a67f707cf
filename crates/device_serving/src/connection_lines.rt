//! The lines of connections, put down (profile).
ghost use Rattle.std.specs.Prelude.{IsTrue};
ghost use Rattle.std.specs.List.{list_all};
ghost use Rattle.json_lines.specs.Stamps.{is_plain};
ghost use Rattle.json_lines.specs.Texts.{fields_text};
ghost use Rattle.uecp_text.specs.Written.{Adds};
ghost use Rattle.device_serving.specs.ConnectionLines.{opened_lines, opened_text, opened_object, ended_words};
ghost use Rattle.device_serving.specs.ConnectionLines.{ended_lines, ended_text, ended_object, ended_fields};
ghost use Rattle.device_serving.specs.ConnectionLines.{number_fields};

use crate::event_lines::{put_time, put_time_field};
use json_lines::{close_line, number_field, open_line, word_field};
use output_forms::Form;
use uecp_encoder::{KeptFault, ServeFault, Served};
use uecp_jobs::put_ending;
use uecp_text::Output;

/// Puts down that the connection of this number was opened.
pub(crate) fn put_opened(form: Form, stamp: &str, number: u64, output: &mut Output)
    requires { IsTrue (list_all is_plain stamp.now) }
    ensures { Adds output.old output.new (opened_lines form stamp.now number) }
{
    match form {
        Form::Lines => put_opened_text(stamp, number, output),
        Form::Words(_) => put_opened_text(stamp, number, output),
        Form::Json => put_opened_object(stamp, number, output),
    }
}

/// Puts that down as text.
fn put_opened_text(stamp: &str, number: u64, output: &mut Output)
    ensures { Adds output.old output.new (opened_text stamp.now number) }
{
    put_time(stamp, output);
    output.text("connection");
    output.decimal(number as usize);
    output.end();
}

/// Puts that down as an object.
fn put_opened_object(stamp: &str, number: u64, output: &mut Output)
    requires { IsTrue (list_all is_plain stamp.now) }
    ensures { Adds output.old output.new (opened_object stamp.now number) }
{
    open_line("connection", output);
    put_number(stamp, number, output);
    close_line(output);
}

/// Puts down the time and the number of a connection as members.
fn put_number(stamp: &str, number: u64, output: &mut Output)
    requires { IsTrue (list_all is_plain stamp.now) }
    ensures { Adds output.old output.new (fields_text (number_fields stamp.now number)) }
{
    put_time_field(stamp, output);
    number_field("number", number as usize, output);
}

/// Puts down how the connection of this number ended.
pub(crate) fn put_ended(
    form: Form,
    stamp: &str,
    number: u64,
    ended: Result<Served, KeptFault>,
    output: &mut Output,
)
    requires { IsTrue (list_all is_plain stamp.now) }
    ensures { Adds output.old output.new (ended_lines form stamp.now number ended) }
{
    match form {
        Form::Lines => put_ended_text(stamp, number, ended, output),
        Form::Words(_) => put_ended_text(stamp, number, ended, output),
        Form::Json => put_ended_object(stamp, number, ended, output),
    }
}

/// Puts that down as text.
fn put_ended_text(stamp: &str, number: u64, ended: Result<Served, KeptFault>, output: &mut Output)
    ensures { Adds output.old output.new (ended_text stamp.now number ended) }
{
    put_time(stamp, output);
    output.text("connection");
    output.decimal(number as usize);
    put_words(ended, output);
    output.end();
}

/// Puts down how a connection ended, in words.
fn put_words(ended: Result<Served, KeptFault>, output: &mut Output)
    ensures { Adds output.old output.new (ended_words ended) }
{
    match ended {
        Ok(served) => put_ending(Ok(served), output),
        Err(KeptFault::Serve(fault)) => put_ending(Err(fault), output),
        Err(KeptFault::StateFailed) => output.text(" state failed"),
    }
}

/// Puts that down as an object.
fn put_ended_object(stamp: &str, number: u64, ended: Result<Served, KeptFault>, output: &mut Output)
    requires { IsTrue (list_all is_plain stamp.now) }
    ensures { Adds output.old output.new (ended_object stamp.now number ended) }
{
    open_line("connection_end", output);
    put_number(stamp, number, output);
    put_fields(ended, output);
    close_line(output);
}

/// Puts down how a connection ended, as members.
fn put_fields(ended: Result<Served, KeptFault>, output: &mut Output)
    ensures { Adds output.old output.new (fields_text (ended_fields ended)) }
{
    match ended {
        Ok(served) => {
            word_field("end", "closed", output);
            number_field("replies", served.replies as usize, output);
        }
        Err(KeptFault::Serve(ServeFault::ReadFailed)) => word_field("end", "read_failed", output),
        Err(KeptFault::Serve(ServeFault::WriteFailed { written })) => {
            word_field("end", "write_failed", output);
            number_field("written", written as usize, output);
        }
        Err(KeptFault::Serve(ServeFault::TurnsSpent)) => word_field("end", "turns_spent", output),
        Err(KeptFault::StateFailed) => word_field("end", "state_failed", output),
    }
}
