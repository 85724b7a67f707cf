//! What is told, in each form (profile).
ghost use Rattle.std.specs.Prelude.{◌≡◌, ◌+◌, ◌^◌, ◌<◌, ℕ, List, length};
ghost use Rattle.output_forms.specs.declared.form.Form.TheVariants.{Json as AsJson};
ghost use Rattle.kept_jobs.specs.ServerRun.{taken_line, given_up_line};
ghost use Rattle.uecp_text.specs.Written.{Adds};
ghost use Rattle.sending.specs.Forms.{taken_in, given_up_in, given_up_object, AreReplies, AreHeld, unknown_in};
ghost use Rattle.sending.specs.Forms.{refused_in, joined_in, not_joined_in, applied_in, applied_object};

use crate::lines::{put_applied, put_held, put_refused, put_replies, put_unknown};
use crate::objects::{
    put_answers, put_held_answers, put_joined, put_progress, put_station_applied,
    put_station_refused,
};
use crate::sent::Sent;
use crate::timing::{milliseconds_since, now};
use json_lines::stamp_of;
use output_forms::Form;
use std::time::Clock;
use uecp_elements::Code;
use uecp_frame::Message;
use uecp_net::Settled;
use uecp_text::Output;

/// Puts down how many messages were taken since the state was made, and how many of them wait.
pub(crate) fn put_taken_in(form: Form, taken: u64, outstanding: usize, output: &mut Output)
    ensures { Adds output.old output.new (taken_in form taken outstanding) }
{
    match form {
        Form::Lines => put_taken(taken, outstanding, output),
        Form::Words(_) => put_taken(taken, outstanding, output),
        Form::Json => put_progress(taken, outstanding, output),
    }
}

/// Puts that down as a line.
fn put_taken(taken: u64, outstanding: usize, output: &mut Output)
    ensures { Adds output.old output.new (taken_line taken outstanding) }
{
    output.text("taken");
    output.decimal(taken as usize);
    output.text(" outstanding");
    output.decimal(outstanding);
    output.end();
}

/// Puts down how many messages are given up, where there are some.
pub(crate) fn put_given_up_in(form: Form, outstanding: usize, output: &mut Output)
    ensures { Adds output.old output.new (given_up_in form outstanding) }
{
    match form {
        Form::Lines => put_given_up(outstanding, output),
        Form::Words(_) => put_given_up(outstanding, output),
        Form::Json => put_given_up_object(outstanding, output),
    }
}

/// Puts that down as a line.
fn put_given_up(outstanding: usize, output: &mut Output)
    ensures { Adds output.old output.new (given_up_line outstanding) }
{
    if outstanding > 0 {
        output.text("given up");
        output.decimal(outstanding);
        output.end();
    }
}

/// Puts that down as an object.
fn put_given_up_object(outstanding: usize, output: &mut Output)
    ensures { Adds output.old output.new (given_up_object outstanding) }
{
    if outstanding > 0 {
        uecp_json::put_given_up(outstanding, output);
    }
}

/// Puts down the answers to these messages, each sent under its counter since then, that were settled so, the first of
/// which has this number.
pub(crate) fn put_replies_in<T: Clock>(
    form: Form,
    clock: &T,
    since: u64,
    first: u64,
    sent: &[Sent],
    settled: &Settled,
    output: &mut Output,
)
    requires countable { first + length settled.now.codes.items < 2 ^ 64 }
    ensures { (told : List ℕ) × AreReplies form first sent.now settled.now told
        × Adds output.old output.new told }
{
    match form {
        Form::Lines => put_replies(first, settled.codes.as_slice(), output),
        Form::Words(_) => put_replies(first, settled.codes.as_slice(), output),
        Form::Json => put_reply_objects(clock, since, first, sent, settled, output),
    }
}

/// Puts them down as objects.
fn put_reply_objects<T: Clock>(
    clock: &T,
    since: u64,
    first: u64,
    sent: &[Sent],
    settled: &Settled,
    output: &mut Output,
)
    requires countable { first + length settled.now.codes.items < 2 ^ 64 }
    ensures { (told : List ℕ) × AreReplies AsJson first sent.now settled.now told
        × Adds output.old output.new told }
{
    let stamp = stamp_of(clock);
    let milliseconds = milliseconds_since(since, now(clock));
    put_answers(
        stamp.as_str(),
        settled.tries,
        milliseconds,
        first,
        sent,
        settled.codes.as_slice(),
        output,
    );
}

/// Puts down the answers to messages that were held, of which the first has this number: those that are not marked are
/// these, which waited each under its counter, were sent since then and settled so.
pub(crate) fn put_held_in<T: Clock>(
    form: Form,
    clock: &T,
    since: u64,
    first: u64,
    marks: &[bool],
    sent: &[Sent],
    settled: &Settled,
    output: &mut Output,
)
    requires countable { first + length marks.now < 2 ^ 64 }
    ensures { (told : List ℕ) × AreHeld form first marks.now sent.now settled.now told
        × Adds output.old output.new told }
{
    match form {
        Form::Lines => put_held(first, marks, settled.codes.as_slice(), output),
        Form::Words(_) => put_held(first, marks, settled.codes.as_slice(), output),
        Form::Json => put_held_objects(clock, since, first, marks, sent, settled, output),
    }
}

/// Puts them down as objects.
fn put_held_objects<T: Clock>(
    clock: &T,
    since: u64,
    first: u64,
    marks: &[bool],
    sent: &[Sent],
    settled: &Settled,
    output: &mut Output,
)
    requires countable { first + length marks.now < 2 ^ 64 }
    ensures { (told : List ℕ) × AreHeld AsJson first marks.now sent.now settled.now told
        × Adds output.old output.new told }
{
    let stamp = stamp_of(clock);
    let milliseconds = milliseconds_since(since, now(clock));
    put_held_answers(
        stamp.as_str(),
        settled.tries,
        milliseconds,
        first,
        marks,
        sent,
        settled.codes.as_slice(),
        output,
    );
}

/// Puts down that can't be known of so many messages whether they were applied, the first of which has this number.
pub(crate) fn put_unknown_in(form: Form, first: u64, count: usize, output: &mut Output)
    requires { first + count < 2 ^ 64 }
    ensures { Adds output.old output.new (unknown_in form first count) }
{
    match form {
        Form::Lines => put_unknown(first, count, output),
        Form::Words(_) => put_unknown(first, count, output),
        Form::Json => crate::objects::put_unknown(first, count, output),
    }
}

/// Puts down those messages of the station that the encoder refused, among those that it answered with these codes, the
/// first of which has this number.
pub(crate) fn put_refused_in(form: Form, first: usize, codes: &[Code], output: &mut Output)
    requires { first + length codes.now < 2 ^ 64 }
    ensures { Adds output.old output.new (refused_in form first codes.now) }
{
    match form {
        Form::Lines => put_refused(first, codes, output),
        Form::Words(_) => put_refused(first, codes, output),
        Form::Json => put_station_refused(first, codes, output),
    }
}

/// Puts down that an encoder was joined.
pub(crate) fn put_joined_in(form: Form, output: &mut Output)
    ensures { Adds output.old output.new (joined_in form) }
{
    match form {
        Form::Lines => output.text("joined\n"),
        Form::Words(_) => output.text("joined\n"),
        Form::Json => put_joined(true, output),
    }
}

/// Puts down that an encoder could not be joined.
pub(crate) fn put_not_joined_in(form: Form, output: &mut Output)
    ensures { Adds output.old output.new (not_joined_in form) }
{
    match form {
        Form::Lines => output.text("not joined\n"),
        Form::Words(_) => output.text("not joined\n"),
        Form::Json => put_joined(false, output),
    }
}

/// Puts down that all messages of the station were applied, where that holds and it has some.
pub(crate) fn put_applied_in(form: Form, station: &[Message], all: bool, output: &mut Output)
    ensures { Adds output.old output.new (applied_in form station.now all) }
{
    match form {
        Form::Lines => put_applied(station, all, output),
        Form::Words(_) => put_applied(station, all, output),
        Form::Json => put_applied_object(station, all, output),
    }
}

/// Puts that down as an object.
fn put_applied_object(station: &[Message], all: bool, output: &mut Output)
    ensures { Adds output.old output.new (applied_object station.now all) }
{
    if !station.is_empty() && all {
        put_station_applied(output);
    }
}
