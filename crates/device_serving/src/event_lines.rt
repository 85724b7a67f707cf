//! The lines of what an encoder finds and answers, put down (profile).
ghost use Rattle.std.specs.Prelude.{◌≡◌, ◌++◌, IsTrue};
ghost use Rattle.std.specs.List.{list_all};
ghost use Rattle.json_lines.specs.Stamps.{is_plain};
ghost use Rattle.json_lines.specs.Texts.{is_plain as is_plain_text, fields_text};
ghost use Rattle.uecp_json.specs.Steps.{code_fields};
ghost use Rattle.output_forms.specs.declared.form.Form.TheVariants.{Words as InWords};
ghost use Rattle.uecp_text.specs.Written.{Adds};
ghost use Rattle.device_serving.specs.EventLines.{time_words, meaning_words, answer_words, sent_words, message_words};
ghost use Rattle.device_serving.specs.EventLines.{head_words, frame_words, text_line, time_fields, answer_name};
ghost use Rattle.device_serving.specs.EventLines.{answer_fields, reply_fields, sent_fields};
ghost use Rattle.device_serving.specs.EventLines.{answered_line, event_lines};

use json_lines::{close_line, digits_field, flag_field, open_line, time_field, word_field};
use output_forms::Form;
use rds_text::Region;
use uecp_elements::Code;
use uecp_encoder::{Answered, Event};
use uecp_frame::{Found, Frame};
use uecp_json::meaning;
use uecp_phrases::put_message;
use uecp_text::Output;

/// Puts down the lines of an event, in this form and behind this time, which is empty where none is told.
pub(crate) fn put_event(form: Form, stamp: &str, event: &Event, sent: bool, output: &mut Output)
    requires { IsTrue (list_all is_plain stamp.now) }
    ensures { Adds output.old output.new (event_lines form stamp.now event.now sent) }
{
    match form {
        Form::Lines => put_text(form, stamp, event, sent, output),
        Form::Words(_) => put_text(form, stamp, event, sent, output),
        Form::Json => {
            uecp_json::put_found(&event.found, output);
            put_answered(stamp, &event.answer, sent, output);
        }
    }
}

/// Puts them down as one line of text.
fn put_text(form: Form, stamp: &str, event: &Event, sent: bool, output: &mut Output)
    ensures { Adds output.old output.new (text_line form stamp.now event.now.found event.now.answer sent) }
{
    match &event.found {
        Found::Nothing => {}
        Found::Frame(frame) => {
            put_time(stamp, output);
            put_frame(form, frame, &event.answer, sent, output);
        }
        Found::Refused(fault) => {
            put_time(stamp, output);
            uecp_lines::put_fault(*fault, output);
        }
    }
}

/// Puts down the time before a line, if one is told.
pub(crate) fn put_time(stamp: &str, output: &mut Output)
    ensures { Adds output.old output.new (time_words stamp.now) }
{
    if !stamp.is_empty() {
        output.text(stamp);
        output.text(" ");
    }
}

/// Puts down a frame, and what became of it.
fn put_frame(form: Form, frame: &Frame, answer: &Answered, sent: bool, output: &mut Output)
    ensures { Adds output.old output.new (frame_words form frame.now answer.now sent) }
{
    put_head(frame, output);
    put_outcome(answer, sent, output);
    put_content(form, frame.message.bytes(), output);
    output.end();
}

/// Puts down a frame's address and counter.
fn put_head(frame: &Frame, output: &mut Output)
    ensures { Adds output.old output.new (head_words frame.now) }
{
    output.text("frame");
    output.number(frame.address.value());
    output.byte(frame.counter);
}

/// Puts down what became of a frame, and that its reply could not be written whole, where that is so.
fn put_outcome(answer: &Answered, sent: bool, output: &mut Output)
    ensures { Adds output.old output.new (answer_words answer.now ++ sent_words sent) }
{
    put_answer(answer, output);
    put_sent(sent, output);
}

/// Puts down what became of a frame.
fn put_answer(answer: &Answered, output: &mut Output)
    ensures { Adds output.old output.new (answer_words answer.now) }
{
    match answer {
        Answered::New { code, reply: _ } => {
            output.text(" new");
            put_code(*code, output);
        }
        Answered::Repeat { code, reply: _ } => {
            output.text(" repeat");
            put_code(*code, output);
        }
        Answered::NotNext => output.text(" not next"),
        Answered::Unnumbered => output.text(" unnumbered"),
        Answered::NotForMe => output.text(" not for me"),
        Answered::Dropped(_) => {}
    }
}

/// Puts down a code, and of one that is not 00 what it means.
fn put_code(code: Code, output: &mut Output)
    ensures { Adds output.old output.new (meaning_words code) }
{
    output.byte(code.byte());
    if code.byte() != 0 {
        output.text(" (");
        output.text(meaning(code));
        output.text(")");
    }
}

/// Puts down that a reply could not be written whole, where that is so.
fn put_sent(sent: bool, output: &mut Output)
    ensures { Adds output.old output.new (sent_words sent) }
{
    if !sent {
        output.text(" not sent");
    }
}

/// Puts down a message.
fn put_content(form: Form, message: &[u8], output: &mut Output)
    ensures { Adds output.old output.new (message_words form message.now) }
{
    match form {
        Form::Lines => output.row(message),
        Form::Words(region) => put_phrases(region, message, output),
        Form::Json => {}
    }
}

/// Puts down a message in phrases, if it is not empty.
fn put_phrases(region: Region, message: &[u8], output: &mut Output)
    ensures { Adds output.old output.new (message_words (InWords region) message.now) }
{
    if !message.is_empty() {
        output.text(" ");
        put_message(region, message, output);
    }
}

/// Puts down what became of something that was found, as an object.
fn put_answered(stamp: &str, answer: &Answered, sent: bool, output: &mut Output)
    requires { IsTrue (list_all is_plain stamp.now) }
    ensures { Adds output.old output.new (answered_line stamp.now answer.now sent) }
{
    open_line("answered", output);
    put_time_field(stamp, output);
    put_answer_fields(answer, sent, output);
    close_line(output);
}

/// Puts down the time as a member, if one is told.
#[tactic(auto, using(json_lines::proofs::Public::parts))]
pub(crate) fn put_time_field(stamp: &str, output: &mut Output)
    requires { IsTrue (list_all is_plain stamp.now) }
    ensures { Adds output.old output.new (fields_text (time_fields stamp.now)) }
{
    if !stamp.is_empty() {
        time_field(stamp, output);
    }
}

/// Puts down an answer by its name, and its reply.
fn put_answer_fields(answer: &Answered, sent: bool, output: &mut Output)
    ensures { Adds output.old output.new (fields_text (answer_fields answer.now sent)) }
{
    word_field("answer", name_of(answer), output);
    put_reply(answer, sent, output);
}

/// The name of an answer.
fn name_of(answer: &Answered) -> &'static str
    ensures value { result.now ≡ answer_name answer.now }
    ensures plain { IsTrue (is_plain_text result.now) }
{
    match answer {
        Answered::New { .. } => "new",
        Answered::Repeat { .. } => "repeat",
        Answered::NotNext => "not_next",
        Answered::Unnumbered => "unnumbered",
        Answered::NotForMe => "not_for_me",
        Answered::Dropped(_) => "dropped",
    }
}

/// Puts down the members of a reply, if there is one.
fn put_reply(answer: &Answered, sent: bool, output: &mut Output)
    ensures { Adds output.old output.new (fields_text (reply_fields answer.now sent)) }
{
    match answer {
        Answered::New { code, reply } | Answered::Repeat { code, reply } => {
            put_reply_fields(*code, reply.as_slice(), sent, output);
        }
        Answered::NotNext | Answered::Unnumbered | Answered::NotForMe | Answered::Dropped(_) => {}
    }
}

/// Puts down a code, a reply, and whether that was written whole.
#[tactic(auto, using(json_lines::proofs::Public::parts))]
fn put_reply_fields(code: Code, reply: &[u8], sent: bool, output: &mut Output)
    ensures { Adds output.old output.new (fields_text (code_fields code ++ sent_fields reply.now sent)) }
{
    uecp_json::put_code(code, output);
    digits_field("reply", reply, output);
    flag_field("sent", sent, output);
}
