//! The lines of messages (profile).
ghost use Rattle.std.specs.Prelude.{◌+◌, ◌^◌, ◌<◌, ◌++◌, [], ◌∷◌, codes, length, IsTrue};
ghost use Rattle.std.specs.List.{list_all};
ghost use Rattle.json_lines.specs.Objects.{in_decimal, line_of};
ghost use Rattle.json_lines.specs.Texts.{fields_text};
ghost use Rattle.uecp_json.specs.Findings.{message_fields};
ghost use Rattle.uecp_json.specs.Steps.{code_fields};
ghost use Rattle.uecp_text.specs.Written.{Adds};
ghost use Rattle.json_lines.specs.Stamps.{is_plain};
ghost use Rattle.sending.specs.Objects.{number_fields, cost_fields, answer_line, answer_lines, held_lines};
ghost use Rattle.sending.specs.Objects.{unknown_line, unknown_lines};

use crate::sent::Sent;
use json_lines::{close_line, number_field, open_line, time_field};
use uecp_elements::Code;
use uecp_json::{put_code, put_message};
use uecp_text::Output;

/// The lines of these messages, each sent under its counter, that were answered with these codes, the first of which
/// has this number. `stamp` is when that is told, `tries` how many tries they took, and `milliseconds` how long.
pub(crate) fn put_answers(
    stamp: &str,
    tries: u32,
    milliseconds: u64,
    first: u64,
    sent: &[Sent],
    codes: &[Code],
    output: &mut Output,
)
    requires plain { IsTrue (list_all is_plain stamp.now) }
    requires countable { first + length codes.now < 2 ^ 64 }
    ensures { Adds output.old output.new (answer_lines stamp.now tries milliseconds first sent.now codes.now) }
{
    if let Some((code, told)) = codes.split_first() {
        if let Some((one, rest)) = sent.split_first() {
            put_answer(stamp, tries, milliseconds, first, one, *code, output);
            put_answers(stamp, tries, milliseconds, first + 1, rest, told, output);
        }
    }
}

/// The lines of messages that are held, the first of which has this number: of each that is not marked, which is the
/// next of these with its counter, by the next of these codes.
pub(crate) fn put_held_answers(
    stamp: &str,
    tries: u32,
    milliseconds: u64,
    first: u64,
    marks: &[bool],
    sent: &[Sent],
    codes: &[Code],
    output: &mut Output,
)
    requires plain { IsTrue (list_all is_plain stamp.now) }
    requires countable { first + length marks.now < 2 ^ 64 }
    ensures { Adds output.old output.new (held_lines stamp.now tries milliseconds first marks.now sent.now
        codes.now) }
{
    if let Some((marked, rest)) = marks.split_first() {
        if *marked {
            put_held_answers(
                stamp,
                tries,
                milliseconds,
                first + 1,
                rest,
                sent,
                codes,
                output,
            );
        } else if let Some((one, others)) = sent.split_first() {
            if let Some((code, told)) = codes.split_first() {
                put_answer(stamp, tries, milliseconds, first, one, *code, output);
                put_held_answers(
                    stamp,
                    tries,
                    milliseconds,
                    first + 1,
                    rest,
                    others,
                    told,
                    output,
                );
            }
        }
    }
}

/// The line of a message.
fn put_answer(
    stamp: &str,
    tries: u32,
    milliseconds: u64,
    number: u64,
    sent: &Sent,
    code: Code,
    output: &mut Output,
)
    requires { IsTrue (list_all is_plain stamp.now) }
    ensures { Adds output.old output.new (answer_line stamp.now tries milliseconds number sent.now code) }
{
    open_line("answer", output);
    put_fields(stamp, tries, milliseconds, number, sent, code, output);
    close_line(output);
}

/// What is told of a message.
fn put_fields(
    stamp: &str,
    tries: u32,
    milliseconds: u64,
    number: u64,
    sent: &Sent,
    code: Code,
    output: &mut Output,
)
    requires { IsTrue (list_all is_plain stamp.now) }
    ensures { Adds output.old output.new (fields_text (number_fields stamp.now number sent.now.0
        ++ (code_fields code ++ (cost_fields tries milliseconds ++ message_fields sent.now.1)))) }
{
    put_number(stamp, number, sent.counter(), output);
    put_code(code, output);
    put_cost(tries, milliseconds, output);
    put_message(sent.bytes(), output);
}

/// The number, the time and the counter of a message.
fn put_number(stamp: &str, number: u64, counter: u8, output: &mut Output)
    requires { IsTrue (list_all is_plain stamp.now) }
    ensures { Adds output.old output.new (fields_text (number_fields stamp.now number counter)) }
{
    number_field("number", number as usize, output);
    time_field(stamp, output);
    number_field("counter", usize::from(counter), output);
}

/// What a batch cost.
fn put_cost(tries: u32, milliseconds: u64, output: &mut Output)
    ensures { Adds output.old output.new (fields_text (cost_fields tries milliseconds)) }
{
    number_field("tries", tries as usize, output);
    number_field("milliseconds", milliseconds as usize, output);
}

/// The lines of so many messages of which can't be known whether they were applied, the first of which has this number.
pub(crate) fn put_unknown(first: u64, count: usize, output: &mut Output)
    requires { first + count < 2 ^ 64 }
    ensures { Adds output.old output.new (unknown_lines first count) }
{
    if count > 0 {
        put_one_unknown(first, output);
        put_unknown(first + 1, count - 1, output);
    }
}

/// The line of one of them.
#[tactic(auto, using(json_lines::proofs::Public::parts))]
fn put_one_unknown(number: u64, output: &mut Output)
    ensures { Adds output.old output.new (unknown_line number) }
{
    open_line("unknown", output);
    number_field("number", number as usize, output);
    close_line(output);
}
