//! What came of an event, as objects (profile).
ghost use Rattle.std.specs.Prelude.{length, [], ◌∷◌, codes, Ok, IsTrue};
ghost use Rattle.serde_json.specs.Data.{string};
ghost use Rattle.serde_json.specs.Written.{compact_text};
ghost use Rattle.uecp_link.specs.Once.{least_missing};
ghost use Rattle.uecp_link.specs.Holds.{is_acknowledged};
ghost use Rattle.uecp_link.specs.declared.stepped.Stepped.TheVariants.{Delivered, Acknowledged, Taken};
ghost use Rattle.uecp_link.specs.Refusal.{number_of, name_of};
ghost use Rattle.json_lines.specs.Objects.{in_decimal, line_of};
ghost use Rattle.json_lines.specs.Texts.{is_plain, fields_text};
ghost use Rattle.uecp_json.specs.Steps.{code_fields, bits_fields, taken_group, step_line, given_up_line};
ghost use Rattle.uecp_json.specs.Steps.{total_fields, totals_line};
ghost use Rattle.uecp_text.specs.Written.{Adds};

use crate::elements::put_blocks;
use crate::meanings::meaning;
use json_lines::{
    byte_field, close, close_line, flag_field, number_field, open_digits, open_line, put_kind,
    put_name, put_null, word_field,
};
use rds_store::{Group, RdsStore};
use uecp_elements::Code;
use uecp_link::{Line, LineRefusal, Stepped};
use uecp_text::Output;

/// The line of one step. `named` is the number of the message where the event named one.
pub fn put_step(stepped: Result<Stepped, LineRefusal>, named: usize, output: &mut Output)
    ensures { Adds output.old output.new (step_line stepped named) }
{
    match stepped {
        Ok(Stepped::Numbered(number)) => put_count("numbered", "message", number, output),
        Ok(Stepped::Delivered { fresh, code }) => put_delivered(named, fresh, code, output),
        Ok(Stepped::NotNext) => put_count("not_next", "message", named, output),
        Ok(Stepped::Acknowledged(code)) => put_acknowledged(code, output),
        Ok(Stepped::Stray) => put_kind("stray", output),
        Ok(Stepped::Noise { dropped }) => put_count("noise", "dropped", dropped, output),
        Ok(Stepped::Lost) => put_kind("lost", output),
        Ok(Stepped::Restarted) => put_kind("restarted", output),
        Ok(Stepped::Taken(group)) => put_taken(group, output),
        Err(refusal) => put_refused(refusal, output),
    }
}

/// A line of a kind, with one number.
#[tactic(auto, using(json_lines::proofs::Public::parts))]
fn put_count(kind: &str, name: &str, number: usize, output: &mut Output)
    requires kind { IsTrue (is_plain kind.now) }
    requires name { IsTrue (is_plain name.now) }
    ensures { Adds output.old output.new (line_of kind.now ((name.now, in_decimal number) ∷ [])) }
{
    open_line(kind, output);
    number_field(name, number, output);
    close_line(output);
}

/// The line of a message that the encoder has.
#[tactic(auto, using(json_lines::proofs::Public::parts))]
fn put_delivered(named: usize, fresh: bool, code: Code, output: &mut Output)
    ensures { Adds output.old output.new (step_line (Ok (Delivered fresh code)) named) }
{
    open_line("delivered", output);
    number_field("message", named, output);
    flag_field("fresh", fresh, output);
    put_code(code, output);
    close_line(output);
}

/// The line of a message of which the server knows that it arrived.
#[tactic(auto, using(json_lines::proofs::Public::parts))]
fn put_acknowledged(code: Code, output: &mut Output)
    ensures { Adds output.old output.new (line_of (codes "acknowledged") (code_fields code)) }
{
    open_line("acknowledged", output);
    put_code(code, output);
    close_line(output);
}

/// A code and what it means.
pub fn put_code(code: Code, output: &mut Output)
    ensures { Adds output.old output.new (fields_text (code_fields code)) }
{
    byte_field("code", code.byte(), output);
    word_field("meaning", meaning(code), output);
}

/// The line of a group that was to be taken.
#[tactic(auto, unfolding(json_lines::specs::Texts::field_text), using(json_lines::proofs::Public::parts))]
fn put_taken(group: Option<Group>, output: &mut Output)
    ensures { Adds output.old output.new (line_of (codes "taken") ((codes "group", taken_group group) ∷ [])) }
{
    open_line("taken", output);
    put_name("group", output);
    put_group(group, output);
    close_line(output);
}

/// The object of a group, or null where there was none.
#[tactic(auto, using(json_lines::proofs::Public::parts))]
fn put_group(group: Option<Group>, output: &mut Output)
    ensures { Adds output.old output.new (compact_text (taken_group group)) }
{
    match group {
        None => put_null(output),
        Some(group) => {
            open_digits("type", &[group.kind], output);
            put_bits(&group, output);
            close(output);
        }
    }
}

/// The line of a refusal.
#[tactic(auto, using(json_lines::proofs::Public::parts))]
fn put_refused(refusal: LineRefusal, output: &mut Output)
    ensures { Adds output.old output.new (line_of (codes "refused")
        ((codes "number", in_decimal (number_of refusal)) ∷ (codes "name", string (name_of refusal)) ∷ [])) }
{
    open_line("refused", output);
    number_field("number", usize::from(refusal.number()), output);
    word_field("name", refusal.name(), output);
    close_line(output);
}

/// The line of a server that was started again, and of how many messages were given up.
pub fn put_given_up(given_up: usize, output: &mut Output)
    ensures { Adds output.old output.new (given_up_line given_up) }
{
    put_count("given_up", "count", given_up, output);
}

/// The line of totals.
pub fn put_totals(line: &Line<RdsStore>, output: &mut Output)
    ensures { Adds output.old output.new (totals_line (length line.now.sent) (length line.now.codes)
        (least_missing (is_acknowledged line.now) (length line.now.sent))) }
{
    put_counts(
        line.sent().len(),
        line.applied(),
        line.acknowledged(),
        output,
    );
}

/// The line of these totals.
#[tactic(auto, using(json_lines::proofs::Public::parts))]
fn put_counts(sent: usize, applied: usize, acknowledged: usize, output: &mut Output)
    ensures { Adds output.old output.new (totals_line sent applied acknowledged) }
{
    open_line("totals", output);
    put_each(sent, applied, acknowledged, output);
    close_line(output);
}

/// Each of the totals.
fn put_each(sent: usize, applied: usize, acknowledged: usize, output: &mut Output)
    ensures { Adds output.old output.new (fields_text (total_fields sent applied acknowledged)) }
{
    number_field("sent", sent, output);
    number_field("applied", applied, output);
    number_field("acknowledged", acknowledged, output);
}

/// What a group holds behind its type.
pub fn put_bits(group: &Group, output: &mut Output)
    ensures { Adds output.old output.new (fields_text (bits_fields group.now)) }
{
    byte_field("bits", group.bits, output);
    put_blocks(group.block3, group.block4, output);
}
