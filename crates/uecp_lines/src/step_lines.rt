//! What came of an event, as lines (profile).
ghost use Rattle.std.specs.Prelude.{◌++◌, length, codes};
ghost use Rattle.uecp_elements.specs.Codes.{byte_of};
ghost use Rattle.uecp_text.specs.Digits.{byte_word, counted};
ghost use Rattle.uecp_link.specs.Once.{least_missing};
ghost use Rattle.uecp_link.specs.Holds.{is_acknowledged};
ghost use Rattle.uecp_lines.specs.Steps.{step_words, taken_words, given_up_line, totals_line};
ghost use Rattle.uecp_text.specs.Written.{Adds};

use crate::store_lines::put_group_words;
use rds_store::{Group, RdsStore};
use uecp_elements::Code;
use uecp_link::{Line, LineRefusal, Stepped};
use uecp_text::Output;

/// The line of one step. `named` is the number of the message where the event named one.
pub fn put_step(stepped: Result<Stepped, LineRefusal>, named: usize, output: &mut Output)
    ensures { Adds output.old output.new (step_words stepped named ++ codes "\n") }
{
    put_words(stepped, named, output);
    output.end();
}

/// What that line says.
fn put_words(stepped: Result<Stepped, LineRefusal>, named: usize, output: &mut Output)
    ensures { Adds output.old output.new (step_words stepped named) }
{
    match stepped {
        Ok(Stepped::Numbered(number)) => put_count("numbered", number, output),
        Ok(Stepped::Delivered { fresh, code }) => {
            put_count("delivered", named, output);
            put_code(if fresh { " new" } else { " kept" }, code, output);
        }
        Ok(Stepped::NotNext) => put_count("not next", named, output),
        Ok(Stepped::Acknowledged(code)) => put_code("acknowledged", code, output),
        Ok(Stepped::Stray) => output.text("stray"),
        Ok(Stepped::Noise { dropped }) => put_count("noise", dropped, output),
        Ok(Stepped::Lost) => output.text("lost"),
        Ok(Stepped::Restarted) => output.text("restarted"),
        Ok(Stepped::Taken(group)) => {
            output.text("taken");
            put_taken(group, output);
        }
        Err(refusal) => {
            put_count("refused", usize::from(refusal.number()), output);
            output.text(" ");
            output.text(refusal.name());
        }
    }
}

/// The group that a take gave, or a hyphen where there was none.
fn put_taken(group: Option<Group>, output: &mut Output)
    ensures { Adds output.old output.new (taken_words group) }
{
    match group {
        None => output.text(" -"),
        Some(group) => put_group_words(&group, output),
    }
}

/// A name and a count.
#[tactic(auto, unfolding(uecp_text::specs::Digits::counted))]
pub fn put_count(name: &str, number: usize, output: &mut Output)
    ensures { Adds output.old output.new (counted name.now number) }
{
    output.text(name);
    output.decimal(number);
}

fn put_code(name: &str, code: Code, output: &mut Output)
    ensures { Adds output.old output.new (name.now ++ byte_word (byte_of code)) }
{
    output.text(name);
    output.byte(code.byte());
}

/// The line of a server that was started again, and of how many messages were given up.
pub fn put_given_up(given_up: usize, output: &mut Output)
    ensures { Adds output.old output.new (given_up_line given_up) }
{
    put_count("given up", given_up, output);
    output.end();
}

/// The line of totals.
pub fn put_totals(line: &Line<RdsStore>, output: &mut Output)
    ensures { Adds output.old output.new (totals_line (length line.now.sent) (length line.now.codes)
        (least_missing (is_acknowledged line.now) (length line.now.sent))) }
{
    put_counts(
        line.sent().len(),
        line.applied(),
        line.acknowledged(),
        output,
    );
}

/// The line of these totals.
fn put_counts(sent: usize, applied: usize, acknowledged: usize, output: &mut Output)
    ensures { Adds output.old output.new (totals_line sent applied acknowledged) }
{
    put_count("sent", sent, output);
    put_count(" applied", applied, output);
    put_count(" acknowledged", acknowledged, output);
    output.end();
}
