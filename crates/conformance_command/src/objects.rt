//! The objects of cases, written (profile).
ghost use Rattle.std.specs.Prelude.{IsTrue};
ghost use Rattle.conformance.specs.declared.verdict.Verdict.TheVariants.{Dropped};
ghost use Rattle.json_lines.specs.Texts.{fields_text, is_plain};
ghost use Rattle.uecp_text.specs.Written.{Adds};
ghost use Rattle.conformance_command.specs.Telling.{case_object, case_fields, went_fields, verdict_fields};
ghost use Rattle.conformance_command.specs.Telling.{wanted_fields, count_fields, note_fields};
ghost use Rattle.conformance_command.specs.Telling.{came_fields, tally_fields, tally_object};

use crate::fields::text_field;
use crate::tally::{Tally, is_kept};
use crate::went::Went;
use conformance::{Case, Expected, Reply, Verdict};
use json_lines::{byte_field, close_line, flag_field, number_field, open_line, word_field};
use uecp_frame::FrameFault;
use uecp_text::Output;

/// Adds the object of a case that went so, where joining left so many bytes, and so many came that are no part of a
/// segment.
#[tactic(auto, using(json_lines::proofs::Public::parts))]
pub(crate) fn put_case_object(
    number: usize,
    case: &Case<'_>,
    went: Went,
    left: usize,
    noise: usize,
    output: &mut Output,
)
    ensures { Adds output.old output.new (case_object number case.now went left noise) }
{
    open_line("case", output);
    put_case(number, case, is_kept(went), output);
    put_went(went, output);
    put_note(left, noise, output);
    close_line(output);
}

/// Adds what says nothing of the rule.
fn put_note(left: usize, noise: usize, output: &mut Output)
    ensures { Adds output.old output.new (fields_text (note_fields left noise)) }
{
    put_count("left", left, output);
    put_count("noise", noise, output);
}

/// Adds a number, where it is not 0.
fn put_count(name: &str, count: usize, output: &mut Output)
    requires { IsTrue (is_plain name.now) }
    ensures { Adds output.old output.new (fields_text (count_fields name.now count)) }
{
    if count != 0 {
        number_field(name, count, output);
    }
}

/// Adds what a case is.
fn put_case(number: usize, case: &Case<'_>, kept: bool, output: &mut Output)
    ensures { Adds output.old output.new (fields_text (case_fields number case.now kept)) }
{
    number_field("number", number, output);
    text_field("name", case.name, output);
    text_field("group", case.group, output);
    text_field("rule", case.rule, output);
    flag_field("profile", case.profile, output);
    flag_field("kept", kept, output);
}

/// Adds how it went.
fn put_went(went: Went, output: &mut Output)
    ensures { Adds output.old output.new (fields_text (went_fields went)) }
{
    match went {
        Went::Judged(verdict) => put_verdict(verdict, output),
        Went::NotJoined => word_field("verdict", "not_joined", output),
        Went::Silent => word_field("verdict", "silent", output),
        Went::Floods => word_field("verdict", "floods", output),
        Went::NotSent(written) => {
            word_field("verdict", "not_sent", output);
            number_field("written", written as usize, output);
        }
        Went::NotQuiet => word_field("verdict", "not_quiet", output),
        Went::NotHeard => word_field("verdict", "not_heard", output),
    }
}

/// Adds the verdict and its parts.
fn put_verdict(verdict: Verdict, output: &mut Output)
    ensures { Adds output.old output.new (fields_text (verdict_fields verdict)) }
{
    match verdict {
        Verdict::Kept => word_field("verdict", "kept", output),
        Verdict::Missing(reply) => {
            word_field("verdict", "missing", output);
            put_wanted(reply, output);
        }
        Verdict::Another(reply, came) => {
            word_field("verdict", "another", output);
            put_wanted(reply, output);
            put_came(came, output);
        }
        Verdict::TooMany(came) => {
            word_field("verdict", "too_many", output);
            put_came(came, output);
        }
        Verdict::NoReply => word_field("verdict", "no_reply", output),
        Verdict::Dropped(fault) => put_dropped(fault, output),
    }
}

/// Adds the reply that is wanted.
fn put_wanted(reply: Expected, output: &mut Output)
    ensures { Adds output.old output.new (fields_text (wanted_fields reply)) }
{
    match reply {
        Expected::This(reply) => {
            number_field("wanted_counter", usize::from(reply.counter), output);
            byte_field("wanted_code", reply.code, output);
        }
        Expected::Refusal(counter) => {
            number_field("wanted_counter", usize::from(counter), output);
            flag_field("wanted_refusal", true, output);
        }
    }
}

/// Adds the reply that came.
fn put_came(reply: Reply, output: &mut Output)
    ensures { Adds output.old output.new (fields_text (came_fields reply)) }
{
    number_field("came_counter", usize::from(reply.counter), output);
    byte_field("came_code", reply.code, output);
}

/// Adds why a segment is no frame.
fn put_dropped(fault: FrameFault, output: &mut Output)
    ensures { Adds output.old output.new (fields_text (verdict_fields (Dropped fault))) }
{
    word_field("verdict", "dropped", output);
    number_field("fault", usize::from(fault.number()), output);
    word_field("fault_name", fault.name(), output);
}

/// Adds the object of what was counted.
#[tactic(auto, using(json_lines::proofs::Public::parts))]
pub(crate) fn put_tally_object(cases: usize, tally: Tally, output: &mut Output)
    ensures { Adds output.old output.new (tally_object cases tally) }
{
    open_line("conformance", output);
    put_tally(cases, tally, output);
    close_line(output);
}

/// Adds how many cases were run, and how many of them are kept and are not.
fn put_tally(cases: usize, tally: Tally, output: &mut Output)
    ensures { Adds output.old output.new (fields_text (tally_fields cases tally)) }
{
    number_field("cases", cases, output);
    number_field("kept", tally.kept, output);
    number_field("not_kept", tally.not_kept, output);
    number_field("profile_not_kept", tally.profile_not_kept, output);
}
