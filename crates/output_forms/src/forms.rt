//! What there is to say, in each form (profile).
ghost use Rattle.std.specs.Prelude.{◌≡◌, ◌++◌, codes, flat_map, length};
ghost use Rattle.uecp_frame.specs.Feeding.{findings_of};
ghost use Rattle.uecp_encoder.specs.Answering.{responses_of};
ghost use Rattle.uecp_link.specs.Once.{least_missing};
ghost use Rattle.uecp_link.specs.Holds.{is_acknowledged};
ghost use Rattle.uecp_text.specs.Written.{Adds};
ghost use Rattle.output_forms.specs.Forms.{found_lines, answer_lines, remark_line, store_lines, step_lines};
ghost use Rattle.output_forms.specs.Forms.{given_up_lines, totals_lines};

use crate::form::Form;
use rds_store::RdsStore;
use uecp_encoder::What;
use uecp_frame::Found;
use uecp_link::{Line, LineRefusal, Stepped};
use uecp_text::Output;

/// The lines of what a piece ended: none, a frame's, or that of a segment that is no frame.
#[inline(always)]
pub fn put_found(form: Form, found: &Found, output: &mut Output)
    ensures { Adds output.old output.new (flat_map (found_lines form) (findings_of found.now)) }
{
    match form {
        Form::Lines => uecp_lines::put_found(found, output),
        Form::Words(region) => phrase_scripts::put_found(region, found, output),
        Form::Json => uecp_json::put_found(found, output),
    }
}

/// The line of what an encoder answers, if it answers.
#[inline(always)]
pub fn put_answer(form: Form, what: What<'_>, output: &mut Output)
    ensures { Adds output.old output.new (flat_map (answer_lines form) (responses_of what.entry)) }
{
    match form {
        Form::Lines => uecp_lines::put_answer(what, output),
        Form::Words(_) => put_remark(what, output),
        Form::Json => uecp_json::put_answer(what, output),
    }
}

/// The same behind `#`.
fn put_remark(what: What<'_>, output: &mut Output)
    ensures { Adds output.old output.new (flat_map remark_line (responses_of what.entry)) }
{
    match what {
        What::Nothing => {}
        _ => {
            output.text("# ");
            uecp_lines::put_answer(what, output);
        }
    }
}

/// The line of what came of an event that named the message `named`.
pub fn put_step(form: Form, step: Result<Stepped, LineRefusal>, named: usize, output: &mut Output)
    ensures { Adds output.old output.new (step_lines form step named) }
{
    match form {
        Form::Lines => uecp_lines::put_step(step, named, output),
        Form::Words(_) => {
            output.text("# ");
            uecp_lines::put_step(step, named, output);
        }
        Form::Json => uecp_json::put_step(step, named, output),
    }
}

/// The line of a server that was started again, and gave up so many messages.
pub fn put_given_up(form: Form, given_up: usize, output: &mut Output)
    ensures { Adds output.old output.new (given_up_lines form given_up) }
{
    match form {
        Form::Lines => uecp_lines::put_given_up(given_up, output),
        Form::Words(_) => {
            output.text("# ");
            uecp_lines::put_given_up(given_up, output);
        }
        Form::Json => uecp_json::put_given_up(given_up, output),
    }
}

/// The line of a line's totals: how many messages were sent and applied, and below which number all are acknowledged.
pub fn put_totals(form: Form, line: &Line<RdsStore>, output: &mut Output)
    ensures { Adds output.old output.new (totals_lines form (length line.now.sent) (length line.now.codes)
        (least_missing (is_acknowledged line.now) (length line.now.sent))) }
{
    match form {
        Form::Lines => uecp_lines::put_totals(line, output),
        Form::Words(_) => {
            output.text("# ");
            uecp_lines::put_totals(line, output);
        }
        Form::Json => uecp_json::put_totals(line, output),
    }
}

/// The lines of a store where they are asked for.
pub fn put_store(form: Form, store: &RdsStore, asked: bool, output: &mut Output)
    ensures { Adds output.old output.new (store_lines form asked store.now) }
{
    if asked {
        match form {
            Form::Lines => uecp_lines::put_last(store, true, output),
            Form::Words(region) => store_phrases::put_store(region, store, output),
            Form::Json => uecp_json::put_store(store, output),
        }
    }
}
