//! The time that stands before what a read brought (profile).
ghost use Rattle.std.specs.Prelude.{ℕ, List};
ghost use Rattle.std.specs.List.{list_all};
ghost use Rattle.std.specs.Prelude.{IsTrue};
ghost use Rattle.json_lines.specs.Stamps.{is_plain, IsStamp};
ghost use Rattle.output_forms.specs.declared.form.Form.TheVariants.{Lines, Json};
ghost use Rattle.uecp_text.specs.Written.{Adds};
ghost use Rattle.uecp_watch.specs.Watching.{time_line};

use json_lines::{close_line, open_line, stamp_of, time_field};
use output_forms::Form;
use std::time::Clock;
use uecp_text::Output;

/// The line of the time that the clock tells.
pub(crate) fn put_time<C: Clock>(form: Form, clock: &C, output: &mut Output)
    ensures { (stamp : List ℕ) × IsStamp stamp × Adds output.old output.new (time_line form stamp) }
{
    let stamp = stamp_of(clock);
    let stamp = stamp.as_str();
    match form {
        Form::Lines => put_remark(stamp, output),
        Form::Words(_) => put_remark(stamp, output),
        Form::Json => put_object(stamp, output),
    }
}

/// The stamp behind `#`.
fn put_remark(stamp: &str, output: &mut Output)
    ensures { Adds output.old output.new (time_line Lines stamp.now) }
{
    output.text("# ");
    output.text(stamp);
    output.end();
}

/// The stamp in an object of JSON.
#[tactic(auto, using(json_lines::proofs::Public::parts))]
fn put_object(stamp: &str, output: &mut Output)
    requires { IsTrue (list_all is_plain stamp.now) }
    ensures { Adds output.old output.new (time_line Json stamp.now) }
{
    open_line("time", output);
    time_field(stamp, output);
    close_line(output);
}
