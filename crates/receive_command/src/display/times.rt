//! The time before what is told (profile).
ghost use Rattle.std.specs.Prelude.{ℕ, List, codes, is_some};
ghost use Rattle.rds_text.specs.declared.programme_type.Region.{Region};
ghost use Rattle.output_forms.specs.declared.form.Form.TheVariants as form;
ghost use Rattle.serde_json.specs.Data.{string};
ghost use Rattle.json_lines.specs.Objects.{Field};
ghost use Rattle.json_lines.specs.Texts.{field_text, fields_text};
ghost use Rattle.uecp_text.specs.Written.{Adds};
ghost use Rattle.json_lines.specs.Stamps.{IsStamp};
ghost use Rattle.uecp_watch.specs.Watching.{IsTime};
ghost use Rattle.receive_command.specs.Told.{IsTimeIn};

use json_lines::{stamp_of, time_field};
use rds_text::Region;
use std::time::Clock;
use uecp_text::Output;

/// Adds the time behind `#`, where there is a clock.
pub(crate) fn put_time<C: Clock>(region: Region, clock: Option<&C>, output: &mut Output)
    ensures { (time : List ℕ) × IsTime (form.Words region) (is_some clock.entry) time
        × Adds output.old output.new time }
{
    if let Some(clock) = clock {
        let stamp = stamp_of(clock);
        output.text("# ");
        output.text(stamp.as_str());
        output.end();
    }
}

/// Adds the member of the time, where there is a clock.
pub(crate) fn put_time_field<C: Clock>(clock: Option<&C>, output: &mut Output)
    ensures { (time : List Field) × IsTimeIn (is_some clock.entry) time
        × Adds output.old output.new (fields_text time) }
{
    if let Some(clock) = clock {
        put_stamp(clock, output);
    }
}

/// The member of what a clock shows.
fn put_stamp<C: Clock>(clock: &C, output: &mut Output)
    ensures { (stamp : List ℕ) × IsStamp stamp × Adds output.old output.new (field_text (codes "time") (string stamp)) }
{
    let stamp = stamp_of(clock);
    time_field(stamp.as_str(), output);
}
