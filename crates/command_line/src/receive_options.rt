//! What the matches of the command `receive` ask for (profile).
ghost use Rattle.std.specs.Prelude.{codes};
ghost use Rattle.clap.specs.Words.{found_of, rows_of};
ghost use Rattle.command_line.specs.CommandLine.{IsFullOf, IsShownForm};

use crate::forms::flag_of;
use crate::matched::is_timed;
use crate::send_options::region_of;
use clap::ArgMatches;
use commands::{Job, ReceiveOptions, ShownForm};

/// What the command `receive` asks for.
pub fn receive_of(found: &ArgMatches<'_>) -> Job
    ensures { IsFullOf (codes "receive") (rows_of (found_of found.now)) result }
{
    Job::Receive(ReceiveOptions {
        form: shown_form(found),
        time: is_timed(found),
        bits: flag_of(found, "bits"),
    })
}

/// In which form is told what is shown.
fn shown_form(found: &ArgMatches<'_>) -> ShownForm
    ensures { IsShownForm (rows_of (found_of found.now)) result }
{
    let region = region_of(found);
    if flag_of(found, "json") {
        ShownForm::Json
    } else {
        ShownForm::Words(region)
    }
}
