//! The form of the output for which the matches of a command ask (profile).
ghost use Rattle.std.specs.Prelude.{◌≡◌};
ghost use Rattle.clap.specs.Words.{found_of, one_of, rows_of};
ghost use Rattle.command_line.specs.CommandLine.{IsFlag, IsWording, IsForm, worded};

use clap::ArgMatches;
use rds_text::Region;
use uecp_jobs::Form;

/// Whether a flag is given.
pub fn flag_of(found: &ArgMatches<'_>, name: &str) -> bool
    ensures { IsFlag (one_of name.now (rows_of (found_of found.now))) result }
{
    found.get_flag(name)
}

/// Lines, or words where a flag asks for them.
pub fn wording_of(found: &ArgMatches<'_>) -> Form
    ensures { IsWording (rows_of (found_of found.now)) result }
{
    worded(flag_of(found, "words"), flag_of(found, "rbds"))
}

/// The form for which the flags ask. JSON goes before words.
pub fn form_of(found: &ArgMatches<'_>) -> Form
    ensures { IsForm (rows_of (found_of found.now)) result }
{
    let plain = wording_of(found);
    if flag_of(found, "json") {
        Form::Json
    } else {
        plain
    }
}

/// Words where they are asked for, with the names of North America where those are.
fn worded(words: bool, rbds: bool) -> Form
    ensures { result ≡ worded words rbds }
{
    if rbds {
        Form::Words(Region::NorthAmerica)
    } else if words {
        Form::Words(Region::Europe)
    } else {
        Form::Lines
    }
}
