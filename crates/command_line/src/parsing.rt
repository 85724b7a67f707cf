//! The words of the command line (profile).
ghost use Rattle.std.specs.Prelude.{map, IfOk, IfErr};
ghost use Rattle.std.specs.String.{string_bytes};
ghost use Rattle.clap.specs.Words.{found_of, rows_of};
ghost use Rattle.command_line.specs.Ranges.{IsInRange};
ghost use Rattle.command_line.specs.CommandLine.{Asks, IsFullOf, RefusesJobOf, RefusesWords, command_word};

use crate::command_name::CommandName;
use crate::conformance_options::conformance_of;
use crate::definition::program;
use crate::encoder_options::encoder_of;
use crate::matched::{answer_of, line_of, make_of, server_of, show_of, state_of, watch_of};
use crate::page_options::page_of;
use crate::receive_options::receive_of;
use crate::send_options::send_of;
use crate::usage::Usage;
use clap::ArgMatches;
use commands::{Job, in_short};
use std::alloc::Global;

/// Reads the words of a command line, the first being the program's name.
pub fn parse(alloc: Global, words: &[String]) -> Result<Job, Usage>
    ensures range { IfOk result IsInRange }
    // The words have no fault, and the job is that of the command that they name, with their options: in few words
    // where no later option is given.
    ensures asked { IfOk result (Asks (map string_bytes words.now)) }
    // The words have a fault, or their list of services is none. Or there was no memory.
    ensures refused { IfErr result (RefusesWords (map string_bytes words.now)) }
{
    let matches = program(alloc)?.try_get_matches_from(words)?;
    match matches.subcommand() {
        Some((word, found)) => match CommandName::named(word) {
            Some(command) => match full_of(alloc, command, found) {
                Ok(job) => Ok(in_short(job)),
                Err(why) => Err(why),
            },
            None => unreachable!(),
        },
        None => unreachable!(),
    }
}

/// What the matches of this command ask for, with all its options.
fn full_of(alloc: Global, command: CommandName, found: &ArgMatches<'_>) -> Result<Job, Usage>
    ensures full { IfOk result (IsFullOf (command_word command) (rows_of (found_of found.now))) }
    ensures refused { IfErr result (RefusesJobOf command (rows_of (found_of found.now))) }
{
    match command {
        CommandName::Answer => answer_of(alloc, found),
        CommandName::Show => Ok(show_of(found)),
        CommandName::Make => make_of(alloc, found),
        CommandName::Line => line_of(alloc, found),
        CommandName::Encoder => encoder_of(alloc, found),
        CommandName::Server => server_of(alloc, found),
        CommandName::Send => send_of(alloc, found),
        CommandName::Watch => Ok(watch_of(found)),
        CommandName::State => state_of(alloc, found),
        CommandName::Receive => Ok(receive_of(found)),
        CommandName::Conformance => conformance_of(alloc, found),
        CommandName::Page => page_of(alloc, found),
        CommandName::Quote => Ok(Job::Quote),
        CommandName::Phrases => Ok(Job::Phrases),
    }
}
