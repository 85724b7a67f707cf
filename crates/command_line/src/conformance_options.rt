//! What the matches of the command `conformance` ask for (profile).
ghost use Rattle.std.specs.Prelude.{◌≡◌, [], codes, option_map, IfOk, IfErr};
ghost use Rattle.std.specs.String.{string_bytes};
ghost use Rattle.clap.specs.Words.{first_of, found_of, rows_of};
ghost use Rattle.command_line.specs.CommandLine.{IsConformance, IsFullOf, word_text};
ghost use Rattle.command_line.specs.declared.usage.Usage.TheVariants.{OutOfMemory};

use crate::forms::flag_of;
use crate::matched::{argument_of, number_of, short_of, small_of};
use crate::numbers::{CASE_SILENT, CASE_TIMEOUT, ENCODER, QUIET, SITE};
use crate::send_options::word_of;
use crate::usage::Usage;
use clap::ArgMatches;
use commands::{ConformanceOptions, Job};
use std::alloc::Global;

/// What the command `conformance` asks for.
pub fn conformance_of(alloc: Global, found: &ArgMatches<'_>) -> Result<Job, Usage>
    ensures job { IfOk result (IsFullOf (codes "conformance") (rows_of (found_of found.now))) }
    ensures refused { IfErr result (λ why. why ≡ OutOfMemory) }
{
    let place = argument_of(alloc, found, "place")?;
    let only = word_of(alloc, found, "only")?;
    Ok(Job::Conformance(with_words(found, place, only)))
}

/// The options of the command, with its words.
fn with_words(found: &ArgMatches<'_>, place: String, only: Option<String>) -> ConformanceOptions
    requires place { string_bytes place ≡ word_text (codes "place") [] (rows_of (found_of found.now)) }
    requires only { option_map string_bytes only ≡ first_of (codes "only") (rows_of (found_of found.now)) }
    ensures { IsConformance (rows_of (found_of found.now)) result }
{
    ConformanceOptions {
        place,
        site: short_of(found, &SITE),
        encoder: small_of(found, &ENCODER),
        only,
        timeout: number_of(found, &CASE_TIMEOUT),
        quiet: number_of(found, &QUIET),
        silent: number_of(found, &CASE_SILENT),
        verbose: flag_of(found, "verbose"),
        json: flag_of(found, "json"),
    }
}
