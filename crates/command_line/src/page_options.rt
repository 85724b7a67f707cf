//! What the matches of the command `page` ask for (profile).
ghost use Rattle.std.specs.Prelude.{◌≡◌, codes, IfOk, IfErr};
ghost use Rattle.clap.specs.Words.{found_of, rows_of};
ghost use Rattle.command_line.specs.CommandLine.{IsFullOf};
ghost use Rattle.command_line.specs.declared.usage.Usage.TheVariants.{OutOfMemory};

use crate::matched::{given_of, maybe_of};
use crate::numbers::{PAGE_PORT, STALE};
use crate::send_options::word_of;
use crate::usage::Usage;
use clap::ArgMatches;
use commands::{Job, PageOptions};
use std::alloc::Global;

/// What the command `page` asks for.
pub fn page_of(alloc: Global, found: &ArgMatches<'_>) -> Result<Job, Usage>
    ensures job { IfOk result (IsFullOf (codes "page") (rows_of (found_of found.now))) }
    ensures refused { IfErr result (λ why. why ≡ OutOfMemory) }
{
    Ok(Job::Page(PageOptions {
        listen: word_of(alloc, found, "listen")?,
        port: given_of(found, &PAGE_PORT),
        stale: maybe_of(found, &STALE),
    }))
}
