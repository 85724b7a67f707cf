//! What the matches of the command `encoder` ask for (profile).
ghost use Rattle.std.specs.Prelude.{◌≡◌, codes, option_map, IfOk, IfErr};
ghost use Rattle.std.specs.String.{string_bytes};
ghost use Rattle.clap.specs.Words.{first_of, found_of, rows_of};
ghost use Rattle.command_line.specs.CommandLine.{IsEncoder, IsFullOf, IsList, RefusesList, services_text};

use crate::forms::{flag_of, form_of};
use crate::matched::{given_of, is_timed, list_of, maybe_of, number_of, short_of, small_of};
use crate::numbers::{
    AIR_PORT, CONNECTIONS, ENCODER, IDLE, LOG_WAIT, PORT, SEED, SERVE_TURNS, SETS, SITE, YIELD,
};
use crate::send_options::word_of;
use crate::usage::Usage;
use clap::ArgMatches;
use commands::{EncoderOptions, Job};
use std::alloc::Global;

/// What the command `encoder` asks for.
pub fn encoder_of(alloc: Global, found: &ArgMatches<'_>) -> Result<Job, Usage>
    ensures job { IfOk result (IsFullOf (codes "encoder") (rows_of (found_of found.now))) }
    ensures refused { IfErr result (RefusesList (services_text (rows_of (found_of found.now)))) }
{
    let services = list_of(alloc, found)?;
    let listen = word_of(alloc, found, "listen")?;
    let allow = word_of(alloc, found, "allow")?;
    let faults = word_of(alloc, found, "faults")?;
    let state = word_of(alloc, found, "state")?;
    Ok(Job::EncoderWith(with_words(found, services, listen, allow, faults, state)))
}

/// The options of the command, with its words.
fn with_words(
    found: &ArgMatches<'_>,
    services: Vec<u8>,
    listen: Option<String>,
    allow: Option<String>,
    faults: Option<String>,
    state: Option<String>,
) -> EncoderOptions
    requires services { IsList (services_text (rows_of (found_of found.now))) services.items }
    requires listen { option_map string_bytes listen ≡ first_of (codes "listen") (rows_of (found_of found.now)) }
    requires allow { option_map string_bytes allow ≡ first_of (codes "allow") (rows_of (found_of found.now)) }
    requires faults { option_map string_bytes faults ≡ first_of (codes "faults") (rows_of (found_of found.now)) }
    requires state { option_map string_bytes state ≡ first_of (codes "state") (rows_of (found_of found.now)) }
    ensures { IsEncoder (rows_of (found_of found.now)) result }
{
    EncoderOptions {
        site: short_of(found, &SITE),
        encoder: small_of(found, &ENCODER),
        sets: small_of(found, &SETS),
        services,
        listen,
        port: given_of(found, &PORT),
        air: given_of(found, &AIR_PORT),
        air_bits: flag_of(found, "air-bits"),
        connections: number_of(found, &CONNECTIONS),
        turns: number_of(found, &SERVE_TURNS),
        forever: flag_of(found, "forever"),
        idle: number_of(found, &IDLE),
        yield_after: maybe_of(found, &YIELD),
        allow,
        log: flag_of(found, "log"),
        log_wait: maybe_of(found, &LOG_WAIT),
        form: form_of(found),
        time: is_timed(found),
        store: flag_of(found, "final-store"),
        faults,
        seed: number_of(found, &SEED),
        state,
    }
}
