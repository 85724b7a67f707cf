//! The jobs that the matches of the program's commands ask for (profile).
ghost use Rattle.std.specs.Prelude.{◌≡◌, ◌⊎◌, ◌≤◌, [], codes, option_map, IfOk, IfErr};
ghost use Rattle.std.specs.String.{string_bytes};
ghost use Rattle.clap.specs.Values.{kind_of};
ghost use Rattle.clap.specs.Words.{first_of, found_of, one_of, rows_of};
ghost use Rattle.clap.specs.declared.error.Error.{Error};
ghost use Rattle.clap.specs.declared.error.kind.ErrorKind.TheVariants.{InvalidValue};
ghost use Rattle.commands.specs.Host.{NamesHost};
ghost use Rattle.command_line.specs.CommandLine.{IsOption, IsList, IsFullOf, RefusesList, services_text, host_text};
ghost use Rattle.command_line.specs.CommandLine.{HasNoForm, IsMaybe, IsServer, IsTimed, RefusesLine, RefusesScript};
ghost use Rattle.command_line.specs.CommandLine.{ladder_word, word_text};
ghost use Rattle.commands.specs.declared.job.Job.TheVariants.{MakeWith};
ghost use Rattle.command_line.specs.declared.usage.Usage.TheVariants.{OutOfMemory, Refused};

use crate::definition::program;
use crate::forms::{flag_of, form_of, wording_of};
use crate::numbers::{
    AIR_GROUPS, ENCODER, NumberOption, PORT, RECONNECTS, SETS, SITE, TIMEOUT, TRIES, TRY_TURNS,
    WINDOW,
};
use crate::send_options::word_of;
use crate::services::services_of;
use crate::title_options::refusal;
use crate::usage::Usage;
use clap::ArgMatches;
use clap::error::ErrorKind;
use commands::{
    AnswerOptions, Job, LadderForm, LineOptions, MakeOptions, ServerOptions, ShowOptions,
    WatchOptions, host_named,
};
use rds_text::Region;
use std::alloc::{AllocError, Global};
use uecp_jobs::Form;

/// The number of an option.
pub(crate) fn number_of(found: &ArgMatches<'_>, option: &NumberOption) -> u32
    requires { option.now.least ≤ option.now.most }
    ensures { IsOption (one_of option.now.name.now (rows_of (found_of found.now))) option.now.least option.now.most
        result }
{
    found
        .get_one::<u32>(option.name)
        .unwrap_or(option.least)
        .clamp(option.least, option.most)
}

/// The number of an option that is 65535 at most.
pub(crate) fn short_of(found: &ArgMatches<'_>, option: &NumberOption) -> u16
    requires range { option.now.least ≤ option.now.most }
    requires short { option.now.most ≤ 65535 }
    ensures { IsOption (one_of option.now.name.now (rows_of (found_of found.now))) option.now.least option.now.most
        result }
{
    number_of(found, option) as u16
}

/// The number of an option that is 255 at most.
pub(crate) fn small_of(found: &ArgMatches<'_>, option: &NumberOption) -> u8
    requires range { option.now.least ≤ option.now.most }
    requires small { option.now.most ≤ 255 }
    ensures { IsOption (one_of option.now.name.now (rows_of (found_of found.now))) option.now.least option.now.most
        result }
{
    number_of(found, option) as u8
}

/// The number of an option that may be left out, and is 65535 at most.
pub(crate) fn given_of(found: &ArgMatches<'_>, option: &NumberOption) -> Option<u16>
    requires range { option.now.least ≤ option.now.most }
    requires short { option.now.most ≤ 65535 }
    ensures { IsMaybe (one_of option.now.name.now (rows_of (found_of found.now))) option.now.least option.now.most
        result }
{
    match maybe_of(found, option) {
        Some(number) => Some(number as u16),
        None => None,
    }
}

/// The number of an option that may be left out.
pub(crate) fn maybe_of(found: &ArgMatches<'_>, option: &NumberOption) -> Option<u32>
    requires { option.now.least ≤ option.now.most }
    ensures { IsMaybe (one_of option.now.name.now (rows_of (found_of found.now))) option.now.least option.now.most
        result }
{
    let (least, most) = (option.least, option.most);
    match found.get_one::<u32>(option.name) {
        Some(number) => Some(number.clamp(least, most)),
        None => None,
    }
}

/// The numbers of the services, `01` where they are not given.
pub(crate) fn list_of(alloc: Global, found: &ArgMatches<'_>) -> Result<Vec<u8>, Usage>
    ensures list { IfOk result (λ services. IsList (services_text (rows_of (found_of found.now))) services.items) }
    ensures refused { IfErr result (RefusesList (services_text (rows_of (found_of found.now)))) }
{
    services_of(alloc, found.get_str("services").unwrap_or("01"))
}

/// The host, `127.0.0.1` where it is not given.
pub(crate) fn host_of(alloc: Global, found: &ArgMatches<'_>) -> Result<String, AllocError>
    ensures { IfOk result (λ host. NamesHost (host_text (rows_of (found_of found.now))) (string_bytes host)) }
{
    let text = found.get_str("host").unwrap_or("127.0.0.1");
    String::from_str(alloc, host_named(text))
}

/// What the command `answer` asks for.
pub fn answer_of(alloc: Global, found: &ArgMatches<'_>) -> Result<Job, Usage>
    ensures job { IfOk result (IsFullOf (codes "answer") (rows_of (found_of found.now))) }
    ensures refused { IfErr result (RefusesList (services_text (rows_of (found_of found.now)))) }
{
    let services = list_of(alloc, found)?;
    Ok(Job::AnswerWith(AnswerOptions {
        site: short_of(found, &SITE),
        encoder: small_of(found, &ENCODER),
        sets: small_of(found, &SETS),
        services,
        store: flag_of(found, "store"),
        form: form_of(found),
        air: maybe_of(found, &AIR_GROUPS),
    }))
}

/// What the command `line` asks for.
pub fn line_of(alloc: Global, found: &ArgMatches<'_>) -> Result<Job, Usage>
    ensures job { IfOk result (IsFullOf (codes "line") (rows_of (found_of found.now))) }
    ensures refused { IfErr result (RefusesLine (rows_of (found_of found.now))) }
{
    let services = list_of(alloc, found)?;
    let ladder = ladder_of(alloc, found)?;
    Ok(Job::LineWith(LineOptions {
        site: short_of(found, &SITE),
        encoder: small_of(found, &ENCODER),
        sets: small_of(found, &SETS),
        services,
        store: flag_of(found, "store"),
        form: form_of(found),
        ladder,
    }))
}

/// The form of a ladder, where one is asked for. Clap's error where there is none of that name.
fn ladder_of(alloc: Global, found: &ArgMatches<'_>) -> Result<Option<LadderForm>, Usage>
    ensures form { IfOk result (λ form. option_map ladder_word form
        ≡ first_of (codes "ladder") (rows_of (found_of found.now))) }
    ensures refused { IfErr result (λ why. (why ≡ OutOfMemory) ⊎ ((error : Error) × (why ≡ Refused error)
        × (kind_of error ≡ InvalidValue) × HasNoForm (rows_of (found_of found.now)))) }
{
    match found.get_str("ladder") {
        None => Ok(None),
        Some("svg") => Ok(Some(LadderForm::Picture)),
        Some("text") => Ok(Some(LadderForm::Text)),
        Some(_) => {
            let error = program(alloc)?.error(ErrorKind::InvalidValue, "ladder: svg or text")?;
            Err(Usage::Refused(error))
        }
    }
}

/// What the command `show` asks for.
pub fn show_of(found: &ArgMatches<'_>) -> Job
    ensures { IsFullOf (codes "show") (rows_of (found_of found.now)) result }
{
    Job::ShowWith(ShowOptions {
        form: form_of(found),
    })
}

/// What the command `watch` asks for.
pub fn watch_of(found: &ArgMatches<'_>) -> Job
    ensures { IsFullOf (codes "watch") (rows_of (found_of found.now)) result }
{
    Job::Watch(WatchOptions {
        form: form_of(found),
        time: is_timed(found),
    })
}

/// Whether the time stands before what is told.
pub(crate) fn is_timed(found: &ArgMatches<'_>) -> bool
    ensures { IsTimed (rows_of (found_of found.now)) result }
{
    !flag_of(found, "no-time")
}

/// What the command `make` asks for.
///
/// Errors: `Refused` where a script is to be made to fit that is not of phrases; `OutOfMemory`.
pub fn make_of(alloc: Global, found: &ArgMatches<'_>) -> Result<Job, Usage>
    ensures job { IfOk result (IsFullOf (codes "make") (rows_of (found_of found.now))) }
    ensures refused { IfErr result (RefusesScript (rows_of (found_of found.now))) }
{
    let fit = flag_of(found, "fit");
    match wording_of(found) {
        Form::Words(region) if fit => Ok(Job::MakeFitted(region)),
        Form::Words(region) => Ok(made_of(Some(region))),
        _ if fit => Err(refusal(alloc, "fit: with --words alone")),
        _ => Ok(made_of(None)),
    }
}

/// The job of a script that is not made to fit.
fn made_of(words: Option<Region>) -> Job
    ensures { result ≡ MakeWith (record { words = words }) }
{
    Job::MakeWith(MakeOptions { words })
}

/// What the command `server` asks for.
pub fn server_of(alloc: Global, found: &ArgMatches<'_>) -> Result<Job, Usage>
    ensures job { IfOk result (IsFullOf (codes "server") (rows_of (found_of found.now))) }
    ensures refused { IfErr result (λ why. why ≡ OutOfMemory) }
{
    let host = host_of(alloc, found)?;
    let state = word_of(alloc, found, "state")?;
    Ok(Job::ServerWith(server_with(found, host, state)))
}

/// The options of the command `server`, with its words.
fn server_with(found: &ArgMatches<'_>, host: String, state: Option<String>) -> ServerOptions
    requires host { NamesHost (host_text (rows_of (found_of found.now))) (string_bytes host) }
    requires state { option_map string_bytes state ≡ first_of (codes "state") (rows_of (found_of found.now)) }
    ensures { IsServer (rows_of (found_of found.now)) result }
{
    ServerOptions {
        site: short_of(found, &SITE),
        encoder: small_of(found, &ENCODER),
        host,
        port: short_of(found, &PORT),
        tries: number_of(found, &TRIES),
        timeout: number_of(found, &TIMEOUT),
        turns: number_of(found, &TRY_TURNS),
        reconnects: number_of(found, &RECONNECTS),
        window: small_of(found, &WINDOW),
        join: flag_of(found, "join"),
        reconnect_silent: flag_of(found, "reconnect-silent"),
        verbose: flag_of(found, "verbose"),
        state,
    }
}

/// What the command `state` asks for.
pub fn state_of(alloc: Global, found: &ArgMatches<'_>) -> Result<Job, Usage>
    ensures job { IfOk result (IsFullOf (codes "state") (rows_of (found_of found.now))) }
    ensures refused { IfErr result (λ why. why ≡ OutOfMemory) }
{
    Ok(Job::State {
        file: argument_of(alloc, found, "file")?,
    })
}

/// The text of an argument that has to be given.
pub(crate) fn argument_of(
    alloc: Global,
    found: &ArgMatches<'_>,
    name: &str,
) -> Result<String, AllocError>
    ensures { IfOk result (λ text. string_bytes text ≡ word_text name.now [] (rows_of (found_of found.now))) }
{
    String::from_str(alloc, found.get_str(name).unwrap_or(""))
}
