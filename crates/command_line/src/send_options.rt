//! What the matches of the command `send` ask for (profile).
ghost use Rattle.std.specs.Prelude.{◌≡◌, true, false, codes, is_some, IsTrue, IfOk, IfErr, option_map};
ghost use Rattle.clap.specs.Walk.{one_of};
ghost use Rattle.command_line.specs.OptionTexts.{IsFlag};
ghost use Rattle.std.specs.String.{string_bytes};
ghost use Rattle.clap.specs.Walk.{first_of};
ghost use Rattle.clap.specs.Words.{found_of, rows_of};
ghost use Rattle.commands.specs.Host.{NamesHost};
ghost use Rattle.command_line.specs.CommandLine.{IsFullOf, IsLive, IsRegion, IsRejoin, IsToldIn, host_text};
ghost use Rattle.command_line.specs.TitleLines.{IsPassOver, IsTitles, PassesOverNone, RefusesLines, RefusesPassOver};

use crate::forms::flag_of;
use crate::matched::{host_of, number_of, short_of, small_of};
use crate::numbers::{
    ENCODER, FROM_LINE, GIVE_UP, PORT, RETRY_EVERY, SILENT, SITE, TIMEOUT, TRIES, TRY_TURNS, WINDOW,
};
use crate::title_options::{has_word, refusal, titles_of};
use crate::usage::Usage;
use clap::ArgMatches;
use commands::{Job, SendOptions, TitleOptions};
use rds_text::Region;
use std::alloc::{AllocError, Global};
use uecp_jobs::Form;

/// What the command `send` asks for.
pub fn send_of(alloc: Global, found: &ArgMatches<'_>) -> Result<Job, Usage>
    ensures job { IfOk result (IsFullOf (codes "send") (rows_of (found_of found.now))) }
    ensures refused { IfErr result (RefusesLines (rows_of (found_of found.now))) }
{
    let host = host_of(alloc, found)?;
    let state = word_of(alloc, found, "state")?;
    let station = word_of(alloc, found, "station")?;
    let titles = titles_of(alloc, found)?;
    let pass_over = pass_over_of(alloc, found)?;
    Ok(Job::Send(with_words(found, host, state, station, titles, pass_over)))
}

/// The options of the command, with its words.
fn with_words(
    found: &ArgMatches<'_>,
    host: String,
    state: Option<String>,
    station: Option<String>,
    titles: Option<TitleOptions>,
    pass_over: Option<String>,
) -> SendOptions
    requires host { NamesHost (host_text (rows_of (found_of found.now))) (string_bytes host) }
    requires state { option_map string_bytes state ≡ first_of (codes "state") (rows_of (found_of found.now)) }
    requires station { option_map string_bytes station ≡ first_of (codes "station") (rows_of (found_of found.now)) }
    requires titles { IsTitles (rows_of (found_of found.now)) titles }
    requires pass_over { IsPassOver (rows_of (found_of found.now)) (option_map string_bytes pass_over) }
    ensures { IsLive (rows_of (found_of found.now)) result }
{
    SendOptions {
        site: short_of(found, &SITE),
        encoder: small_of(found, &ENCODER),
        host,
        port: short_of(found, &PORT),
        tries: number_of(found, &TRIES),
        timeout: number_of(found, &TIMEOUT),
        turns: number_of(found, &TRY_TURNS),
        window: small_of(found, &WINDOW),
        region: region_of(found),
        titles,
        fit: flag_of(found, "fit"),
        form: told_in(found),
        strict: flag_of(found, "strict"),
        pass_over,
        from_line: number_of(found, &FROM_LINE),
        join: flag_of(found, "join"),
        rejoin: is_rejoin(found, &station),
        retry_every: number_of(found, &RETRY_EVERY),
        give_up: number_of(found, &GIVE_UP),
        silent: number_of(found, &SILENT),
        state,
        station,
    }
}

/// The file of the lines that are passed over, if it is given.
///
/// Errors: `Refused` where the run is to end at such a line; `OutOfMemory`.
fn pass_over_of(alloc: Global, found: &ArgMatches<'_>) -> Result<Option<String>, Usage>
    ensures file { IfOk result (λ file. IsPassOver (rows_of (found_of found.now)) (option_map string_bytes file)) }
    ensures refused { IfErr result (RefusesPassOver (rows_of (found_of found.now))) }
{
    if passes_over_none(found) {
        return Err(refusal(alloc, "pass-over: not with --strict"));
    }
    Ok(word_of(alloc, found, "pass-over")?)
}

/// Whether lines are to be passed over, and end the run.
fn passes_over_none(found: &ArgMatches<'_>) -> bool
    ensures so { IsTrue result → PassesOverNone (rows_of (found_of found.now)) }
    ensures else_not { result ≡ false → is_some (first_of (codes "pass-over") (rows_of (found_of found.now))) ≡ true
        → IsFlag (one_of (codes "strict") (rows_of (found_of found.now))) false }
{
    has_word(found, "pass-over") && flag_of(found, "strict")
}

/// Whether an encoder is joined anew that answers nothing: so it is too where the station's file is given.
fn is_rejoin(found: &ArgMatches<'_>, station: &Option<String>) -> bool
    requires { option_map string_bytes station.now ≡ first_of (codes "station") (rows_of (found_of found.now)) }
    ensures { IsRejoin (rows_of (found_of found.now)) result }
{
    flag_of(found, "rejoin") || station.is_some()
}

/// Of which region the names of programme types are.
pub(crate) fn region_of(found: &ArgMatches<'_>) -> Region
    ensures { IsRegion (rows_of (found_of found.now)) result }
{
    if flag_of(found, "rbds") {
        Region::NorthAmerica
    } else {
        Region::Europe
    }
}

/// In which form is told what comes of the messages.
fn told_in(found: &ArgMatches<'_>) -> Form
    ensures { IsToldIn (rows_of (found_of found.now)) result }
{
    if flag_of(found, "json") {
        Form::Json
    } else {
        Form::Lines
    }
}

/// The text of an option, if it is given.
pub(crate) fn word_of(
    alloc: Global,
    found: &ArgMatches<'_>,
    name: &str,
) -> Result<Option<String>, AllocError>
    ensures { IfOk result (λ word. option_map string_bytes word ≡ first_of name.now (rows_of (found_of found.now))) }
{
    match found.get_str(name) {
        Some(word) => Ok(Some(String::from_str(alloc, word)?)),
        None => Ok(None),
    }
}
