//! How the lines of the command `send` are titles (profile).
ghost use Rattle.std.specs.Prelude.{◌≡◌, ℕ, List, Some, codes, is_some, IfOk, IfErr, IfSome, IfNone};
ghost use Rattle.clap.specs.Words.{first_of, found_of, rows_of};
ghost use Rattle.command_line.specs.TitleLines.{HasNoTitles, IsPrefix, IsService, IsTitles};
ghost use Rattle.command_line.specs.TitleLines.{IsRefusal, RefusesTitles, input_text};

use crate::definition::program;
use crate::usage::Usage;
use clap::ArgMatches;
use clap::error::ErrorKind;
use commands::TitleOptions;
use std::alloc::{AllocError, Global};
use titles::text_of;
use uecp_text::byte_of;

/// How many bytes stand before a title at most.
const PREFIX_MAX: usize = 32;

/// How the lines are titles, where they are; None where they are phrases.
///
/// Errors: `Refused` where the lines are neither, where what is a title's is asked for of phrases, and where the prefix
/// is none or the service is no number; `OutOfMemory`.
pub(crate) fn titles_of(
    alloc: Global,
    found: &ArgMatches<'_>,
) -> Result<Option<TitleOptions>, Usage>
    ensures titles { IfOk result (IsTitles (rows_of (found_of found.now))) }
    ensures refused { IfErr result (RefusesTitles (rows_of (found_of found.now))) }
{
    match found.get_str("input").unwrap_or("phrases") {
        "phrases" => no_titles(alloc, found),
        "titles" => match options_of(alloc, found)? {
            Ok(options) => Ok(Some(options)),
            Err(text) => Err(refusal(alloc, text)),
        },
        _ => Err(refusal(alloc, "input: phrases or titles")),
    }
}

/// Whether an option with a word is given.
pub(crate) fn has_word(found: &ArgMatches<'_>, name: &str) -> bool
    ensures { result ≡ is_some (first_of name.now (rows_of (found_of found.now))) }
{
    found.get_str(name).is_some()
}

/// Nothing, where nothing is asked for that is a title's.
fn no_titles(alloc: Global, found: &ArgMatches<'_>) -> Result<Option<TitleOptions>, Usage>
    requires { input_text (rows_of (found_of found.now)) ≡ codes "phrases" }
    ensures titles { IfOk result (IsTitles (rows_of (found_of found.now))) }
    ensures refused { IfErr result (RefusesTitles (rows_of (found_of found.now))) }
{
    let prefix = has_word(found, "prefix");
    let service = has_word(found, "service");
    if prefix || service {
        return Err(refusal(alloc, "input: --prefix and --service are for titles"));
    }
    Ok(None)
}

/// How the lines are titles; or what is said of the prefix or the service.
fn options_of(
    alloc: Global,
    found: &ArgMatches<'_>,
) -> Result<Result<TitleOptions, &'static str>, AllocError>
    requires { input_text (rows_of (found_of found.now)) ≡ codes "titles" }
    ensures some { IfOk result (λ read. IfOk read (λ options. IsTitles (rows_of (found_of found.now)) (Some options))) }
    ensures none { IfOk result (λ read. IfErr read (λ _. HasNoTitles (rows_of (found_of found.now)))) }
{
    let Some(prefix) = prefix_of(alloc, found)? else {
        return Ok(Err("prefix: at most 32 characters of the RDS set"));
    };
    let Some(service) = service_of(found) else {
        return Ok(Err("service: two hexadecimal digits"));
    };
    Ok(Ok(TitleOptions { prefix, service }))
}

/// The bytes that stand before each title, where they are asked for as such.
fn prefix_of(alloc: Global, found: &ArgMatches<'_>) -> Result<Option<Vec<u8>>, AllocError>
    ensures some { IfOk result (λ read. IfSome read (λ bytes.
        IsPrefix (first_of (codes "prefix") (rows_of (found_of found.now))) bytes.items)) }
    ensures none { IfOk result (λ read. IfNone read ((bytes : List ℕ)
        → IsPrefix (first_of (codes "prefix") (rows_of (found_of found.now))) bytes → ⊥)) }
{
    match found.get_str("prefix") {
        Some(text) => prefix_in(alloc, text),
        None => Ok(Some(Vec::new(alloc))),
    }
}

/// The bytes of a text that stands before each title.
fn prefix_in(alloc: Global, text: &str) -> Result<Option<Vec<u8>>, AllocError>
    ensures some { IfOk result (λ read. IfSome read (λ bytes. IsPrefix (Some text.now) bytes.items)) }
    ensures none { IfOk result (λ read. IfNone read ((bytes : List ℕ) → IsPrefix (Some text.now) bytes → ⊥)) }
{
    match text_of(alloc, text)? {
        Some(bytes) if bytes.len() <= PREFIX_MAX => Ok(Some(bytes)),
        _ => Ok(None),
    }
}

/// The number of the service, 0 where it is left out.
fn service_of(found: &ArgMatches<'_>) -> Option<u8>
    ensures some { IfSome result (IsService (first_of (codes "service") (rows_of (found_of found.now)))) }
    ensures none { IfNone result ((number : ℕ)
        → IsService (first_of (codes "service") (rows_of (found_of found.now))) number → ⊥) }
{
    match found.get_str("service") {
        Some(word) => byte_of(word.as_bytes()),
        None => Some(0),
    }
}

/// Clap's error with this text, or want of memory.
pub(crate) fn refusal(alloc: Global, text: &str) -> Usage
    ensures { IsRefusal result }
{
    match refusal_in(alloc, text) {
        Ok(usage) => usage,
        Err(_) => Usage::OutOfMemory,
    }
}

/// Clap's error with this text.
fn refusal_in(alloc: Global, text: &str) -> Result<Usage, AllocError>
    ensures { IfOk result IsRefusal }
{
    let error = program(alloc)?.error(ErrorKind::InvalidValue, text)?;
    Ok(Usage::Refused(error))
}
