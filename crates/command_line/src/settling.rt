//! The words of a command line with the options of the file that they name (profile).
ghost use Rattle.std.specs.Prelude.{◌≡◌, ◌≢◌, ◌⊎◌, ◌≤◌, ℕ, List, Ok, None, false, codes, map, length};
ghost use Rattle.std.specs.Prelude.{IfOk, IfErr, IfSome, OnOk};
ghost use Rattle.std.specs.Io.KnownBytes.{Appends};
ghost use Rattle.std.specs.List.{All, Any};
ghost use Rattle.std.specs.String.{string_bytes};
ghost use Rattle.uecp_text.specs.Run.{IsInput};
ghost use Rattle.option_files.specs.Words as spec;
ghost use Rattle.option_files.specs.Entries.{entry_view};
ghost use Rattle.uecp_text.specs.declared.run_fault.RunFault.TheVariants.{Writing};
ghost use Rattle.command_line.specs.Usages.{AskForText};
ghost use Rattle.command_line.specs.Settled.{AreTaken, AreRefused, Fills, HasNoFile, RefusesFile, SaysOk, Settles};
ghost use Rattle.command_line.specs.Settled.{ok_line};
ghost use Rattle.command_line.specs.Settled.{RefusesEntries, RefusesEntry};

use crate::definition::program;
use crate::file_fault::{FileFault, ReadFault, say_no_text, say_of_file, say_unread};
use crate::parsing::parse;
use crate::refusing::refuse;
use crate::usage::Usage;
use clap::Error;
use clap::error::ErrorKind;
use notices::{Notices, NoticesTo, fail};
use option_files::{Entry, entries_of, file_in, has_option, words_to_try, words_with};
use std::alloc::{AllocError, Global};
use std::fs::{Files, OpenOptions};
use std::io::{Read, Write};
use std::str;
use uecp_text::{RunFault, read_all, write_parts};

/// How many bytes a file of options has at most.
const FILE_MAX: usize = 65_536;

/// The words of a command line, with the options of the file that they name by `--config`; of words that clap refuses
/// for more than that an argument is missing the words as they are. The exit status where the file was refused, which
/// was said, or where it was looked at alone: 0 where it is ok, 2 where it or the words are refused, 3 where it can't
/// be read or memory was wanting.
pub fn settle<F: Files, W: Write, E: Write>(
    alloc: Global,
    words: Vec<String>,
    files: &F,
    writer: &mut W,
    errors: &mut NoticesTo<E>,
) -> Result<Vec<String>, u8>
    // With no file, and none to look at, they are the words as they were given.
    ensures given { HasNoFile (map string_bytes words.items) → result ≡ Ok words }
    // What they are else, and nothing was said or written.
    ensures settled { IfOk result (λ all. Settles (map string_bytes words.items) (map string_bytes all.items)
        × (writer.new ≡ writer.old) × (errors.new ≡ errors.old)) }
    ensures status { IfErr result (λ status. (status ≤ 3) × (status ≢ 1)) }
{
    let given = words.as_slice();
    let is_look = has_option(given, "check-config");
    let path = file_in(given);
    if !is_look && path.is_none() {
        return Ok(words);
    }
    match refusal_of(alloc, given) {
        Err(_) => return Err(fail(&RunFault::OutOfMemory, errors)),
        Ok(Some(_)) => return Ok(words),
        Ok(None) => {}
    }
    match path {
        Some(path) if is_look => Err(look_at(alloc, given, path, files, writer, errors)),
        Some(path) => fill(alloc, given, path, files, errors),
        None => Err(say_no_file(errors)),
    }
}

/// What clap refuses of the words for more than that an argument is missing; None where that is nothing.
fn refusal_of(alloc: Global, words: &[String]) -> Result<Option<Error>, AllocError>
    ensures taken { IfOk result (λ refusal. refusal ≡ None → AreTaken (map string_bytes words.now)) }
    ensures refused { IfOk result (λ refusal. IfSome refusal (AreRefused (map string_bytes words.now))) }
{
    match program(alloc)?.try_get_matches_from(words) {
        Ok(_) => Ok(None),
        Err(error) => match error.kind() {
            ErrorKind::OutOfMemory => Err(AllocError),
            ErrorKind::MissingRequiredArgument => Ok(None),
            _ => Ok(Some(error)),
        },
    }
}

/// Says that there is no file to look at, and answers the exit status.
fn say_no_file<E: Write>(errors: &mut NoticesTo<E>) -> u8
    ensures { result ≡ 2 }
{
    errors.say(&[b"uecp: --check-config needs --config FILE\n"]);
    2
}

/// Looks at the file at this path alone, and answers the exit status.
fn look_at<F: Files, W: Write, E: Write>(
    alloc: Global,
    given: &[String],
    path: &str,
    files: &F,
    writer: &mut W,
    errors: &mut NoticesTo<E>,
) -> u8
    ensures status { (result ≤ 3) × (result ≢ 1) }
    ensures refused { result ≡ 2 → writer.new ≡ writer.old }
{
    match fill(alloc, given, path, files, errors) {
        Ok(all) => look_over(alloc, path, all.as_slice(), writer, errors),
        Err(status) => status,
    }
}

/// Says that the file at this path is ok, where the words with its options ask for something; else what is wrong with
/// the words. Answers the exit status.
fn look_over<W: Write, E: Write>(
    alloc: Global,
    path: &str,
    all: &[String],
    writer: &mut W,
    errors: &mut NoticesTo<E>,
) -> u8
    ensures status { (result ≤ 3) × (result ≢ 1) }
    ensures ok { result ≡ 0 → SaysOk path.now (map string_bytes all.now) (W.contents writer.old)
        (W.contents writer.new) ⊎ AskForText (map string_bytes all.now) }
    ensures refused { result ≡ 2 → writer.new ≡ writer.old }
{
    match parse(alloc, all) {
        Ok(_) => match say_ok(path, writer) {
            Ok(()) => 0,
            Err(fault) => fail(&fault, errors),
        },
        Err(usage) => refuse(&usage, writer, errors),
    }
}

/// Says that the file at this path is ok. `Writing` where the writer fails.
fn say_ok<W: Write>(path: &str, writer: &mut W) -> Result<(), RunFault>
    ensures said { OnOk result (Appends (W.contents writer.old) (W.contents writer.new) (ok_line path.now)) }
    ensures failed { IfErr result (λ fault. fault ≡ Writing) }
{
    write_parts(&[path.as_bytes(), b": ok\n"], writer)?;
    writer.flush().map_err(|_| RunFault::Writing)
}

/// The words with the options of the file at this path; the exit status where it gives none, which was said.
fn fill<F: Files, E: Write>(
    alloc: Global,
    given: &[String],
    path: &str,
    files: &F,
    errors: &mut NoticesTo<E>,
) -> Result<Vec<String>, u8>
    ensures filled { IfOk result (λ all. ((text : List ℕ) × Fills (map string_bytes given.now) text
        (map string_bytes all.items)) × (errors.new ≡ errors.old)) }
    ensures status { IfErr result (λ status. (2 ≤ status) × (status ≤ 3)) }
{
    let Ok(mut file) = OpenOptions::new().read(true).open(files, path) else {
        return Err(say_unread(path, ReadFault::Unreadable, errors));
    };
    fill_from(alloc, given, path, &mut file, errors)
}

/// The words with the options of the file at this path as it is read; the exit status where it gives none, which was
/// said.
fn fill_from<R: Read, E: Write>(
    alloc: Global,
    given: &[String],
    path: &str,
    file: &mut R,
    errors: &mut NoticesTo<E>,
) -> Result<Vec<String>, u8>
    ensures filled { IfOk result (λ all. ((text : List ℕ) × IsInput (R.remaining file.old) (R.remaining file.new) text
        × Fills (map string_bytes given.now) text (map string_bytes all.items)) × (errors.new ≡ errors.old)) }
    ensures status { IfErr result (λ status. (2 ≤ status) × (status ≤ 3)) }
{
    let bytes = match bytes_of(alloc, file) {
        Ok(bytes) => bytes,
        Err(fault) => return Err(say_unread(path, fault, errors)),
    };
    match str::from_utf8(bytes.as_slice()) {
        Ok(text) => match filled(alloc, given, text) {
            Ok(all) => Ok(all),
            Err(fault) => Err(say_of_file(alloc, path, text, &fault, errors)),
        },
        Err(fault) => Err(say_no_text(path, bytes.as_slice(), fault.valid_up_to(), errors)),
    }
}

/// The bytes of a file of options as it is read, at most 65,536.
fn bytes_of<R: Read>(alloc: Global, file: &mut R) -> Result<Vec<u8>, ReadFault>
    ensures { IfOk result (λ bytes. IsInput (R.remaining file.old) (R.remaining file.new) bytes.items
        × (length bytes.items ≤ 65536)) }
{
    match read_all(alloc, file) {
        Ok(all) if all.len() <= FILE_MAX => Ok(all),
        Ok(_) | Err(RunFault::TooLong) => Err(ReadFault::TooLong),
        Err(RunFault::OutOfMemory) => Err(ReadFault::OutOfMemory),
        Err(_) => Err(ReadFault::Unreadable),
    }
}

/// The words with the options of a file with this text, or why it gives none.
fn filled(alloc: Global, given: &[String], text: &str) -> Result<Vec<String>, FileFault>
    ensures filled { IfOk result (λ all. Fills (map string_bytes given.now) text.now (map string_bytes all.items)) }
    ensures refused { IfErr result (RefusesFile (map string_bytes given.now) text.now) }
{
    let entries = entries_of(alloc, text)?;
    try_each(alloc, given, entries.as_slice())?;
    let all = words_with(alloc, given, entries.as_slice())?;
    if has_option(given, "services") {
        return Ok(all);
    }
    match parse(alloc, all.as_slice()) {
        Err(Usage::NotAList) => Err(FileFault::NotAList),
        Err(Usage::OutOfMemory) => Err(FileFault::OutOfMemory),
        _ => Ok(all),
    }
}

/// Tries each entry alone. `Refused` where one is refused for more than that an argument is missing.
fn try_each(alloc: Global, given: &[String], entries: &[Entry]) -> Result<(), FileFault>
    ensures taken { IfOk result (λ _. All (λ entry. AreTaken (spec.words_to_try (map string_bytes given.now) entry))
        (map entry_view entries.now)) }
    ensures refused { IfErr result (RefusesEntries (map string_bytes given.now) (map entry_view entries.now)) }
{
    for entry in entries {
        try_entry(alloc, given, entry)?;
    }
    Ok(())
}

/// Tries an entry alone. `Refused` where it is refused for more than that an argument is missing.
fn try_entry(alloc: Global, given: &[String], entry: &Entry) -> Result<(), FileFault>
    ensures taken { IfOk result (λ _. AreTaken (spec.words_to_try (map string_bytes given.now)
        (entry_view entry.now))) }
    ensures refused { IfErr result (RefusesEntry (map string_bytes given.now) (entry_view entry.now)) }
{
    let tried = words_to_try(alloc, given, entry)?;
    match refusal_of(alloc, tried.as_slice())? {
        Some(error) => Err(FileFault::Refused(entry.name.clone()?, error)),
        None => Ok(()),
    }
}
