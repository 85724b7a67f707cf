//! Why a file gives no options, and how that is said (profile).
ghost use Rattle.std.specs.Prelude.{◌≡◌, ◌≢◌, ◌≤◌, ◌++◌, codes};
ghost use Rattle.command_line.specs.FileLines.{place_line};
ghost use Rattle.command_line.specs.declared.file_fault.FileFault.TheVariants.{Entries, OutOfMemory};
ghost use Rattle.command_line.specs.declared.file_fault.ReadFault.TheVariants as unread;
ghost use Rattle.notices.specs.Told.{Says};

use itoa::Buffer;
use notices::{Notices, NoticesTo, fail};
use option_files::{EntriesFault, Place, place_at, place_of};
use std::alloc::{AllocError, Global};
use std::fmt::InlineText;
use std::io::Write;
use thiserror::Error;
use uecp_text::RunFault;

/// How many bytes the text of a `ReadFault` has at most.
const READ_FAULT_MAX: usize = 32;

/// Why a file gives no options. Its text is what is said of it behind the place; where it is clap's, the first line of
/// that without the word before it.
#[derive(Debug, Drop, Error)]
pub(crate) enum FileFault {
    /// Its text gives no entries.
    #[error(transparent)]
    Entries(EntriesFault),
    /// The command refuses the option of this name: it has none, or not with this value.
    #[error("{1}")]
    Refused(String, clap::Error),
    /// The services are not two-digit hexadecimal numbers between single commas.
    #[error("{}", RunFault::NotAList)]
    NotAList,
    /// There was no memory.
    #[error("{}", RunFault::OutOfMemory)]
    OutOfMemory,
}

impl From<EntriesFault> for FileFault {
    ghost from_gives = { λ why fault. fault ≡ Entries why };

    fn from(why: EntriesFault) -> FileFault {
        FileFault::Entries(why)
    }
}

impl From<AllocError> for FileFault {
    ghost from_gives = { λ _ fault. fault ≡ OutOfMemory };

    fn from(_error: AllocError) -> FileFault {
        FileFault::OutOfMemory
    }
}

/// Why the bytes of a file are not had. Its text is what is said of it behind the path.
#[derive(Clone, Copy, Debug, Drop, PartialEq, Eq, Error)]
pub(crate) enum ReadFault {
    /// It can't be read.
    #[error("can't be read")]
    Unreadable,
    /// It is larger than 65,536 bytes.
    #[error("larger than 65,536 bytes")]
    TooLong,
    /// There was no memory.
    #[error("{}", RunFault::OutOfMemory)]
    OutOfMemory,
}

/// Says why the file at this path gives no options, in a line with its place, and answers the exit status: 2, or 3
/// where there was no memory.
pub(crate) fn say_of_file<E: Write>(
    alloc: Global,
    path: &str,
    text: &str,
    fault: &FileFault,
    errors: &mut NoticesTo<E>,
) -> u8
    ensures { (2 ≤ result) × (result ≤ 3) }
{
    match (place_in(alloc, text, fault), words_of(alloc, fault)) {
        (Some(place), Ok(words)) => say_at(path, place, "", words.as_str(), errors),
        _ => fail(&RunFault::OutOfMemory, errors),
    }
}

/// The place in a text that the fault is of: what is no TOML, or the entry of a key. None where there was no memory.
fn place_in(alloc: Global, text: &str, fault: &FileFault) -> Option<Place> {
    let key = match fault {
        FileFault::Entries(EntriesFault::NotToml(error)) => {
            let at = match error.span() {
                Some(span) => span.start,
                None => 0,
            };
            return Some(place_at(text.as_bytes(), at));
        }
        FileFault::Entries(EntriesFault::NotAName(name)) => name.as_str(),
        FileFault::Entries(EntriesFault::NotAValue(name)) => name.as_str(),
        FileFault::Refused(name, _) => name.as_str(),
        FileFault::NotAList => "services",
        FileFault::Entries(EntriesFault::OutOfMemory) | FileFault::OutOfMemory => return None,
    };
    place_of(alloc, text, key).ok()
}

/// What is said of the fault: its text; where that is clap's, the first line of it without the word before it.
fn words_of(alloc: Global, fault: &FileFault) -> Result<String, AllocError> {
    let whole = format!(in alloc; "{fault}")?;
    match fault {
        FileFault::Refused(_, _) => {
            let line = first_line(whole.as_str());
            String::from_str(alloc, line.strip_prefix("error: ").unwrap_or(line))
        }
        _ => Ok(whole),
    }
}

/// The first line of a text.
fn first_line(text: &str) -> &str {
    match text.split_once('\n') {
        Some((line, _)) => line,
        None => text,
    }
}

/// Says that the file at this path is no text at this byte, and answers the exit status.
pub(crate) fn say_no_text<E: Write>(
    path: &str,
    bytes: &[u8],
    index: usize,
    errors: &mut NoticesTo<E>,
) -> u8
    ensures { result ≡ 2 }
{
    say_at(path, place_at(bytes, index), "", "not UTF-8", errors)
}

/// Says something of a place in the file at this path, in a line of its own, and answers the exit status.
fn say_at<E: Write>(
    path: &str,
    place: Place,
    name: &str,
    words: &str,
    errors: &mut NoticesTo<E>,
) -> u8
    ensures said { Says errors.old errors.new
        (place_line path.now place.line place.column name.now words.now) }
    ensures status { result ≡ 2 }
{
    let mut line = Buffer::new();
    let mut column = Buffer::new();
    let line = line.format(place.line).as_bytes();
    let column = column.format(place.column).as_bytes();
    let (path, name, words) = (path.as_bytes(), name.as_bytes(), words.as_bytes());
    say_place(path, line, column, name, words, errors);
    2
}

/// Says the line of a place, its numbers in digits.
fn say_place<'a, E: Write>(
    path: &'a [u8],
    line: &'a [u8],
    column: &'a [u8],
    name: &'a [u8],
    words: &'a [u8],
    errors: &mut NoticesTo<E>,
)
    ensures { Says errors.old errors.new (path.now ++ (codes ":" ++ (line.now
        ++ (codes ":" ++ (column.now ++ (codes ": " ++ (name.now ++ (words.now ++ codes "\n")))))))) }
{
    errors.say(&[path, b":", line, b":", column, b": ", name, words, b"\n"]);
}

/// Says why the bytes of the file at this path are not had, and answers the exit status.
pub(crate) fn say_unread<E: Write>(path: &str, fault: ReadFault, errors: &mut NoticesTo<E>) -> u8
    ensures unreadable { fault ≡ unread.Unreadable → result ≡ 3 }
    ensures long { fault ≡ unread.TooLong → result ≡ 2 }
    ensures memory { fault ≡ unread.OutOfMemory → result ≡ 3 }
{
    let words = InlineText::<READ_FAULT_MAX>::of(fault);
    let words = words.as_str().as_bytes();
    match fault {
        ReadFault::Unreadable => {
            errors.say(&[b"uecp: ", path.as_bytes(), b": ", words, b"\n"]);
            3
        }
        ReadFault::TooLong => {
            errors.say(&[path.as_bytes(), b": ", words, b"\n"]);
            2
        }
        ReadFault::OutOfMemory => fail(&RunFault::OutOfMemory, errors),
    }
}
