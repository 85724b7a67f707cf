//! The name that the words of a command line give to their line (profile).
ghost use Rattle.std.specs.Prelude.{◌≡◌, map, option_map, codes, IfOk, IfErr};
ghost use Rattle.std.specs.List.{list_all};
ghost use Rattle.std.specs.String.{string_bytes};
ghost use Rattle.clap.specs.Words.{found_of, rows_of};
ghost use Rattle.json_lines.specs.Stamps.{is_plain};
ghost use Rattle.command_line.specs.Naming.{GivesName, IsNameIn, RefusesName, RefusesNameIn, is_name};

use crate::definition::program;
use crate::forms::flag_of;
use crate::usage::Usage;
use clap::ArgMatches;
use clap::error::ErrorKind;
use option_files::has_option;
use std::alloc::Global;

/// How many characters the name of a line has at most.
const NAME_MAX: usize = 64;

/// What is said of a name that is none.
const NO_NAME: &str = "name: 1 to 64 characters of ASCII, no quote and no backslash";

/// The name that the words of a command line give to their line, which stands in each object that their command tells:
/// the text of the option `name`, 1 to 64 printable characters of ASCII, of which none is `"` or `\`. None where none
/// is given, where no objects are asked for, or where clap refuses the words.
///
/// Errors: `Refused` where the name is none; `OutOfMemory`.
pub fn line_name(alloc: Global, words: &[String]) -> Result<Option<String>, Usage>
    ensures named { IfOk result (λ name. GivesName (map string_bytes words.now) (option_map string_bytes name)) }
    ensures refused { IfErr result (RefusesName (map string_bytes words.now)) }
{
    if !has_option(words, "name") {
        return Ok(None);
    }
    let matches = match program(alloc)?.try_get_matches_from(words) {
        Ok(matches) => matches,
        Err(error) if error.kind() == ErrorKind::OutOfMemory => return Err(Usage::OutOfMemory),
        Err(_) => return Ok(None),
    };
    match matches.subcommand() {
        Some((_, found)) => name_in(alloc, found),
        None => unreachable!(),
    }
}

/// The name that the matches of a command have, where they ask for objects.
fn name_in(alloc: Global, found: &ArgMatches<'_>) -> Result<Option<String>, Usage>
    ensures named { IfOk result (λ name. IsNameIn (rows_of (found_of found.now)) (option_map string_bytes name)) }
    ensures refused { IfErr result (RefusesNameIn (rows_of (found_of found.now))) }
{
    let name = match found.get_str("name") {
        Some(name) => name,
        None => return Ok(None),
    };
    if !flag_of(found, "json") {
        return Ok(None);
    }
    if !is_name(name.as_bytes()) {
        let error = program(alloc)?.error(ErrorKind::InvalidValue, NO_NAME)?;
        return Err(Usage::Refused(error));
    }
    Ok(Some(String::from_str(alloc, name)?))
}

/// Whether it is the name of a line.
fn is_name(text: &[u8]) -> bool
    ensures { result ≡ is_name text.now }
{
    !text.is_empty() && text.len() <= NAME_MAX && are_plain(text)
}

/// Whether each of the bytes is such a character.
fn are_plain(bytes: &[u8]) -> bool
    ensures { result ≡ list_all is_plain bytes.now }
{
    bytes.iter().all(|&byte| is_plain(byte))
}

/// Whether the byte is a printable character of ASCII that stands for itself in JSON.
fn is_plain(byte: u8) -> bool
    ensures { result ≡ is_plain byte }
{
    (0x20..0x7F).contains(&byte) && byte != b'"' && byte != b'\\'
}
