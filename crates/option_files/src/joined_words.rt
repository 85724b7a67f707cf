//! The words of a command line with those of a file (profile).
ghost use Rattle.std.specs.Prelude.{◌≡◌, ◌++◌, map, take, drop, option_map, string_bytes, IfOk};
ghost use Rattle.option_files.specs.Words as spec;
ghost use Rattle.option_files.specs.Entries.{entry_view};

use crate::entries::Entry;
use crate::option_words::{flag, said};
use std::alloc::{AllocError, Global};

/// How many words stand before the options: the program's name and the command's.
const NAMES: usize = 2;

/// The path of the file that the words of a command line name by the option `config`, the first being the program's
/// name and the second the command's.
pub fn file_in(words: &[String]) -> Option<&str>
    ensures { option_map (λ path. path.now) result
        ≡ spec.file_in (spec.option_words (map string_bytes words.now)) }
{
    let options = option_words(words);
    for (index, word) in options.iter().enumerate() {
        match said(word.as_str(), "config") {
            None => {}
            Some(Some(path)) => return Some(path),
            Some(None) => return options.get(index + 1).map(|path| path.as_str()),
        }
    }
    None
}

/// Whether the words of a command line name the option of this name.
pub fn has_option(words: &[String], name: &str) -> bool
    ensures { result ≡ spec.names name.now (map string_bytes words.now) }
{
    for word in option_words(words) {
        if said(word.as_str(), name).is_some() {
            return true;
        }
    }
    false
}

/// The words that may name options: those behind the command's name, up to a word `--`.
fn option_words(words: &[String]) -> &[String]
    ensures { map string_bytes result.now ≡ spec.option_words (map string_bytes words.now) }
{
    let options = behind_names(words);
    for (index, word) in options.iter().enumerate() {
        if word.as_str() == "--" {
            return &options[..index];
        }
    }
    options
}

/// The words behind the program's name and the command's.
fn behind_names(words: &[String]) -> &[String]
    ensures { result.now ≡ drop 2 words.now }
{
    if words.len() < NAMES {
        &[]
    } else {
        &words[NAMES..]
    }
}

/// The words of a command line, with those of a file's entries behind the command's name: of each entry whose option
/// the words do not name. An error of memory where there was none.
pub fn words_with(
    alloc: Global,
    words: &[String],
    entries: &[Entry],
) -> Result<Vec<String>, AllocError>
    ensures { IfOk result (λ all. map string_bytes all.items
        ≡ spec.words_with (map string_bytes words.now) (map entry_view entries.now)) }
{
    let mut all = Vec::new(alloc);
    for word in names_of(words) {
        all.push(word.clone()?)?;
    }
    for entry in entries {
        push_entry(words, entry, &mut all)?;
    }
    for word in behind_names(words) {
        all.push(word.clone()?)?;
    }
    Ok(all)
}

/// Puts the word of an entry behind the others, unless the words name its option.
fn push_entry(words: &[String], entry: &Entry, all: &mut Vec<String>) -> Result<(), AllocError>
    ensures { IfOk result (λ _. map string_bytes all.new.items ≡ map string_bytes all.old.items
        ++ spec.word_beside (map string_bytes words.now) (entry_view entry.now)) }
{
    if has_option(words, entry.name.as_str()) {
        return Ok(());
    }
    match &entry.word {
        Some(word) => Ok(all.push(word.clone()?)?),
        None => Ok(()),
    }
}

/// The words that try an entry alone: the program's name and the command's, and its word, or the flag of its option
/// where it gives none. An error of memory where there was none.
pub fn words_to_try(
    alloc: Global,
    words: &[String],
    entry: &Entry,
) -> Result<Vec<String>, AllocError>
    ensures { IfOk result (λ all. map string_bytes all.items
        ≡ spec.words_to_try (map string_bytes words.now) (entry_view entry.now)) }
{
    let mut all = Vec::new(alloc);
    for word in names_of(words) {
        all.push(word.clone()?)?;
    }
    let word = match &entry.word {
        Some(word) => word.clone()?,
        None => flag(alloc, entry.name.as_str())?,
    };
    all.push(word)?;
    Ok(all)
}

/// The program's name and the command's.
fn names_of(words: &[String]) -> &[String]
    ensures { result.now ≡ take 2 words.now }
{
    if words.len() < NAMES {
        words
    } else {
        &words[..NAMES]
    }
}
