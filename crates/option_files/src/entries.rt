//! The entries of a text (profile).
ghost use Rattle.std.specs.Prelude.{◌≡◌, map, Some, string_bytes, IfOk, IfErr};
ghost use Rattle.toml.specs.View.{view, table_view};
ghost use Rattle.option_files.specs.Entries as spec;
ghost use Rattle.option_files.specs.Entries.{entry_view, Gives, Refuses, RefusesEntry, RefusesTable};

use crate::entries_fault::EntriesFault;
use crate::option_words::flag;
use itoa::Buffer;
use std::alloc::{AllocError, Global};
use toml::{Table, Value, table_from_str};

/// An entry of a file.
#[derive(Debug, Drop)]
pub struct Entry {
    /// The name of the option: small letters and hyphens.
    pub name: String,
    /// The word that gives it, `--NAME` or `--NAME=VALUE`; none where it is `false`.
    pub word: Option<String>,
}

/// The entries of a text of TOML, in the order of their names. `NotToml` where it is none, `NotAName` where a key is no
/// name of an option that a file may give, `NotAValue` where a value is none that an option has, `OutOfMemory` where
/// there was no memory.
pub fn entries_of(alloc: Global, text: &str) -> Result<Vec<Entry>, EntriesFault>
    ensures entries { IfOk result (λ entries. Gives text.now (map entry_view entries.items)) }
    ensures refused { IfErr result (Refuses text.now) }
{
    match table_from_str(alloc, text) {
        Ok(table) => entries_in(alloc, &table),
        Err(error) if error.is_memory() => Err(EntriesFault::OutOfMemory),
        Err(error) => Err(EntriesFault::NotToml(error)),
    }
}

/// The entries of a table.
fn entries_in(alloc: Global, table: &Table) -> Result<Vec<Entry>, EntriesFault>
    ensures entries { IfOk result (λ entries. spec.entries_of (table_view table.now)
        ≡ Some (map entry_view entries.items)) }
    ensures refused { IfErr result (RefusesTable (table_view table.now)) }
{
    let mut entries = Vec::new(alloc);
    for (name, value) in table.iter() {
        entries.push(entry_of(alloc, name.as_str(), value)?)?;
    }
    Ok(entries)
}

/// The entry of a key with its value.
fn entry_of(alloc: Global, name: &str, value: &Value) -> Result<Entry, EntriesFault>
    ensures entry { IfOk result (λ entry. spec.entry_of name.now (view value.now) ≡ Some (entry_view entry)) }
    ensures refused { IfErr result (RefusesEntry name.now (view value.now)) }
{
    if !is_name(name) {
        return Err(EntriesFault::NotAName(String::from_str(alloc, name)?));
    }
    let word = match value {
        Value::String(text) => Some(valued(alloc, name, text.as_str())?),
        Value::Integer(number) => {
            let mut buffer = Buffer::new();
            Some(valued(alloc, name, buffer.format(*number))?)
        }
        Value::Boolean(true) => Some(flag(alloc, name)?),
        Value::Boolean(false) => None,
        _ => return Err(EntriesFault::NotAValue(String::from_str(alloc, name)?)),
    };
    Ok(Entry {
        name: String::from_str(alloc, name)?,
        word,
    })
}

/// Whether a key is the name of an option that a file may give.
fn is_name(name: &str) -> bool
    ensures { result ≡ spec.is_name name.now }
{
    if name == "config" || name == "check-config" || name == "help" {
        return false;
    }
    for byte in name.as_bytes() {
        if !(b'a' <= *byte && *byte <= b'z' || *byte == b'-') {
            return false;
        }
    }
    !name.is_empty()
}

/// The word that gives an option a value.
fn valued(alloc: Global, name: &str, value: &str) -> Result<String, AllocError>
    ensures { IfOk result (λ word. string_bytes word ≡ spec.valued name.now value.now) }
{
    let mut word = flag(alloc, name)?;
    word.push_str("=")?;
    word.push_str(value)?;
    Ok(word)
}
