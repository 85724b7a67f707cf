//! Where something stands in a text (profile).
ghost use Rattle.std.specs.Prelude.{◌≡◌, ◌⊎◌, ◌+◌, ◌-◌, ◌^◌, ◌<◌, ◌≤◌, ◌↔◌, take, drop, length, IfOk, IsTrue};
ghost use Rattle.std.specs.Prelude.{if◌then◌else◌};
ghost use Rattle.std.specs.List.{prefix_len};
ghost use Rattle.option_files.specs.Places.{BeginsEntry, IsPlaceAt, IsPlaceOf, Lacks, is_blank, is_feed, is_first};

use std::alloc::{AllocError, Global};
use toml::table_from_slice;

/// A place in a text.
#[derive(Clone, Copy, Debug, PartialEq, Eq)]
pub struct Place {
    /// The number of its line, counted from 1.
    pub line: usize,
    /// The number of its character in that line, counted from 1.
    pub column: usize,
}

/// The place of the byte at this index of a text, or of its end.
pub fn place_at(text: &[u8], index: usize) -> Place
    ensures { IsPlaceAt text.now index result }
{
    let mut place = Place { line: 1, column: 1 };
    for byte in &text[..index.min(text.len())] {
        place = moved(place, *byte);
    }
    place
}

/// The place behind this byte, which stands at a place.
fn moved(place: Place, byte: u8) -> Place
    requires line { place.line < 2 ^ 64 - 1 }
    requires column { place.column < 2 ^ 64 - 1 }
    ensures line { result.line ≡ place.line + (if is_feed byte then 1 else 0) }
    ensures column { result.column ≡ (if is_feed byte then 1 else place.column + (if is_first byte then 1 else 0)) }
{
    let (line, column) = (place.line, place.column);
    if byte == b'\n' {
        Place {
            line: line + 1,
            column: 1,
        }
    } else if byte < 0x80 || 0xC0 <= byte {
        Place {
            line,
            column: column + 1,
        }
    } else {
        place
    }
}

/// The place of the entry of this name in a text of TOML: where the line that has its key begins, behind spaces and
/// tabs. An error of memory where there was none.
pub fn place_of(alloc: Global, text: &str, name: &str) -> Result<Place, AllocError>
    ensures { IfOk result (IsPlaceOf name.now text.now) }
{
    let bytes = text.as_bytes();
    let index = entry_in(alloc, bytes, name)?;
    Ok(place_at(bytes, index + blanks_at(bytes, index)))
}

/// Where the statement begins that gives the entry of this name.
fn entry_in(alloc: Global, text: &[u8], name: &str) -> Result<usize, AllocError>
    ensures entry { IfOk result (BeginsEntry name.now text.now) }
    ensures within { IfOk result (λ index. index ≤ length text.now) }
{
    let mut from = 0;
    for (index, byte) in text.iter().enumerate() {
        if *byte == b'\n' {
            from = start_behind(alloc, text, from, index, name)?;
        }
    }
    Ok(from)
}

/// Where the statement begins at the earliest, by the line feed at this index: behind it, where the text up to it is
/// TOML and has no such key; else where it was.
fn start_behind(
    alloc: Global,
    text: &[u8],
    from: usize,
    index: usize,
    name: &str,
) -> Result<usize, AllocError>
    requires { index < length text.now }
    ensures { IfOk result (λ start. ((start ≡ index + 1) × Lacks name.now (take (index + 1) text.now))
        ⊎ ((start ≡ from) × (Lacks name.now (take (index + 1) text.now) → ⊥))) }
{
    if is_without(alloc, &text[..index + 1], name)? {
        Ok(index + 1)
    } else {
        Ok(from)
    }
}

/// Whether a text is TOML and has no such key.
fn is_without(alloc: Global, text: &[u8], name: &str) -> Result<bool, AllocError>
    ensures { IfOk result (λ without. IsTrue without ↔ Lacks name.now text.now) }
{
    match table_from_slice(alloc, text) {
        Ok(table) => Ok(!table.contains_key(name)),
        Err(error) if error.is_memory() => Err(AllocError),
        Err(_) => Ok(false),
    }
}

/// How many spaces and tabs stand at this index.
fn blanks_at(text: &[u8], index: usize) -> usize
    requires { index ≤ length text.now }
    ensures blanks { result ≡ prefix_len is_blank (drop index text.now) }
    ensures within { index + result ≤ length text.now }
{
    let mut count = 0;
    for byte in &text[index..] {
        if *byte != b' ' && *byte != b'\t' {
            return count;
        }
        count += 1;
    }
    count
}
