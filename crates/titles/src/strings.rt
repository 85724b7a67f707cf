//! A string of a phrase that is made to fit (profile).
ghost use Rattle.std.specs.Prelude.{◌≡◌, ◌++◌, IfOk, IfSome, IfNone, true, ◌==◌};
ghost use Rattle.std.specs.List.{list_all};
ghost use Rattle.titles.specs.Strings.{IsNoString, IsShortened, ends_with_ps, is_plain, is_ps};
ghost use Rattle.titles.specs.Parts.{IsEndOfPlain, IsPartOf, PutsString};

use crate::cut::cut;
use crate::fitting::fit;
use rds_text::first_byte;
use std::alloc::{AllocError, Global};

/// How many characters a name has at most.
const NAME_MAX: usize = 8;

/// What comes next between quotes, behind characters that stand for themselves.
enum Part<'a> {
    /// The quote that closes the string, and this behind it.
    Closed(&'a [char]),
    /// An escape, and this behind it.
    Escaped(&'a [char]),
    /// Nothing, or a backslash that begins no escape: there is no string.
    None,
}

/// Adds what the string says whose first quote stands in front of this, made to fit; and what is behind its last. None
/// where there is no string; then some of it may have been added.
///
/// Errors: want of memory.
pub(crate) fn fit_string<'a>(
    alloc: Global,
    body: &'a [char],
    bytes: &mut Vec<u8>,
) -> Result<Option<&'a [char]>, AllocError>
    ensures some { IfOk result (λ found. IfSome found (λ behind.
        PutsString body.now behind.now bytes.old.items bytes.new.items)) }
    ensures none { IfOk result (λ found. IfNone found (IsNoString body.now)) }
{
    let mut left = body;
    'parts: loop {
        match next_part(alloc, left, bytes)? {
            Part::Escaped(more) => left = more,
            Part::Closed(behind) => return Ok(Some(behind)),
            Part::None => return Ok(None),
        }
    }
}

/// Adds what the characters in front say, up to the first that does not stand for itself, and the byte of the escape
/// that stands there, if one does; and what comes there.
fn next_part<'a>(
    alloc: Global,
    left: &'a [char],
    bytes: &mut Vec<u8>,
) -> Result<Part<'a>, AllocError>
    ensures { IfOk result (λ part. IsPartOf left.now part bytes.old.items bytes.new.items) }
{
    let (run, more) = split_plain(left);
    fit(alloc, run, bytes)?;
    match more.split_first() {
        None => Ok(Part::None),
        Some(('"', behind)) => Ok(Part::Closed(behind)),
        Some(_) => match first_byte(more) {
            Ok((byte, used)) => {
                bytes.push(byte)?;
                Ok(Part::Escaped(more.split_at(used).1))
            }
            Err(_) => Ok(Part::None),
        },
    }
}

/// The characters in front that stand for themselves, and what is behind them.
fn split_plain(text: &[char]) -> (&[char], &[char])
    ensures whole { text.now ≡ result.0.now ++ result.1.now }
    ensures plain { list_all is_plain result.0.now ≡ true }
    ensures ends { IsEndOfPlain result.1.now }
{
    let mut place = 0;
    while place < text.len() && is_plain(text[place]) {
        place += 1;
    }
    text.split_at(place)
}

/// Whether the character stands for itself between quotes.
fn is_plain(character: char) -> bool
    ensures { result ≡ is_plain character }
{
    character != '"' && character != '\\'
}

/// Leaves of a string what there is room for, where this stands before it.
pub(crate) fn shorten(outside: &[char], bytes: &mut Vec<u8>)
    ensures { IsShortened (ends_with_ps outside.now) bytes.old.items bytes.new.items }
{
    if ends_with_ps(outside) {
        bytes.truncate(NAME_MAX);
    } else {
        cut(bytes);
    }
}

/// Whether the word `ps` ends these characters, and maybe spaces.
fn ends_with_ps(characters: &[char]) -> bool
    ensures { result ≡ ends_with_ps characters.now }
{
    let mut left = characters;
    while let Some((_, more)) = left.split_first() {
        if is_ps(left) {
            return true;
        }
        left = more;
    }
    false
}

/// Whether they are the word `ps` and spaces.
fn is_ps(characters: &[char]) -> bool
    ensures { result ≡ is_ps characters.now }
{
    match characters {
        [p, s, spaces @ ..] => {
            p.to_ascii_lowercase() == 'p' && s.to_ascii_lowercase() == 's' && are_spaces(spaces)
        }
        _ => false,
    }
}

/// Whether all are spaces.
fn are_spaces(characters: &[char]) -> bool
    ensures { result ≡ list_all (λ c. c == 0x20) characters.now }
{
    characters.iter().all(|&character| character == ' ')
}
