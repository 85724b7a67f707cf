//! A text that is made to fit the basic character set (profile).
ghost use Rattle.std.specs.Prelude.{◌≡◌, ◌∷◌, [], ◌++◌, IfOk, OnOk, chars};
ghost use Rattle.unicode_normalization.specs.Forms.{nfc, nfkd};
ghost use Rattle.titles.specs.Fitting.{AreFitted, IsFitted, Puts, PutsPart, PutsParts, Tells};

use crate::nearest::nearest_to;
use rds_text::byte_of;
use std::alloc::{AllocError, Global};
use unicode_normalization::char::is_combining_mark;
use unicode_normalization::slice::{extend_nfc, extend_nfkd};

/// What stands for a character that nothing is near.
const UNKNOWN: u8 = b'?';

/// Adds what these characters are in the basic character set, each by itself and in order, once they are composed: one
/// that is in the set its own byte; one that is not the nearest that there is; a letter with marks the letter; a
/// control a space; and one that nothing is near `?`.
///
/// Errors: where memory is refused some of it may have been added.
///
/// ```
/// fit(alloc, &['e', '\u{301}', '’', '♥'], &mut text)?; // é ' ?, the bytes 82 27 3F
/// ```
pub fn fit(alloc: Global, characters: &[char], text: &mut Vec<u8>) -> Result<(), AllocError>
    ensures { OnOk result (Puts (AreFitted (nfc characters.now)) text.old.items text.new.items) }
{
    let mut composed = Vec::new(alloc);
    extend_nfc(&mut composed, characters)?;
    put_all(alloc, composed.as_slice(), text)
}

/// Adds what these characters are, each by itself.
fn put_all(alloc: Global, characters: &[char], text: &mut Vec<u8>) -> Result<(), AllocError>
    ensures { OnOk result (Puts (AreFitted characters.now) text.old.items text.new.items) }
{
    for character in characters {
        put_fitted(alloc, *character, text)?;
    }
    Ok(())
}

/// Adds what a character is.
fn put_fitted(alloc: Global, character: char, text: &mut Vec<u8>) -> Result<(), AllocError>
    ensures { OnOk result (Puts (IsFitted character) text.old.items text.new.items) }
{
    if put_told(character, text)? {
        return Ok(());
    }
    let mut parts = Vec::new(alloc);
    extend_nfkd(&mut parts, &[character])?;
    let begin = text.len();
    if put_parts(parts.as_slice(), text)? {
        return Ok(());
    }
    text.truncate(begin);
    text.push(UNKNOWN)?;
    Ok(())
}

/// Adds what these parts of a character are, each by itself; and answers whether something tells each.
fn put_parts(parts: &[char], text: &mut Vec<u8>) -> Result<bool, AllocError>
    ensures { IfOk result (λ are_parts. PutsParts parts.now are_parts text.old.items text.new.items) }
{
    for part in parts {
        if !put_part(*part, text)? {
            return Ok(false);
        }
    }
    Ok(true)
}

/// Adds what a part of a character is: nothing, where it is a mark, else what tells it. Whether something does.
fn put_part(part: char, text: &mut Vec<u8>) -> Result<bool, AllocError>
    ensures { IfOk result (λ is_part. PutsPart part is_part text.old.items text.new.items) }
{
    if is_combining_mark(part) {
        return Ok(true);
    }
    put_told(part, text)
}

/// Adds what tells a character, where something does: its own byte, where it is in the set, else the nearest. Whether
/// something does.
fn put_told(character: char, text: &mut Vec<u8>) -> Result<bool, AllocError>
    ensures { IfOk result (λ is_told. Tells character is_told text.old.items text.new.items) }
{
    if let Some(byte) = byte_of(character) {
        text.push(byte)?;
        return Ok(true);
    }
    match nearest_to(character) {
        Some(bytes) => {
            text.extend_from_slice(bytes)?;
            Ok(true)
        }
        None => Ok(false),
    }
}
