//! Characters of a text, and what is written of characters and bytes, in UTF-8 (profile).
ghost use Rattle.std.specs.Prelude.{◌≡◌, ◌++◌, IfOk, chars, encode_utf8_all, flat_map};
ghost use Rattle.std.specs.String.{string_bytes};
ghost use Rattle.rds_text.specs.Quoted.{written};
ghost use Rattle.titles.specs.Strings.{string_of};

use rds_text::written;
use std::alloc::{AllocError, Global};

/// The characters of a text.
pub(crate) fn characters_of(alloc: Global, text: &str) -> Result<Vec<char>, AllocError>
    ensures { IfOk result (λ characters. characters.items ≡ chars text.now) }
{
    text.chars().collect(alloc)
}

/// Adds characters as they are.
pub(crate) fn put_characters(characters: &[char], text: &mut String) -> Result<(), AllocError>
    ensures { IfOk result (λ _. string_bytes text.new ≡ string_bytes text.old ++ encode_utf8_all characters.now) }
{
    for character in characters {
        text.push(*character)?;
    }
    Ok(())
}

/// Adds bytes as a string of a phrase, with its quotes.
pub(crate) fn put_string(bytes: &[u8], text: &mut String) -> Result<(), AllocError>
    ensures { IfOk result (λ _. string_bytes text.new
        ≡ string_bytes text.old ++ encode_utf8_all (string_of bytes.now)) }
{
    text.push('"')?;
    put_bytes(bytes, text)?;
    text.push('"')?;
    Ok(())
}

/// Adds bytes as they are written between quotes.
fn put_bytes(bytes: &[u8], text: &mut String) -> Result<(), AllocError>
    ensures { IfOk result (λ _. string_bytes text.new
        ≡ string_bytes text.old ++ encode_utf8_all (flat_map written bytes.now)) }
{
    for byte in bytes {
        put_characters(written(*byte).as_slice(), text)?;
    }
    Ok(())
}
