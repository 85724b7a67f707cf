//! What is wrong with a line that says nothing (profile).
ghost use Rattle.std.specs.Prelude.{IfOk};
ghost use Rattle.phrase_scripts.specs.Lines.{IsUnsaid};

use crate::frame_line::frame_expected;
use phrase_tokens::{Token, Unread, column_of};
use rds_text::Region;
use std::alloc::{AllocError, Global};
use uecp_phrases::{Expectation, expected_in};
use uecp_text::{TextFault, Unsaid};

/// The fault of a line that is no UTF-8.
pub fn no_text(text: &[u8]) -> TextFault
    ensures { IsUnsaid result }
{
    let valid = match std::str::from_utf8(text) {
        Ok(_) => text.len(),
        Err(error) => error.valid_up_to(),
    };
    let before = text
        .iter()
        .take(valid)
        .filter(|byte| **byte & 0xc0 != 0x80)
        .count();
    TextFault::Unsaid(Unsaid {
        column: before + 1,
        character: None,
        what: "a character in UTF-8",
        nearest: None,
    })
}

/// The fault of a line whose character at that column can't be read.
pub(crate) fn unread(characters: &[char], column: usize, reason: Unread) -> TextFault
    ensures { IsUnsaid result }
{
    unsaid_at(characters, column, said_of(reason))
}

/// The fault of a line whose character at that column, counted from 1, is at fault: what is said of it, where it is
/// printed as it is; else that a printable character was expected.
pub fn unsaid_at(characters: &[char], column: usize, what: &'static str) -> TextFault
    ensures { IsUnsaid result }
{
    let character = characters.get(column.saturating_sub(1)).copied();
    match character {
        Some(character) if is_printed(character) => TextFault::Unsaid(Unsaid {
            column,
            character: Some(character),
            what,
            nearest: None,
        }),
        _ => TextFault::Unsaid(Unsaid {
            column,
            character: None,
            what: "a printable character",
            nearest: None,
        }),
    }
}

/// Whether the character is printed as it is: it is none of the control characters.
fn is_printed(character: char) -> bool {
    ' ' <= character && !('\u{7f}' <= character && character <= '\u{9f}')
}

/// What is said of a character that can't be read.
fn said_of(reason: Unread) -> &'static str {
    match reason {
        Unread::Word => "begins no word: 1 to 16 characters of ASCII, without quotes",
        Unread::NotInSet => "is not in the RDS character set",
        Unread::Escape => "begins no escape: \\\\, \\\", \\u and four digits, or \\x and two",
        Unread::Unclosed => "is not closed",
        Unread::TooLong => "begins a text of more than 64 bytes",
    }
}

/// What is said of a comma between phrases.
const COMMA: &str = "ends no phrase: a semicolon does";

/// What was expected where no phrase begins, and no word is near.
const NO_PHRASE: &str = "the first word of a phrase: uecp help phrases tells them";

/// The fault of a line whose tokens tell nothing.
pub(crate) fn unsaid(
    alloc: Global,
    region: Region,
    characters: &[char],
    tokens: &[Token],
) -> Result<TextFault, AllocError>
    ensures { IfOk result IsUnsaid }
{
    let (index, what, nearest) = match tokens {
        [name, ..] if name.is_word(b"frame") => {
            let (index, what) = frame_expected(tokens);
            (index, what, None)
        }
        _ => {
            let expected = expected_in(alloc, region, tokens)?;
            if let Some(behind) = comma_in(tokens.get(expected.index)) {
                let column = column_of(characters, expected.index).saturating_add(behind);
                return Ok(unsaid_at(characters, column, COMMA));
            }
            (
                expected.index,
                text_of(expected.what, expected.nearest),
                expected.nearest,
            )
        }
    };
    Ok(TextFault::Unsaid(Unsaid {
        column: column_of(characters, index),
        character: None,
        what,
        nearest,
    }))
}

/// Behind how many characters of a token its comma stands, where it is a word that ends with one.
fn comma_in(token: Option<&Token>) -> Option<usize> {
    match token?.word()? {
        [before @ .., b','] => Some(before.len()),
        _ => None,
    }
}

/// What was expected; of the first word of a phrase also where the phrases are told, where no word is near.
fn text_of(what: Expectation, nearest: Option<&'static str>) -> &'static str {
    match what {
        Expectation::FirstWord if nearest.is_none() => NO_PHRASE,
        other => other.text(),
    }
}
