//! A message as a line of phrases (profile).
ghost use Rattle.std.specs.Prelude.{◌≡◌, drop, map, encode_utf8_all};
ghost use Rattle.uecp_elements.specs.Reading.{IsItem};
ghost use Rattle.uecp_elements.specs.View.{item_of};
ghost use Rattle.uecp_text.specs.Written.{Adds};
ghost use Rattle.phrase_tokens.specs.Tokens.{written_behind, written_tokens};
ghost use Rattle.uecp_phrases.specs.Written.{byte_token, phrase_of_item, line_of};

use crate::phrase_text::{phrase_of, raw_token, word};
use phrase_tokens::{Token, put_behind, put_tokens};
use rds_text::Region;
use uecp_elements::{Element, ElementFault, elements};
use uecp_text::Output;

/// Adds the line of a message, without its end: the phrases of its elements, and what reads as no element by `raw`,
/// with semicolons between. A message with no byte is an empty line.
///
/// ```
/// put_message(Region::Europe, &[0x1c, 0x02, 0x99], &mut output); // set 2; raw 99
/// ```
pub fn put_message(region: Region, message: &[u8], output: &mut Output)
    ensures { Adds output.old output.new (encode_utf8_all (written_tokens (line_of region message.now))) }
{
    let mut read = elements(message);
    if let Some(first) = read.next() {
        put_first(region, message, first, output);
        for other in read {
            put_behind(&[Token::Semicolon], output);
            put_other(region, message, other, output);
        }
    }
}

/// Adds the first phrase of a line.
fn put_first(
    region: Region,
    message: &[u8],
    read: Result<Element<'_>, ElementFault>,
    output: &mut Output,
)
    requires { IsItem (item_of read) }
    ensures { Adds output.old output.new (encode_utf8_all (written_tokens
        (phrase_of_item region message.now (item_of read.entry)))) }
{
    match read {
        Ok(element) => put_tokens(phrase_of(region, &element).as_slice(), output),
        Err(fault) => {
            put_tokens(&[word(b"raw")], output);
            put_raw(from_place(message, fault.place), output);
        }
    }
}

/// Adds another phrase.
fn put_other(
    region: Region,
    message: &[u8],
    read: Result<Element<'_>, ElementFault>,
    output: &mut Output,
)
    requires { IsItem (item_of read) }
    ensures { Adds output.old output.new (encode_utf8_all (written_behind
        (phrase_of_item region message.now (item_of read.entry)))) }
{
    match read {
        Ok(element) => put_behind(phrase_of(region, &element).as_slice(), output),
        Err(fault) => {
            put_behind(&[word(b"raw")], output);
            put_raw(from_place(message, fault.place), output);
        }
    }
}

/// Adds bytes as they are.
fn put_raw(bytes: &[u8], output: &mut Output)
    ensures { Adds output.old output.new (encode_utf8_all (written_behind (map byte_token bytes.now))) }
{
    for byte in bytes {
        put_behind(&[raw_token(*byte)], output);
    }
}

/// The bytes of a message from a place on.
fn from_place(message: &[u8], place: usize) -> &[u8]
    ensures { result.now ≡ drop place message.now }
{
    match message.get(place..) {
        Some(bytes) => bytes,
        None => &[],
    }
}
