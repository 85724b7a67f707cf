//! What a line gives as a title (profile).
ghost use Rattle.std.specs.Prelude.{◌≡◌, ◌≢◌, ◌⊎◌, ◌≤◌, ◌<◌, ◌++◌, [], ℕ, List, length, map, Some, chars};
ghost use Rattle.std.specs.Prelude.{false, IfOk, IfErr, IfSome, IfNone};
ghost use Rattle.std.specs.String.{string_bytes};
ghost use Rattle.uecp_text.specs.declared.text_fault.TextFault.TheVariants.{OutOfMemory};
ghost use Rattle.phrase_scripts.specs.Lines.{IsUnsaid};
ghost use Rattle.titles.specs.Titles.{GivesTitle, IsRefused, IsTitleOf, RefusesText, Stands, NoneStands, IsMadeToFit};
ghost use Rattle.titles.specs.Titles.{radio_text, shown};

use crate::cut::cut;
use crate::fitting::fit;
use crate::texts::{characters_of, put_string};
use phrase_scripts::{no_text, unsaid_at};
use rds_text::byte_of;
use std::alloc::{AllocError, Global};
use std::str;
use uecp_elements::{Element, RtPart, TEXT_MAX, push_element};
use uecp_frame::Message;
use uecp_text::TextFault;

/// The head of a text that is new: its A/B flag turns, so that a receiver does not mix it with the one before.
const NEW_TEXT: u8 = 0x01;

/// What is said of a character that is not in the set.
const NOT_IN_SET: &str = "is not in the RDS character set; --fit takes what is nearest";

/// What is said of the first character that there is no room for.
const TOO_LONG: &str = "is behind the 64 characters of a RadioText; --fit cuts it";

/// How lines are read as titles.
#[derive(Clone, Copy, Debug)]
pub struct Titles<'a> {
    /// What stands before each title, in bytes of the basic character set.
    pub prefix: &'a [u8],
    /// The programme service whose RadioText it is, 0 for the main one.
    pub service: u8,
    /// Whether a title that is no RadioText as it stands is made to fit.
    pub fit: bool,
}

/// What a line gives as a title.
#[derive(Debug, Drop)]
pub enum Title {
    /// Nothing: the line is empty, but for white space.
    Nothing,
    /// The message of the title as it stands.
    Stands(Message),
    /// The message of the title that was made to fit, and its text as a string of a phrase.
    Fits(Message, String),
}

/// What a line gives as a title, in UTF-8: one RadioText, its A/B flag turned, without the white space around it.
/// Whatever stands in it is text.
///
/// Errors: `Unsaid` where the line is no UTF-8, a character is not in the set or the title is longer than a RadioText,
/// unless it is made to fit: its column, counted in characters of the title from 1; `OutOfMemory`.
///
/// ```
/// title_of(alloc, &titles, b"Don't Stop Me Now\n")?;  // Stands: rt "Don't Stop Me Now"
/// ```
pub fn title_of(alloc: Global, titles: &Titles<'_>, line: &[u8]) -> Result<Title, TextFault>
    ensures gives { IfOk result (GivesTitle titles.now line.now) }
    ensures refused { IfErr result (λ fault. (fault ≡ OutOfMemory) ⊎ (IsUnsaid fault × IsRefused titles.now line.now)) }
{
    match str::from_utf8(line) {
        Ok(text) => title_in(alloc, titles, text.trim()),
        Err(_) if titles.fit => {
            let text = String::from_utf8_lossy(alloc, line)?;
            title_in(alloc, titles, text.as_str().trim())
        }
        Err(_) => Err(no_text(line)),
    }
}

/// What a text gives that a line has.
fn title_in(alloc: Global, titles: &Titles<'_>, text: &str) -> Result<Title, TextFault>
    ensures gives { IfOk result (IsTitleOf titles.now (chars text.now)) }
    ensures refused { IfErr result (λ fault. (fault ≡ OutOfMemory)
        ⊎ (IsUnsaid fault × RefusesText titles.now (chars text.now))) }
{
    let characters = characters_of(alloc, text)?;
    let characters = characters.as_slice();
    if characters.is_empty() {
        return Ok(Title::Nothing);
    }
    match standing(alloc, titles.prefix, characters)? {
        Ok(text) => Ok(Title::Stands(message_of(titles.service, text.as_slice()))),
        Err(_) if titles.fit => fitted(alloc, titles, characters),
        Err(place) => Err(fault_at(characters, place)),
    }
}

/// A text in the basic character set, as a RadioText has it; None where it has none.
///
/// Errors: want of memory.
///
/// ```
/// text_of(alloc, "Now: ")?; // the bytes of it
/// ```
pub fn text_of(alloc: Global, text: &str) -> Result<Option<Vec<u8>>, AllocError>
    ensures some { IfOk result (λ found. IfSome found (λ bytes. Stands [] (chars text.now) bytes.items)) }
    ensures none { IfOk result (λ found. IfNone found (NoneStands [] (chars text.now))) }
{
    let characters = characters_of(alloc, text)?;
    match standing(alloc, &[], characters.as_slice())? {
        Ok(bytes) => Ok(Some(bytes)),
        Err(_) => Ok(None),
    }
}

/// The text that stands where characters stand in the set, behind a prefix; or the place of the first that does not, or
/// that there is no room for.
fn standing(
    alloc: Global,
    prefix: &[u8],
    characters: &[char],
) -> Result<Result<Vec<u8>, usize>, AllocError>
    ensures { IfOk result (λ found. IfOk found (λ text. Stands prefix.now characters.now text.items)
        × IfErr found (λ _. NoneStands prefix.now characters.now)) }
{
    let mut text = Vec::new(alloc);
    text.extend_from_slice(prefix)?;
    for place in 0..characters.len() {
        match byte_of(characters[place]) {
            Some(byte) if text.len() < TEXT_MAX => text.push(byte)?,
            _ => return Ok(Err(place)),
        }
    }
    if text.len() <= TEXT_MAX {
        Ok(Ok(text))
    } else {
        Ok(Err(0))
    }
}

/// The title of characters that do not stand in the set, or that there is no room for.
fn fitted(alloc: Global, titles: &Titles<'_>, characters: &[char]) -> Result<Title, TextFault>
    requires fit { titles.now.fit ≢ false }
    requires some { characters.now ≢ [] }
    requires none { NoneStands titles.now.prefix.now characters.now }
    ensures gives { IfOk result (IsTitleOf titles.now characters.now) }
    ensures refused { IfErr result (λ fault. fault ≡ OutOfMemory) }
{
    let mut text = Vec::new(alloc);
    text.extend_from_slice(titles.prefix)?;
    fit(alloc, characters, &mut text)?;
    if text.len() == titles.prefix.len() {
        return Ok(Title::Nothing);
    }
    cut(&mut text);
    let text = text.as_slice();
    Ok(Title::Fits(message_of(titles.service, text), shown_of(alloc, text)?))
}

/// The message that sets a RadioText of the current data set, its A/B flag turned.
fn message_of(service: u8, text: &[u8]) -> Message
    requires { length text.now ≤ 64 }
    ensures { result ≡ radio_text service text.now }
{
    let mut message = Message::new();
    let part = RtPart::Text {
        head: NEW_TEXT,
        text,
    };
    let element = Element::Rt {
        dsn: 0,
        psn: service,
        part,
    };
    match push_element(&mut message, &element) {
        Ok(()) => message,
        Err(_) => unreachable!(),
    }
}

/// A text as a string of a phrase, in UTF-8.
fn shown_of(alloc: Global, text: &[u8]) -> Result<String, AllocError>
    ensures { IfOk result (λ shown_text. string_bytes shown_text ≡ shown text.now) }
{
    let mut shown = String::new(alloc);
    put_string(text, &mut shown)?;
    Ok(shown)
}

/// The fault of a title whose character at this place is not in the set, or has no room.
fn fault_at(characters: &[char], place: usize) -> TextFault
    ensures { IsUnsaid result }
{
    let what = match characters.get(place) {
        Some(character) if byte_of(*character).is_none() => NOT_IN_SET,
        _ => TOO_LONG,
    };
    unsaid_at(characters, place.saturating_add(1), what)
}
