//! Elements out of the words of a frame script (profile).
ghost use Rattle.std.specs.Prelude.{◌≡◌, ◌≢◌, ◌≤◌, ◌⊎◌, ℕ, List, [], ◌∷◌, length, codes, Ok, IfSome, IfNone};
ghost use Rattle.hex.specs.Hex.{decode_sized};
ghost use Rattle.uecp_elements.specs.Grammar.{IsElement, spelling};
ghost use Rattle.uecp_elements.specs.View.{element_of};
ghost use Rattle.uecp_text.specs.Words.{texts, IsRow};
ghost use Rattle.uecp_words.specs.ScriptWords.{AreThreeBytes, AreNotThreeBytes, NamesSpelling, NamesNone};

use crate::element_name::{ElementName, name_of};
use uecp_elements::{Element, RtPart, push_element};
use uecp_frame::Message;
use uecp_text::{byte_of, digits_of, number_of};

/// The most bytes of a text.
const TEXT_MAX: usize = 64;

/// The bytes of a programme service name.
const NAME_LENGTH: usize = 8;

/// The spelling of the element that the words name, or None where they name none.
pub fn spelling_of(words: &[&[u8]]) -> Option<Message>
    ensures named { IfSome result (λ m. NamesSpelling (texts words.now) m) }
    ensures unnamed { IfNone result (NamesNone (texts words.now)) }
{
    let (name, rest) = words.split_first()?;
    match name_of(name)? {
        ElementName::Pi => of_pi(rest),
        ElementName::Ps => of_ps(rest),
        ElementName::TaTp => of_tatp(rest),
        ElementName::Ms => of_ms(rest),
        ElementName::Pty => of_pty(rest),
        ElementName::Rt => of_text(rest),
        ElementName::Select => of_select(rest),
        ElementName::Group => of_group(rest),
        ElementName::Ack => of_ack(rest),
    }
}

/// A programme identification.
fn of_pi(words: &[&[u8]]) -> Option<Message>
    ensures named { IfSome result (λ m. NamesSpelling (codes "pi" ∷ texts words.now) m) }
    ensures unnamed { IfNone result (NamesNone (codes "pi" ∷ texts words.now)) }
{
    let [dsn, psn, pi] = words else {
        return None;
    };
    let (dsn, psn, pi) = (byte_of(dsn)?, byte_of(psn)?, number_of(pi)?);
    Some(spelled(&Element::Pi { dsn, psn, pi }))
}

/// A programme service name.
fn of_ps(words: &[&[u8]]) -> Option<Message>
    ensures named { IfSome result (λ m. NamesSpelling (codes "ps" ∷ texts words.now) m) }
    ensures unnamed { IfNone result (NamesNone (codes "ps" ∷ texts words.now)) }
{
    let [dsn, psn, name] = words else {
        return None;
    };
    let (dsn, psn, name) = (
        byte_of(dsn)?,
        byte_of(psn)?,
        digits_of::<NAME_LENGTH>(name)?,
    );
    Some(spelled(&Element::Ps {
        dsn,
        psn,
        name: &name,
    }))
}

/// Traffic flags.
fn of_tatp(words: &[&[u8]]) -> Option<Message>
    ensures named { IfSome result (λ m. NamesSpelling (codes "tatp" ∷ texts words.now) m) }
    ensures unnamed { IfNone result (NamesNone (codes "tatp" ∷ texts words.now)) }
{
    let (dsn, psn, raw) = three_bytes(words)?;
    Some(spelled(&Element::TaTp { dsn, psn, raw }))
}

/// Music or speech.
fn of_ms(words: &[&[u8]]) -> Option<Message>
    ensures named { IfSome result (λ m. NamesSpelling (codes "ms" ∷ texts words.now) m) }
    ensures unnamed { IfNone result (NamesNone (codes "ms" ∷ texts words.now)) }
{
    let (dsn, psn, raw) = three_bytes(words)?;
    Some(spelled(&Element::Ms { dsn, psn, raw }))
}

/// A programme type.
fn of_pty(words: &[&[u8]]) -> Option<Message>
    ensures named { IfSome result (λ m. NamesSpelling (codes "pty" ∷ texts words.now) m) }
    ensures unnamed { IfNone result (NamesNone (codes "pty" ∷ texts words.now)) }
{
    let (dsn, psn, raw) = three_bytes(words)?;
    Some(spelled(&Element::Pty { dsn, psn, raw }))
}

/// The bytes of three words.
fn three_bytes(words: &[&[u8]]) -> Option<(u8, u8, u8)>
    ensures named { IfSome result (λ b. AreThreeBytes (texts words.now) b.0 b.1 b.2) }
    ensures unnamed { IfNone result (AreNotThreeBytes (texts words.now)) }
{
    let [first, second, third] = words else {
        return None;
    };
    Some((byte_of(first)?, byte_of(second)?, byte_of(third)?))
}

/// A data set select.
fn of_select(words: &[&[u8]]) -> Option<Message>
    ensures named { IfSome result (λ m. NamesSpelling (codes "select" ∷ texts words.now) m) }
    ensures unnamed { IfNone result (NamesNone (codes "select" ∷ texts words.now)) }
{
    let [dsn] = words else {
        return None;
    };
    Some(spelled(&Element::Select { dsn: byte_of(dsn)? }))
}

/// A free-format group.
fn of_group(words: &[&[u8]]) -> Option<Message>
    ensures named { IfSome result (λ m. NamesSpelling (codes "group" ∷ texts words.now) m) }
    ensures unnamed { IfNone result (NamesNone (codes "group" ∷ texts words.now)) }
{
    let [kind, mode, block3, block4] = words else {
        return None;
    };
    let (kind, mode) = (byte_of(kind)?, byte_of(mode)?);
    let (block3, block4) = (number_of(block3)?, number_of(block4)?);
    Some(spelled(&Element::Group {
        kind,
        mode,
        block3,
        block4,
    }))
}

/// An acknowledgement.
fn of_ack(words: &[&[u8]]) -> Option<Message>
    ensures named { IfSome result (λ m. NamesSpelling (codes "ack" ∷ texts words.now) m) }
    ensures unnamed { IfNone result (NamesNone (codes "ack" ∷ texts words.now)) }
{
    let [code, counter] = words else {
        return None;
    };
    let (code, counter) = (byte_of(code)?, byte_of(counter)?);
    Some(spelled(&Element::Ack { code, counter }))
}

/// A RadioText.
fn of_text(words: &[&[u8]]) -> Option<Message>
    ensures named { IfSome result (λ m. NamesSpelling (codes "rt" ∷ texts words.now) m) }
    ensures unnamed { IfNone result (NamesNone (codes "rt" ∷ texts words.now)) }
{
    match words {
        [dsn, psn, empty] => of_empty(dsn, psn, empty),
        [dsn, psn, head, text] => {
            let (dsn, psn, head) = (byte_of(dsn)?, byte_of(psn)?, byte_of(head)?);
            let mut room = [0u8; TEXT_MAX];
            let text = row_in(text, &mut room)?;
            let part = RtPart::Text { head, text };
            Some(spelled(&Element::Rt { dsn, psn, part }))
        }
        _ => None,
    }
}

/// A RadioText that empties the buffer.
fn of_empty(dsn: &[u8], psn: &[u8], empty: &[u8]) -> Option<Message>
    ensures named { IfSome result (λ m. NamesSpelling (codes "rt" ∷ dsn.now ∷ psn.now ∷ empty.now ∷ []) m) }
    ensures unnamed { IfNone result (NamesNone (codes "rt" ∷ dsn.now ∷ psn.now ∷ empty.now ∷ [])) }
{
    if empty != b"empty".as_slice() {
        return None;
    }
    let (dsn, psn) = (byte_of(dsn)?, byte_of(psn)?);
    let part = RtPart::Empty;
    Some(spelled(&Element::Rt { dsn, psn, part }))
}

/// The bytes of a row of at most 64, written to the front of `room`.
fn row_in<'a>(word: &[u8], room: &'a mut [u8; TEXT_MAX]) -> Option<&'a [u8]>
    ensures named { IfSome result (λ text. IsRow word.now text.now × (length text.now ≤ 64)) }
    ensures unnamed { IfNone result ((text : List ℕ) → IsRow word.now text → length text ≤ 64 → ⊥) }
{
    if word == b"-".as_slice() {
        return Some(&room[..0]);
    }
    let length = word.len() / 2;
    if length > TEXT_MAX {
        return None;
    }
    let text = &mut room[..length];
    hex::decode_to_slice(word, text).ok()?;
    Some(text)
}

/// A message of one element. Each spelling fits into an empty message.
fn spelled(element: &Element<'_>) -> Message
    requires { IsElement (element_of element.now) }
    ensures { result ≡ spelling (element_of element.now) }
{
    let mut message = Message::new();
    let _ = push_element(&mut message, element);
    message
}
