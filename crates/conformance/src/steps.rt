//! Steps out of the words of a line (profile).
ghost use Rattle.std.specs.Prelude.{◌≡◌, ◌∷◌, [], codes, IfSome, IfNone};
ghost use Rattle.uecp_text.specs.Words.{texts};
ghost use Rattle.uecp_link.specs.Driving.{copies};
ghost use Rattle.conformance.specs.Lines.{SaysPieces, SaysStep, SaysEdit, IsMessage};

use crate::case::{Edit, Step, To};
use crate::words::{copies_of, decimal_in, row_of};
use std::alloc::Global;
use uecp_frame::Message;
use uecp_text::byte_of;

/// The step that the words of a line say.
pub(crate) fn step_of(alloc: Global, words: &[&[u8]]) -> Option<Step>
    ensures { IfSome result (SaysStep (texts words.now)) }
{
    let (name, rest) = first_of(words)?;
    if name == b"send".as_slice() {
        send_of(alloc, rest)
    } else if name == b"bytes".as_slice() {
        raw_of(alloc, rest)
    } else if name == b"reply".as_slice() {
        reply_of(rest)
    } else if name == b"refusal".as_slice() {
        refusal_of(rest)
    } else if name == b"nothing".as_slice() {
        nothing_of(rest)
    } else {
        None
    }
}

/// The size that the words of a line say, at which bytes are written.
pub(crate) fn pieces_of(words: &[&[u8]]) -> Option<u32>
    ensures { IfSome result (SaysPieces (texts words.now)) }
{
    let (first, rest) = first_of(words)?;
    let (second, others) = first_of(rest)?;
    let (third, number) = two_of(others)?;
    if first != b"in".as_slice() || second != b"pieces".as_slice() || third != b"of".as_slice() {
        return None;
    }
    decimal_in(number)
}

/// The first of some words, and the others.
fn first_of<'a, 'b>(words: &'b [&'a [u8]]) -> Option<(&'a [u8], &'b [&'a [u8]])>
    ensures some { IfSome result (λ w. texts words.now ≡ w.0.now ∷ texts w.1.now) }
    ensures none { IfNone result (texts words.now ≡ []) }
{
    match words {
        [first, others @ ..] => Some((*first, others)),
        [] => None,
    }
}

/// The only one of some words.
fn only_of<'a>(words: &[&'a [u8]]) -> Option<&'a [u8]>
    ensures { IfSome result (λ w. texts words.now ≡ w.now ∷ []) }
{
    match words {
        [word] => Some(*word),
        _ => None,
    }
}

/// The two of some words.
fn two_of<'a>(words: &[&'a [u8]]) -> Option<(&'a [u8], &'a [u8])>
    ensures { IfSome result (λ w. texts words.now ≡ w.0.now ∷ w.1.now ∷ []) }
{
    match words {
        [first, second] => Some((*first, *second)),
        _ => None,
    }
}

/// The first of two words of which the second is this one.
fn before<'a>(last: &[u8], words: &[&'a [u8]]) -> Option<&'a [u8]>
    ensures { IfSome result (λ w. texts words.now ≡ w.now ∷ last.now ∷ []) }
{
    let (word, end) = two_of(words)?;
    if end == last { Some(word) } else { None }
}

/// Whether some words are this one alone.
fn is_only(name: &[u8], words: &[&[u8]]) -> Option<()>
    ensures { IfSome result (λ _. texts words.now ≡ name.now ∷ []) }
{
    let word = only_of(words)?;
    if word == name { Some(()) } else { None }
}

/// The frames that the words behind `send` say.
fn send_of(alloc: Global, words: &[&[u8]]) -> Option<Step>
    ensures { IfSome result (SaysStep (codes "send" ∷ texts words.now)) }
{
    let (first, rest) = first_of(words)?;
    let (second, others) = first_of(rest)?;
    let row = row_of(first)?;
    let message = message_of(alloc, second)?;
    Some(Step::Send(row, message, edit_of(alloc, others)?))
}

/// The bytes that the word behind `bytes` says.
fn raw_of(alloc: Global, words: &[&[u8]]) -> Option<Step>
    ensures { IfSome result (SaysStep (codes "bytes" ∷ texts words.now)) }
{
    let word = only_of(words)?;
    let (bytes, count) = copies_of(alloc, word)?;
    Some(Step::Bytes(bytes, count))
}

/// The replies that the words behind `reply` say.
fn reply_of(words: &[&[u8]]) -> Option<Step>
    ensures { IfSome result (SaysStep (codes "reply" ∷ texts words.now)) }
{
    let (first, second) = two_of(words)?;
    let row = row_of(first)?;
    let code = byte_of(second)?;
    Some(Step::Reply(row, code))
}

/// The refusals that the word behind `refusal` says.
fn refusal_of(words: &[&[u8]]) -> Option<Step>
    ensures { IfSome result (SaysStep (codes "refusal" ∷ texts words.now)) }
{
    let word = only_of(words)?;
    let row = row_of(word)?;
    Some(Step::Refusal(row))
}

/// No reply, where no word is behind `nothing`.
fn nothing_of(words: &[&[u8]]) -> Option<Step>
    ensures { IfSome result (SaysStep (codes "nothing" ∷ texts words.now)) }
{
    match first_of(words) {
        Some(_) => None,
        None => Some(Step::Nothing),
    }
}

/// The edit that the words behind a message say.
fn edit_of(alloc: Global, words: &[&[u8]]) -> Option<Edit>
    ensures { IfSome result (SaysEdit (texts words.now)) }
{
    match first_of(words) {
        None => Some(Edit::Whole(To::Own)),
        Some((name, rest)) => {
            if name == b"to".as_slice() {
                other_of(rest)
            } else if name == b"with".as_slice() {
                change_of(alloc, rest)
            } else if name == b"cut".as_slice() {
                cut_of(rest)
            } else {
                None
            }
        }
    }
}

/// The address that the words behind `to` say.
fn other_of(words: &[&[u8]]) -> Option<Edit>
    ensures { IfSome result (SaysEdit (codes "to" ∷ texts words.now)) }
{
    let (name, rest) = first_of(words)?;
    if name == b"all".as_slice() {
        many_of(rest)
    } else if name == b"another".as_slice() {
        another_of(rest)
    } else {
        None
    }
}

/// The addresses that the words behind `to all` say.
fn many_of(words: &[&[u8]]) -> Option<Edit>
    ensures { IfSome result (SaysEdit (codes "to" ∷ codes "all" ∷ texts words.now)) }
{
    match first_of(words) {
        None => Some(Edit::Whole(To::All)),
        Some(_) => {
            if is_only(b"encoders", words).is_some() {
                return Some(Edit::Whole(To::AllEncoders));
            }
            is_only(b"sites", words)?;
            Some(Edit::Whole(To::AllSites))
        }
    }
}

/// The address that the words behind `to another` say.
fn another_of(words: &[&[u8]]) -> Option<Edit>
    ensures { IfSome result (SaysEdit (codes "to" ∷ codes "another" ∷ texts words.now)) }
{
    if is_only(b"encoder", words).is_some() {
        return Some(Edit::Whole(To::AnotherEncoder));
    }
    is_only(b"site", words)?;
    Some(Edit::Whole(To::AnotherSite))
}

/// The change that the words behind `with` say.
fn change_of(alloc: Global, words: &[&[u8]]) -> Option<Edit>
    ensures { IfSome result (SaysEdit (codes "with" ∷ texts words.now)) }
{
    let (name, rest) = first_of(words)?;
    if name == b"length".as_slice() {
        length_of(rest)
    } else if name == b"check".as_slice() {
        check_of(rest)
    } else if name == b"byte".as_slice() {
        byte_in(alloc, rest)
    } else {
        None
    }
}

/// The length that the word behind `with length` says.
fn length_of(words: &[&[u8]]) -> Option<Edit>
    ensures { IfSome result (SaysEdit (codes "with" ∷ codes "length" ∷ texts words.now)) }
{
    let word = only_of(words)?;
    let said = byte_of(word)?;
    Some(Edit::Length(said))
}

/// A damaged check, where that is the word behind `with check`.
fn check_of(words: &[&[u8]]) -> Option<Edit>
    ensures { IfSome result (SaysEdit (codes "with" ∷ codes "check" ∷ texts words.now)) }
{
    is_only(b"damaged", words)?;
    Some(Edit::Check)
}

/// The bytes in the place of one that the words behind `with byte` say.
fn byte_in(alloc: Global, words: &[&[u8]]) -> Option<Edit>
    ensures { IfSome result (SaysEdit (codes "with" ∷ codes "byte" ∷ texts words.now)) }
{
    let (number, rest) = first_of(words)?;
    let (name, word) = two_of(rest)?;
    if name != b"as".as_slice() {
        return None;
    }
    let place = decimal_in(number)?;
    let bytes = message_of(alloc, word)?;
    Some(Edit::Byte(place, bytes))
}

/// Where the words behind `cut` say that a frame ends.
fn cut_of(words: &[&[u8]]) -> Option<Edit>
    ensures { IfSome result (SaysEdit (codes "cut" ∷ texts words.now)) }
{
    let (name, rest) = first_of(words)?;
    if name != b"after".as_slice() {
        return None;
    }
    let number = before(b"bytes", rest)?;
    let count = decimal_in(number)?;
    Some(Edit::Cut(count))
}

/// The message that a word spells, its copies one after another.
fn message_of(alloc: Global, word: &[u8]) -> Option<Message>
    ensures { IfSome result (IsMessage word.now) }
{
    let (bytes, count) = copies_of(alloc, word)?;
    joined(&bytes, count)
}

/// The message of some bytes so many times.
fn joined(bytes: &Message, count: u32) -> Option<Message>
    ensures { IfSome result (λ message. message ≡ copies bytes.now count) }
{
    let mut message = Message::new();
    for _copy in 0..count {
        if message.extend(bytes.bytes()).is_err() {
            return None;
        }
    }
    Some(message)
}
