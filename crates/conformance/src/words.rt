//! Numbers, counters and bytes out of words (profile).
ghost use Rattle.std.specs.Prelude.{◌≡◌, ◌++◌, ◌∷◌, [], codes, Some, Ok, IfSome};
ghost use Rattle.uecp_text.specs.Words.{IsByte};
ghost use Rattle.conformance.specs.Lines.{IsCount, IsRowOf, IsCopies, IsOf, between};

use crate::case::Counters;
use memchr::memchr;
use std::alloc::Global;
use uecp_frame::Message;
use uecp_text::{TextFault, byte_of, bytes_of, decimal_of};

/// The greatest number that nine digits spell.
const NUMBER_MAX: u32 = 999_999_999;

/// The number of one to nine decimal digits, from 1.
pub(crate) fn decimal_in(word: &[u8]) -> Option<u32>
    ensures { IfSome result (IsCount word.now) }
{
    match decimal_of(word, NUMBER_MAX) {
        Some(number) => { if number == 0 { None } else { Some(number) } }
        None => None,
    }
}

/// The counters of a word: one, or the first and the last with two dots between.
pub(crate) fn row_of(word: &[u8]) -> Option<Counters>
    ensures { IfSome result (IsRowOf word.now) }
{
    match byte_of(word) {
        Some(counter) => Some(Counters {
            first: counter,
            last: counter,
        }),
        None => long_row_of(word),
    }
}

/// The counters of a word with two dots.
fn long_row_of(word: &[u8]) -> Option<Counters>
    ensures { IfSome result (IsRowOf word.now) }
{
    match word {
        [high, low, b'.', b'.', last_high, last_low] => {
            let first = byte_of(&[*high, *low])?;
            let last = byte_of(&[*last_high, *last_low])?;
            if first <= last {
                Some(Counters { first, last })
            } else {
                None
            }
        }
        _ => None,
    }
}

/// The bytes of a word, and how many times they come.
pub(crate) fn copies_of(alloc: Global, word: &[u8]) -> Option<(Message, u32)>
    ensures { IfSome result (λ copies. IsCopies word.now copies.0 copies.1) }
{
    if word == b"-".as_slice() {
        return Some((Message::new(), 1));
    }
    match memchr(b'x', word) {
        Some(place) => many_of(alloc, &word[..place], &word[place + 1..]),
        None => Some((digits_in(alloc, word)?, 1)),
    }
}

/// The bytes of digits, and how many times they come by the digits of a number.
fn many_of(alloc: Global, digits: &[u8], number: &[u8]) -> Option<(Message, u32)>
    ensures { IfSome result (λ copies. IsCopies (between digits.now number.now) copies.0 copies.1) }
{
    let count = decimal_in(number)?;
    Some((digits_in(alloc, digits)?, count))
}

/// The bytes of hexadecimal digits, at most 255.
fn digits_in(alloc: Global, digits: &[u8]) -> Option<Message>
    ensures { IfSome result (λ bytes. IsOf digits.now bytes) }
{
    match bytes_of(alloc, digits, TextFault::NotACommand) {
        Ok(bytes) => Message::from_bytes(bytes.as_slice()),
        Err(_) => None,
    }
}
