//! A message out of words, as C reads it. Source: profile.
ghost use Rattle.std.specs.Prelude.{◌≡◌, ◌≤◌, List, ℕ, length, take};
ghost use Rattle.uecp_objects_c.specs.PhraseWords.{region_of};
ghost use Rattle.uecp_objects_c.specs.Telling.{reason_number, kind_of, with_message, with_expected, nearest_of};
ghost use Rattle.uecp_objects_c.specs.Telling.{with_nearest, IsShown, Comes};

use crate::phrases::outcome::{Outcome, outcome_of};
use crate::phrases::region::region_of;
use phrase_tokens::Unread;
use std::alloc::Global;
use uecp_frame::Message;

/// Room for what was expected, in words.
const EXPECTED_MAX: usize = 96;

/// Room for a word of a phrase.
const NEAREST_MAX: usize = 16;

/// What a line comes to, as C reads it.
#[repr(C)]
#[derive(Clone, Copy)]
pub struct Told {
    /// The column, counted in characters from 1, of the character that can't be read, or at which something else was
    /// expected.
    pub column: usize,
    /// Why a character can't be read, 1 to 5.
    pub reason: u8,
    /// How many bytes the message has.
    pub length: u8,
    /// The message, at the start.
    pub message: [u8; 255],
    /// How many bytes the words have that say what was expected.
    pub expected_length: u8,
    /// These words, at the start, in ASCII.
    pub expected: [u8; 96],
    /// How many bytes the word has that was perhaps meant; 0 where none is near.
    pub nearest_length: u8,
    /// This word, at the start, in ASCII.
    pub nearest: [u8; 16],
}

/// The number of why a character can't be read.
fn number_of(reason: Unread) -> u8
    ensures { result ≡ reason_number reason }
{
    match reason {
        Unread::Word => 1,
        Unread::NotInSet => 2,
        Unread::Escape => 3,
        Unread::Unclosed => 4,
        Unread::TooLong => 5,
    }
}

/// Tells the message.
fn show_message(message: &Message, told: &mut Told)
    ensures { told.new ≡ with_message told.old message.now }
{
    let bytes = message.bytes();
    told.length = bytes.len() as u8;
    told.message[..bytes.len()].copy_from_slice(bytes);
}

/// As many of the bytes as there is room for.
fn fitting(bytes: &[u8], room: usize) -> &[u8]
    ensures first { result.now ≡ take room bytes.now }
    ensures fits { length result.now ≤ room }
{
    &bytes[..bytes.len().min(room)]
}

/// Tells what was expected.
fn show_expected(text: &str, told: &mut Told)
    ensures { (words : List ℕ) × (length words ≤ 96) × (told.new ≡ with_expected told.old words) }
{
    let words = fitting(text.as_bytes(), EXPECTED_MAX);
    told.expected_length = words.len() as u8;
    told.expected[..words.len()].copy_from_slice(words);
}

/// Tells the word that was perhaps meant.
fn show_nearest(nearest: Option<&'static str>, told: &mut Told)
    ensures { told.new ≡ with_nearest told.old (nearest_of nearest.entry) }
{
    let word = fitting(nearest.unwrap_or("").as_bytes(), NEAREST_MAX);
    told.nearest_length = word.len() as u8;
    told.nearest[..word.len()].copy_from_slice(word);
}

/// Tells what a line comes to, and which kind of outcome that is.
fn show(outcome: &Outcome, told: &mut Told) -> u8
    ensures shown { IsShown outcome.now told.old told.new }
    ensures kind { result ≡ kind_of outcome.now }
{
    match outcome {
        Outcome::Message(message) => {
            show_message(message, told);
            0
        }
        Outcome::NoText(column) => {
            told.column = *column;
            1
        }
        Outcome::Unread { column, reason } => {
            told.column = *column;
            told.reason = number_of(*reason);
            2
        }
        Outcome::Unsaid {
            column,
            what,
            nearest,
        } => {
            told.column = *column;
            show_expected(what.text(), told);
            show_nearest(*nearest, told);
            3
        }
        Outcome::OutOfMemory => 4,
    }
}

/// Tells the message that a line of phrases says, in UTF-8 and without its end. The answer is 0 where it says one; 1
/// where it is no UTF-8, and 2 where a character can't be read, both at a column; 3 where it says no message, with the
/// column at which something else was expected, what, and the word that was perhaps meant; 4 where memory was refused.
/// What isn't named stays as it was.
#[unsafe(no_mangle)]
pub extern "C" fn uecp_message_of(
    alloc: Global,
    is_north_america: bool,
    text: &[u8],
    told: &mut Told,
) -> u8
    ensures { Comes (region_of is_north_america) text.now told.old told.new result }
{
    let outcome = outcome_of(alloc, region_of(is_north_america), text);
    show(&outcome, told)
}
