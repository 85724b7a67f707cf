//! What a line of phrases comes to. Source: profile.
ghost use Rattle.std.specs.Prelude.{◌≡◌, ◌≤◌, ◌⊎◌, ◌∷◌, ℕ, List, length, chars, IfOk, IfErr, IfSome};
ghost use Rattle.phrase_tokens.specs.Tokens.{Lays, LaysNone};
ghost use Rattle.phrase_tokens.specs.View.{tokens_of};
ghost use Rattle.uecp_objects_c.specs.Outcomes.{IsColumnOf, IsOutcomeOf, TokensSay, CharactersSay};

use phrase_tokens::{Token, TokenFault, Unread, column_of, tokens_of};
use rds_text::Region;
use std::alloc::{AllocError, Global};
use uecp_frame::Message;
use uecp_phrases::{Expectation, expected_in, message_in};

/// What a line of phrases comes to.
#[derive(Drop)]
pub(crate) enum Outcome {
    /// The message that it says.
    Message(Message),
    /// It is no UTF-8 from the character of that column on, counted from 1.
    NoText(usize),
    /// The character of that column can't be read.
    Unread {
        column: usize,
        reason: Unread,
    },
    /// It says no message: at that column something else was expected.
    Unsaid {
        column: usize,
        what: Expectation,
        nearest: Option<&'static str>,
    },
    /// Memory was refused.
    OutOfMemory,
}

/// What tokens come to that stand in these characters.
fn told_of(
    alloc: Global,
    region: Region,
    characters: &[char],
    tokens: &[Token],
) -> Result<Outcome, AllocError>
    requires { Lays (tokens_of tokens.now) characters.now }
    ensures { IfOk result (TokensSay region characters.now (tokens_of tokens.now)) }
{
    if let Some(message) = message_in(region, tokens) {
        return Ok(Outcome::Message(message));
    }
    let expected = expected_in(alloc, region, tokens)?;
    Ok(Outcome::Unsaid {
        column: column_of(characters, expected.index),
        what: expected.what,
        nearest: expected.nearest,
    })
}

/// What the characters of a line come to.
fn read_of(alloc: Global, region: Region, characters: &[char]) -> Result<Outcome, AllocError>
    ensures { IfOk result (CharactersSay region characters.now) }
{
    match tokens_of(alloc, characters) {
        Ok(tokens) => told_of(alloc, region, characters, tokens.as_slice()),
        Err(TokenFault::Unread { column, reason }) => Ok(Outcome::Unread { column, reason }),
        Err(TokenFault::OutOfMemory) => Err(AllocError),
    }
}

/// The characters of a text.
fn characters_of(alloc: Global, line: &str) -> Result<Vec<char>, AllocError>
    ensures { IfOk result (λ characters. characters.items ≡ chars line.now) }
{
    line.chars().collect(alloc)
}

/// What a line of UTF-8 comes to.
fn said_of(alloc: Global, region: Region, line: &str) -> Result<Outcome, AllocError>
    ensures { IfOk result (CharactersSay region (chars line.now)) }
{
    let characters = characters_of(alloc, line)?;
    read_of(alloc, region, characters.as_slice())
}

/// The column of the first character that is no UTF-8, counted from 1.
fn column_of_no_text(text: &[u8], valid: usize) -> usize {
    let before = text
        .iter()
        .take(valid)
        .filter(|byte| **byte & 0xc0 != 0x80)
        .count();
    before.saturating_add(1)
}

/// What a line comes to.
pub(crate) fn outcome_of(alloc: Global, region: Region, text: &[u8]) -> Outcome
    ensures { IsOutcomeOf region text.now result }
{
    match std::str::from_utf8(text) {
        Ok(line) => said_of(alloc, region, line).unwrap_or(Outcome::OutOfMemory),
        Err(error) => Outcome::NoText(column_of_no_text(text, error.valid_up_to())),
    }
}
