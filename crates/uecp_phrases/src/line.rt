//! A line of phrases: one message (profile).
ghost use Rattle.std.specs.Prelude.{◌≡◌, ◌≤◌, ◌<◌, ◌+◌, ◌-◌, ◌++◌, ◌∷◌, ℕ, List, length, IfSome, IfNone, IfOk, IfErr};
ghost use Rattle.std.specs.Option.{option_map};
ghost use Rattle.phrase_tokens.specs.View.{tokens_of};
ghost use Rattle.uecp_phrases.specs.Lines.{phrases_in, phrases_left, AddsBytes, Say, SayNothing};
ghost use Rattle.uecp_phrases.specs.Faults.{IsFault, IsFaultAt, IsToldAt, IsUnsaid};
ghost use Rattle.uecp_phrases.specs.Expecting.{IsUnread};

use crate::expectation::Expectation;
use crate::phrase::phrase_read;
use crate::stop::{Stop, stop_at};
use phrase_tokens::Token;
use rds_text::Region;
use uecp_frame::Message;

/// The message that the tokens of a line say: phrases between semicolons, one after another. Nothing may stand between
/// two semicolons, or at either end. None where a phrase is none, or the message would have more than 255 bytes.
pub fn message_in(region: Region, tokens: &[Token]) -> Option<Message>
    ensures some { IfSome result (λ m. Say region (tokens_of tokens.now) m) }
    ensures none { IfNone result (SayNothing region (tokens_of tokens.now)) }
{
    match line_read(region, tokens) {
        Ok(message) => Some(message),
        Err(_) => None,
    }
}

/// The message that the tokens of a line say; or where the first phrase with which they say none stops to be one that
/// fits: in front, where it is one.
pub(crate) fn line_read(region: Region, tokens: &[Token]) -> Result<Message, Stop>
    ensures ok { IfOk result (λ m. Say region (tokens_of tokens.now) m) }
    ensures few { IfOk result (λ m. length m ≤ 255) }
    ensures none { IfErr result (λ _. SayNothing region (tokens_of tokens.now)) }
    ensures range { IfErr result (λ stop. stop.left ≤ length tokens.now) }
    ensures fault { IfErr result (λ stop. IsFaultAt region (tokens_of tokens.now) (length tokens.now - stop.left)) }
    ensures told { IfErr result (λ stop. IsToldAt region (tokens_of tokens.now) stop.what
        (length tokens.now - stop.left)) }
{
    let mut message = Message::new();
    let mut left = Some(tokens);
    while let Some(rest) = left {
        let (phrase, behind) = phrase_before(rest);
        match with_phrase(region, phrase, message) {
            Ok(longer) => message = longer,
            Err(stop) => return Err(stop_in_line(stop, phrase, rest)),
        }
        left = behind;
    }
    Ok(message)
}

/// The stop in a line of which a phrase and what is behind it are left, by that in the phrase.
fn stop_in_line(stop: Stop, phrase: &[Token], left: &[Token]) -> Stop
    requires phrase { length phrase.now ≤ length left.now }
    requires stop { stop.left ≤ length phrase.now }
    ensures left { result.left ≡ length left.now - length phrase.now + stop.left }
    ensures what { result.what ≡ stop.what }
{
    Stop {
        left: left.len() - phrase.len() + stop.left,
        what: stop.what,
    }
}

/// The message with what the tokens between two semicolons add, where that fits; else where they stop to be a phrase,
/// in front where they are one.
fn with_phrase(region: Region, tokens: &[Token], message: Message) -> Result<Message, Stop>
    ensures ok { IfOk result (λ m. (bytes : List ℕ) × AddsBytes region (tokens_of tokens.now) bytes
        × (m ≡ message ++ bytes)) }
    ensures none { IfErr result (λ _. IsFault region message (tokens_of tokens.now)) }
    ensures range { IfErr result (λ stop. stop.left ≤ length tokens.now) }
    ensures err { IfErr result (λ stop. IsUnsaid region message (tokens_of tokens.now) stop.what stop.left) }
    ensures few { IfOk result (λ m. length m ≤ 255) }
{
    let mut longer = message;
    let added = added_by(region, tokens)?;
    match longer.extend(added.bytes()) {
        Ok(()) => Ok(longer),
        Err(_) => Err(stop_at(Expectation::ShortMessage, tokens)),
    }
}

/// What the tokens between two semicolons add, or where they stop to be a phrase.
fn added_by(region: Region, tokens: &[Token]) -> Result<Message, Stop>
    ensures ok { IfOk result (λ m. AddsBytes region (tokens_of tokens.now) m) }
    ensures none { IfErr result (λ _. (bytes : List ℕ) → AddsBytes region (tokens_of tokens.now) bytes
        → length bytes ≤ 255 → ⊥) }
    ensures err { IfErr result (λ stop. IsUnread region (tokens_of tokens.now) stop.what stop.left) }
{
    if tokens.is_empty() {
        return Ok(Message::new());
    }
    phrase_read(region, tokens)
}

/// The tokens before the first semicolon, and those behind it, if there is one.
fn phrase_before(tokens: &[Token]) -> (&[Token], Option<&[Token]>)
    ensures cut { phrases_in (tokens_of tokens.now) ≡ tokens_of result.0.now
        ∷ phrases_left (option_map (λ more. tokens_of more.now) result.1) }
    ensures shorter { IfSome result.1 (λ more. length more.now < length tokens.now) }
    ensures within { length result.0.now ≤ length tokens.now }
    ensures counted { IfSome result.1 (λ more. length result.0.now + 1 + length more.now ≡ length tokens.now) }
{
    let mut place = 0;
    let mut rest = tokens;
    while let Some((first, more)) = rest.split_first() {
        if first.is_semicolon() {
            return (&tokens[..place], Some(more));
        }
        place += 1;
        rest = more;
    }
    (tokens, None)
}
