//! What stands in front of tokens where one thing is wanted, and the end of a phrase (profile).
ghost use Rattle.std.specs.Prelude.{◌<◌, ℕ, [], ◌∷◌, length, IfOk, IfErr, IfSome, IfNone};
ghost use Rattle.rds_text.specs.declared.programme_type.Region.{Region};
ghost use Rattle.phrase_tokens.specs.View.{token_of, tokens_of};
ghost use Rattle.uecp_text.specs.Words.{IsByte, IsNumber};
ghost use Rattle.uecp_phrases.specs.declared.expectation.Expectation.TheVariants as what;
ghost use Rattle.uecp_phrases.specs.Reading.{IsNamed, IsFirstNamed, IsOnly};
ghost use Rattle.uecp_phrases.specs.Expecting.{IsStopAlways};
ghost use Rattle.uecp_phrases.specs.Stops.{IsStuck, IsByteWanted, IsUnmet, IsEnd};

use crate::expectation::Expectation;
use crate::stop::{Stop, stop_at};
use phrase_tokens::Token;
use uecp_text::{byte_of, number_of};

/// The byte in front, and the tokens behind it; or that none stands there, where this is wanted.
pub fn byte_first(wanted: Expectation, tokens: &[Token]) -> Result<(u8, &[Token]), Stop>
    requires { IsByteWanted wanted }
    ensures ok { IfOk result (λ r. IsFirstNamed IsByte (tokens_of tokens.now) r.0 (tokens_of r.1.now)) }
    ensures shorter { IfOk result (λ r. length r.1.now < length tokens.now) }
    ensures err { IfErr result (λ stop. (region : Region) → IsStuck region wanted (tokens_of tokens.now) stop.what
        stop.left) }
{
    match tokens.split_first() {
        Some((first, rest)) => match byte_in(first) {
            Some(byte) => Ok((byte, rest)),
            None => Err(stop_at(wanted, tokens)),
        },
        None => Err(stop_at(wanted, tokens)),
    }
}

/// The byte that a token spells.
fn byte_in(token: &Token) -> Option<u8>
    ensures some { IfSome result (λ byte. IsNamed IsByte (token_of token.now) byte) }
    ensures none { IfNone result ((byte : ℕ) → IsNamed IsByte (token_of token.now) byte → ⊥) }
{
    byte_of(token.word()?)
}

/// A byte, and the end of the phrase.
pub fn byte_last(tokens: &[Token]) -> Result<u8, Stop>
    ensures ok { IfOk result (λ byte. IsOnly IsByte (tokens_of tokens.now) byte) }
    ensures err { IfErr result (λ stop. IsUnmet (what.TwoDigits ∷ []) IsEnd (tokens_of tokens.now) stop.what
        stop.left) }
{
    let (byte, rest) = byte_first(Expectation::TwoDigits, tokens)?;
    end_in(rest)?;
    Ok(byte)
}

/// The number of 16 bits in front, and the tokens behind it.
pub fn number_first(tokens: &[Token]) -> Result<(u16, &[Token]), Stop>
    ensures ok { IfOk result (λ r. IsFirstNamed IsNumber (tokens_of tokens.now) r.0 (tokens_of r.1.now)) }
    ensures err { IfErr result (λ stop. (region : Region) → IsStuck region what.FourDigits (tokens_of tokens.now)
        stop.what stop.left) }
{
    match tokens.split_first() {
        Some((first, rest)) => match number_in(first) {
            Some(number) => Ok((number, rest)),
            None => Err(stop_at(Expectation::FourDigits, tokens)),
        },
        None => Err(stop_at(Expectation::FourDigits, tokens)),
    }
}

/// The number of 16 bits that a token spells.
fn number_in(token: &Token) -> Option<u16>
    ensures some { IfSome result (λ number. IsNamed IsNumber (token_of token.now) number) }
    ensures none { IfNone result ((number : ℕ) → IsNamed IsNumber (token_of token.now) number → ⊥) }
{
    number_of(token.word()?)
}

/// The end of the phrase: no token is left.
pub fn end_in(tokens: &[Token]) -> Result<(), Stop>
    ensures ok { IfOk result (λ _. IsEnd (tokens_of tokens.now)) }
    ensures err { IfErr result (λ stop. IsStopAlways IsEnd (tokens_of tokens.now) stop.what stop.left) }
{
    if tokens.is_empty() {
        Ok(())
    } else {
        Err(stop_at(Expectation::End, tokens))
    }
}
