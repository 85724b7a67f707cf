//! What stands behind a RadioText (SPB 490, RadioText; words: profile).
ghost use Rattle.std.specs.Prelude.{◌≡◌, ◌≢◌, ◌≤◌, ◌∷◌, ◌↔◌, ℕ, length, IfSome, IfNone, IfOk, IfErr, IsTrue};
ghost use Rattle.rds_text.specs.declared.programme_type.Region.{Region};
ghost use Rattle.phrase_tokens.specs.Tokens.{Word};
ghost use Rattle.phrase_tokens.specs.View.{token_of, tokens_of};
ghost use Rattle.uecp_phrases.specs.declared.choices.ChoiceName.{ChoiceName};
ghost use Rattle.uecp_phrases.specs.declared.expectation.Expectation.TheVariants as what;
ghost use Rattle.uecp_phrases.specs.Phrases.{Choices, Make, no_choice, head_of, times_of};
ghost use Rattle.uecp_phrases.specs.Reading.{choices_of, choice_word, IsStep, IsFree, choices_left, IsCount, IsTimes};
ghost use Rattle.uecp_phrases.specs.Expecting.{IsStopAlways};
ghost use Rattle.uecp_phrases.specs.Stops.{IsStuck, AreChosen};

use crate::expectation::Expectation;
use crate::stop::{Stop, stop_at};
use phrase_tokens::Token;
use uecp_text::decimal_of;

/// The most transmissions that a RadioText's head can ask for.
const TIMES_MAX: u32 = 15;

/// Which choices were made: whether the A/B flag turns, and how often the text is sent, each if it is said.
#[derive(Clone, Copy, Debug)]
pub struct Made {
    adds: bool,
    turns: Option<bool>,
    times: Option<u8>,
}

/// The word of a choice.
#[derive(Clone, Copy, Debug)]
pub enum ChoiceName {
    Add,
    Toggle,
    Same,
    Times,
}

/// The head of a RadioText behind which the tokens stand, or where they stop to be choices.
pub fn head_in(tokens: &[Token]) -> Result<u8, Stop>
    ensures ok { IfOk result (λ head. (made : Choices) × Make no_choice (tokens_of tokens.now) made
        × (head ≡ head_of made)) }
    ensures err { IfErr result (λ stop. IsStopAlways (AreChosen no_choice) (tokens_of tokens.now) stop.what
        stop.left) }
{
    let none = Made {
        adds: false,
        turns: None,
        times: None,
    };
    let made = made_in(tokens, none)?;
    Ok(head(made))
}

/// The choices of the tokens, behind those that were made before.
fn made_in(tokens: &[Token], before: Made) -> Result<Made, Stop>
    requires { times_of before.times ≤ 15 }
    ensures ok { IfOk result (λ made. Make (choices_of before) (tokens_of tokens.now) (choices_of made)) }
    ensures err { IfErr result (λ stop. IsStopAlways (AreChosen (choices_of before)) (tokens_of tokens.now) stop.what
        stop.left) }
    ensures range { IfOk result (λ made. times_of made.times ≤ 15) }
{
    let Some((first, rest)) = tokens.split_first() else {
        return Ok(before);
    };
    let Some(choice) = free_choice(first, before) else {
        return Err(stop_at(wanted_behind(before), tokens));
    };
    let (made, rest) = made_by(choice, rest, before)?;
    made_in(rest, made)
}

/// The choice that a token names, if it may be made behind those that were made before.
fn free_choice(token: &Token, before: Made) -> Option<ChoiceName>
    ensures known { IfSome result (λ name. token_of token.now ≡ Word (choice_word name)) }
    ensures free { IfSome result (IsFree (choices_of before)) }
    ensures none { IfNone result ((name : ChoiceName) → token_of token.now ≡ Word (choice_word name)
        → IsFree (choices_of before) name → ⊥) }
{
    let choice = choice_in(token)?;
    if is_free(choice, before) {
        Some(choice)
    } else {
        None
    }
}

/// The choice that a token names, if any.
fn choice_in(token: &Token) -> Option<ChoiceName>
    ensures known { IfSome result (λ name. token_of token.now ≡ Word (choice_word name)) }
    ensures unknown { IfNone result ((name : ChoiceName) → token_of token.now ≢ Word (choice_word name)) }
{
    choice_named(token.word()?)
}

/// Whether the choice may be made behind those that were made before.
fn is_free(choice: ChoiceName, before: Made) -> bool
    ensures { IsTrue result ↔ IsFree (choices_of before) choice }
{
    match choice {
        ChoiceName::Add => !before.adds,
        ChoiceName::Toggle | ChoiceName::Same => before.turns.is_none(),
        ChoiceName::Times => before.times.is_none(),
    }
}

/// What may stand behind the choices that were made before.
fn wanted_behind(before: Made) -> Expectation
    ensures { result ≡ choices_left (choices_of before) }
{
    Expectation::Choice {
        add: !before.adds,
        same: before.turns.is_none(),
        times: before.times.is_none(),
    }
}

/// The choices with this one, in front of the tokens, and the tokens behind it.
fn made_by(choice: ChoiceName, tokens: &[Token], before: Made) -> Result<(Made, &[Token]), Stop>
    requires free { IsFree (choices_of before) choice }
    requires range { times_of before.times ≤ 15 }
    ensures ok { IfOk result (λ r. IsStep (choices_of before) (Word (choice_word choice) ∷ tokens_of tokens.now)
        (choices_of r.0) (tokens_of r.1.now)) }
    ensures err { IfErr result (λ stop. IsStopAlways
        (λ l. AreChosen (choices_of before) (Word (choice_word choice) ∷ l)) (tokens_of tokens.now) stop.what
        stop.left) }
    ensures range { IfOk result (λ r. times_of r.0.times ≤ 15) }
    ensures shorter { IfOk result (λ r. length r.1.now ≤ length tokens.now) }
{
    let mut made = before;
    match choice {
        ChoiceName::Add => made.adds = true,
        ChoiceName::Toggle => made.turns = Some(true),
        ChoiceName::Same => made.turns = Some(false),
        ChoiceName::Times => {
            let (count, rest) = times_first(tokens)?;
            made.times = Some(count);
            return Ok((made, rest));
        }
    }
    Ok((made, tokens))
}

/// How often a text is sent, in front of the tokens, and the tokens behind it.
fn times_first(tokens: &[Token]) -> Result<(u8, &[Token]), Stop>
    ensures ok { IfOk result (λ r. IsTimes (tokens_of tokens.now) r.0 (tokens_of r.1.now)) }
    ensures err { IfErr result (λ stop. (region : Region) → IsStuck region what.Times
        (tokens_of tokens.now) stop.what stop.left) }
    ensures range { IfOk result (λ r. r.0 ≤ 15) }
    ensures shorter { IfOk result (λ r. length r.1.now ≤ length tokens.now) }
{
    match tokens.split_first() {
        Some((first, rest)) => match times_in(first) {
            Some(count) => Ok((count, rest)),
            None => Err(stop_at(Expectation::Times, tokens)),
        },
        None => Err(stop_at(Expectation::Times, tokens)),
    }
}

/// How often a text is sent by this token.
fn times_in(token: &Token) -> Option<u8>
    ensures some { IfSome result (λ n. IsCount (token_of token.now) n) }
    ensures none { IfNone result ((n : ℕ) → IsCount (token_of token.now) n → ⊥) }
    ensures range { IfSome result (λ n. n ≤ 15) }
{
    let number = decimal_of(token.word()?, TIMES_MAX)?;
    Some(number as u8)
}

/// The choice that a word names, if any.
fn choice_named(word: &[u8]) -> Option<ChoiceName>
    ensures known { IfSome result (λ name. word.now ≡ choice_word name) }
    ensures unknown { IfNone result ((name : ChoiceName) → word.now ≢ choice_word name) }
{
    match word {
        b"add" => Some(ChoiceName::Add),
        b"toggle" => Some(ChoiceName::Toggle),
        b"same" => Some(ChoiceName::Same),
        b"times" => Some(ChoiceName::Times),
        _ => None,
    }
}

/// The head of a RadioText: the A/B flag turns, where nothing else is said.
fn head(made: Made) -> u8
    requires { times_of made.times ≤ 15 }
    ensures { result ≡ head_of (choices_of made) }
{
    let rule = if made.adds { 0x40 } else { 0x00 };
    let times = made.times.unwrap_or(0);
    let turns = made.turns.unwrap_or(true);
    rule + 2 * times + u8::from(turns)
}
