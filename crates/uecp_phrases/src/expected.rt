//! What was expected where a line of phrases says nothing (profile).
ghost use Rattle.std.specs.Prelude.{◌≤◌, ◌-◌, length, IfOk, option_map};
ghost use Rattle.phrase_tokens.specs.View.{tokens_of};
ghost use Rattle.uecp_phrases.specs.Lines.{SayNothing};
ghost use Rattle.uecp_phrases.specs.Faults.{IsFaultAt, IsToldAt};
ghost use Rattle.uecp_phrases.specs.Nearest.{OffersAt};

use crate::expectation::Expectation;
use crate::line::line_read;
use crate::nearest::nearest;
use crate::stop::Stop;
use phrase_tokens::Token;
use rds_text::Region;
use std::alloc::{AllocError, Global};

/// What was expected where a line of phrases says nothing.
#[derive(Clone, Copy, Debug)]
pub struct Expected {
    /// The index of the token at which something else was expected, from 0; the number of tokens where it is the end of
    /// the line, as [`column_of`](phrase_tokens::column_of) takes it.
    pub index: usize,
    /// What was expected there.
    pub what: Expectation,
    /// The word that was meant, where one that may stand there is near.
    pub nearest: Option<&'static str>,
}

/// What was expected of tokens that say nothing, as [`message_in`](crate::message_in) tells, and at which of them: in
/// the first phrase that is none, the token that can't stand where it does, or the one behind the phrase where that is
/// cut short; the first token of the phrase with which the message would have more than 255 bytes.
///
/// Of a line that says a message, a semicolon is expected at its end. `AllocError` where memory was refused.
pub fn expected_in(alloc: Global, region: Region, tokens: &[Token]) -> Result<Expected, AllocError>
    ensures range { IfOk result (λ e. e.index ≤ length tokens.now) }
    ensures fault { IfOk result (λ e. SayNothing region (tokens_of tokens.now)
        → IsFaultAt region (tokens_of tokens.now) e.index) }
    ensures told { IfOk result (λ e. SayNothing region (tokens_of tokens.now)
        → IsToldAt region (tokens_of tokens.now) e.what e.index) }
    ensures near { IfOk result (λ e. OffersAt region e.what (tokens_of tokens.now) e.index
        (option_map (λ word. word.now) e.nearest)) }
{
    let Stop { left, what } = fault_in(region, tokens);
    let index = tokens.len() - left;
    let nearest = match tokens.get(index) {
        Some(token) => nearest(alloc, region, what, token)?,
        None => None,
    };
    Ok(Expected {
        index,
        what,
        nearest,
    })
}

/// Where the first phrase with which the line says nothing stops to be one that fits.
fn fault_in(region: Region, tokens: &[Token]) -> Stop
    ensures range { result.left ≤ length tokens.now }
    ensures fault { SayNothing region (tokens_of tokens.now)
        → IsFaultAt region (tokens_of tokens.now) (length tokens.now - result.left) }
    ensures told { SayNothing region (tokens_of tokens.now)
        → IsToldAt region (tokens_of tokens.now) result.what (length tokens.now - result.left) }
{
    match line_read(region, tokens) {
        Ok(_) => Stop {
            left: 0,
            what: Expectation::Semicolon,
        },
        Err(stop) => stop,
    }
}
