//! Where tokens stop to be a phrase (profile).
ghost use Rattle.std.specs.Prelude.{◌≡◌, length};

use crate::expectation::Expectation;
use phrase_tokens::Token;

/// Where tokens stop to be a phrase.
#[derive(Clone, Copy, Debug)]
pub struct Stop {
    /// How many tokens are left there, with the one that can't stand there; none where the tokens are cut short.
    pub left: usize,
    /// What may stand there.
    pub what: Expectation,
}

/// The stop in front of these tokens, where this may stand.
pub fn stop_at(what: Expectation, tokens: &[Token]) -> Stop
    ensures left { result.left ≡ length tokens.now }
    ensures what { result.what ≡ what }
{
    Stop {
        left: tokens.len(),
        what,
    }
}
