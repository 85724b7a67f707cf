//! The line of the next message's address and counter (profile).
ghost use Rattle.std.specs.Prelude.{ℕ, IfSome, IfNone};
ghost use Rattle.phrase_tokens.specs.View.{tokens_of};
ghost use Rattle.phrase_scripts.specs.Lines.{AreFrame};

use phrase_tokens::Token;
use uecp_frame::Address;
use uecp_text::{byte_of, number_of};

/// How many encoders a site may have: an address is the site times this and the encoder.
const ENCODERS: u16 = 64;

/// The address and the counter behind `frame`; None where the tokens are not these.
pub fn frame_in(tokens: &[Token]) -> Option<(Address, u8)>
    ensures some { IfSome result (λ f. AreFrame (tokens_of tokens.now) f.0 f.1) }
    ensures none { IfNone result ((address counter : ℕ) → AreFrame (tokens_of tokens.now) address counter → ⊥) }
{
    let [name, address, counter] = tokens else {
        return None;
    };
    if !name.is_word(b"frame") {
        return None;
    }
    let value = number_of(address.word()?)?;
    let counter = byte_of(counter.word()?)?;
    let address = Address::new(value / ENCODERS, (value % ENCODERS) as u8)?;
    Some((address, counter))
}

/// Of tokens that begin with `frame` and are no such line: the index of the first that is not what was expected, and
/// what was.
pub fn frame_expected(tokens: &[Token]) -> (usize, &'static str) {
    if !is_address(tokens.get(1)) {
        return (1, "an address: four hexadecimal digits");
    }
    if !is_counter(tokens.get(2)) {
        return (2, "a counter: two hexadecimal digits");
    }
    (3, "the end of the line")
}

/// Whether the token is a word of four hexadecimal digits.
fn is_address(token: Option<&Token>) -> bool {
    match token {
        Some(Token::Word(word)) => number_of(word.as_slice()).is_some(),
        _ => false,
    }
}

/// Whether the token is a word of two hexadecimal digits.
fn is_counter(token: Option<&Token>) -> bool {
    match token {
        Some(Token::Word(word)) => byte_of(word.as_slice()).is_some(),
        _ => false,
    }
}
