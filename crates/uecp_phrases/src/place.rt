//! Where a phrase acts: in which data set, and for which programme service (SPB 490, data sets and programme services;
//! words: profile).
ghost use Rattle.std.specs.Prelude.{ℕ, codes, IfSome, IfNone, IfOk, IfErr};
ghost use Rattle.rds_text.specs.declared.programme_type.Region.{Region};
ghost use Rattle.phrase_tokens.specs.View.{token_of, tokens_of};
ghost use Rattle.uecp_text.specs.Words.{IsByte};
ghost use Rattle.uecp_phrases.specs.Phrases.{IsSet};
ghost use Rattle.uecp_phrases.specs.declared.expectation.Expectation.TheVariants as what;
ghost use Rattle.uecp_phrases.specs.Reading.{IsBefore, IsNamed, IsFirstNamed};
ghost use Rattle.uecp_phrases.specs.Stops.{IsStuck, IsStopBefore};

use crate::expectation::Expectation;
use crate::front::byte_first;
use crate::stop::{Stop, stop_at};
use phrase_tokens::Token;
use uecp_text::decimal_of;

/// The number of the data sets that are not current.
const OTHERS: u8 = 0xfe;

/// The number of all data sets.
const ALL: u8 = 0xff;

/// Where a phrase acts.
#[derive(Clone, Copy, Debug)]
pub struct Place {
    pub dsn: u8,
    pub psn: u8,
}

/// The number of the data set that a word names: `all`, `others`, or its number in decimal.
pub fn set_of(word: &[u8]) -> Option<u8>
    ensures some { IfSome result (λ dsn. IsSet word.now dsn) }
    ensures none { IfNone result ((dsn : ℕ) → IsSet word.now dsn → ⊥) }
{
    match word {
        b"all" => Some(ALL),
        b"others" => Some(OTHERS),
        _ => {
            let number = decimal_of(word, 0xfd)?;
            Some(number as u8)
        }
    }
}

/// The data set behind `in`, if the tokens begin so, and the tokens behind it; or where they stop, behind `in`.
pub fn set_before(tokens: &[Token]) -> Result<(Option<u8>, &[Token]), Stop>
    ensures ok { IfOk result (λ r. IsBefore (codes "in") IsSet (tokens_of tokens.now) r.0 (tokens_of r.1.now)) }
    ensures err { IfErr result (λ stop. IsStopBefore (codes "in") what.DataSet (tokens_of tokens.now) stop.what
        stop.left) }
{
    match tokens.split_first() {
        Some((first, behind)) if first.is_word(b"in") => {
            let (set, rest) = set_first(behind)?;
            Ok((Some(set), rest))
        }
        _ => Ok((None, tokens)),
    }
}

/// The data set that the first token names, and the tokens behind it.
pub fn set_first(tokens: &[Token]) -> Result<(u8, &[Token]), Stop>
    ensures ok { IfOk result (λ r. IsFirstNamed IsSet (tokens_of tokens.now) r.0 (tokens_of r.1.now)) }
    ensures err { IfErr result (λ stop. (region : Region) → IsStuck region what.DataSet (tokens_of tokens.now) stop.what
        stop.left) }
{
    match tokens.split_first() {
        Some((first, rest)) => match set_in(first) {
            Some(set) => Ok((set, rest)),
            None => Err(stop_at(Expectation::DataSet, tokens)),
        },
        None => Err(stop_at(Expectation::DataSet, tokens)),
    }
}

/// The data set that a token names.
fn set_in(token: &Token) -> Option<u8>
    ensures some { IfSome result (λ dsn. IsNamed IsSet (token_of token.now) dsn) }
    ensures none { IfNone result ((dsn : ℕ) → IsNamed IsSet (token_of token.now) dsn → ⊥) }
{
    set_of(token.word()?)
}

/// The programme service behind `for`, if the tokens begin so, and the tokens behind it; or where they stop, behind
/// `for`.
pub fn service_before(tokens: &[Token]) -> Result<(Option<u8>, &[Token]), Stop>
    ensures ok { IfOk result (λ r. IsBefore (codes "for") IsByte (tokens_of tokens.now) r.0 (tokens_of r.1.now)) }
    ensures err { IfErr result (λ stop. IsStopBefore (codes "for") what.Service (tokens_of tokens.now) stop.what
        stop.left) }
{
    match tokens.split_first() {
        Some((first, behind)) if first.is_word(b"for") => {
            let (service, rest) = byte_first(Expectation::Service, behind)?;
            Ok((Some(service), rest))
        }
        _ => Ok((None, tokens)),
    }
}
