//! A phrase: one element in words, or bytes as they are (profile).
ghost use Rattle.std.specs.Prelude.{◌≡◌, ◌≤◌, ℕ, List, length, IfSome, IfNone, IfOk, IfErr};
ghost use Rattle.phrase_tokens.specs.View.{tokens_of};
ghost use Rattle.uecp_phrases.specs.Phrases.{IsPhrase};
ghost use Rattle.uecp_phrases.specs.Reading.{or_zero};
ghost use Rattle.uecp_phrases.specs.Expecting.{IsUnread};

use crate::expectation::Expectation;
use crate::head::head_first;
use crate::place::{Place, service_before, set_before};
use crate::stop::{Stop, stop_at};
use crate::told::told;
use phrase_tokens::Token;
use rds_text::Region;
use uecp_frame::Message;

/// The bytes that a phrase adds to a message; None where the tokens are no phrase, or add more than 255 bytes.
pub fn phrase_in(region: Region, tokens: &[Token]) -> Option<Message>
    ensures some { IfSome result (λ m. IsPhrase region (tokens_of tokens.now) m) }
    ensures none { IfNone result ((bytes : List ℕ) → IsPhrase region (tokens_of tokens.now) bytes
        → length bytes ≤ 255 → ⊥) }
{
    match phrase_read(region, tokens) {
        Ok(message) => Some(message),
        Err(_) => None,
    }
}

/// The bytes that a phrase adds to a message, or where the tokens stop to be one: in front, where they are one that
/// adds more than 255 bytes.
pub(crate) fn phrase_read(region: Region, tokens: &[Token]) -> Result<Message, Stop>
    ensures ok { IfOk result (λ m. IsPhrase region (tokens_of tokens.now) m) }
    ensures err { IfErr result (λ stop. IsUnread region (tokens_of tokens.now) stop.what stop.left) }
{
    let (set, behind) = set_before(tokens)?;
    let (service, behind) = service_before(behind)?;
    let (head, rest) = head_first(set.is_some(), service.is_some(), behind)?;
    match told(region, head, place_of(set, service), rest)? {
        Some(message) => Ok(message),
        None => Err(stop_at(Expectation::ShortMessage, tokens)),
    }
}

/// Where a phrase acts: in the current set and for the main service, both 00, where it names none.
fn place_of(set: Option<u8>, service: Option<u8>) -> Place
    ensures set { result.dsn ≡ or_zero set }
    ensures service { result.psn ≡ or_zero service }
{
    Place {
        dsn: set.unwrap_or(0),
        psn: service.unwrap_or(0),
    }
}
