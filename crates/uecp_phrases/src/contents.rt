//! What stands behind the first word of a phrase (profile).
ghost use Rattle.std.specs.Prelude.{◌≡◌, ◌≢◌, ◌-◌, ◌≤◌, ℕ, Bool, [], ◌∷◌, ◌++◌, length, replicate, get_or};
ghost use Rattle.std.specs.Prelude.{IfSome, IfNone, IfOk, IfErr};
ghost use Rattle.rds_text.specs.declared.programme_type.Region.{Region as Where};
ghost use Rattle.uecp_elements.specs.Grammar.{Rt, IsElement};
ghost use Rattle.uecp_elements.specs.View.{part_of};
ghost use Rattle.phrase_tokens.specs.Tokens.{Word};
ghost use Rattle.phrase_tokens.specs.View.{token_of, tokens_of};
ghost use Rattle.uecp_phrases.specs.declared.head.Head.TheVariants as head;
ghost use Rattle.uecp_phrases.specs.declared.expectation.Expectation.TheVariants as what;
ghost use Rattle.uecp_phrases.specs.Phrases.{AreBits, IsPi, IsName, IsTraffic, IsTrafficWord, IsProgrammeType};
ghost use Rattle.uecp_phrases.specs.Phrases.{IsRadioText, IsSelected, IsAck, IsSwitch, switch_word};
ghost use Rattle.uecp_phrases.specs.Reading.{IsNamed, IsTypeNamed, IsFirstText, IsTextOfBits};
ghost use Rattle.uecp_phrases.specs.Expecting.{IsStop, IsStopAlways};
ghost use Rattle.uecp_phrases.specs.Stops.{IsStuck, IsSwitched, IsUntold, IsUnmet, IsEnd, Told};

use crate::choices::head_in;
use crate::expectation::Expectation;
use crate::front::{byte_first, byte_last, end_in, number_first};
use crate::place::set_first;
use crate::stop::{Stop, stop_at};
use crate::traffic_name::{TrafficName, traffic_name_of};
use phrase_tokens::Token;
use rds_text::{Region, number_of as programme_type};
use uecp_elements::RtPart;
use uecp_text::decimal_of;

/// The bytes of a programme service name.
const NAME_LENGTH: usize = 8;

/// The last programme type.
const PROGRAMME_TYPE_MAX: u32 = 31;

/// A programme identification, and the end of the phrase.
pub fn pi_in(tokens: &[Token]) -> Result<u16, Stop>
    ensures ok { IfOk result (λ pi. IsPi (tokens_of tokens.now) pi) }
    ensures err { IfErr result (λ stop. IsUntold head.Pi (tokens_of tokens.now) stop.what stop.left) }
{
    let (pi, rest) = number_first(tokens)?;
    end_in(rest)?;
    Ok(pi)
}

/// A programme service name, filled with spaces, and the end of the phrase.
pub fn name_in(tokens: &[Token]) -> Result<[u8; NAME_LENGTH], Stop>
    ensures ok { IfOk result (λ name. IsName (tokens_of tokens.now) name) }
    ensures err { IfErr result (λ stop. IsUntold head.Ps (tokens_of tokens.now) stop.what stop.left) }
{
    let (text, rest) = name_first(tokens)?;
    end_in(rest)?;
    Ok(filled(text))
}

/// The text in front, where it is short enough for a name, and the tokens behind it.
fn name_first(tokens: &[Token]) -> Result<(&[u8], &[Token]), Stop>
    ensures ok { IfOk result (λ r. IsFirstText (tokens_of tokens.now) r.0.now (tokens_of r.1.now)) }
    ensures short { IfOk result (λ r. length r.0.now ≤ 8) }
    ensures err { IfErr result (λ stop. (region : Where) → IsStuck region what.Name (tokens_of tokens.now) stop.what
        stop.left) }
{
    let stop = stop_at(Expectation::Name, tokens);
    let Some((first, rest)) = tokens.split_first() else {
        return Err(stop);
    };
    match first.quoted() {
        Some(text) if text.len() <= NAME_LENGTH => Ok((text, rest)),
        _ => Err(stop),
    }
}

/// The bytes of a name, filled with spaces.
#[tactic(auto, using(crate::proofs::Alone::filled))]
fn filled(text: &[u8]) -> [u8; NAME_LENGTH]
    requires { length text.now ≤ 8 }
    ensures { result ≡ text.now ++ replicate (8 - length text.now) 0x20 }
{
    [
        letter(text, 0),
        letter(text, 1),
        letter(text, 2),
        letter(text, 3),
        letter(text, 4),
        letter(text, 5),
        letter(text, 6),
        letter(text, 7),
    ]
}

/// The byte at a place, or a space behind the last.
fn letter(text: &[u8], place: usize) -> u8
    ensures { result ≡ get_or text.now place 0x20 }
{
    match text.get(place) {
        Some(byte) => *byte,
        None => b' ',
    }
}

/// Music or speech by a byte whose bits have no name.
pub fn bits_in(tokens: &[Token]) -> Result<u8, Stop>
    ensures ok { IfOk result (λ raw. AreBits (tokens_of tokens.now) raw) }
    ensures err { IfErr result (λ stop. IsUntold head.Ms (tokens_of tokens.now) stop.what stop.left) }
{
    match tokens.split_first() {
        Some((first, rest)) if first.is_word(b"bits") => byte_last(rest),
        _ => Err(stop_at(Expectation::Bits, tokens)),
    }
}

/// Traffic flags.
pub fn traffic_in(tokens: &[Token]) -> Result<u8, Stop>
    ensures ok { IfOk result (λ raw. IsTraffic (tokens_of tokens.now) raw) }
    ensures err { IfErr result (λ stop. IsUntold head.Traffic (tokens_of tokens.now) stop.what stop.left) }
{
    let stop = stop_at(Expectation::Traffic, tokens);
    let Some((first, rest)) = tokens.split_first() else {
        return Err(stop);
    };
    if first.is_word(b"bits") {
        return byte_last(rest);
    }
    let Some(raw) = flags_in(first) else {
        return Err(stop);
    };
    end_in(rest)?;
    Ok(raw)
}

/// The traffic flags that a token names.
fn flags_in(token: &Token) -> Option<u8>
    ensures some { IfSome result (λ raw. IsNamed IsTrafficWord (token_of token.now) raw) }
    ensures none { IfNone result ((raw : ℕ) → IsNamed IsTrafficWord (token_of token.now) raw → ⊥) }
{
    traffic_named(token.word()?)
}

/// Traffic flags by name.
fn traffic_named(word: &[u8]) -> Option<u8>
    ensures some { IfSome result (λ raw. IsTrafficWord word.now raw) }
    ensures none { IfNone result ((raw : ℕ) → IsTrafficWord word.now raw → ⊥) }
{
    match traffic_name_of(word) {
        Some(TrafficName::None) => Some(0),
        Some(TrafficName::Eon) => Some(1),
        Some(TrafficName::Programme) => Some(2),
        Some(TrafficName::Announcement) => Some(3),
        None => None,
    }
}

/// A switch, on or off, and the end of the phrase.
pub fn switch_in(tokens: &[Token]) -> Result<bool, Stop>
    ensures ok { IfOk result (IsSwitch (tokens_of tokens.now)) }
    ensures err { IfErr result (λ stop. IsStopAlways IsSwitched (tokens_of tokens.now) stop.what stop.left) }
{
    let stop = stop_at(Expectation::Switch, tokens);
    let Some((first, rest)) = tokens.split_first() else {
        return Err(stop);
    };
    let Some(is_on) = is_on(first) else {
        return Err(stop);
    };
    end_in(rest)?;
    Ok(is_on)
}

/// Whether the switch that a token names is on, if it names one.
fn is_on(token: &Token) -> Option<bool>
    ensures some { IfSome result (λ on. token_of token.now ≡ Word (switch_word on)) }
    ensures none { IfNone result ((on : Bool) → token_of token.now ≢ Word (switch_word on)) }
{
    match token.word()? {
        b"on" => Some(true),
        b"off" => Some(false),
        _ => None,
    }
}

/// A programme type.
pub fn programme_type_in(region: Region, tokens: &[Token]) -> Result<u8, Stop>
    ensures ok { IfOk result (λ raw. IsProgrammeType region (tokens_of tokens.now) raw) }
    ensures err { IfErr result (λ stop. IsStop region (Told region head.Pty) (tokens_of tokens.now) stop.what
        stop.left) }
{
    let stop = stop_at(Expectation::ProgrammeType, tokens);
    let Some((first, rest)) = tokens.split_first() else {
        return Err(stop);
    };
    if first.is_word(b"bits") {
        return byte_last(rest);
    }
    let Some(raw) = type_named(region, first) else {
        return Err(stop);
    };
    end_in(rest)?;
    Ok(raw)
}

/// The programme type that a token names: by its name in the region, or its number.
fn type_named(region: Region, token: &Token) -> Option<u8>
    ensures some { IfSome result (λ raw. IsTypeNamed region (token_of token.now) raw) }
    ensures none { IfNone result ((raw : ℕ) → IsTypeNamed region (token_of token.now) raw → ⊥) }
{
    match token.quoted() {
        Some(name) => programme_type(region, name),
        None => Some(decimal_of(token.word()?, PROGRAMME_TYPE_MAX)? as u8),
    }
}

/// A RadioText.
pub fn radio_text_in(tokens: &[Token]) -> Result<RtPart<'_>, Stop>
    ensures ok { IfOk result (λ part. IsRadioText (tokens_of tokens.now) (part_of part)) }
    ensures err { IfErr result (λ stop. IsUntold head.Rt (tokens_of tokens.now) stop.what stop.left) }
    ensures fits { IfOk result (λ part. IsElement (Rt 0 0 (part_of part))) }
{
    let stop = stop_at(Expectation::RadioText, tokens);
    let Some((first, rest)) = tokens.split_first() else {
        return Err(stop);
    };
    if let Some(text) = first.quoted() {
        let head = head_in(rest)?;
        return Ok(RtPart::Text { head, text });
    }
    if first.is_word(b"bits") {
        let (head, text) = text_of_bits(rest)?;
        return Ok(RtPart::Text { head, text });
    }
    if !first.is_word(b"clear") {
        return Err(stop);
    }
    end_in(rest)?;
    Ok(RtPart::Empty)
}

/// The byte of a RadioText's head, and its text, and the end of the phrase.
fn text_of_bits(tokens: &[Token]) -> Result<(u8, &[u8]), Stop>
    ensures ok { IfOk result (λ r. IsTextOfBits (tokens_of tokens.now) r.0 r.1.now) }
    ensures err { IfErr result (λ stop. IsUnmet (what.TwoDigits ∷ what.Text ∷ []) IsEnd (tokens_of tokens.now)
        stop.what stop.left) }
    ensures fits { IfOk result (λ r. length r.1.now ≤ 64) }
{
    let (head, rest) = byte_first(Expectation::TwoDigits, tokens)?;
    let (text, rest) = text_first(rest)?;
    end_in(rest)?;
    Ok((head, text))
}

/// The text in front, and the tokens behind it.
fn text_first(tokens: &[Token]) -> Result<(&[u8], &[Token]), Stop>
    ensures ok { IfOk result (λ r. IsFirstText (tokens_of tokens.now) r.0.now (tokens_of r.1.now)) }
    ensures err { IfErr result (λ stop. (region : Where) → IsStuck region what.Text (tokens_of tokens.now) stop.what
        stop.left) }
    ensures fits { IfOk result (λ r. length r.0.now ≤ 64) }
{
    let stop = stop_at(Expectation::Text, tokens);
    let Some((first, rest)) = tokens.split_first() else {
        return Err(stop);
    };
    match first.quoted() {
        Some(text) => Ok((text, rest)),
        None => Err(stop),
    }
}

/// The data set that is selected, and the end of the phrase.
pub fn selected_in(tokens: &[Token]) -> Result<u8, Stop>
    ensures ok { IfOk result (λ dsn. IsSelected (tokens_of tokens.now) dsn) }
    ensures err { IfErr result (λ stop. IsUntold head.Set (tokens_of tokens.now) stop.what stop.left) }
{
    let (dsn, rest) = set_first(tokens)?;
    end_in(rest)?;
    Ok(dsn)
}

/// The code's byte and the counter of an acknowledgement, and the end of the phrase.
pub fn ack_in(tokens: &[Token]) -> Result<(u8, u8), Stop>
    ensures ok { IfOk result (λ a. IsAck (tokens_of tokens.now) a.0 a.1) }
    ensures err { IfErr result (λ stop. IsUntold head.Ack (tokens_of tokens.now) stop.what stop.left) }
{
    let (code, rest) = byte_first(Expectation::TwoDigits, tokens)?;
    let counter = byte_last(rest)?;
    Ok((code, counter))
}
