//! What stands behind a phrase's first word, and what the phrase adds (profile).
ghost use Rattle.std.specs.Prelude.{◌≡◌, ◌<◌, ◌++◌, ◌∷◌, false, ℕ, Bool, List, [], length, IfSome, IfNone, IfOk, IfErr};
ghost use Rattle.std.specs.Prelude.{if◌then◌else◌};
ghost use Rattle.uecp_elements.specs.Grammar.{IsElement, spelling, TaTp, Ms};
ghost use Rattle.uecp_elements.specs.View.{element_of};
ghost use Rattle.phrase_tokens.specs.View.{tokens_of};
ghost use Rattle.rds_text.specs.declared.programme_type.Region.TheVariants.{Europe};
ghost use Rattle.uecp_phrases.specs.declared.head.Head.TheVariants as head;
ghost use Rattle.uecp_phrases.specs.Phrases.{IsSwitch, Tells};
ghost use Rattle.uecp_phrases.specs.Reading.{IsHeld};
ghost use Rattle.uecp_phrases.specs.Expecting.{IsStop, IsStopAlways};
ghost use Rattle.uecp_phrases.specs.Stops.{Told, IsUntold, IsSwitched, IsEnd};

use crate::contents::{
    ack_in, bits_in, name_in, pi_in, programme_type_in, radio_text_in, selected_in, switch_in,
    traffic_in,
};
use crate::expectation::Expectation;
use crate::front::{byte_first, end_in};
use crate::groups::{GroupNumbers, group_in};
use crate::head::Head;
use crate::place::Place;
use crate::stop::Stop;
use phrase_tokens::Token;
use rds_text::Region;
use uecp_elements::{Element, push_element};
use uecp_frame::Message;

/// The bytes that a phrase of this first word adds, where these tokens stand behind it, and it acts there if anywhere:
/// none where they are more than 255; or where the tokens stop to tell them.
pub fn told(
    region: Region,
    head: Head,
    place: Place,
    tokens: &[Token],
) -> Result<Option<Message>, Stop>
    ensures some { IfOk result (λ told. IfSome told (λ m. Tells region head false place.dsn place.psn
        (tokens_of tokens.now) m)) }
    ensures long { IfOk result (λ told. IfNone told ((bytes : List ℕ)
        × Tells region head false place.dsn place.psn (tokens_of tokens.now) bytes × (255 < length bytes))) }
    ensures err { IfErr result (λ stop. IsStop region (Told region head) (tokens_of tokens.now) stop.what stop.left) }
{
    let Place { dsn, psn } = place;
    match head {
        Head::Pi => {
            let pi = pi_in(tokens)?;
            Ok(Some(spelled(&Element::Pi { dsn, psn, pi })))
        }
        Head::Ps => {
            let name = name_in(tokens)?;
            let name = &name;
            Ok(Some(spelled(&Element::Ps { dsn, psn, name })))
        }
        Head::Rt => {
            let part = radio_text_in(tokens)?;
            Ok(Some(spelled(&Element::Rt { dsn, psn, part })))
        }
        Head::Traffic => {
            let raw = traffic_in(tokens)?;
            Ok(Some(spelled(&Element::TaTp { dsn, psn, raw })))
        }
        Head::Ta => Ok(Some(switched(place, tokens, 3, 2)?)),
        Head::Tp => Ok(Some(switched(place, tokens, 2, 0)?)),
        Head::Music => Ok(Some(music(place, tokens, 1)?)),
        Head::Speech => Ok(Some(music(place, tokens, 0)?)),
        Head::Ms => {
            let raw = bits_in(tokens)?;
            Ok(Some(spelled(&Element::Ms { dsn, psn, raw })))
        }
        Head::Pty => {
            let raw = programme_type_in(region, tokens)?;
            Ok(Some(spelled(&Element::Pty { dsn, psn, raw })))
        }
        Head::Set => {
            let dsn = selected_in(tokens)?;
            Ok(Some(spelled(&Element::Select { dsn })))
        }
        Head::Group => Ok(Some(group_told(tokens)?)),
        Head::Ack => {
            let (code, counter) = ack_in(tokens)?;
            Ok(Some(spelled(&Element::Ack { code, counter })))
        }
        Head::Raw => raw_told(tokens),
    }
}

/// Traffic flags by a switch: one byte where it is on, the other where it is off.
fn switched(place: Place, tokens: &[Token], on: u8, off: u8) -> Result<Message, Stop>
    ensures ok { IfOk result (λ m. (is_on : Bool) × IsSwitch (tokens_of tokens.now) is_on
        × (m ≡ spelling (TaTp place.dsn place.psn (if is_on then on else off)))) }
    ensures err { IfErr result (λ stop. IsStopAlways IsSwitched (tokens_of tokens.now) stop.what stop.left) }
{
    let is_on = switch_in(tokens)?;
    let raw = if is_on { on } else { off };
    let Place { dsn, psn } = place;
    Ok(spelled(&Element::TaTp { dsn, psn, raw }))
}

/// Music or speech: nothing stands behind the word.
fn music(place: Place, tokens: &[Token], raw: u8) -> Result<Message, Stop>
    ensures ok { IfOk result (λ m. (tokens_of tokens.now ≡ []) × (m ≡ spelling (Ms place.dsn place.psn raw))) }
    ensures err { IfErr result (λ stop. IsStopAlways IsEnd (tokens_of tokens.now) stop.what stop.left) }
{
    end_in(tokens)?;
    let Place { dsn, psn } = place;
    Ok(spelled(&Element::Ms { dsn, psn, raw }))
}

/// A free-format group. It acts nowhere.
fn group_told(tokens: &[Token]) -> Result<Message, Stop>
    ensures ok { IfOk result (λ m. Tells Europe head.Group false 0 0 (tokens_of tokens.now) m) }
    ensures err { IfErr result (λ stop. IsUntold head.Group (tokens_of tokens.now) stop.what stop.left) }
{
    let group = group_in(tokens)?;
    let GroupNumbers {
        kind,
        mode,
        block3,
        block4,
    } = group;
    Ok(spelled(&Element::Group {
        kind,
        mode,
        block3,
        block4,
    }))
}

/// Bytes as they are, one or more: none where they are more than 255. They act nowhere.
fn raw_told(tokens: &[Token]) -> Result<Option<Message>, Stop>
    ensures some { IfOk result (λ told. IfSome told (λ m. Tells Europe head.Raw false 0 0 (tokens_of tokens.now) m)) }
    ensures long { IfOk result (λ told. IfNone told ((bytes : List ℕ)
        × Tells Europe head.Raw false 0 0 (tokens_of tokens.now) bytes × (255 < length bytes))) }
    ensures err { IfErr result (λ stop. IsUntold head.Raw (tokens_of tokens.now) stop.what stop.left) }
{
    let (first, others) = byte_first(Expectation::TwoDigits, tokens)?;
    let mut message = with_byte(Some(Message::new()), first);
    let mut rest = others;
    while !rest.is_empty() {
        let (byte, more) = byte_first(Expectation::AnotherByte, rest)?;
        message = with_byte(message, byte);
        rest = more;
    }
    Ok(message)
}

/// The message with one more byte, where it fits.
fn with_byte(message: Option<Message>, byte: u8) -> Option<Message>
    ensures { (said : List ℕ) → IsHeld said message → IsHeld (said ++ byte ∷ []) result }
{
    let mut longer = message?;
    longer.extend(&[byte]).ok()?;
    Some(longer)
}

/// A message of one element. Each spelling fits into an empty message.
fn spelled(element: &Element<'_>) -> Message
    requires { IsElement (element_of element.now) }
    ensures { result ≡ spelling (element_of element.now) }
{
    let mut message = Message::new();
    let _ = push_element(&mut message, element);
    message
}
