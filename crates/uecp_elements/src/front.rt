//! The element at the front of some bytes. Sources: RDS Forum SPB 490, the elements 01, 02, 03, 05, 07, 0A and 1C;
//! profile for the elements 18 and 24, a RadioText's length 00 and the codes of the faults.
ghost use Rattle.std.specs.Prelude.{◌≡◌, ◌+◌, ◌*◌, IfOk, IfErr, Ok, Err};
ghost use Rattle.uecp_elements.specs.Reading.{first, text_at, group_at, IsBehind};
ghost use Rattle.uecp_elements.specs.View.{element_of};

use crate::code::Code;
use crate::element::Element;
use crate::first_byte::{ACK, GROUP, MS, PI, PS, PTY, RADIO_TEXT, SELECT, TA_TP};
use crate::part::{RtPart, TEXT_MAX};

/// The greatest length of a RadioText: the head and the longest text.
const TEXT_LENGTH_MAX: u8 = 1 + TEXT_MAX as u8;

fn word(high: u8, low: u8) -> u16
    ensures { result ≡ 0x100 * high + low }
{
    u16::from(high) * 256 + u16::from(low)
}

/// The element at the front and the bytes behind it, or the fault's code.
#[tactic(auto, unfolding(crate::specs::Reading::first))]
pub(crate) fn first_of<'a>(bytes: &'a [u8]) -> Result<(Element<'a>, &'a [u8]), Code>
    ensures element { IfOk result (λ r. first bytes.now ≡ Ok (element_of r.0)) }
    ensures fault { IfErr result (λ code. first bytes.now ≡ Err code) }
    ensures behind { IfOk result (λ r. IsBehind (element_of r.0) bytes.now r.1.now) }
{
    match *bytes {
        [PI, dsn, psn, high, low, ref rest @ ..] => {
            let pi = word(high, low);
            Ok((Element::Pi { dsn, psn, pi }, rest))
        }
        [PS, dsn, psn, ref rest @ ..] => {
            let Some((name, rest)) = rest.split_first_chunk::<8>() else {
                return Err(Code::ElementLength);
            };
            Ok((Element::Ps { dsn, psn, name }, rest))
        }
        [TA_TP, dsn, psn, raw, ref rest @ ..] => Ok((Element::TaTp { dsn, psn, raw }, rest)),
        [MS, dsn, psn, raw, ref rest @ ..] => Ok((Element::Ms { dsn, psn, raw }, rest)),
        [PTY, dsn, psn, raw, ref rest @ ..] => Ok((Element::Pty { dsn, psn, raw }, rest)),
        [RADIO_TEXT, ..] => text_of(bytes),
        [ACK, code, counter, ref rest @ ..] => Ok((Element::Ack { code, counter }, rest)),
        [SELECT, dsn, ref rest @ ..] => Ok((Element::Select { dsn }, rest)),
        [GROUP, ..] => group_of(bytes),
        [PI | PS | TA_TP | MS | PTY | ACK | SELECT, ..] => Err(Code::ElementLength),
        _ => Err(Code::UnknownElement),
    }
}

/// The same where the first byte is RadioText's.
fn text_of<'a>(bytes: &'a [u8]) -> Result<(Element<'a>, &'a [u8]), Code>
    ensures element { IfOk result (λ r. text_at bytes.now ≡ Ok (element_of r.0)) }
    ensures fault { IfErr result (λ code. text_at bytes.now ≡ Err code) }
    ensures behind { IfOk result (λ r. IsBehind (element_of r.0) bytes.now r.1.now) }
{
    let [_, dsn, psn, mel, ref rest @ ..] = *bytes else {
        return Err(Code::ElementLength);
    };
    if mel > TEXT_LENGTH_MAX || rest.len() < usize::from(mel) {
        return Err(Code::ElementLength);
    }
    let (content, rest) = rest.split_at(usize::from(mel));
    let part = match content.split_first() {
        None => RtPart::Empty,
        Some((head, text)) => RtPart::Text { head: *head, text },
    };
    Ok((Element::Rt { dsn, psn, part }, rest))
}

/// The same where the first byte is a group's.
fn group_of<'a>(bytes: &'a [u8]) -> Result<(Element<'a>, &'a [u8]), Code>
    ensures element { IfOk result (λ r. group_at bytes.now ≡ Ok (element_of r.0)) }
    ensures fault { IfErr result (λ code. group_at bytes.now ≡ Err code) }
    ensures behind { IfOk result (λ r. IsBehind (element_of r.0) bytes.now r.1.now) }
{
    let [_, kind, mode, high3, low3, high4, low4, ref rest @ ..] = *bytes else {
        return Err(Code::ElementLength);
    };
    let group = Element::Group {
        kind,
        mode,
        block3: word(high3, low3),
        block4: word(high4, low4),
    };
    Ok((group, rest))
}
