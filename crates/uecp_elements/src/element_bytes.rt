//! Elements into a message. Sources: RDS Forum SPB 490, the elements 01, 02, 03, 05, 07, 0A and 1C; profile for the
//! elements 18 and 24 and a RadioText's length 00.
ghost use Rattle.std.specs.Prelude.{◌≡◌, ◌≤◌, ◌<◌, ◌+◌, ◌↔◌, ◌++◌, [], length, IsOk, OnOk, OnErr};
ghost use Rattle.uecp_frame.specs.Frame.{high_first};
ghost use Rattle.uecp_elements.specs.Grammar.{IsElement, spelling};
ghost use Rattle.uecp_elements.specs.View.{element_of};

use crate::element::Element;
use crate::first_byte::{ACK, GROUP, MS, PI, PS, PTY, RADIO_TEXT, SELECT, TA_TP};
use crate::part::{RtPart, TEXT_MAX};
use arrayvec::ArrayVec;
use uecp_frame::{Full, Message};

/// The longest spelling: a RadioText's code, data set, service, length and head, and the longest text.
const SPELLING_MAX: usize = 5 + TEXT_MAX;

type Spelling = ArrayVec<u8, SPELLING_MAX>;

fn put(out: &mut Spelling, bytes: &[u8])
    requires { length out.old.items + length bytes.now ≤ SPELLING_MAX }
    ensures { out.new.items ≡ out.old.items ++ bytes.now }
{
    if out.try_extend_from_slice(bytes).is_err() {
        unreachable!();
    }
}

fn spell(element: &Element<'_>, out: &mut Spelling)
    requires empty { out.old.items ≡ [] }
    requires short { IsElement (element_of element.now) }
    ensures { out.new.items ≡ spelling (element_of element.now) }
{
    match *element {
        Element::Pi { dsn, psn, pi } => {
            let [high, low] = pi.to_be_bytes();
            put(out, &[PI, dsn, psn, high, low]);
        }
        Element::Ps { dsn, psn, name } => {
            put(out, &[PS, dsn, psn]);
            put(out, name);
        }
        Element::TaTp { dsn, psn, raw } => put(out, &[TA_TP, dsn, psn, raw]),
        Element::Ms { dsn, psn, raw } => put(out, &[MS, dsn, psn, raw]),
        Element::Pty { dsn, psn, raw } => put(out, &[PTY, dsn, psn, raw]),
        Element::Rt { dsn, psn, part } => match part {
            RtPart::Empty => put(out, &[RADIO_TEXT, dsn, psn, 0]),
            RtPart::Text { head, text } => {
                let mel = text.len() as u8 + 1;
                put(out, &[RADIO_TEXT, dsn, psn, mel, head]);
                put(out, text);
            }
        },
        Element::Select { dsn } => put(out, &[SELECT, dsn]),
        Element::Group {
            kind,
            mode,
            block3,
            block4,
        } => {
            let [high3, low3] = block3.to_be_bytes();
            let [high4, low4] = block4.to_be_bytes();
            put(out, &[GROUP, kind, mode, high3, low3, high4, low4]);
        }
        Element::Ack { code, counter } => put(out, &[ACK, code, counter]),
    }
}

/// Adds the element's spelling at the end of the message. Where it doesn't fit, the message stays as it is.
///
/// The caller knows that a text has at most 64 bytes; [`elements`](crate::elements) gives no longer one.
///
/// ```
/// let mut message = Message::new();
/// push_element(&mut message, &Element::Select { dsn: 2 })?; // 1C 02
/// ```
pub fn push_element(message: &mut Message, element: &Element<'_>) -> Result<(), Full>
    requires { IsElement (element_of element.now) }
    ensures room { IsOk result ↔ (length message.old + length (spelling (element_of element.now)) ≤ 255) }
    ensures ok { OnOk result (message.new ≡ message.old ++ spelling (element_of element.now)) }
    ensures err { OnErr result (message.new ≡ message.old) }
{
    let mut spelling = Spelling::new();
    spell(element, &mut spelling);
    message.extend(spelling.as_slice())
}
