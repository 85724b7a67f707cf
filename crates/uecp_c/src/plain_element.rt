//! An element as C reads and writes it. Sources: those of the elements, RDS Forum SPB 490 and profile.
ghost use Rattle.std.specs.Prelude.{◌≡◌, ◌≤◌, Some, length};
ghost use Rattle.std.specs.Option.{option_map};
ghost use Rattle.uecp_elements.specs.Grammar.{IsElement, Rt};
ghost use Rattle.uecp_elements.specs.View.{element_of, part_of};
ghost use Rattle.uecp_c.specs.Elements.{told_element, told_part, shown_element, shown_part};

use uecp_elements::{Element, RtPart, TEXT_MAX};

/// An element with a place for each thing that one may hold. Which ones count is said by `code`.
#[repr(C)]
#[derive(Clone, Copy)]
pub struct PlainElement {
    /// The byte that the element begins with: 01 PI, 02 PS, 03 TA/TP, 05 MS, 07 PTY, 0A RadioText, 18 acknowledgement,
    /// 1C data set select, 24 free-format group.
    pub code: u8,
    /// The data set number; of 01 to 0A and 1C.
    pub dsn: u8,
    /// The programme service number; of 01 to 0A.
    pub psn: u8,
    /// The byte of 03, 05 and 07.
    pub raw: u8,
    /// The programme identification of 01.
    pub pi: u16,
    /// The name of 02.
    pub name: [u8; 8],
    /// Whether 0A has a text, if only an empty one: 0 where it is to empty the buffer.
    pub has_text: u8,
    /// The head of a text of 0A: toggle, number of transmissions, buffer rule.
    pub head: u8,
    /// How many bytes a text of 0A has, at most 64.
    pub length: u8,
    /// A text of 0A, at the start.
    pub text: [u8; 64],
    /// The group type of 24, times two, plus 1 for version B.
    pub kind: u8,
    /// The second byte of 24: the last five bits of block 2, and the buffer rule.
    pub mode: u8,
    /// The third block of 24.
    pub block3: u16,
    /// The fourth block of 24.
    pub block4: u16,
    /// The byte of the reply code of 18.
    pub reply: u8,
    /// The counter of the message that 18 is for.
    pub counter: u8,
}

/// What a RadioText carries; None where its text is longer than 64 bytes.
fn told_part(plain: &PlainElement) -> Option<RtPart<'_>>
    ensures { option_map part_of result ≡ told_part plain.now }
{
    let length = usize::from(plain.length);
    if plain.has_text == 0 {
        Some(RtPart::Empty)
    } else if length <= TEXT_MAX {
        let head = plain.head;
        let text = &plain.text[..length];
        Some(RtPart::Text { head, text })
    } else {
        None
    }
}

/// The element that is told; None where no element begins with that byte, or a text is longer than 64 bytes.
pub(crate) fn told_element(plain: &PlainElement) -> Option<Element<'_>>
    ensures { option_map element_of result ≡ told_element plain.now }
{
    let PlainElement { dsn, psn, raw, .. } = *plain;
    match plain.code {
        0x01 => Some(Element::Pi {
            dsn,
            psn,
            pi: plain.pi,
        }),
        0x02 => Some(Element::Ps {
            dsn,
            psn,
            name: &plain.name,
        }),
        0x03 => Some(Element::TaTp { dsn, psn, raw }),
        0x05 => Some(Element::Ms { dsn, psn, raw }),
        0x07 => Some(Element::Pty { dsn, psn, raw }),
        0x0A => {
            let part = told_part(plain)?;
            Some(Element::Rt { dsn, psn, part })
        }
        0x18 => Some(Element::Ack {
            code: plain.reply,
            counter: plain.counter,
        }),
        0x1C => Some(Element::Select { dsn }),
        0x24 => Some(Element::Group {
            kind: plain.kind,
            mode: plain.mode,
            block3: plain.block3,
            block4: plain.block4,
        }),
        _ => None,
    }
}

/// Shows what a RadioText carries.
fn show_part(part: RtPart<'_>, plain: &mut PlainElement)
    requires { IsElement (Rt 0 0 (part_of part)) }
    ensures { plain.new ≡ shown_part plain.old (part_of part.entry) }
{
    match part {
        RtPart::Empty => plain.has_text = 0,
        RtPart::Text { head, text } => {
            plain.has_text = 1;
            plain.head = head;
            plain.length = text.len() as u8;
            plain.text[..text.len()].copy_from_slice(text);
        }
    }
}

/// Shows in which data set and for which service an element acts, and the byte that it begins with.
fn show_place(code: u8, dsn: u8, psn: u8, plain: &mut PlainElement)
    ensures { plain.new ≡ record plain.old { code = code; dsn = dsn; psn = psn } }
{
    plain.code = code;
    plain.dsn = dsn;
    plain.psn = psn;
}

/// Shows an element. What it does not hold stays.
pub(crate) fn show_element(element: &Element<'_>, plain: &mut PlainElement)
    requires { IsElement (element_of element.now) }
    ensures { plain.new ≡ shown_element plain.old (element_of element.now) }
{
    match *element {
        Element::Pi { dsn, psn, pi } => {
            show_place(0x01, dsn, psn, plain);
            plain.pi = pi;
        }
        Element::Ps { dsn, psn, name } => {
            show_place(0x02, dsn, psn, plain);
            plain.name = *name;
        }
        Element::TaTp { dsn, psn, raw } => {
            show_place(0x03, dsn, psn, plain);
            plain.raw = raw;
        }
        Element::Ms { dsn, psn, raw } => {
            show_place(0x05, dsn, psn, plain);
            plain.raw = raw;
        }
        Element::Pty { dsn, psn, raw } => {
            show_place(0x07, dsn, psn, plain);
            plain.raw = raw;
        }
        Element::Rt { dsn, psn, part } => {
            show_place(0x0A, dsn, psn, plain);
            show_part(part, plain);
        }
        Element::Select { dsn } => {
            plain.code = 0x1C;
            plain.dsn = dsn;
        }
        Element::Group {
            kind,
            mode,
            block3,
            block4,
        } => {
            plain.code = 0x24;
            plain.kind = kind;
            plain.mode = mode;
            plain.block3 = block3;
            plain.block4 = block4;
        }
        Element::Ack { code, counter } => {
            plain.code = 0x18;
            plain.reply = code;
            plain.counter = counter;
        }
    }
}
