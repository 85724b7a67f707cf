use crate::tests::asserting::{holds, same};
use std::process::Abort;
use uecp_elements::{Code, Element, ElementFault, Elements, RtPart, elements, push_element};
use uecp_frame::Message;

const PI: Element<'static> = Element::Pi {
    dsn: 0,
    psn: 0,
    pi: 0x1234,
};

fn radio_text(part: RtPart<'_>) -> Element<'_> {
    Element::Rt {
        dsn: 0xff,
        psn: 7,
        part,
    }
}

fn ends(mut left: Elements<'_>) -> bool {
    left.next().is_none() && left.next().is_none()
}

/// The message's first item is this fault, and nothing comes behind it.
fn is_only_fault(message: &[u8], place: usize, code: Code) -> bool {
    let mut read = elements(message);
    read.next() == Some(Err(ElementFault { place, code })) && ends(read)
}

/// The message reads as this element alone, and the element is written as this message.
fn is_spelling(message: &[u8], element: Element<'_>) -> bool {
    let mut read = elements(message);
    let mut written = Message::new();
    read.next() == Some(Ok(element))
        && ends(read)
        && push_element(&mut written, &element).is_ok()
        && written.bytes() == message
}

#[test]
fn each_line_of_the_table(rt: HostRuntime) {
    let named = [2, 0, 1, 0x52, 0x41, 0x44, 0x49, 0x4f, 0x20, 0x31, 0x20];
    let name = b"RADIO 1 ";
    holds!(rt; is_spelling(&[1, 0, 0, 0x12, 0x34], PI));
    holds!(rt; is_spelling(&named, Element::Ps { dsn: 0, psn: 1, name }));
    holds!(rt; is_spelling(&[3, 1, 2, 0xfd], Element::TaTp { dsn: 1, psn: 2, raw: 0xfd }));
    holds!(rt; is_spelling(&[5, 1, 2, 0xfe], Element::Ms { dsn: 1, psn: 2, raw: 0xfe }));
    holds!(rt; is_spelling(&[7, 1, 2, 0x20], Element::Pty { dsn: 1, psn: 2, raw: 0x20 }));
    holds!(rt; is_spelling(&[0x18, 3, 0xff], Element::Ack { code: 3, counter: 0xff }));
    holds!(rt; is_spelling(&[0x1c, 2], Element::Select { dsn: 2 }));
    let group = Element::Group {
        kind: 0x1f,
        mode: 0xc1,
        block3: 0x1234,
        block4: 0xabcd,
    };
    holds!(rt; is_spelling(&[0x24, 0x1f, 0xc1, 0x12, 0x34, 0xab, 0xcd], group));
}

#[test]
fn texts_of_none_no_and_most_characters(rt: HostRuntime) {
    holds!(rt; is_spelling(&[0x0a, 0xff, 7, 0], radio_text(RtPart::Empty)));
    let headed = RtPart::Text {
        head: 0x80,
        text: &[],
    };
    holds!(rt; is_spelling(&[0x0a, 0xff, 7, 1, 0x80], radio_text(headed)));
    let mut message = [0x55; 69];
    message[0] = 0x0a;
    message[1] = 0xff;
    message[2] = 7;
    message[3] = 0x41;
    message[4] = 0x40;
    let longest = RtPart::Text {
        head: 0x40,
        text: &[0x55; 64],
    };
    holds!(rt; is_spelling(&message, radio_text(longest)));
}

/// The message's items are this element and then this fault, and nothing comes behind them.
fn is_element_and_fault(message: &[u8], element: Element<'_>, fault: ElementFault) -> bool {
    let mut read = elements(message);
    read.next() == Some(Ok(element)) && read.next() == Some(Err(fault)) && ends(read)
}

#[test]
fn an_unknown_code_behind_an_element(rt: HostRuntime) {
    let fault = ElementFault {
        place: 5,
        code: Code::UnknownElement,
    };
    let message = [0x01, 0x00, 0x00, 0x12, 0x34, 0x99];
    holds!(rt; is_element_and_fault(&message, PI, fault));
    holds!(rt; ends(elements(&[])));
}

#[test]
fn a_text_that_is_too_long_behind_an_element(rt: HostRuntime) {
    let mut message = [0x20; 74];
    message[0] = 0x1c;
    message[1] = 0x01;
    message[2] = 0x0a;
    message[5] = 0x42;
    let fault = ElementFault {
        place: 2,
        code: Code::ElementLength,
    };
    let select = Element::Select { dsn: 1 };
    holds!(rt; is_element_and_fault(&message, select, fault));
}

/// Elements that are whole.
const WHOLE: [&[u8]; 10] = [
    &[0x01, 0, 0, 0xc2, 0x01],
    &[0x02, 0, 0, 1, 2, 3, 4, 5, 6, 7, 8],
    &[0x03, 0, 0, 1],
    &[0x05, 0, 0, 1],
    &[0x07, 0, 0, 1],
    &[0x0a, 0, 0, 0],
    &[0x0a, 0, 0, 3, 0x40, 0x48, 0x49],
    &[0x18, 0, 1],
    &[0x1c, 1],
    &[0x24, 0, 0, 1, 2, 3, 4],
];

/// Wherever the element ends before it is whole, it is a fault, and nothing else is read.
fn is_no_element_cut(rt: &impl Abort, spelling: &[u8]) {
    for end in 1..spelling.len() {
        holds!(rt; is_only_fault(&spelling[..end], 0, Code::ElementLength), spelling);
    }
}

#[test]
fn a_message_that_ends_inside_an_element(rt: HostRuntime) {
    for spelling in &WHOLE {
        is_no_element_cut(&rt, spelling);
    }
}

/// A message of these bytes.
fn message_of(rt: &impl Abort, bytes: &[u8]) -> Message {
    Message::from_bytes(bytes).expect(rt, "short")
}

#[test]
fn room_for_an_element(rt: HostRuntime) {
    let mut fits = message_of(&rt, &[0; 250]);
    holds!(rt; push_element(&mut fits, &PI).is_ok());
    same!(rt; fits.bytes().len(), 255);
    let mut full = message_of(&rt, &[0; 251]);
    holds!(rt; push_element(&mut full, &PI).is_err());
    same!(rt; full.bytes(), [0; 251].as_slice());
}

#[test]
fn reply_codes_and_their_bytes(rt: HostRuntime) {
    same!(rt; Code::default().byte(), 0x00);
    same!(rt; Code::from_byte(0x0b), Some(Code::BufferFull));
    same!(rt; Code::from_byte(0x08), None);
}
