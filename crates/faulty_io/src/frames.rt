//! Frames and messages that tests spell out, of site 1, encoder 1.
ghost use Rattle.std.specs.Prelude.{IsTrue};
ghost use Rattle.uecp_frame.specs.Address.{is_exact};

use uecp_frame::{Address, Frame, FrameBytes, Message, encode};

/// Adds the text "HI" in service 01 of the current set.
pub const ADD: [u8; 7] = *b"\x0A\x00\x00\x03\x40\x48\x49";
/// The frame that adds it, counter 01.
pub const ADD_1: [u8; 15] = *b"\xFE\x00\x41\x01\x07\x0A\x00\x00\x03\x40\x48\x49\x32\x23\xFF";
/// No element, counter 01.
pub const EMPTY_1: [u8; 8] = *b"\xFE\x00\x41\x01\x00\x62\x93\xFF";
/// No element, counter 02.
pub const EMPTY_2: [u8; 8] = *b"\xFE\x00\x41\x02\x00\x37\xC0\xFF";
/// Code 00 to counter 01.
pub const APPLIED_1: [u8; 11] = *b"\xFE\x00\x41\x00\x03\x18\x00\x01\x40\xBE\xFF";
/// Code 00 to counter 02.
pub const APPLIED_2: [u8; 11] = *b"\xFE\x00\x41\x00\x03\x18\x00\x02\x70\xDD\xFF";

/// The address of site 1, encoder 1.
pub fn own_address() -> Address
    ensures { IsTrue (is_exact result) }
{
    match Address::new(1, 1) {
        Some(address) => address,
        None => unreachable!(),
    }
}

/// The frame of a message under a counter. It has no bytes where the message has more than 255.
pub fn framed(counter: u8, message: &[u8]) -> FrameBytes {
    let mut bytes = FrameBytes::new();
    if let Some(message) = Message::from_bytes(message) {
        let frame = Frame {
            address: own_address(),
            counter,
            message,
        };
        encode(&frame, &mut bytes);
    }
    bytes
}

/// The reply with this code to this counter.
pub fn reply_made(code: u8, counter: u8) -> FrameBytes {
    framed(0, &[0x18, code, counter])
}
