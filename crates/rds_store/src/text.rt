//! RadioTexts. Source: RDS Forum SPB 490, RadioText; the bits of its first byte are the profile's.
ghost use Rattle.std.specs.Prelude.{◌≡◌, ◌≤◌, ◌<◌, ◌/◌, ◌%◌, ◌==◌, ◌++◌, length};
ghost use Rattle.rds_store.specs.Bits.{bit_0, bits_4_to_1};
ghost use Rattle.rds_store.specs.Content.{radio_text};

use arrayvec::ArrayVec;
use std::marker::Model;
use uecp_elements::TEXT_MAX;

/// A text of a service, of at most 64 bytes. A clause sees its three parts.
#[derive(Debug, Default, Drop)]
pub struct RadioText {
    /// Bit 0 of the first byte.
    toggle: bool,
    /// Bits 4 to 1 of the first byte.
    transmissions: u8,
    /// The bytes after the first.
    text: ArrayVec<u8, TEXT_MAX>,
}

impl Model for RadioText {
    ghost use Rattle.std.specs.Prelude.{◌≤◌, length};
    ghost use Rattle.rds_store.specs.Value.{StoredText, coded_text};

    ghost Value = { StoredText };

    ghost coded = { coded_text };

    ghost view = { λ t. record { toggle = t.toggle; transmissions = t.transmissions; bytes = t.text.items } };

    ghost invariant = { λ t. (t.transmissions ≤ 15) × (length t.text.items ≤ 64) };
}

impl RadioText {
    /// The text that an element's first byte and the bytes after it tell.
    pub(crate) fn new(head: u8, bytes: &[u8]) -> RadioText
        requires { length bytes.now ≤ 64 }
        ensures { result ≡ radio_text head bytes.now }
    {
        let mut text = ArrayVec::new();
        match text.try_extend_from_slice(bytes) {
            Ok(()) => {}
            Err(_) => unreachable!(),
        }
        RadioText {
            toggle: head % 2 == 1,
            transmissions: head / 2 % 16,
            text,
        }
    }

    /// The same text once more.
    pub(crate) fn copy(&self) -> RadioText
        ensures { result ≡ self.now }
    {
        let mut text = ArrayVec::new();
        match text.try_extend_from_slice(self.text.as_slice()) {
            Ok(()) => {}
            Err(_) => unreachable!(),
        }
        RadioText {
            toggle: self.toggle,
            transmissions: self.transmissions,
            text,
        }
    }

    /// The toggle, by which a receiver tells a new text from a repeated one.
    pub fn toggle(&self) -> bool
        ensures { result ≡ self.now.toggle }
    {
        self.toggle
    }

    /// How many times the text is to be sent, 0 to 15; 0 is without limit.
    pub fn transmissions(&self) -> u8
        ensures value { result ≡ self.now.transmissions }
        ensures at_most { result ≤ 15 }
    {
        self.transmissions
    }

    /// The characters, 0 to 64 bytes of any value.
    pub fn text(&self) -> &[u8]
        ensures value { result.now ≡ self.now.bytes }
        ensures at_most { length result.now ≤ 64 }
    {
        self.text.as_slice()
    }
}
