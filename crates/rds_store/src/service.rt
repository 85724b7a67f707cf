//! Programme services. Source: RDS Forum SPB 490, elements PI, PS, TA/TP, MS, PTY and RadioText; the bits of TA/TP
//! and MS and the buffer rules are the profile's.
ghost use Rattle.std.specs.Prelude.{◌≡◌, ◌≤◌, ◌<◌, ◌/◌, ◌%◌, ◌==◌, [], ◌∷◌, ◌++◌, length, IsTrue, false};
ghost use Rattle.uecp_elements.specs.Grammar as grammar;
ghost use Rattle.uecp_elements.specs.View.{element_of};
ghost use Rattle.rds_store.specs.Bits.{bit_0, bit_1};
ghost use Rattle.rds_store.specs.Content.{opening_service, taken, radio_text, adds, buffered};
ghost use Rattle.rds_store.specs.Refusals.{is_out_of_range, adds_text};

use crate::rules::adds;
use crate::text::RadioText;
use arrayvec::ArrayVec;
use std::marker::Model;
use uecp_elements::{Element, RtPart};

/// What a programme service has in one data set. A clause sees its seven parts.
#[derive(Debug, Drop)]
pub struct Service {
    /// The programme identification.
    pi: u16,
    /// The programme service name.
    ps: [u8; 8],
    /// Whether it is a traffic programme.
    tp: bool,
    /// Whether a traffic announcement is on.
    ta: bool,
    /// Music, or else speech.
    music: bool,
    /// The programme type.
    pty: u8,
    /// The texts, oldest first.
    texts: ArrayVec<RadioText, 8>,
}

impl Model for Service {
    ghost use Rattle.std.specs.Prelude.{◌≤◌, length};
    ghost use Rattle.rds_store.specs.Value.{ServiceData, coded_service};

    ghost Value = { ServiceData };

    ghost coded = { coded_service };

    ghost view = { λ s. record {
      pi = s.pi;
      ps = s.ps;
      tp = s.tp;
      ta = s.ta;
      music = s.music;
      pty = s.pty;
      texts = s.texts.items;
    } };

    ghost invariant = { λ s. (s.pty ≤ 0x1F) × (length s.texts.items ≤ 8) };
}

impl Service {
    /// A service that no element has named yet.
    pub(crate) fn new() -> Service
        ensures { result ≡ opening_service }
    {
        Service {
            pi: 0,
            ps: [0x20; 8],
            tp: false,
            ta: false,
            music: false,
            pty: 0,
            texts: ArrayVec::new(),
        }
    }

    /// The programme identification code, 0000 at the start.
    pub fn pi(&self) -> u16
        ensures { result ≡ self.now.pi }
    {
        self.pi
    }

    /// The programme service name, eight bytes of any value; eight spaces (20) at the start.
    pub fn ps(&self) -> &[u8; 8]
        ensures { result.now ≡ self.now.ps }
    {
        &self.ps
    }

    /// Whether the service is a traffic programme.
    pub fn tp(&self) -> bool
        ensures { result ≡ self.now.tp }
    {
        self.tp
    }

    /// Whether a traffic announcement is on the air.
    pub fn ta(&self) -> bool
        ensures { result ≡ self.now.ta }
    {
        self.ta
    }

    /// True for music, false for speech.
    pub fn music(&self) -> bool
        ensures { result ≡ self.now.music }
    {
        self.music
    }

    /// The programme type, 00 to 1F.
    pub fn pty(&self) -> u8
        ensures value { result ≡ self.now.pty }
        ensures at_most { result ≤ 0x1F }
    {
        self.pty
    }

    /// The texts, at most eight, oldest first.
    pub fn texts(&self) -> &[RadioText]
        ensures value { result.now ≡ self.now.texts }
        ensures at_most { length result.now ≤ 8 }
    {
        self.texts.as_slice()
    }

    /// Whether no text can be added.
    pub(crate) fn is_full(&self) -> bool
        ensures { result ≡ (length self.now.texts == 8) }
    {
        self.texts.is_full()
    }

    /// Takes the content of an element that names this service and was not refused.
    pub(crate) fn take(&mut self, element: &Element<'_>)
        requires short { grammar.IsElement (element_of element.now) }
        requires in_range { is_out_of_range (element_of element.now) ≡ false }
        requires room { IsTrue (adds_text (element_of element.now)) → (length self.old.texts == 8) ≡ false }
        ensures { self.new ≡ taken (element_of element.now) self.old }
    {
        match *element {
            Element::Pi { pi, .. } => self.pi = pi,
            Element::Ps { name, .. } => self.ps = *name,
            Element::TaTp { raw, .. } => {
                self.ta = raw % 2 == 1;
                self.tp = raw / 2 % 2 == 1;
            }
            Element::Ms { raw, .. } => self.music = raw % 2 == 1,
            Element::Pty { raw, .. } => self.pty = raw,
            Element::Rt {
                part: RtPart::Empty,
                ..
            } => self.texts.clear(),
            Element::Rt {
                part: RtPart::Text { head, text },
                ..
            } => self.take_text(head, text),
            Element::Select { .. } | Element::Group { .. } | Element::Ack { .. } => {}
        }
    }

    /// Takes a text by the buffer rule in its first byte.
    fn take_text(&mut self, head: u8, bytes: &[u8])
        requires short { length bytes.now ≤ 64 }
        requires room { IsTrue (adds head) → (length self.old.texts == 8) ≡ false }
        ensures { self.new ≡ record self.old { texts = buffered head self.old.texts (radio_text head bytes.now) } }
    {
        if !adds(head) {
            self.texts.clear();
        }
        match self.texts.try_push(RadioText::new(head, bytes)) {
            Ok(()) => {}
            Err(_) => unreachable!(),
        }
    }

    /// The same service once more.
    pub(crate) fn copy(&self) -> Service
        ensures { result ≡ self.now }
    {
        Service {
            pi: self.pi,
            ps: self.ps,
            tp: self.tp,
            ta: self.ta,
            music: self.music,
            pty: self.pty,
            texts: copy_of(self.texts.as_slice()),
        }
    }
}

fn copy_of(texts: &[RadioText]) -> ArrayVec<RadioText, 8>
    requires { length texts.now ≤ 8 }
    ensures { result.items ≡ texts.now }
{
    let mut copies = ArrayVec::new();
    for text in texts {
        match copies.try_push(text.copy()) {
            Ok(()) => {}
            Err(_) => unreachable!(),
        }
    }
    copies
}
