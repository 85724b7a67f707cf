//! The byte that an element begins with. Sources: RDS Forum SPB 490, the elements 01, 02, 03, 05, 07, 0A and 1C;
//! profile for the elements 18 and 24.

/// Programme identification.
pub(crate) const PI: u8 = 0x01;

/// Programme service name.
pub(crate) const PS: u8 = 0x02;

/// Traffic announcement and traffic programme.
pub(crate) const TA_TP: u8 = 0x03;

/// Music or speech.
pub(crate) const MS: u8 = 0x05;

/// Programme type.
pub(crate) const PTY: u8 = 0x07;

/// RadioText.
pub(crate) const RADIO_TEXT: u8 = 0x0a;

/// The byte that an acknowledgement begins with, and so the message of a reply.
pub const ACK: u8 = 0x18;

/// Data set select.
pub(crate) const SELECT: u8 = 0x1c;

/// A free-format group.
pub(crate) const GROUP: u8 = 0x24;
