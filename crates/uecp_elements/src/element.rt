//! One element of a message. Sources: RDS Forum SPB 490, the elements 01, 02, 03, 05, 07, 0A and 1C; profile for the
//! elements 18 and 24 and for the bits of TA/TP, MS and a RadioText's head.
use crate::part::RtPart;

/// An element, with each byte as it was read or is to be sent: a value that the encoder would refuse is an element too.
///
/// `dsn` is a data set number: 00 the current one, 01 to FD itself, FE all but the current, FF all. `psn` is a
/// programme service number: 00 the main service, else a listed one.
#[derive(Clone, Copy, Debug, PartialEq, Eq)]
pub enum Element<'a> {
    /// Element 01, the programme identification.
    Pi {
        dsn: u8,
        psn: u8,
        pi: u16,
    },
    /// Element 02, the programme service name: any 8 bytes.
    Ps {
        dsn: u8,
        psn: u8,
        name: &'a [u8; 8],
    },
    /// Element 03, traffic announcement (bit 0 of `raw`) and traffic programme (bit 1). The other bits have no meaning
    /// and are kept.
    TaTp {
        dsn: u8,
        psn: u8,
        raw: u8,
    },
    /// Element 05: bit 0 of `raw` is 1 for music, 0 for speech. The other bits have no meaning and are kept.
    Ms {
        dsn: u8,
        psn: u8,
        raw: u8,
    },
    /// Element 07, the programme type: 00 to 1F have a meaning, a greater byte is read all the same.
    Pty {
        dsn: u8,
        psn: u8,
        raw: u8,
    },
    /// Element 0A, RadioText.
    Rt {
        dsn: u8,
        psn: u8,
        part: RtPart<'a>,
    },
    /// Element 1C: the data set that becomes the current one.
    Select {
        dsn: u8,
    },
    /// Element 24, a group as it is to be sent.
    Group {
        /// The group's type number times two, plus 1 for version B: 00 to 1F have a meaning.
        kind: u8,
        /// Bits 4 to 0 are the last five bits of block 2, bits 6 and 5 the buffer rule. Bit 7 has no meaning and is
        /// kept.
        mode: u8,
        block3: u16,
        block4: u16,
    },
    /// Element 18, an encoder's acknowledgement: a reply code's byte, and the counter of the message that it is for.
    Ack {
        code: u8,
        counter: u8,
    },
}
