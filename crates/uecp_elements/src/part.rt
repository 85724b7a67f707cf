//! What a RadioText carries. Source: RDS Forum SPB 490, element 0A; profile for the empty one and the bits of the head.

/// How many bytes a text has at most.
pub const TEXT_MAX: usize = 64;

/// The bytes of a RadioText behind the service that it names.
#[derive(Clone, Copy, Debug, PartialEq, Eq)]
pub enum RtPart<'a> {
    /// Length 00: the named services are to have no text.
    Empty,
    /// Length 01 to 41, which counts the head and the text.
    Text {
        /// Bit 0 is the toggle, bits 4 to 1 the number of transmissions (0 without limit), bits 6 and 5 the buffer
        /// rule. Bit 7 has no meaning and is kept.
        head: u8,
        /// Any bytes, at most 64.
        text: &'a [u8],
    },
}
