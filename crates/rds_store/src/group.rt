//! Free-format groups. Source: RDS Forum SPB 490 for the element, profile for its layout.

/// A group that waits to be sent.
#[derive(Clone, Copy, Debug, Default, PartialEq, Eq)]
pub struct Group {
    /// The group's type number times two, plus 1 for version B: 00 to 1F.
    pub kind: u8,
    /// The last five bits of block 2: 00 to 1F.
    pub bits: u8,
    /// Block 3 as it is sent, high byte first.
    pub block3: u16,
    /// Block 4 as it is sent, high byte first.
    pub block4: u16,
}
