//! Offset words. Source: IEC 62106, offset words.
ghost use Rattle.std.specs.Prelude.{◌≡◌, ◌<◌};
ghost use Rattle.rds_groups.specs.Blocks.{value_of};

/// Which block of a group a block is.
#[derive(Clone, Copy, Debug, PartialEq, Eq)]
pub enum OffsetWord {
    /// Block 1.
    A,
    /// Block 2.
    B,
    /// Block 3 of version A.
    C,
    /// Block 3 of version B, where the programme identification stands again.
    CPrime,
    /// Block 4.
    D,
}

impl OffsetWord {
    /// The ten bits that are added to the check word.
    pub fn value(self) -> u32
        ensures value { result ≡ value_of self }
        ensures below { result < 0x400 }
    {
        match self {
            OffsetWord::A => 0x0fc,
            OffsetWord::B => 0x198,
            OffsetWord::C => 0x168,
            OffsetWord::CPrime => 0x350,
            OffsetWord::D => 0x1b4,
        }
    }
}
