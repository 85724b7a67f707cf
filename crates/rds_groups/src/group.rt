//! Groups. Source: IEC 62106, baseband coding, type 0 and type 2 groups.
ghost use Rattle.std.specs.Prelude.{◌≡◌, ◌^◌, ◌<◌, ◌≤◌, length, slice_get, Some};
ghost use Rattle.rds_groups.specs.Groups as groups;

use crate::offset_word::OffsetWord;
use crate::protection::block;

/// A group: four words.
#[derive(Clone, Copy, Debug, Default, PartialEq, Eq)]
pub struct Group {
    /// The programme identification.
    pub block1: u16,
    /// Type and version, TP, PTY, and five bits whose meaning the type gives.
    pub block2: u16,
    /// What the type gives; in version B the programme identification again.
    pub block3: u16,
    /// What the type gives.
    pub block4: u16,
}

/// What each group tells.
#[derive(Clone, Copy, Debug, Default, PartialEq, Eq)]
pub struct Head {
    /// The programme identification.
    pub pi: u16,
    /// Whether it is a traffic programme.
    pub tp: bool,
    /// The programme type, 00 to 1F.
    pub pty: u8,
}

/// What a group of type 0 tells beside: two characters of the name, and four switches.
#[derive(Clone, Copy, Debug, Default, PartialEq, Eq)]
pub struct Segment {
    /// Whether a traffic announcement is on.
    pub ta: bool,
    /// Music, or else speech.
    pub music: bool,
    /// The segment's bit of decoder identification.
    pub decoder: bool,
    /// Which segment of the name, 0 to 3.
    pub segment: u8,
    /// Its characters.
    pub characters: [u8; 2],
}

impl Group {
    /// 0A: a segment of the name, and two alternative frequencies; E0E0 says that there are none.
    pub fn name_a(head: Head, segment: Segment, frequencies: u16) -> Group
        requires pty { head.pty < 32 }
        requires segment { segment.segment < 4 }
        ensures { result ≡ groups.name_a head segment frequencies }
    {
        let characters = pair(segment.characters[0], segment.characters[1]);
        Group::of_kind(0, head, name_bits(segment), frequencies, characters)
    }

    /// 0B: a segment of the name, with the PI twice.
    pub fn name_b(head: Head, segment: Segment) -> Group
        requires pty { head.pty < 32 }
        requires segment { segment.segment < 4 }
        ensures { result ≡ groups.name_b head segment }
    {
        let characters = pair(segment.characters[0], segment.characters[1]);
        Group::of_kind(1, head, name_bits(segment), head.pi, characters)
    }

    /// 2A: a segment, 0 to 15, of a RadioText of 64 characters.
    pub fn text_a(head: Head, flag: bool, segment: u8, characters: [u8; 4]) -> Group
        requires pty { head.pty < 32 }
        requires segment { segment < 16 }
        ensures { result ≡ groups.text_a head flag segment characters }
    {
        let block3 = pair(characters[0], characters[1]);
        let block4 = pair(characters[2], characters[3]);
        Group::of_kind(4, head, u8::from(flag) * 16 + segment, block3, block4)
    }

    /// 2B: a segment, 0 to 15, of a RadioText of 32 characters, with the PI twice.
    pub fn text_b(head: Head, flag: bool, segment: u8, characters: [u8; 2]) -> Group
        requires pty { head.pty < 32 }
        requires segment { segment < 16 }
        ensures { result ≡ groups.text_b head flag segment characters }
    {
        let block4 = pair(characters[0], characters[1]);
        Group::of_kind(5, head, u8::from(flag) * 16 + segment, head.pi, block4)
    }

    /// Any group: its type number times two, plus 1 for version B, and the last five bits of block 2, each 00 to 1F.
    pub fn of_kind(kind: u8, head: Head, last: u8, block3: u16, block4: u16) -> Group
        requires kind { kind < 32 }
        requires pty { head.pty < 32 }
        requires last { last < 32 }
        ensures { result ≡ groups.group kind head last block3 block4 }
    {
        Group {
            block1: head.pi,
            block2: u16::from(kind) * 2048
                + u16::from(head.tp) * 1024
                + u16::from(head.pty) * 32
                + u16::from(last),
            block3,
            block4,
        }
    }

    /// Its four blocks of 26 bits, as they go out.
    pub fn blocks(&self) -> [u32; 4]
        ensures { result ≡ groups.blocks self.now }
    {
        [
            block(self.block1, OffsetWord::A),
            block(self.block2, OffsetWord::B),
            block(self.block3, third_offset(self.block2)),
            block(self.block4, OffsetWord::D),
        ]
    }

    /// Its 104 bits, the first to go out first.
    pub fn bits(&self) -> [bool; 104]
        ensures { result ≡ groups.bits self.now }
    {
        let blocks = self.blocks();
        let mut bits = [false; 104];
        for place in 0..104 {
            bits[place] = (blocks[place / 26] >> (25 - place % 26)) & 1 == 1;
        }
        bits
    }
}

/// The offset word of block 3 beside this block 2.
pub fn third_offset(block2: u16) -> OffsetWord
    ensures { result ≡ groups.third_offset block2 }
{
    if block2 / 2048 % 2 == 1 {
        OffsetWord::CPrime
    } else {
        OffsetWord::C
    }
}

/// The last five bits of block 2 in a group of type 0.
fn name_bits(segment: Segment) -> u8
    requires { segment.segment < 4 }
    ensures value { result ≡ groups.name_bits segment }
    ensures below { result < 32 }
{
    u8::from(segment.ta) * 16
        + u8::from(segment.music) * 8
        + u8::from(segment.decoder) * 4
        + segment.segment
}

/// Two characters in a word.
fn pair(first: u8, second: u8) -> u16
    ensures { result ≡ groups.pair first second }
{
    u16::from(first) * 256 + u16::from(second)
}
