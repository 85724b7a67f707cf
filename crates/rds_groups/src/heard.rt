//! Groups as they come. Source: IEC 62106, error protection.
ghost use Rattle.std.specs.Prelude.{◌≡◌, ◌^◌, ◌<◌, All};
ghost use Rattle.rds_groups.specs.Heard as heard;

use crate::group::{Group, third_offset};
use crate::offset_word::OffsetWord;
use crate::protection::word_of;

/// A group as it came: the word of each block whose check is right.
#[derive(Clone, Copy, Debug, Default, PartialEq, Eq)]
pub struct HeardGroup {
    pub block1: Option<u16>,
    pub block2: Option<u16>,
    pub block3: Option<u16>,
    pub block4: Option<u16>,
}

impl HeardGroup {
    /// A group of which each block came.
    pub fn whole(group: &Group) -> HeardGroup
        ensures { result ≡ heard.whole group.now }
    {
        HeardGroup {
            block1: Some(group.block1),
            block2: Some(group.block2),
            block3: Some(group.block3),
            block4: Some(group.block4),
        }
    }

    /// What four blocks of 26 bits tell: the word of each whose check is right. Where block 2 is missing, so is block
    /// 3.
    pub fn of_blocks(blocks: [u32; 4]) -> HeardGroup
        requires { All (λ bits. bits < 2 ^ 26) blocks }
        ensures { result ≡ heard.came blocks }
    {
        let [first, second, third, fourth] = blocks;
        let block2 = word_of(second, OffsetWord::B);
        HeardGroup {
            block1: word_of(first, OffsetWord::A),
            block2,
            block3: match block2 {
                Some(block2) => word_of(third, third_offset(block2)),
                None => None,
            },
            block4: word_of(fourth, OffsetWord::D),
        }
    }
}
