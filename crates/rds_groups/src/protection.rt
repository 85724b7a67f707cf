//! Blocks of 26 bits: a word, and its check word plus an offset word. Source: IEC 62106, error protection.
ghost use Rattle.std.specs.Prelude.{◌≡◌, ◌*◌, ◌^◌, ◌<◌};
ghost use Rattle.rds_groups.specs.Blocks as blocks;

use crate::offset_word::OffsetWord;

/// A remainder times x, as a remainder.
fn times_x(remainder: u32) -> u32
    requires { remainder < 0x400 }
    ensures { result ≡ blocks.times_x remainder }
{
    if remainder * 2 < 0x400 {
        remainder * 2
    } else {
        remainder * 2 ^ 0x5b9
    }
}

/// The check word of a word: ten bits.
///
/// ```
/// check_word(0xc201); // 291
/// ```
#[tactic(auto, using(crate::proofs::Linear::remainder_below, crate::proofs::Linear::remainder_more))]
pub fn check_word(word: u16) -> u32
    ensures value { result ≡ blocks.check_word word }
    ensures below { result < 0x400 }
{
    let bits = u32::from(word) * 0x400;
    let mut remainder = 0;
    for i in 0..26u32 {
        remainder = times_x(remainder) ^ ((bits >> (25 - i)) & 1);
    }
    remainder
}

/// The block of a word, 26 bits: the word, and then its check word plus the offset word.
pub fn block(word: u16, offset: OffsetWord) -> u32
    ensures value { result ≡ blocks.block word (blocks.value_of offset) }
    ensures below { result < 2 ^ 26 }
{
    u32::from(word) * 0x400 + (check_word(word) ^ offset.value())
}

/// The word of a block; None exactly where its last ten bits are not the check word plus this offset word.
pub fn word_of(bits: u32, offset: OffsetWord) -> Option<u16>
    requires { bits < 2 ^ 26 }
    ensures { result ≡ blocks.word_of bits (blocks.value_of offset) }
{
    let word = (bits / 0x400) as u16;
    if check_word(word) ^ offset.value() == bits % 0x400 {
        Some(word)
    } else {
        None
    }
}
