//! Bits as text, as other programs read and write them. Source: profile.
ghost use Rattle.std.specs.Prelude.{◌≡◌, map};
ghost use Rattle.rds_groups.specs.Text as text;

use crate::group::Group;

/// The bit that a character is: 0 or 1; None for any other, which is no bit.
pub fn bit_of(character: u8) -> Option<bool>
    ensures { result ≡ text.bit_of character }
{
    match character {
        b'0' => Some(false),
        b'1' => Some(true),
        _ => None,
    }
}

/// The 104 bits of a group as characters, the first to go out first. It has no line feed.
pub fn bit_line(group: &Group) -> [u8; 104]
    ensures { result ≡ text.bit_line group.now }
{
    let bits = group.bits();
    let mut line = [b'0'; 104];
    for place in 0..104 {
        line[place] = character_of(bits[place]);
    }
    line
}

/// The character of a bit.
fn character_of(bit: bool) -> u8
    ensures { result ≡ text.character_of bit }
{
    if bit { b'1' } else { b'0' }
}
