//! Bytes of a text as they are written between quotes, and read back (profile).
ghost use Rattle.std.specs.Prelude.{◌≡◌, ◌≢◌, ◌+◌, ◌*◌, ◌<◌, ◌≤◌, ℕ, length, slice_index, Some, IfSome, IfNone, IfOk};
ghost use Rattle.std.specs.Prelude.{IfErr, SomeIff, [], ◌∷◌};
ghost use Rattle.std.specs.Char.{digit_value};
ghost use Rattle.rds_text.specs.BasicSet.{character_of};
ghost use Rattle.rds_text.specs.Quoted.{written, hex_digit, SpellsFirst, SpellsNone, IsHexDigit};

use crate::basic_set::{byte_of, character_of};
use arrayvec::ArrayVec;

/// Why the characters at the front of a text spell no byte.
#[derive(Clone, Copy, Debug, PartialEq, Eq)]
pub enum QuotedFault {
    /// The first is a backslash, and what stands behind it is none of `"`, `\\`, `xHH` and `uHHHH` with a character of
    /// the set.
    Escape,
    /// The first is not in the basic character set.
    NotInSet,
}

/// The characters by which a byte of a text is written between quotes: its own; a backslash and then a quote or a
/// backslash; or `\xHH` for a byte that stands for no character.
///
/// ```
/// written(0x82); // é
/// written(0x0d); // \x0D
/// ```
pub fn written(byte: u8) -> ArrayVec<char, 4>
    ensures { result.items ≡ written byte }
{
    let mut text = ArrayVec::new();
    match byte {
        b'"' | b'\\' => {
            text.push('\\');
            text.push(char::from(byte));
        }
        _ => match character_of(byte) {
            Some(character) => text.push(character),
            None => {
                text.push('\\');
                text.push('x');
                text.push(hex_digit(byte / 16));
                text.push(hex_digit(byte % 16));
            }
        },
    }
    text
}

/// The digit of a number below 16, in capitals.
fn hex_digit(number: u8) -> char
    requires { number < 16 }
    ensures { result ≡ hex_digit number }
{
    if number < 10 {
        char::from(number + b'0')
    } else {
        char::from(number - 10 + b'A')
    }
}

/// The byte that the characters at the front of a text spell, and how many characters those are, 1 to 6. The text is
/// not empty, and a quote does not stand in front: it would end the text.
///
/// ```
/// first_byte(&['\\', 'x', '0', 'D']); // Ok((0x0d, 4))
/// ```
pub fn first_byte(text: &[char]) -> Result<(u8, usize), QuotedFault>
    requires some { 0 < length text.now }
    requires no_quote { slice_index text.now 0 ≢ 0x22 }
    ensures ok { IfOk result (λ r. SpellsFirst text.now r.0 r.1) }
    ensures err { IfErr result (λ _. SpellsNone text.now) }
{
    match text.split_first() {
        None => unreachable!(),
        Some(('\\', rest)) => match escaped(rest) {
            Some(found) => Ok(found),
            None => Err(QuotedFault::Escape),
        },
        Some((first, _)) => match byte_of(*first) {
            Some(byte) => Ok((byte, 1)),
            None => Err(QuotedFault::NotInSet),
        },
    }
}

/// The byte that a backslash and the characters at the front of this text spell, and how many they all are.
fn escaped(text: &[char]) -> Option<(u8, usize)>
    ensures some { IfSome result (λ r. SpellsFirst (0x5C ∷ text.now) r.0 r.1) }
    ensures none { IfNone result (SpellsNone (0x5C ∷ text.now)) }
{
    let (kind, digits) = text.split_first()?;
    match *kind {
        '"' => Some((b'"', 2)),
        '\\' => Some((b'\\', 2)),
        'x' => match number_in(digits) {
            Some(byte) => Some((byte, 4)),
            None => None,
        },
        'u' => match character_in(digits) {
            Some(byte) => Some((byte, 6)),
            None => None,
        },
        _ => None,
    }
}

/// The byte whose two digits stand at the front.
fn number_in(text: &[char]) -> Option<u8>
    ensures some { IfSome result (λ byte. SpellsFirst (0x5C ∷ 0x78 ∷ text.now) byte 4) }
    ensures none { IfNone result (SpellsNone (0x5C ∷ 0x78 ∷ text.now)) }
{
    let [high, low, ..] = text else {
        return None;
    };
    let (high, low) = (digit_of(*high)?, digit_of(*low)?);
    Some(16 * high + low)
}

/// The byte of the character whose number's four digits stand at the front.
fn character_in(text: &[char]) -> Option<u8>
    ensures some { IfSome result (λ byte. SpellsFirst (0x5C ∷ 0x75 ∷ text.now) byte 6) }
    ensures none { IfNone result (SpellsNone (0x5C ∷ 0x75 ∷ text.now)) }
{
    let [a, b, c, d, ..] = text else {
        return None;
    };
    let (a, b) = (a.to_digit(16)?, b.to_digit(16)?);
    let (c, d) = (c.to_digit(16)?, d.to_digit(16)?);
    let character = char::from_u32(4096 * a + (256 * b + (16 * c + d)))?;
    let byte = byte_of(character)?;
    Some(byte)
}

/// The value of a hexadecimal digit of either case.
fn digit_of(character: char) -> Option<u8>
    ensures { SomeIff result (IsHexDigit character) (digit_value character) }
{
    match character.to_digit(16) {
        Some(value) => Some(value as u8),
        None => None,
    }
}
