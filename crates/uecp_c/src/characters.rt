//! The characters of names and texts. Source: IEC 62106, basic character set.
ghost use Rattle.std.specs.Prelude.{◌≡◌};
ghost use Rattle.uecp_c.specs.Characters.{character_or_zero, IsByteOf};

use rds_text::{byte_of, character_of};

/// The Unicode number of the character that a byte of a name or of a RadioText stands for; 0 where it stands for none:
/// 00 to 1F, 7F and FF.
#[unsafe(no_mangle)]
pub extern "C" fn uecp_character_of(byte: u8) -> u32
    ensures { result ≡ character_or_zero byte }
{
    match character_of(byte) {
        Some(character) => u32::from(character),
        None => 0,
    }
}

/// The byte that stands for the character of a Unicode number; 0 where none does.
#[unsafe(no_mangle)]
pub extern "C" fn uecp_byte_of(character: u32) -> u8
    ensures { IsByteOf character result }
{
    match char::from_u32(character) {
        Some(character) => byte_of(character).unwrap_or(0),
        None => 0,
    }
}
