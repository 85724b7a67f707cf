//! Words of a line, and the numbers and bytes that they spell (profile).
ghost use Rattle.std.specs.Prelude.{◌≡◌, ◌≤◌, ◌<◌, ◌⊎◌, ℕ, List, [], ◌∷◌, length, Ok, IfOk, IfErr, IfSome, IfNone};
ghost use Rattle.std.specs.Prelude.{IsErr};
ghost use Rattle.hex.specs.Hex.{decode_of, decode_sized};
ghost use Rattle.uecp_frame.specs.Frame.{high_first};
ghost use Rattle.uecp_text.specs.declared.text_fault.TextFault.TheVariants.{NotACommand, OutOfMemory};
ghost use Rattle.uecp_text.specs.Words.{words, texts, decimal_in, IsRow};

use crate::text_fault::TextFault;
use std::alloc::{AllocError, Global};

/// The words of a text: its longest parts without a space.
pub fn words_of(alloc: Global, text: &[u8]) -> Result<Vec<&[u8]>, AllocError>
    ensures { IfOk result (λ ws. texts ws.items ≡ words text.now) }
{
    text.split(|byte| *byte == b' ')
        .filter(|word| !word.is_empty())
        .collect(alloc)
}

/// The bytes of a word of hexadecimal digits of either case, two for each; `refusal` where it is none.
pub fn bytes_of(alloc: Global, word: &[u8], refusal: TextFault) -> Result<Vec<u8>, TextFault>
    ensures bytes { IfOk result (λ b. decode_of word.now ≡ Ok b.items) }
    ensures refused { IfErr result (λ e. (e ≡ OutOfMemory) ⊎ ((e ≡ refusal) × IsErr (decode_of word.now))) }
{
    match hex::decode(alloc, word) {
        Ok(bytes) => Ok(bytes),
        Err(hex::FromHexError::OutOfMemory) => Err(TextFault::OutOfMemory),
        Err(_) => Err(refusal),
    }
}

/// The same, and no bytes for a lone `-`.
pub fn bytes_or_none(alloc: Global, word: &[u8]) -> Result<Vec<u8>, TextFault>
    ensures row { IfOk result (λ b. IsRow word.now b.items) }
    ensures refused { IfErr result (λ e. (e ≡ OutOfMemory)
        ⊎ ((e ≡ NotACommand) × ((bytes : List ℕ) → IsRow word.now bytes → ⊥))) }
{
    match word {
        b"-" => Ok(Vec::new(alloc)),
        _ => bytes_of(alloc, word, TextFault::NotACommand),
    }
}

/// The N bytes of a word of exactly 2 N hexadecimal digits.
pub fn digits_of<const N: usize>(word: &[u8]) -> Option<[u8; N]>
    ensures bytes { IfSome result (λ b. decode_sized word.now N ≡ Ok b) }
    ensures refused { IfNone result (IsErr (decode_sized word.now N)) }
{
    let mut bytes = [0u8; N];
    hex::decode_to_slice(word, &mut bytes).ok()?;
    Some(bytes)
}

/// The byte of two hexadecimal digits.
pub fn byte_of(word: &[u8]) -> Option<u8>
    ensures byte { IfSome result (λ b. decode_sized word.now 1 ≡ Ok (b ∷ [])) }
    ensures refused { IfNone result (IsErr (decode_sized word.now 1)) }
{
    let [byte] = digits_of::<1>(word)?;
    Some(byte)
}

/// The number of four hexadecimal digits.
pub fn number_of(word: &[u8]) -> Option<u16>
    ensures number { IfSome result (λ n. decode_sized word.now 2 ≡ Ok (high_first n)) }
    ensures refused { IfNone result (IsErr (decode_sized word.now 2)) }
{
    Some(u16::from_be_bytes(digits_of::<2>(word)?))
}

/// The number of one or more decimal digits, where it is at most `most`.
pub fn decimal_of(word: &[u8], most: u32) -> Option<u32>
    ensures exact { result ≡ decimal_in most word.now }
    ensures range { IfSome result (λ n. n ≤ most) }
{
    if word.is_empty() {
        return None;
    }
    let mut number = 0u64;
    for digit in word {
        if !digit.is_ascii_digit() {
            return None;
        }
        number = number * 10 + u64::from(*digit - b'0');
        if number > u64::from(most) {
            return None;
        }
    }
    u32::try_from(number).ok()
}
