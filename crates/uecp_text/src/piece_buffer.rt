//! Room for the bytes of one text after another (profile).
ghost use Rattle.std.specs.Prelude.{◌≡◌, ◌<◌, ◌≤◌, ◌+◌, ◌*◌, ◌⊎◌, ◌==◌, ℕ, not, filter, length, true, false, Ok, IfOk};
ghost use Rattle.std.specs.Prelude.{IfErr, IsErr};
ghost use Rattle.hex.specs.Hex.{decode_of, pair_value};
ghost use Rattle.uecp_text.specs.declared.text_fault.TextFault.TheVariants.{NotHex, OutOfMemory};
ghost use Rattle.uecp_text.specs.Words.{bytes_in};

use crate::digit_tables::{HIGH, LOW};
use crate::text_fault::TextFault;
use std::alloc::{AllocError, Global};
use std::marker::Model;

/// What two characters come to, or more, where one of them is no digit.
const NO_BYTE: u16 = 0x100;

/// Room for the bytes that a text spells. It is kept from one text to the next, so memory is taken only for a text that
/// is longer than all before it. Contracts see nothing of what it holds.
#[derive(Drop)]
pub struct PieceBuffer {
    /// The bytes of the last text.
    bytes: Vec<u8>,
    /// The digits of the last text whose spaces were taken out.
    digits: Vec<u8>,
}

impl Model for PieceBuffer {
    ghost Value = { Unit {0} };

    ghost view = { λ _. tt };
}

impl PieceBuffer {
    /// No text was read yet, and no memory is taken.
    pub fn new(alloc: Global) -> PieceBuffer {
        PieceBuffer {
            bytes: Vec::new(alloc),
            digits: Vec::new(alloc),
        }
    }

    /// The bytes of a text of hexadecimal digits of either case, its spaces taken out. They are lent until the next
    /// text is read.
    ///
    /// Errors: `NotHex` where the text has anything else, or an odd number of digits; `OutOfMemory`.
    ///
    /// ```
    /// let mut room = PieceBuffer::new(alloc);
    /// let piece = room.read(b"fe 00 41")?; // FE, 00, 41
    /// ```
    #[inline(always)]
    pub fn read(&mut self, text: &[u8]) -> Result<&[u8], TextFault>
        ensures piece { IfOk result (λ p. bytes_in text.now ≡ Ok p.now) }
        ensures refused { IfErr result (λ e. (e ≡ OutOfMemory) ⊎ ((e ≡ NotHex) × IsErr (bytes_in text.now))) }
    {
        put_bytes(text, &mut self.bytes, &mut self.digits)?;
        Ok(self.bytes.as_slice())
    }
}

/// Puts in the bytes of a text, its spaces taken out. Most texts have none, or one between two pairs of digits, so
/// spaces are taken out only of a text that is of neither form.
#[inline(always)]
fn put_bytes(text: &[u8], bytes: &mut Vec<u8>, digits: &mut Vec<u8>) -> Result<(), TextFault>
    ensures piece { IfOk result (λ _. bytes_in text.now ≡ Ok bytes.new.items) }
    ensures refused { IfErr result (λ e. (e ≡ OutOfMemory) ⊎ ((e ≡ NotHex) × IsErr (bytes_in text.now))) }
{
    if decode_as_it_stands(text, bytes)? {
        return Ok(());
    }
    put_digits(text, digits)?;
    if decode(digits.as_slice(), bytes)? {
        Ok(())
    } else {
        Err(TextFault::NotHex)
    }
}

/// Puts in the bytes of a text of pairs of digits, all with one space between or all with none, and says whether the
/// text is nothing else. What stands behind the first pair tells which of the two it can be.
#[inline(always)]
#[tactic(auto, using(crate::proofs::Pieces::piece_as_it_stands))]
fn decode_as_it_stands(text: &[u8], bytes: &mut Vec<u8>) -> Result<bool, AllocError>
    ensures { result ≡ Ok true → bytes_in text.now ≡ Ok bytes.new.items }
{
    if text.len() > 2 && text[2] == b' ' {
        decode_spaced(text, bytes)
    } else {
        decode(text, bytes)
    }
}

/// Puts in the bytes of pairs of digits with one space between, and says whether the text is nothing else.
#[inline(always)]
fn decode_spaced(text: &[u8], bytes: &mut Vec<u8>) -> Result<bool, AllocError>
    ensures { result ≡ Ok true → bytes_in text.now ≡ Ok bytes.new.items }
{
    if text.len() % 3 != 2 {
        return Ok(false);
    }
    bytes.resize(text.len() / 3 + 1, 0)?;
    Ok(fill_spaced(text, bytes.as_mut_slice()))
}

/// Fills the room with the bytes of pairs of digits with one space between, and says whether the text is nothing else.
/// Two bytes are judged at once.
#[inline(always)]
fn fill_spaced(text: &[u8], room: &mut [u8]) -> bool
    requires { length text.now + 1 ≡ 3 * length room.old }
    ensures { result ≡ true → bytes_in text.now ≡ Ok room.new }
{
    let pairs = room.len() - 1;
    let twos = pairs / 2;
    'twos: for i in 0..twos {
        let first = spelled(text[6 * i], text[6 * i + 1]);
        let second = spelled(text[6 * i + 3], text[6 * i + 4]);
        if first | second >= NO_BYTE || text[6 * i + 2] != b' ' || text[6 * i + 5] != b' ' {
            return false;
        }
        room[2 * i] = first as u8;
        room[2 * i + 1] = second as u8;
    }
    'others: for i in 2 * twos..pairs {
        let byte = spelled(text[3 * i], text[3 * i + 1]);
        if byte >= NO_BYTE || text[3 * i + 2] != b' ' {
            return false;
        }
        room[i] = byte as u8;
    }
    let last = spelled(text[3 * pairs], text[3 * pairs + 1]);
    if last >= NO_BYTE {
        return false;
    }
    room[pairs] = last as u8;
    true
}

/// Puts in the bytes of hexadecimal digits, two for each, and says whether the text is nothing else.
#[inline(always)]
fn decode(text: &[u8], bytes: &mut Vec<u8>) -> Result<bool, AllocError>
    ensures bytes { result ≡ Ok true → decode_of text.now ≡ Ok bytes.new.items }
    ensures refused { result ≡ Ok false → IsErr (decode_of text.now) }
{
    if text.len() % 2 != 0 {
        return Ok(false);
    }
    bytes.resize(text.len() / 2, 0)?;
    Ok(fill(text, bytes.as_mut_slice()))
}

/// Fills the room with the bytes of hexadecimal digits, two for each, and says whether the text is nothing else. Four
/// bytes are judged at once.
#[inline(always)]
fn fill(text: &[u8], room: &mut [u8]) -> bool
    requires { length text.now ≡ 2 * length room.old }
    ensures bytes { result ≡ true → decode_of text.now ≡ Ok room.new }
    ensures refused { result ≡ false → IsErr (decode_of text.now) }
{
    let fours = room.len() / 4;
    'fours: for i in 0..fours {
        let first = spelled(text[8 * i], text[8 * i + 1]);
        let second = spelled(text[8 * i + 2], text[8 * i + 3]);
        let third = spelled(text[8 * i + 4], text[8 * i + 5]);
        let fourth = spelled(text[8 * i + 6], text[8 * i + 7]);
        if first | second | third | fourth >= NO_BYTE {
            return false;
        }
        room[4 * i] = first as u8;
        room[4 * i + 1] = second as u8;
        room[4 * i + 2] = third as u8;
        room[4 * i + 3] = fourth as u8;
    }
    'others: for i in 4 * fours..room.len() {
        let byte = spelled(text[2 * i], text[2 * i + 1]);
        if byte >= NO_BYTE {
            return false;
        }
        room[i] = byte as u8;
    }
    true
}

/// The byte that two digits spell, in either case; 100 or more where one of them is no digit.
#[inline(always)]
#[tactic(auto, using(crate::proofs::DigitValues::pair_reads, crate::proofs::DigitValues::pair_fails))]
fn spelled(high: u8, low: u8) -> u16
    ensures byte { result < 0x100 → (place : ℕ) → pair_value high low place ≡ Ok result }
    ensures other { 0x100 ≤ result → (place : ℕ) → IsErr (pair_value high low place) }
{
    HIGH[usize::from(high)] + LOW[usize::from(low)]
}

/// Puts in a text without its spaces.
fn put_digits(text: &[u8], digits: &mut Vec<u8>) -> Result<(), AllocError>
    ensures { IfOk result (λ _. digits.new.items ≡ filter (λ byte. not (byte == 0x20)) text.now) }
{
    digits.clear();
    digits.extend_from_slice(text)?;
    digits.retain(|byte| *byte != b' ');
    Ok(())
}
