//! The lines that a run writes (profile).
ghost use Rattle.std.specs.Prelude.{◌≡◌, ◌==◌, ◌*◌, ◌/◌, ◌%◌, ◌++◌, ◌↔◌, [], ◌∷◌, length, slice_index, nat_le, true};
ghost use Rattle.std.specs.Prelude.{IsOk};
ghost use Rattle.std.specs.Prelude.{OnOk, OnErr, IfErr, IsTrue, codes, decimal, if◌then◌else◌};
ghost use Rattle.std.specs.Io.KnownBytes.{Appends};
ghost use Rattle.hex.specs.Hex.{encode_upper, upper_digits};
ghost use Rattle.uecp_text.specs.Digits.{byte_word, number_word, row_word, decimal_word, flag_word};
ghost use Rattle.uecp_text.specs.declared.run_fault.RunFault.TheVariants.{Writing};
ghost use Rattle.uecp_text.specs.Written.{Kept, Adds, AddsFirst, Begins};

use crate::digit_tables::PAIRS;
use crate::run_fault::RunFault;
use crate::whole_writes::write_whole;
use itoa::Buffer;
use std::alloc::{AllocError, Global};
use std::io::Write;
use std::marker::Model;

/// How many bytes are copied at once.
const PIECE: usize = 4096;

/// What a run has to say, kept until it is written out. Once memory was refused it takes nothing more, so what it
/// holds is always the beginning of the whole output.
#[derive(Drop)]
pub struct Output {
    bytes: Vec<u8>,
    is_whole: bool,
}

impl Model for Output {
    ghost Value = { Kept };

    ghost view = { λ o. record { bytes = o.bytes.items; is_whole = o.is_whole } };
}

impl Output {
    /// No output yet.
    pub fn new(alloc: Global) -> Output
        ensures empty { result.bytes ≡ [] }
        ensures whole { result.is_whole ≡ true }
    {
        Output {
            bytes: Vec::new(alloc),
            is_whole: true,
        }
    }

    /// Nothing is kept any longer, and the output is whole. Its memory is used again.
    #[inline(always)]
    pub(crate) fn clear(&mut self)
        ensures empty { self.new.bytes ≡ [] }
        ensures whole { self.new.is_whole ≡ true }
    {
        self.bytes.truncate(0);
        self.is_whole = true;
    }

    /// Whether it keeps so much that copying it costs more than the call.
    #[inline(always)]
    pub(crate) fn is_long(&self) -> bool
        ensures { result ≡ nat_le 4096 (length self.now.bytes) }
    {
        self.bytes.len() >= PIECE
    }

    /// Adds what another output keeps; nothing where memory is refused.
    #[inline(always)]
    pub(crate) fn append(&mut self, other: &Output) -> Result<(), AllocError>
        ensures added { OnOk result (self.new.bytes ≡ self.old.bytes ++ other.now.bytes) }
        ensures whole { self.new.is_whole ≡ self.old.is_whole }
        ensures unchanged { OnErr result (self.new ≡ self.old) }
    {
        if other.bytes.is_empty() {
            return Ok(());
        }
        put_after(other.bytes.as_slice(), &mut self.bytes)
    }

    /// Adds the bytes as they are.
    #[inline]
    pub fn add(&mut self, bytes: &[u8])
        ensures added { Adds self.old self.new bytes.now }
        ensures begun { AddsFirst self.old self.new bytes.now }
    {
        if self.is_whole {
            self.is_whole = self.bytes.extend_from_slice(bytes).is_ok();
        }
    }

    /// Adds the text.
    #[inline]
    pub fn text(&mut self, text: &str)
        ensures added { Adds self.old self.new text.now }
        ensures begun { AddsFirst self.old self.new text.now }
    {
        self.add(text.as_bytes());
    }

    /// Adds two upper case digits for each byte, nothing for no bytes.
    pub fn digits(&mut self, bytes: &[u8])
        ensures added { Adds self.old self.new (encode_upper bytes.now) }
        ensures begun { AddsFirst self.old self.new (encode_upper bytes.now) }
    {
        if self.is_whole {
            self.is_whole = spell_after(bytes, &mut self.bytes).is_ok();
        }
    }

    /// Adds a space and the two digits of the byte.
    #[tactic(auto, unfolding(crate::specs::Digits::byte_word, hex::specs::Hex::encode_with))]
    pub fn byte(&mut self, byte: u8)
        ensures added { Adds self.old self.new (byte_word byte) }
        ensures begun { AddsFirst self.old self.new (byte_word byte) }
    {
        let [high, low] = digits_of_byte(byte);
        self.add(&[b' ', high, low]);
    }

    /// Adds a space and the four digits of the number.
    #[tactic(auto, unfolding(crate::specs::Digits::number_word, hex::specs::Hex::encode_with))]
    pub fn number(&mut self, number: u16)
        ensures added { Adds self.old self.new (number_word number) }
        ensures begun { AddsFirst self.old self.new (number_word number) }
    {
        let [high, low] = number.to_be_bytes();
        let first = digits_of_byte(high);
        let last = digits_of_byte(low);
        self.add(&[b' ', first[0], first[1], last[0], last[1]]);
    }

    /// Adds a space and the digits of the bytes, or `-` for no bytes.
    #[tactic(auto, unfolding(crate::specs::Digits::row_word), using(crate::proofs::Added::first_then))]
    pub fn row(&mut self, bytes: &[u8])
        ensures added { Adds self.old self.new (row_word bytes.now) }
        ensures begun { AddsFirst self.old self.new (row_word bytes.now) }
    {
        if bytes.is_empty() {
            self.text(" -");
        } else {
            self.text(" ");
            self.digits(bytes);
        }
    }

    /// Adds a space and the number in decimal.
    #[tactic(auto, unfolding(crate::specs::Digits::decimal_word), using(crate::proofs::Added::first_then))]
    pub fn decimal(&mut self, number: usize)
        ensures added { Adds self.old self.new (decimal_word number) }
        ensures begun { AddsFirst self.old self.new (decimal_word number) }
    {
        self.text(" ");
        self.text(Buffer::new().format(number));
    }

    /// Adds a space and 1 or 0.
    #[tactic(auto, unfolding(crate::specs::Digits::flag_word))]
    pub fn flag(&mut self, is_set: bool)
        ensures added { Adds self.old self.new (flag_word is_set) }
        ensures begun { AddsFirst self.old self.new (flag_word is_set) }
    {
        self.text(if is_set { " 1" } else { " 0" });
    }

    /// Ends the line.
    pub fn end(&mut self)
        ensures added { Adds self.old self.new (codes "\n") }
        ensures begun { AddsFirst self.old self.new (codes "\n") }
    {
        self.text("\n");
    }

    /// Whether all of the output so far was taken.
    pub fn check(&self) -> Result<(), AllocError>
        ensures { IsOk result ↔ IsTrue self.now.is_whole }
    {
        if self.is_whole {
            Ok(())
        } else {
            Err(AllocError)
        }
    }

    /// Writes out what was taken, and flushes the writer; nothing is kept then. `Writing` where the writer fails: it
    /// has got a beginning of that.
    pub fn write_out<W: Write>(&mut self, writer: &mut W) -> Result<(), RunFault>
        ensures written { OnOk result (Appends (W.contents writer.old) (W.contents writer.new) self.old.bytes) }
        ensures begun { Begins (W.contents writer.old) (W.contents writer.new) self.old.bytes }
        ensures empty { OnOk result (self.new.bytes ≡ []) }
        ensures whole { self.new.is_whole ≡ self.old.is_whole }
        ensures failed { IfErr result (λ fault. fault ≡ Writing) }
    {
        write_whole(self.bytes.as_slice(), writer)?;
        self.bytes.clear();
        writer.flush().map_err(|_| RunFault::Writing)
    }
}

/// Puts the bytes after what is held, piece by piece; nothing where memory is refused. Room grows by a half, so that an
/// output takes little more memory than it has bytes.
fn put_after(bytes: &[u8], held: &mut Vec<u8>) -> Result<(), AllocError>
    ensures added { OnOk result (held.new.items ≡ held.old.items ++ bytes.now) }
    ensures unchanged { OnErr result (held.new.items ≡ held.old.items) }
{
    if held.capacity() - held.len() < bytes.len() {
        held.reserve_exact(bytes.len().max(held.capacity() / 2))?;
    }
    let mut rest = bytes;
    while !rest.is_empty() {
        let (piece, more) = rest.split_at(rest.len().min(PIECE));
        held.extend_from_slice(piece)?;
        rest = more;
    }
    Ok(())
}

/// Puts two upper case digits for each byte after what is held; nothing where memory is refused.
fn spell_after(bytes: &[u8], held: &mut Vec<u8>) -> Result<(), AllocError>
    ensures added { OnOk result (held.new.items ≡ held.old.items ++ encode_upper bytes.now) }
    ensures unchanged { OnErr result (held.new.items ≡ held.old.items) }
{
    let start = held.len();
    let count = bytes.len().checked_mul(2).ok_or(AllocError)?;
    let end = start.checked_add(count).ok_or(AllocError)?;
    held.resize(end, 0)?;
    spell(bytes, &mut held.as_mut_slice()[start..]);
    Ok(())
}

/// Fills the room with two upper case digits for each byte.
fn spell(bytes: &[u8], room: &mut [u8])
    requires { length room.old ≡ 2 * length bytes.now }
    ensures { room.new ≡ encode_upper bytes.now }
{
    if hex::encode_to_slice(bytes, room).is_ok() {
        room.make_ascii_uppercase();
    }
}

/// The two upper case digits of the byte, that of its high four bits first.
#[inline(always)]
#[tactic(auto, using(crate::proofs::TwoDigits::entry_at))]
pub fn digits_of_byte(byte: u8) -> [u8; 2]
    ensures { result ≡ slice_index upper_digits (byte / 16) ∷ slice_index upper_digits (byte % 16) ∷ [] }
{
    PAIRS[usize::from(byte)]
}
