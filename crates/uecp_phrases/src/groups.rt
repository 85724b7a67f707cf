//! Free-format groups: by the type as broadcast engineers write it, 0A to 15B, or by their bytes (profile).
ghost use Rattle.std.specs.Prelude.{◌≡◌, ◌≤◌, ◌+◌, ℕ, [], ◌∷◌, if◌then◌else◌, IfSome, IfNone, IfOk, IfErr};
ghost use Rattle.rds_text.specs.declared.programme_type.Region.{Region};
ghost use Rattle.phrase_tokens.specs.View.{token_of, tokens_of};
ghost use Rattle.uecp_phrases.specs.declared.head.Head.TheVariants as head;
ghost use Rattle.uecp_phrases.specs.declared.expectation.Expectation.TheVariants as what;
ghost use Rattle.uecp_phrases.specs.Phrases.{IsGroup, IsGroupType, added_tokens};
ghost use Rattle.uecp_phrases.specs.Reading.{IsNamed, IsFirstNamed, IsFiveBits, IsBehindType, IsGroupOfBits, IsVersion};
ghost use Rattle.uecp_phrases.specs.Expecting.{IsStopAlways};
ghost use Rattle.uecp_phrases.specs.Stops.{IsStuck, IsUntold, IsUnmet, IsEnd, IsAddOrEnd};

use crate::expectation::Expectation;
use crate::front::{byte_first, end_in, number_first};
use crate::stop::{Stop, stop_at};
use phrase_tokens::Token;
use uecp_text::{byte_of, decimal_of};

/// The last number of a type.
const TYPE_MAX: u32 = 15;

/// The most that five bits hold.
const BITS_MAX: u8 = 0x1f;

/// The buffer rule by which a group is added behind those that wait.
const ADDED: u8 = 0x40;

/// The numbers of a group: its type and its second byte, and blocks 3 and 4.
#[derive(Clone, Copy, Debug)]
pub struct GroupNumbers {
    pub kind: u8,
    pub mode: u8,
    pub block3: u16,
    pub block4: u16,
}

/// A free-format group.
pub fn group_in(tokens: &[Token]) -> Result<GroupNumbers, Stop>
    ensures ok { IfOk result (λ g. IsGroup (tokens_of tokens.now) g.kind g.mode g.block3 g.block4) }
    ensures err { IfErr result (λ stop. IsUntold head.Group (tokens_of tokens.now) stop.what stop.left) }
{
    let stop = stop_at(Expectation::GroupType, tokens);
    let Some((first, rest)) = tokens.split_first() else {
        return Err(stop);
    };
    if first.is_word(b"bits") {
        return group_of_bits(rest);
    }
    let Some(kind) = type_in(first) else {
        return Err(stop);
    };
    called_group(kind, rest)
}

/// A group of this type, by what stands behind it.
fn called_group(kind: u8, tokens: &[Token]) -> Result<GroupNumbers, Stop>
    ensures kind { IfOk result (λ g. g.kind ≡ kind) }
    ensures ok { IfOk result (λ g. IsBehindType (tokens_of tokens.now) g.mode g.block3 g.block4) }
    ensures err { IfErr result (λ stop. IsUnmet (what.FiveBits ∷ what.FourDigits ∷ what.FourDigits ∷ []) IsAddOrEnd
        (tokens_of tokens.now) stop.what stop.left) }
{
    let (bits, rest) = five_bits_first(tokens)?;
    let (block3, rest) = number_first(rest)?;
    let (block4, rest) = number_first(rest)?;
    let adds = added_in(rest)?;
    Ok(GroupNumbers {
        kind,
        mode: mode_of(bits, adds),
        block3,
        block4,
    })
}

/// The second byte of a group: its last five bits of block 2, and the buffer rule.
fn mode_of(bits: u8, adds: bool) -> u8
    requires { bits ≤ 0x1F }
    ensures { result ≡ bits + (if adds then 0x40 else 0x00) }
{
    if adds { bits + ADDED } else { bits }
}

/// A group by its bytes, and the end of the phrase.
fn group_of_bits(tokens: &[Token]) -> Result<GroupNumbers, Stop>
    ensures ok { IfOk result (λ g. IsGroupOfBits (tokens_of tokens.now) g.kind g.mode g.block3 g.block4) }
    ensures err { IfErr result (λ stop. IsUnmet
        (what.TwoDigits ∷ what.TwoDigits ∷ what.FourDigits ∷ what.FourDigits ∷ []) IsEnd (tokens_of tokens.now)
        stop.what stop.left) }
{
    let (kind, rest) = byte_first(Expectation::TwoDigits, tokens)?;
    let (mode, rest) = byte_first(Expectation::TwoDigits, rest)?;
    let (block3, rest) = number_first(rest)?;
    let (block4, rest) = number_first(rest)?;
    end_in(rest)?;
    Ok(GroupNumbers {
        kind,
        mode,
        block3,
        block4,
    })
}

/// Whether `add` stands there, and then nothing; or nothing at all.
fn added_in(tokens: &[Token]) -> Result<bool, Stop>
    ensures ok { IfOk result (λ adds. tokens_of tokens.now ≡ added_tokens adds) }
    ensures err { IfErr result (λ stop. IsStopAlways IsAddOrEnd (tokens_of tokens.now) stop.what stop.left) }
{
    match tokens.split_first() {
        None => Ok(false),
        Some((first, rest)) if first.is_word(b"add") => {
            end_in(rest)?;
            Ok(true)
        }
        Some(_) => Err(stop_at(Expectation::Added, tokens)),
    }
}

/// The byte of at most 1F in front, and the tokens behind it.
fn five_bits_first(tokens: &[Token]) -> Result<(u8, &[Token]), Stop>
    ensures ok { IfOk result (λ r. IsFirstNamed IsFiveBits (tokens_of tokens.now) r.0 (tokens_of r.1.now)) }
    ensures range { IfOk result (λ r. r.0 ≤ 0x1F) }
    ensures err { IfErr result (λ stop. (region : Region) → IsStuck region what.FiveBits (tokens_of tokens.now)
        stop.what stop.left) }
{
    match tokens.split_first() {
        Some((first, rest)) => match five_bits_in(first) {
            Some(bits) => Ok((bits, rest)),
            None => Err(stop_at(Expectation::FiveBits, tokens)),
        },
        None => Err(stop_at(Expectation::FiveBits, tokens)),
    }
}

/// The five bits that a token spells: a byte of two digits that is at most 1F.
fn five_bits_in(token: &Token) -> Option<u8>
    ensures some { IfSome result (λ bits. IsNamed IsFiveBits (token_of token.now) bits) }
    ensures none { IfNone result ((bits : ℕ) → IsNamed IsFiveBits (token_of token.now) bits → ⊥) }
    ensures range { IfSome result (λ bits. bits ≤ 0x1F) }
{
    match byte_of(token.word()?) {
        Some(bits) if bits <= BITS_MAX => Some(bits),
        _ => None,
    }
}

/// The number of the type that a token names.
fn type_in(token: &Token) -> Option<u8>
    ensures some { IfSome result (λ kind. IsNamed IsGroupType (token_of token.now) kind) }
    ensures none { IfNone result ((kind : ℕ) → IsNamed IsGroupType (token_of token.now) kind → ⊥) }
{
    type_of(token.word()?)
}

/// The number of a type by its name.
fn type_of(word: &[u8]) -> Option<u8>
    ensures some { IfSome result (λ kind. IsGroupType word.now kind) }
    ensures none { IfNone result ((kind : ℕ) → IsGroupType word.now kind → ⊥) }
{
    let (letter, digits) = word.split_last()?;
    let version = version_of(*letter)?;
    let number = decimal_of(digits, TYPE_MAX)? as u8;
    Some(2 * number + version)
}

/// 0 for version A and 1 for version B.
fn version_of(letter: u8) -> Option<u8>
    ensures some { IfSome result (λ version. IsVersion letter version) }
    ensures none { IfNone result ((version : ℕ) → IsVersion letter version → ⊥) }
{
    match letter {
        b'A' => Some(0),
        b'B' => Some(1),
        _ => None,
    }
}
