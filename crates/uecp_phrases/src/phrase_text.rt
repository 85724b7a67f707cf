//! Elements as phrases (profile).
ghost use Rattle.std.specs.Prelude.{◌≡◌, ◌≤◌, ◌+◌, ◌<◌, ◌/◌, ◌%◌, ◌==◌, [], ◌∷◌, ◌++◌, length, codes, decimal};
ghost use Rattle.std.specs.Prelude.{if◌then◌else◌};
ghost use Rattle.arrayvec.specs.ArrayVec.{array_vec_len};
ghost use Rattle.hex.specs.Hex.{encode_upper};
ghost use Rattle.uecp_frame.specs.Frame.{high_first};
ghost use Rattle.uecp_elements.specs.Grammar.{IsElement, Rt};
ghost use Rattle.uecp_elements.specs.View.{element_of, part_of};
ghost use Rattle.phrase_tokens.specs.Tokens.{Word, Quoted};
ghost use Rattle.phrase_tokens.specs.View.{token_of, tokens_of};
ghost use Rattle.uecp_phrases.specs.Written.{byte_token, number_token, set_token, set_tokens, service_tokens};
ghost use Rattle.uecp_phrases.specs.Written.{place_tokens, bits_tokens, trimmed, traffic_tokens, music_tokens};
ghost use Rattle.uecp_phrases.specs.Written.{programme_type_tokens, choices_tokens, is_named_head, text_tokens};
ghost use Rattle.uecp_phrases.specs.Written.{type_token, is_named_group, group_tokens, phrase_of};

use arrayvec::ArrayVec;
use itoa::Buffer;
use phrase_tokens::Token;
use rds_text::{Region, name_of};
use uecp_elements::{Element, RtPart};

/// The most tokens of a phrase that is written: where it acts in four, the word and the text, and the choices in four.
pub const WRITTEN_MAX: usize = 10;

type Phrase = ArrayVec<Token, WRITTEN_MAX>;

/// The digits of 0 to 15, in upper case.
const DIGITS: &[u8; 16] = b"0123456789ABCDEF";

/// The phrase of an element: never one with `raw`, and with `bits` only where a bit has no name. A programme type is
/// written by its name in this region, where it has one.
///
/// The caller knows that a text has at most 64 bytes, as [`elements`](uecp_elements::elements) gives it.
///
/// ```
/// phrase_of(Region::Europe, &Element::Pty { dsn: 0, psn: 2, raw: 10 }); // for 02 pty "Pop Music"
/// ```
pub fn phrase_of(region: Region, element: &Element<'_>) -> ArrayVec<Token, WRITTEN_MAX>
    requires { IsElement (element_of element.now) }
    ensures { tokens_of result.items ≡ phrase_of region (element_of element.now) }
{
    let mut out = Phrase::new();
    match *element {
        Element::Pi { dsn, psn, pi } => {
            begin(dsn, psn, b"pi", &mut out);
            put(number_token(pi), &mut out);
        }
        Element::Ps { dsn, psn, name } => {
            begin(dsn, psn, b"ps", &mut out);
            put(quoted(trimmed(name)), &mut out);
        }
        Element::TaTp { dsn, psn, raw } => {
            begin(dsn, psn, b"traffic", &mut out);
            put_traffic(raw, &mut out);
        }
        Element::Ms { dsn, psn, raw } => {
            put_place(dsn, psn, &mut out);
            put_music(raw, &mut out);
        }
        Element::Pty { dsn, psn, raw } => {
            begin(dsn, psn, b"pty", &mut out);
            put_programme_type(region, raw, &mut out);
        }
        Element::Rt { dsn, psn, part } => {
            begin(dsn, psn, b"rt", &mut out);
            put_text(part, &mut out);
        }
        Element::Select { dsn } => {
            put(word(b"set"), &mut out);
            put(set_token(dsn), &mut out);
        }
        Element::Group {
            kind,
            mode,
            block3,
            block4,
        } => {
            put(word(b"group"), &mut out);
            put_group(kind, mode, block3, block4, &mut out);
        }
        Element::Ack { code, counter } => {
            put(word(b"ack"), &mut out);
            put(byte_token(code), &mut out);
            put(byte_token(counter), &mut out);
        }
    }
    out
}

/// The token of a byte in a phrase that begins with `raw`: two upper case digits.
pub(crate) fn raw_token(byte: u8) -> Token
    ensures { token_of result ≡ byte_token byte }
{
    byte_token(byte)
}

// ---- Tokens.

/// A word of these characters.
pub(crate) fn word(characters: &[u8]) -> Token
    requires { length characters.now ≤ 16 }
    ensures { token_of result ≡ Word characters.now }
{
    let mut held = ArrayVec::new();
    if held.try_extend_from_slice(characters).is_err() {
        unreachable!();
    }
    Token::Word(held)
}

/// A text of these bytes.
fn quoted(bytes: &[u8]) -> Token
    requires { length bytes.now ≤ 64 }
    ensures { token_of result ≡ Quoted bytes.now }
{
    let mut held = ArrayVec::new();
    if held.try_extend_from_slice(bytes).is_err() {
        unreachable!();
    }
    Token::Quoted(held)
}

/// The two digits of a byte.
#[tactic(auto, unfolding(hex::specs::Hex::encode_with))]
fn pair(byte: u8) -> [u8; 2]
    ensures { result ≡ encode_upper (byte ∷ []) }
{
    [
        DIGITS[usize::from(byte >> 4)],
        DIGITS[usize::from(byte & 0x0f)],
    ]
}

/// A byte, as two digits.
fn byte_token(byte: u8) -> Token
    ensures { token_of result ≡ byte_token byte }
{
    word(&pair(byte))
}

/// A number of 16 bits, as four digits.
#[tactic(auto, unfolding(hex::specs::Hex::encode_with))]
fn number_token(number: u16) -> Token
    ensures { token_of result ≡ number_token number }
{
    let [high, low] = number.to_be_bytes();
    let first = pair(high);
    let last = pair(low);
    word(&[first[0], first[1], last[0], last[1]])
}

/// A number in decimal.
fn decimal_token(number: u8) -> Token
    ensures { token_of result ≡ Word (decimal number) }
{
    word(Buffer::new().format(number).as_bytes())
}

/// A data set.
fn set_token(dsn: u8) -> Token
    ensures { token_of result ≡ set_token dsn }
{
    match dsn {
        0xFF => word(b"all"),
        0xFE => word(b"others"),
        _ => decimal_token(dsn),
    }
}

/// A group's type as it is called.
fn type_token(kind: u8) -> Token
    ensures { token_of result ≡ type_token kind }
{
    let mut characters = ArrayVec::new();
    let mut buffer = Buffer::new();
    if characters
        .try_extend_from_slice(buffer.format(kind / 2).as_bytes())
        .is_err()
    {
        unreachable!();
    }
    characters.push(if kind % 2 == 0 { b'A' } else { b'B' });
    Token::Word(characters)
}

/// The name without the spaces at its end.
fn trimmed(name: &[u8]) -> &[u8]
    ensures name { result.now ≡ trimmed name.now }
    ensures short { length result.now ≤ length name.now }
{
    let mut end = name.len();
    while end > 0 && name[end - 1] == b' ' {
        end -= 1;
    }
    &name[..end]
}

// ---- Tokens behind others.

/// Adds a token.
fn put(token: Token, out: &mut Phrase)
    requires { array_vec_len out.old < 10 }
    ensures put { tokens_of out.new.items ≡ tokens_of out.old.items ++ token_of token ∷ [] }
    ensures len { array_vec_len out.new ≡ array_vec_len out.old + 1 }
{
    out.push(token);
}

/// Adds the data set, where it is not the current one.
fn put_set(dsn: u8, out: &mut Phrase)
    requires { array_vec_len out.old + 2 ≤ 10 }
    ensures put { tokens_of out.new.items ≡ tokens_of out.old.items ++ set_tokens dsn }
    ensures len { array_vec_len out.new ≤ array_vec_len out.old + 2 }
{
    if dsn != 0x00 {
        put(word(b"in"), out);
        put(set_token(dsn), out);
    }
}

/// Adds the service, where it is not the main one.
fn put_service(psn: u8, out: &mut Phrase)
    requires { array_vec_len out.old + 2 ≤ 10 }
    ensures put { tokens_of out.new.items ≡ tokens_of out.old.items ++ service_tokens psn }
    ensures len { array_vec_len out.new ≤ array_vec_len out.old + 2 }
{
    if psn != 0x00 {
        put(word(b"for"), out);
        put(byte_token(psn), out);
    }
}

/// Adds where it acts.
fn put_place(dsn: u8, psn: u8, out: &mut Phrase)
    requires { array_vec_len out.old + 4 ≤ 10 }
    ensures put { tokens_of out.new.items ≡ tokens_of out.old.items ++ place_tokens dsn psn }
    ensures len { array_vec_len out.new ≤ array_vec_len out.old + 4 }
{
    put_set(dsn, out);
    put_service(psn, out);
}

/// Adds where it acts and the phrase's first word.
fn begin(dsn: u8, psn: u8, first: &[u8], out: &mut Phrase)
    requires room { array_vec_len out.old + 5 ≤ 10 }
    requires short { length first.now ≤ 16 }
    ensures put { tokens_of out.new.items ≡ tokens_of out.old.items ++ (place_tokens dsn psn ++ Word first.now ∷ []) }
    ensures len { array_vec_len out.new ≤ array_vec_len out.old + 5 }
{
    put_place(dsn, psn, out);
    put(word(first), out);
}

/// Adds a byte of which some bit has no name.
fn put_bits(raw: u8, out: &mut Phrase)
    requires { array_vec_len out.old + 2 ≤ 10 }
    ensures put { tokens_of out.new.items ≡ tokens_of out.old.items ++ bits_tokens raw }
    ensures len { array_vec_len out.new ≡ array_vec_len out.old + 2 }
{
    put(word(b"bits"), out);
    put(byte_token(raw), out);
}

/// Adds traffic flags.
fn put_traffic(raw: u8, out: &mut Phrase)
    requires { array_vec_len out.old + 2 ≤ 10 }
    ensures { tokens_of out.new.items ≡ tokens_of out.old.items ++ traffic_tokens raw }
{
    match raw {
        0 => put(word(b"none"), out),
        1 => put(word(b"eon"), out),
        2 => put(word(b"programme"), out),
        3 => put(word(b"announcement"), out),
        _ => put_bits(raw, out),
    }
}

/// Adds music or speech.
fn put_music(raw: u8, out: &mut Phrase)
    requires { array_vec_len out.old + 3 ≤ 10 }
    ensures { tokens_of out.new.items ≡ tokens_of out.old.items ++ music_tokens raw }
{
    match raw {
        1 => put(word(b"music"), out),
        0 => put(word(b"speech"), out),
        _ => {
            put(word(b"ms"), out);
            put_bits(raw, out);
        }
    }
}

/// Adds a programme type.
fn put_programme_type(region: Region, raw: u8, out: &mut Phrase)
    requires { array_vec_len out.old + 2 ≤ 10 }
    ensures { tokens_of out.new.items ≡ tokens_of out.old.items ++ programme_type_tokens region raw }
{
    match name_of(region, raw) {
        Some(name) => put(quoted(name.as_bytes()), out),
        None if raw <= 31 => put(decimal_token(raw), out),
        None => put_bits(raw, out),
    }
}

/// Adds a RadioText.
fn put_text(part: RtPart<'_>, out: &mut Phrase)
    requires room { array_vec_len out.old + 5 ≤ 10 }
    requires short { IsElement (Rt 0 0 (part_of part)) }
    ensures { tokens_of out.new.items ≡ tokens_of out.old.items ++ text_tokens (part_of part.entry) }
{
    match part {
        RtPart::Empty => put(word(b"clear"), out),
        RtPart::Text { head, text } if is_named_head(head) => {
            put(quoted(text), out);
            put_choices(head, out);
        }
        RtPart::Text { head, text } => {
            put_bits(head, out);
            put(quoted(text), out);
        }
    }
}

/// Whether each bit of the head of a RadioText has a name.
fn is_named_head(head: u8) -> bool
    ensures { result ≡ is_named_head head }
{
    head < 0x80 && head / 0x20 % 2 == 0
}

/// Adds the choices that the head of a RadioText makes.
fn put_choices(head: u8, out: &mut Phrase)
    requires { array_vec_len out.old + 4 ≤ 10 }
    ensures { tokens_of out.new.items ≡ tokens_of out.old.items ++ choices_tokens head }
{
    put_where(head / 0x40 % 2 == 1, b"add", out);
    put_where(head % 2 == 0, b"same", out);
    put_times(head / 2 % 16, out);
}

/// Adds a word, where it is to be said.
fn put_where(is_said: bool, characters: &[u8], out: &mut Phrase)
    requires room { array_vec_len out.old < 10 }
    requires short { length characters.now ≤ 16 }
    ensures put { tokens_of out.new.items ≡ tokens_of out.old.items
        ++ (if is_said then Word characters.now ∷ [] else []) }
    ensures len { array_vec_len out.new ≤ array_vec_len out.old + 1 }
{
    if is_said {
        put(word(characters), out);
    }
}

/// Adds how often a text is sent, where that has a limit.
fn put_times(times: u8, out: &mut Phrase)
    requires { array_vec_len out.old + 2 ≤ 10 }
    ensures { tokens_of out.new.items ≡ tokens_of out.old.items
        ++ (if times == 0 then [] else Word (codes "times") ∷ Word (decimal times) ∷ []) }
{
    if times != 0 {
        put(word(b"times"), out);
        put(decimal_token(times), out);
    }
}

/// Whether each bit of a group's second byte has a name, and its type is one.
fn is_named_group(kind: u8, mode: u8) -> bool
    ensures { result ≡ is_named_group kind mode }
{
    kind <= 0x1F && mode < 0x80 && mode / 0x20 % 2 == 0
}

/// Adds a group.
fn put_group(kind: u8, mode: u8, block3: u16, block4: u16, out: &mut Phrase)
    requires { array_vec_len out.old + 5 ≤ 10 }
    ensures { tokens_of out.new.items ≡ tokens_of out.old.items ++ group_tokens kind mode block3 block4 }
{
    if is_named_group(kind, mode) {
        put(type_token(kind), out);
        put(byte_token(mode % 0x20), out);
        put(number_token(block3), out);
        put(number_token(block4), out);
        put_where(mode / 0x40 == 1, b"add", out);
    } else {
        put_bits(kind, out);
        put(byte_token(mode), out);
        put(number_token(block3), out);
        put(number_token(block4), out);
    }
}
