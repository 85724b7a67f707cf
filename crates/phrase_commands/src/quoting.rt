//! A text as a string of a phrase (profile).
ghost use Rattle.std.specs.Prelude.{◌≡◌, ◌≤◌, ◌⊎◌, length, IfOk, IfErr};
ghost use Rattle.phrase_tokens.specs.Tokens.{Quoted};
ghost use Rattle.phrase_tokens.specs.View.{token_of};
ghost use Rattle.phrase_scripts.specs.Lines.{IsUnsaid};
ghost use Rattle.uecp_text.specs.declared.text_fault.TextFault.TheVariants.{OutOfMemory};
ghost use Rattle.phrase_commands.specs.Quoting.{HasNoString, IsString};

use arrayvec::ArrayVec;
use phrase_scripts::{no_text, unsaid_at};
use phrase_tokens::{QUOTED_MAX, Token};
use rds_text::byte_of;
use std::alloc::{AllocError, Global};
use std::str;
use titles::text_of;
use uecp_text::TextFault;

/// What is said of a character that is not in the set.
const NOT_IN_SET: &str = "is not in the RDS character set";

/// What is said of the first character that there is no room for.
const TOO_LONG: &str = "is behind the 64 characters that a string has at most";

/// The string that says a text, which is in UTF-8: a byte for each of its characters.
///
/// Errors: `Unsaid` where no string does: the text is no UTF-8, or at this column, counted in characters from 1, stands
/// a character that is not in the set, or the first behind 64; `OutOfMemory`.
///
/// ```
/// string_of(alloc, b"say \"hi\"")?; // what rt has in rt "say \"hi\""
/// ```
pub fn string_of(alloc: Global, text: &[u8]) -> Result<Token, TextFault>
    ensures ok { IfOk result (λ token. IsString text.now (token_of token)) }
    ensures err { IfErr result (λ fault. (fault ≡ OutOfMemory) ⊎ (IsUnsaid fault × HasNoString text.now)) }
{
    let Ok(line) = str::from_utf8(text) else {
        return Err(no_text(text));
    };
    match text_of(alloc, line)? {
        Some(bytes) => Ok(quoted(bytes.as_slice())),
        None => Err(fault_in(alloc, line)?),
    }
}

/// A string of these bytes.
fn quoted(bytes: &[u8]) -> Token
    requires { length bytes.now ≤ 64 }
    ensures { token_of result ≡ Quoted bytes.now }
{
    let mut held = ArrayVec::new();
    if held.try_extend_from_slice(bytes).is_err() {
        unreachable!();
    }
    Token::Quoted(held)
}

/// The fault of a text that no string says.
fn fault_in(alloc: Global, line: &str) -> Result<TextFault, AllocError>
    ensures { IfOk result IsUnsaid }
{
    let characters: Vec<char> = line.chars().collect(alloc)?;
    let characters = characters.as_slice();
    Ok(match first_unheld(characters) {
        Some(place) if place < QUOTED_MAX => unsaid_at(characters, place + 1, NOT_IN_SET),
        _ => unsaid_at(characters, QUOTED_MAX + 1, TOO_LONG),
    })
}

/// The place of the first character that is not in the set; None where all are.
fn first_unheld(characters: &[char]) -> Option<usize> {
    characters
        .iter()
        .position(|character| byte_of(*character).is_none())
}
