//! Tokens read out of a line's characters (profile).
ghost use Rattle.std.specs.Prelude.{◌≡◌, ◌≢◌, ◌≤◌, ◌<◌, ◌⊎◌, ◌∷◌, ℕ, List, length, slice_index, IfOk, IfErr, IfSome};
ghost use Rattle.std.specs.Prelude.{IfNone, true, false};
ghost use Rattle.phrase_tokens.specs.Tokens.{is_word_character, goes_on, Lays, LaysNone};
ghost use Rattle.phrase_tokens.specs.Fronts.{Front, FrontNone, WordNone, ToldAt, Tells};
ghost use Rattle.phrase_tokens.specs.View.{token_of, tokens_of};
ghost use Rattle.phrase_tokens.specs.declared.tokens_read.TokenFault.TheVariants.{OutOfMemory};

use crate::token::{QUOTED_MAX, Token, WORD_MAX};
use arrayvec::ArrayVec;
use rds_text::first_byte;
use std::alloc::Global;

/// Why a text reads as no tokens.
#[derive(Clone, Copy, Debug, PartialEq, Eq, Drop)]
pub enum TokenFault {
    /// Memory was refused.
    OutOfMemory,
    /// The character of that column can't be read.
    Unread {
        /// Its column, counted from 1.
        column: usize,
        /// Why.
        reason: Unread,
    },
}

/// Why a character can't be read.
#[derive(Clone, Copy, Debug, PartialEq, Eq, Drop)]
pub enum Unread {
    /// No word begins here: the character is none of a word, or more than 16 of them stand here.
    Word,
    /// The character stands between quotes and is not in the basic character set.
    NotInSet,
    /// The backslash stands between quotes, and what is behind it is no escape.
    Escape,
    /// The quote is not closed.
    Unclosed,
    /// More than 64 bytes stand behind the quote.
    TooLong,
}

/// The tokens of a text, in order. `Unread` names the first character that can't be read: for a text between quotes
/// that is not closed or too long its quote, for a word its first.
pub fn tokens_of(alloc: Global, text: &[char]) -> Result<Vec<Token>, TokenFault>
    ensures ok { IfOk result (λ ts. Lays (tokens_of ts.items) text.now) }
    ensures err { IfErr result (λ fault. (fault ≡ OutOfMemory) ⊎ LaysNone text.now) }
    ensures told { IfErr result (Tells text.now) }
{
    let mut tokens = Vec::new(alloc);
    let mut rest = text;
    while let Some((first, more)) = rest.split_first() {
        if *first == ' ' {
            rest = more;
        } else {
            let (token, behind) = match first_token(rest, *first, more) {
                Ok(found) => found,
                Err((reason, left)) => {
                    let column = text.len() - left + 1;
                    return Err(TokenFault::Unread { column, reason });
                }
            };
            if tokens.push(token).is_err() {
                return Err(TokenFault::OutOfMemory);
            }
            rest = behind;
        }
    }
    Ok(tokens)
}

/// The token at the front of a text that begins so, and what is behind it; or why there is none, and how many
/// characters there are from the one on that can't be read.
pub(crate) fn first_token<'a>(
    text: &'a [char],
    first: char,
    more: &'a [char],
) -> Result<(Token, &'a [char]), (Unread, usize)>
    requires begins { text.now ≡ first ∷ more.now }
    requires no_space { first ≢ 0x20 }
    ensures ok { IfOk result (λ r. Front text.now (token_of r.0) r.1.now) }
    ensures err { IfErr result (λ _. FrontNone text.now) }
    ensures told { IfErr result (λ e. ToldAt text.now e.0 e.1) }
{
    if first == ';' {
        Ok((Token::Semicolon, more))
    } else if first == '"' {
        quoted_at(more)
    } else {
        word_at(text).ok_or((Unread::Word, text.len()))
    }
}

/// The word at the front of a text, and what is behind it.
fn word_at(text: &[char]) -> Option<(Token, &[char])>
    ensures some { IfSome result (λ r. Front text.now (token_of r.0) r.1.now) }
    ensures none { IfNone result (WordNone text.now) }
{
    let mut word = ArrayVec::<u8, WORD_MAX>::new();
    let mut rest = text;
    while let Some((character, more)) = split_character(rest) {
        if word.is_full() {
            return None;
        }
        word.push(character);
        rest = more;
    }
    if word.is_empty() {
        None
    } else {
        Some((Token::Word(word), rest))
    }
}

/// The character of a word with which a text begins, and what is behind it.
fn split_character(text: &[char]) -> Option<(u8, &[char])>
    ensures some { IfSome result (λ r. text.now ≡ r.0 ∷ r.1.now) }
    ensures of_word { IfSome result (λ r. is_word_character r.0 ≡ true) }
    ensures none { IfNone result (goes_on text.now ≡ false) }
{
    let (first, more) = text.split_first()?;
    if is_word_character(*first) {
        Some((*first as u8, more))
    } else {
        None
    }
}

/// Whether a word may have the character.
fn is_word_character(character: char) -> bool
    ensures { result ≡ is_word_character character }
{
    '!' <= character && character <= '~' && character != '"' && character != ';'
}

/// The text between quotes whose first quote stands in front of this, and what is behind its last; or why it is none,
/// and how many characters there are from the one on that can't be read.
fn quoted_at(body: &[char]) -> Result<(Token, &[char]), (Unread, usize)>
    ensures ok { IfOk result (λ r. Front (0x22 ∷ body.now) (token_of r.0) r.1.now) }
    ensures err { IfErr result (λ _. FrontNone (0x22 ∷ body.now)) }
    ensures told { IfErr result (λ e. ToldAt (0x22 ∷ body.now) e.0 e.1) }
{
    let mut bytes = ArrayVec::<u8, QUOTED_MAX>::new();
    let mut left = body;
    while let Some((first, more)) = left.split_first() {
        if *first == '"' {
            return Ok((Token::Quoted(bytes), more));
        }
        if bytes.is_full() {
            return Err((Unread::TooLong, body.len() + 1));
        }
        match first_byte(left) {
            Ok((byte, used)) => {
                bytes.push(byte);
                left = left.split_at(used).1;
            }
            Err(_) if *first == '\\' => return Err((Unread::Escape, left.len())),
            Err(_) => return Err((Unread::NotInSet, left.len())),
        }
    }
    Err((Unread::Unclosed, body.len() + 1))
}
