//! Tokens written as a line's characters (profile).
ghost use Rattle.std.specs.Prelude.{◌∷◌, [], encode_utf8_all, flat_map};
ghost use Rattle.std.specs.Char.{encode_utf8};
ghost use Rattle.rds_text.specs.Quoted.{written};
ghost use Rattle.uecp_text.specs.Written.{Adds};
ghost use Rattle.phrase_tokens.specs.Tokens.{written_token, written_behind, written_tokens};
ghost use Rattle.phrase_tokens.specs.View.{token_of, tokens_of};

use crate::token::Token;
use rds_text::written;
use uecp_text::Output;

/// Adds tokens, the first of a line: a space between two, but none before a semicolon.
pub fn put_tokens(tokens: &[Token], output: &mut Output)
    ensures { Adds output.old output.new (encode_utf8_all (written_tokens (tokens_of tokens.now))) }
{
    if let Some((first, others)) = tokens.split_first() {
        put_token(first, output);
        put_behind(others, output);
    }
}

/// Adds tokens behind others: a space before each, but none before a semicolon.
pub fn put_behind(tokens: &[Token], output: &mut Output)
    ensures { Adds output.old output.new (encode_utf8_all (written_behind (tokens_of tokens.now))) }
{
    for token in tokens {
        put_next(token, output);
    }
}

/// Adds one token behind others.
fn put_next(token: &Token, output: &mut Output)
    ensures { Adds output.old output.new (encode_utf8_all (written_behind (token_of token.now ∷ []))) }
{
    if !token.is_semicolon() {
        put_character(' ', output);
    }
    put_token(token, output);
}

/// Adds one token.
fn put_token(token: &Token, output: &mut Output)
    ensures { Adds output.old output.new (encode_utf8_all (written_token (token_of token.now))) }
{
    match token {
        Token::Word(characters) => put_word(characters.as_slice(), output),
        Token::Quoted(bytes) => {
            put_character('"', output);
            put_bytes(bytes.as_slice(), output);
            put_character('"', output);
        }
        Token::Semicolon => put_character(';', output),
    }
}

/// Adds the characters of a word.
fn put_word(characters: &[u8], output: &mut Output)
    ensures { Adds output.old output.new (encode_utf8_all characters.now) }
{
    for character in characters {
        put_character(char::from(*character), output);
    }
}

/// Adds the bytes of a text between quotes, as they are written there.
fn put_bytes(bytes: &[u8], output: &mut Output)
    ensures { Adds output.old output.new (encode_utf8_all (flat_map written bytes.now)) }
{
    for byte in bytes {
        put_characters(written(*byte).as_slice(), output);
    }
}

/// Adds characters.
fn put_characters(characters: &[char], output: &mut Output)
    ensures { Adds output.old output.new (encode_utf8_all characters.now) }
{
    for character in characters {
        put_character(*character, output);
    }
}

/// Adds a character.
fn put_character(character: char, output: &mut Output)
    ensures { Adds output.old output.new (encode_utf8 character) }
{
    output.text(character.encode_utf8(&mut [0; 4]));
}
