//! A token of a line of phrases (profile).
ghost use Rattle.std.specs.Prelude.{◌≡◌, ◌≤◌, ℕ, List, length, IfSome, IfNone, IsTrue, ◌↔◌};
ghost use Rattle.phrase_tokens.specs.Tokens.{Token as Seen, Word, Quoted, Semicolon};
ghost use Rattle.phrase_tokens.specs.View.{token_of};

use arrayvec::ArrayVec;

/// The most characters of a word.
pub const WORD_MAX: usize = 16;

/// The most bytes of a text between quotes.
pub const QUOTED_MAX: usize = 64;

/// A token.
#[derive(Clone, Debug, Default, Drop)]
pub enum Token {
    /// A word: 1 to 16 printable characters of ASCII, none of them a space, a quote or a semicolon.
    Word(ArrayVec<u8, WORD_MAX>),
    /// The bytes that a text between quotes spells, at most 64.
    Quoted(ArrayVec<u8, QUOTED_MAX>),
    /// The end of a phrase.
    #[default]
    Semicolon,
}

impl Token {
    /// The characters of a word, or None where it is no word.
    pub fn word(&self) -> Option<&[u8]>
        ensures some { IfSome result (λ w. token_of self.now ≡ Word w.now) }
        ensures none { IfNone result ((w : List ℕ) → token_of self.now ≡ Word w → ⊥) }
    {
        match self {
            Token::Word(characters) => Some(characters.as_slice()),
            _ => None,
        }
    }

    /// The bytes of a text between quotes, or None where it is none.
    pub fn quoted(&self) -> Option<&[u8]>
        ensures some { IfSome result (λ b. token_of self.now ≡ Quoted b.now) }
        ensures none { IfNone result ((b : List ℕ) → token_of self.now ≡ Quoted b → ⊥) }
        ensures fits { IfSome result (λ b. length b.now ≤ 64) }
    {
        match self {
            Token::Quoted(bytes) => Some(bytes.as_slice()),
            _ => None,
        }
    }

    /// Whether it is this word.
    pub fn is_word(&self, word: &[u8]) -> bool
        ensures { IsTrue result ↔ (token_of self.now ≡ Word word.now) }
    {
        match self {
            Token::Word(characters) => characters.as_slice() == word,
            _ => false,
        }
    }

    /// Whether it ends a phrase.
    pub fn is_semicolon(&self) -> bool
        ensures { IsTrue result ↔ (token_of self.now ≡ Semicolon) }
    {
        matches!(self, Token::Semicolon)
    }
}
