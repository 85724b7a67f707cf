//! The words of a line one after another (profile).
ghost use Rattle.std.specs.Prelude.{◌≡◌, ℕ, List, [], ◌∷◌, IfSome, IfNone};
ghost use Rattle.uecp_text.specs.Words.{words};
ghost use Rattle.bad_line.specs.Parts.{BeginsWord};

use memchr::memchr;

/// The first word of a text, and what follows it.
pub(crate) fn next_word(text: &[u8]) -> Option<(&[u8], &[u8])>
    ensures word { IfSome result (λ cut. words text.now ≡ cut.0.now ∷ words cut.1.now) }
    ensures none { IfNone result (words text.now ≡ []) }
{
    for (place, byte) in text.iter().enumerate() {
        if *byte != b' ' {
            return Some(first_word(&text[place..]));
        }
    }
    None
}

/// The word that a text begins with, and what follows it.
fn first_word(text: &[u8]) -> (&[u8], &[u8])
    requires { BeginsWord text.now }
    ensures { words text.now ≡ result.0.now ∷ words result.1.now }
{
    match memchr(b' ', text) {
        Some(place) => (&text[..place], &text[place + 1..]),
        None => (text, &text[..0]),
    }
}

/// The word of a text that has one.
pub(crate) fn one_word(text: &[u8]) -> Option<&[u8]>
    ensures word { IfSome result (λ word. words text.now ≡ word.now ∷ []) }
    ensures other { IfNone result ((word : List ℕ) → words text.now ≡ word ∷ [] → ⊥) }
{
    match next_word(text) {
        Some((word, rest)) => match next_word(rest) {
            Some(_) => None,
            None => Some(word),
        },
        None => None,
    }
}

/// The words of a text that has two.
pub(crate) fn two_words(text: &[u8]) -> Option<(&[u8], &[u8])>
    ensures words { IfSome result (λ w. words text.now ≡ w.0.now ∷ w.1.now ∷ []) }
    ensures other { IfNone result ((v w : List ℕ) → words text.now ≡ v ∷ w ∷ [] → ⊥) }
{
    match next_word(text) {
        Some((first, rest)) => match one_word(rest) {
            Some(second) => Some((first, second)),
            None => None,
        },
        None => None,
    }
}

/// The words of a text that has three.
pub(crate) fn three_words(text: &[u8]) -> Option<(&[u8], &[u8], &[u8])>
    ensures words { IfSome result (λ w. words text.now ≡ w.0.now ∷ w.1.now ∷ w.2.now ∷ []) }
    ensures other { IfNone result ((u v w : List ℕ) → words text.now ≡ u ∷ v ∷ w ∷ [] → ⊥) }
{
    match next_word(text) {
        Some((first, rest)) => match two_words(rest) {
            Some((second, third)) => Some((first, second, third)),
            None => None,
        },
        None => None,
    }
}

/// The words of a text that has four.
pub(crate) fn four_words(text: &[u8]) -> Option<(&[u8], &[u8], &[u8], &[u8])>
    ensures words { IfSome result (λ w. words text.now ≡ w.0.now ∷ w.1.now ∷ w.2.now ∷ w.3.now ∷ []) }
    ensures other { IfNone result ((t u v w : List ℕ) → words text.now ≡ t ∷ u ∷ v ∷ w ∷ [] → ⊥) }
{
    match next_word(text) {
        Some((first, rest)) => match three_words(rest) {
            Some((second, third, fourth)) => Some((first, second, third, fourth)),
            None => None,
        },
        None => None,
    }
}
