//! At which columns of a line its tokens begin (profile).
ghost use Rattle.std.specs.Prelude.{◌≡◌, ◌≢◌, ◌≤◌, ◌<◌, ◌+◌, ◌-◌, List, length, drop, slice_index};
ghost use Rattle.phrase_tokens.specs.Tokens.{Token, Lays};

use crate::tokens_read::first_token;

/// The column, counted from 1, at which the token of that index begins, the first having 0; where there is none, the
/// column behind the last character.
pub fn column_of(text: &[char], index: usize) -> usize
    ensures least { 1 ≤ result }
    ensures most { result ≤ length text.now + 1 }
    ensures begins { (ts : List Token) → Lays ts text.now → index < length ts
        → Lays (drop index ts) (drop (result - 1) text.now) }
    ensures no_space { (ts : List Token) → Lays ts text.now → index < length ts
        → slice_index text.now (result - 1) ≢ 0x20 }
    ensures behind { (ts : List Token) → Lays ts text.now → length ts ≤ index → result ≡ length text.now + 1 }
{
    let mut before = index;
    let mut rest = text;
    while let Some((first, more)) = rest.split_first() {
        if *first == ' ' {
            rest = more;
        } else if before == 0 {
            return text.len() - rest.len() + 1;
        } else {
            match first_token(rest, *first, more) {
                Ok((_, behind)) => rest = behind,
                Err(_) => return text.len() + 1,
            }
            before -= 1;
        }
    }
    text.len() + 1
}
