//! Numbers, spans, times and chances out of words (profile).
ghost use Rattle.std.specs.Prelude.{◌≡◌, ◌++◌, ℕ, List, [], ◌∷◌, IfSome, IfNone};
ghost use Rattle.bad_line.specs.declared.rules.rule.Span.{Span as SpanValue};
ghost use Rattle.bad_line.specs.Rules.{IsCount, IsCountBefore, IsSpan, IsTime, IsChance, IsLongSpan, AreEnds};
ghost use Rattle.bad_line.specs.Rules.{between_dots};

use crate::rules::rule::Span;
use memchr::memchr;
use uecp_text::decimal_of;

/// The greatest number that nine digits spell.
const NUMBER_MAX: u32 = 999_999_999;

/// The most digits of a number.
const DIGITS_MAX: usize = 9;

/// Milliseconds of a second.
const SECOND: u64 = 1000;

/// The number from 1 on that one to nine digits spell.
pub(crate) fn count_of(word: &[u8]) -> Option<u32>
    ensures count { IfSome result (λ number. IsCount word.now number) }
    ensures other { IfNone result ((number : ℕ) → IsCount word.now number → ⊥) }
{
    if word.len() > DIGITS_MAX {
        return None;
    }
    match decimal_of(word, NUMBER_MAX) {
        Some(number) => { if number == 0 { None } else { Some(number) } }
        None => None,
    }
}

/// The span of one number, or of two with two dots between, of which the first is not greater.
pub(crate) fn span_of(word: &[u8]) -> Option<Span>
    ensures span { IfSome result (λ span. IsSpan word.now span) }
    ensures other { IfNone result ((span : SpanValue) → IsSpan word.now span → ⊥) }
{
    match count_of(word) {
        Some(number) => Some(Span {
            first: number,
            last: number,
        }),
        None => long_span_of(word),
    }
}

/// The span of two numbers with two dots between.
fn long_span_of(word: &[u8]) -> Option<Span>
    ensures span { IfSome result (λ span. IsLongSpan word.now span) }
    ensures other { IfNone result ((span : SpanValue) → IsLongSpan word.now span → ⊥) }
{
    match ends_of(word) {
        Some((first, last)) => span_between(first, last),
        None => None,
    }
}

/// The span from the number that one word is to the number that another is.
fn span_between(first: &[u8], last: &[u8]) -> Option<Span>
    ensures span { IfSome result (λ span. AreEnds first.now last.now span) }
    ensures other { IfNone result ((span : SpanValue) → AreEnds first.now last.now span → ⊥) }
{
    match count_of(first) {
        Some(first) => match count_of(last) {
            Some(last) => {
                if first <= last {
                    Some(Span { first, last })
                } else {
                    None
                }
            }
            None => None,
        },
        None => None,
    }
}

/// What stands before and behind the two dots of a word that has no others.
fn ends_of(word: &[u8]) -> Option<(&[u8], &[u8])>
    ensures ends { IfSome result (λ ends. between_dots word.now ≡ ends.0.now ∷ [] ∷ ends.1.now ∷ []) }
    ensures other { IfNone result ((first last : List ℕ) → between_dots word.now ≡ first ∷ [] ∷ last ∷ [] → ⊥) }
{
    match cut_at_dot(word) {
        Some((first, rest)) => match cut_at_dot(rest) {
            Some(([], last)) => match cut_at_dot(last) {
                Some(_) => None,
                None => Some((first, last)),
            },
            Some(_) => None,
            None => None,
        },
        None => None,
    }
}

/// What stands before the first dot of a word, and what stands behind it.
fn cut_at_dot(word: &[u8]) -> Option<(&[u8], &[u8])>
    ensures cut { IfSome result (λ cut. between_dots word.now ≡ cut.0.now ∷ between_dots cut.1.now) }
    ensures whole { IfNone result (between_dots word.now ≡ word.now ∷ []) }
{
    match memchr(b'.', word) {
        Some(place) => Some((&word[..place], &word[place + 1..])),
        None => None,
    }
}

/// The milliseconds of a number and `ms` or `s`.
pub(crate) fn time_of(word: &[u8]) -> Option<u64>
    ensures time { IfSome result (λ milliseconds. IsTime word.now milliseconds) }
    ensures other { IfNone result ((milliseconds : ℕ) → IsTime word.now milliseconds → ⊥) }
{
    match count_before(b"ms", word) {
        Some(milliseconds) => Some(u64::from(milliseconds)),
        None => match count_before(b"s", word) {
            Some(seconds) => Some(SECOND * u64::from(seconds)),
            None => None,
        },
    }
}

/// The percent of a number and `%`.
pub(crate) fn chance_of(word: &[u8]) -> Option<u32>
    ensures chance { IfSome result (λ percent. IsChance word.now percent) }
    ensures other { IfNone result ((percent : ℕ) → IsChance word.now percent → ⊥) }
{
    match count_before(b"%", word) {
        Some(percent) => { if percent <= 100 { Some(percent) } else { None } }
        None => None,
    }
}

/// The number of a word that ends so.
fn count_before(end: &[u8], word: &[u8]) -> Option<u32>
    ensures count { IfSome result (λ number. IsCountBefore end.now word.now number) }
    ensures other { IfNone result ((number : ℕ) → IsCountBefore end.now word.now number → ⊥) }
{
    match before(end, word) {
        Some(digits) => count_of(digits),
        None => None,
    }
}

/// What stands before the end of a word that ends so.
fn before<'a>(end: &[u8], word: &'a [u8]) -> Option<&'a [u8]>
    ensures front { IfSome result (λ front. word.now ≡ front.now ++ end.now) }
    ensures other { IfNone result ((front : List ℕ) → word.now ≡ front ++ end.now → ⊥) }
{
    if word.len() < end.len() {
        return None;
    }
    let place = word.len() - end.len();
    if &word[place..] == end {
        Some(&word[..place])
    } else {
        None
    }
}
