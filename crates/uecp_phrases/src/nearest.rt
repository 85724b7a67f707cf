//! The nearest of the words that may stand at a place (profile).
ghost use Rattle.std.specs.Prelude.{◌≡◌, ℕ, ◌++◌, ◌∷◌, [], List, IfOk, IsTrue, ◌↔◌, map, option_map};
ghost use Rattle.phrase_tokens.specs.View.{token_of};
ghost use Rattle.uecp_phrases.specs.declared.expectation.Expectation.TheVariants.{Choice};
ghost use Rattle.uecp_phrases.specs.Nearest.{words_at, names_below, name_count, the_name, letters_of, distance};
ghost use Rattle.uecp_phrases.specs.Nearest.{IsFirstWord, IsFound, Offers};
ghost use Rattle.rds_text.specs.ProgrammeTypes.{name_of};

use crate::expectation::Expectation;
use crate::head::head_of;
use phrase_tokens::Token;
use rds_text::{Region, name_of};
use std::alloc::{AllocError, Global};
use strsim::generic_levenshtein;

/// The most letters that differ in a word that is near.
const DISTANCE_MAX: usize = 2;

/// How many programme types may have a name.
const NAMES_MAX: u8 = 32;

/// A word and how many letters differ.
#[derive(Clone, Copy)]
struct Near {
    word: &'static str,
    distance: usize,
}

/// Of the words that may stand there the one that is nearest to the token, whatever the case of the letters: at most
/// two letters are added, left out or changed, and not all. Of several the first. None where no word is near, or the
/// token is the first word of a phrase, spelled right, where it can't stand.
pub fn nearest(
    alloc: Global,
    region: Region,
    what: Expectation,
    token: &Token,
) -> Result<Option<&'static str>, AllocError>
    ensures { IfOk result (λ near. Offers region what (token_of token.now) (option_map (λ word. word.now) near)) }
{
    if is_first_word(token) {
        return Ok(None);
    }
    let letters = letters(token);
    let of_words = nearest_of(alloc, letters, words(what))?;
    match nearest_name(alloc, region, name_count(what), letters, of_words)? {
        Some(near) => Ok(Some(near.word)),
        None => Ok(None),
    }
}

/// Of these words the one that is nearest to the letters.
fn nearest_of(
    alloc: Global,
    letters: &[u8],
    words: &'static [&'static str],
) -> Result<Option<Near>, AllocError>
    ensures { IfOk result (IsFound letters.now (map (λ word. word.now) words.now)) }
{
    let mut found = None;
    for place in 0..words.len() {
        found = nearer(alloc, letters, words[place], found)?;
    }
    Ok(found)
}

/// The same of those before, of which this was found, and behind them the names of so many programme types.
fn nearest_name(
    alloc: Global,
    region: Region,
    count: u8,
    letters: &[u8],
    before: Option<Near>,
) -> Result<Option<Near>, AllocError>
    ensures { IfOk result (λ found. (words : List (List ℕ)) → IsFound letters.now words before
        → IsFound letters.now (words ++ names_below region count) found) }
{
    let mut found = before;
    for number in 0..count {
        found = nearer_name(alloc, region, number, letters, found)?;
    }
    Ok(found)
}

/// The name of this programme type, if it has one that is near and nearer than what was found among others.
fn nearer_name(
    alloc: Global,
    region: Region,
    number: u8,
    letters: &[u8],
    found: Option<Near>,
) -> Result<Option<Near>, AllocError>
    ensures { IfOk result (λ best. (words : List (List ℕ)) → IsFound letters.now words found
        → IsFound letters.now (words ++ the_name (name_of region number)) best) }
{
    match name_of(region, number) {
        Some(name) => nearer(alloc, letters, name, found),
        None => Ok(found),
    }
}

/// Whether it is the first word of a phrase, which is spelled right wherever it stands.
fn is_first_word(token: &Token) -> bool
    ensures { IsTrue result ↔ IsFirstWord (token_of token.now) }
{
    match token.word() {
        Some(word) => head_of(word).is_some(),
        None => false,
    }
}

/// The letters of a word, or of a text between quotes.
fn letters(token: &Token) -> &[u8]
    ensures { result.now ≡ letters_of (token_of token.now) }
{
    match (token.word(), token.quoted()) {
        (Some(word), _) => word,
        (None, Some(text)) => text,
        (None, None) => &[],
    }
}

/// The word, if it is near and nearer than the one that was found among others.
fn nearer(
    alloc: Global,
    letters: &[u8],
    word: &'static str,
    found: Option<Near>,
) -> Result<Option<Near>, AllocError>
    ensures { IfOk result (λ best. (words : List (List ℕ)) → IsFound letters.now words found
        → IsFound letters.now (words ++ word.now ∷ []) best) }
{
    let distance = distance(alloc, letters, word.as_bytes())?;
    if distance > DISTANCE_MAX {
        return Ok(found);
    }
    if distance >= letters.len().max(word.len()) {
        return Ok(found);
    }
    match found {
        Some(other) if other.distance <= distance => Ok(found),
        _ => Ok(Some(Near { word, distance })),
    }
}

/// How many letters are added, left out or changed to make the one of the other, whatever their case.
fn distance(alloc: Global, letters: &[u8], word: &[u8]) -> Result<usize, AllocError>
    ensures { IfOk result (λ d. d ≡ distance letters.now word.now) }
{
    let letters = letters.to_ascii_lowercase(alloc)?;
    let word = word.to_ascii_lowercase(alloc)?;
    generic_levenshtein(alloc, letters.as_slice(), word.as_slice())
}

/// The names of how many programme types may stand there.
fn name_count(what: Expectation) -> u8
    ensures { result ≡ name_count what }
{
    match what {
        Expectation::ProgrammeType => NAMES_MAX,
        _ => 0,
    }
}

/// The words that may stand there, but the names of programme types.
fn words(what: Expectation) -> &'static [&'static str]
    ensures { map (λ word. word.now) result.now ≡ words_at what }
{
    match what {
        Expectation::FirstWord => &[
            "in", "for", "pi", "ps", "rt", "traffic", "ta", "tp", "music", "speech", "ms", "pty",
            "set", "group", "ack", "raw",
        ],
        Expectation::WordInSet => &[
            "for", "pi", "ps", "rt", "traffic", "ta", "tp", "music", "speech", "ms", "pty",
        ],
        Expectation::WordForService => &[
            "pi", "ps", "rt", "traffic", "ta", "tp", "music", "speech", "ms", "pty",
        ],
        Expectation::DataSet => &["all", "others"],
        Expectation::RadioText => &["clear", "bits"],
        Expectation::Traffic => &["none", "eon", "programme", "announcement", "bits"],
        Expectation::Switch => &["off", "on"],
        Expectation::Bits | Expectation::ProgrammeType | Expectation::GroupType => &["bits"],
        Expectation::Added => &["add"],
        Expectation::Choice { add, same, times } => choices(add, same, times),
        _ => &[],
    }
}

/// The choices that may still be made.
fn choices(add: bool, same: bool, times: bool) -> &'static [&'static str]
    ensures { map (λ word. word.now) result.now ≡ words_at (Choice add same times) }
{
    match (add, same, times) {
        (true, true, true) => &["add", "same", "times"],
        (true, true, false) => &["add", "same"],
        (true, false, true) => &["add", "times"],
        (true, false, false) => &["add"],
        (false, true, true) => &["same", "times"],
        (false, true, false) => &["same"],
        (false, false, true) => &["times"],
        (false, false, false) => &[],
    }
}
