//! The words with which phrases begin (profile).
ghost use Rattle.std.specs.Prelude.{◌≡◌, ◌≢◌, ◌<◌, ◌∷◌, ◌||◌, true, length, map, IfSome, IfNone, IfOk, IfErr};
ghost use Rattle.std.specs.Char.{to_ascii_lowercase};
ghost use Rattle.phrase_tokens.specs.Tokens.{Token as Seen};
ghost use Rattle.phrase_tokens.specs.View.{token_of, tokens_of};
ghost use Rattle.uecp_phrases.specs.declared.head.Head.{Head};
ghost use Rattle.uecp_phrases.specs.Phrases.{head_word, IsHead};
ghost use Rattle.uecp_phrases.specs.Expecting.{acts_somewhere};
ghost use Rattle.uecp_phrases.specs.Stops.{word_wanted, IsNoHead};

use crate::expectation::Expectation;
use crate::stop::{Stop, stop_at};
use arrayvec::ArrayVec;
use phrase_tokens::Token;

/// The most letters of such a word, of `traffic`.
const LETTERS_MAX: usize = 7;

/// The word with which a phrase begins, behind where it acts, in any case of its letters.
#[derive(Clone, Copy, Debug)]
pub enum Head {
    Pi,
    Ps,
    Rt,
    Traffic,
    Ta,
    Tp,
    Music,
    Speech,
    Ms,
    Pty,
    Set,
    Group,
    Ack,
    Raw,
}

impl Head {
    /// Whether a phrase of this first word may say where it acts.
    pub fn acts_somewhere(self) -> bool
        ensures { result ≡ acts_somewhere self }
    {
        !matches!(self, Head::Set | Head::Group | Head::Ack | Head::Raw)
    }
}

/// The first word of a phrase behind where it acts, if that is said by a set or for a service, and the tokens behind
/// it; or that it can't stand in front.
pub fn head_first(set: bool, service: bool, tokens: &[Token]) -> Result<(Head, &[Token]), Stop>
    ensures ok { IfOk result (λ r. (first : Seen) × (tokens_of tokens.now ≡ first ∷ tokens_of r.1.now)
        × IsHead first r.0) }
    ensures acts { IfOk result (λ r. (set || service) ≡ true → acts_somewhere r.0 ≡ true) }
    ensures err { IfErr result (λ stop. (stop.what ≡ word_wanted set service) × (stop.left ≡ length tokens.now)
        × IsNoHead (set || service) (tokens_of tokens.now)) }
{
    let stop = stop_at(word_wanted(set, service), tokens);
    let Some((first, rest)) = tokens.split_first() else {
        return Err(stop);
    };
    match head_in(first) {
        Some(head) if head.acts_somewhere() || !(set || service) => Ok((head, rest)),
        _ => Err(stop),
    }
}

/// What is wanted first of a phrase behind where it acts.
fn word_wanted(set: bool, service: bool) -> Expectation
    ensures { result ≡ word_wanted set service }
{
    match (set, service) {
        (_, true) => Expectation::WordForService,
        (true, false) => Expectation::WordInSet,
        (false, false) => Expectation::FirstWord,
    }
}

/// The first word of a phrase that this token is, if any.
fn head_in(token: &Token) -> Option<Head>
    ensures known { IfSome result (IsHead (token_of token.now)) }
    ensures unknown { IfNone result ((head : Head) → IsHead (token_of token.now) head → ⊥) }
{
    head_of(token.word()?)
}

/// The first word of a phrase that this word is, if any, whatever the case of its letters.
#[tactic(auto, using(crate::proofs::Phrasing::long_no_head))]
pub fn head_of(word: &[u8]) -> Option<Head>
    ensures known { IfSome result (λ head. map to_ascii_lowercase word.now ≡ head_word head) }
    ensures unknown { IfNone result ((head : Head) → map to_ascii_lowercase word.now ≢ head_word head) }
{
    let letters = small_letters(word)?;
    head_named(letters.as_slice())
}

/// The word in small letters; None where it is longer than each first word.
fn small_letters(word: &[u8]) -> Option<ArrayVec<u8, LETTERS_MAX>>
    ensures some { IfSome result (λ letters. letters.items ≡ map to_ascii_lowercase word.now) }
    ensures none { IfNone result (7 < length word.now) }
{
    let mut letters = ArrayVec::new();
    letters.try_extend_from_slice(word).ok()?;
    letters.as_mut_slice().make_ascii_lowercase();
    Some(letters)
}

/// The first word of a phrase that this word in small letters is, if any.
fn head_named(word: &[u8]) -> Option<Head>
    ensures known { IfSome result (λ head. word.now ≡ head_word head) }
    ensures unknown { IfNone result ((head : Head) → word.now ≢ head_word head) }
{
    match word {
        b"pi" => Some(Head::Pi),
        b"ps" => Some(Head::Ps),
        b"rt" => Some(Head::Rt),
        b"traffic" => Some(Head::Traffic),
        b"ta" => Some(Head::Ta),
        b"tp" => Some(Head::Tp),
        b"music" => Some(Head::Music),
        b"speech" => Some(Head::Speech),
        b"ms" => Some(Head::Ms),
        b"pty" => Some(Head::Pty),
        b"set" => Some(Head::Set),
        b"group" => Some(Head::Group),
        b"ack" => Some(Head::Ack),
        b"raw" => Some(Head::Raw),
        _ => None,
    }
}
