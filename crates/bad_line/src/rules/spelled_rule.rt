//! Rules out of the words of a line (profile).
ghost use Rattle.std.specs.Prelude.{◌≡◌, ℕ, List, [], ◌∷◌, codes, IfSome, IfNone, IfOk, IfErr};
ghost use Rattle.uecp_text.specs.Words.{words};
ghost use Rattle.bad_line.specs.declared.rules.rule.Rule.{Rule as RuleValue};
ghost use Rattle.bad_line.specs.declared.rules.rule.Way.{Way as WayValue};
ghost use Rattle.bad_line.specs.declared.rules.rule.Span.{Span as SpanValue};
ghost use Rattle.bad_line.specs.Rules.{Spells, Say, TellSpan, TellByte, TellBreak, TellChance, TellTime, TellFrom};
ghost use Rattle.bad_line.specs.Rules.{TellFrame, IsCount, way_word};

use crate::rules::numbers::{chance_of, count_of, span_of, time_of};
use crate::rules::rule::{Rule, RuleFault, Span, Way};
use crate::rules::words::{four_words, next_word, three_words, two_words};

/// The number of the first segment.
const FIRST: u32 = 1;

/// The rule that a text spells, such as `lose reply 5..9`.
///
/// Errors: `NotARule` for every text that spells none.
pub fn read_rule(text: &[u8]) -> Result<Rule, RuleFault>
    ensures spelled { IfOk result (λ rule. Spells text.now rule) }
    ensures refused { IfErr result (λ _. (rule : RuleValue) → Spells text.now rule → ⊥) }
{
    match next_word(text) {
        Some((name, rest)) => match rule_named(name, rest) {
            Some(rule) => Ok(rule),
            None => Err(RuleFault::NotARule),
        },
        None => Err(RuleFault::NotARule),
    }
}

/// The rule of that name, which the words of the rest tell.
fn rule_named(name: &[u8], rest: &[u8]) -> Option<Rule>
    ensures said { IfSome result (λ rule. Say (name.now ∷ words rest.now) rule) }
    ensures other { IfNone result ((rule : RuleValue) → Say (name.now ∷ words rest.now) rule → ⊥) }
{
    if name == b"lose".as_slice() {
        loss(rest)
    } else if name == b"repeat".as_slice() {
        repetition(rest)
    } else if name == b"damage".as_slice() {
        damage(rest)
    } else if name == b"break".as_slice() {
        ending(rest)
    } else if name == b"delay".as_slice() {
        delay(rest)
    } else if name == b"pace".as_slice() {
        pace(rest)
    } else if name == b"refuse".as_slice() {
        refusal(rest)
    } else if name == b"restart".as_slice() {
        restart(rest)
    } else {
        None
    }
}

/// A loss of what the words tell.
fn loss(text: &[u8]) -> Option<Rule>
    ensures said { IfSome result (λ rule. Say (codes "lose" ∷ words text.now) rule) }
    ensures other { IfNone result ((rule : RuleValue) → Say (codes "lose" ∷ words text.now) rule → ⊥) }
{
    match segments_of(text) {
        Some((way, span)) => Some(Rule::Lose(way, span)),
        None => match chance_from(text) {
            Some((percent, from)) => Some(Rule::LoseByChance(percent, from)),
            None => None,
        },
    }
}

/// A repetition of what the words tell.
fn repetition(text: &[u8]) -> Option<Rule>
    ensures said { IfSome result (λ rule. Say (codes "repeat" ∷ words text.now) rule) }
    ensures other { IfNone result ((rule : RuleValue) → Say (codes "repeat" ∷ words text.now) rule → ⊥) }
{
    match segments_of(text) {
        Some((way, span)) => Some(Rule::Repeat(way, span)),
        None => None,
    }
}

/// Damage to what the words tell.
fn damage(text: &[u8]) -> Option<Rule>
    ensures said { IfSome result (λ rule. Say (codes "damage" ∷ words text.now) rule) }
    ensures other { IfNone result ((rule : RuleValue) → Say (codes "damage" ∷ words text.now) rule → ⊥) }
{
    match byte_of_segment(text) {
        Some((way, number, place)) => Some(Rule::Damage(way, number, place)),
        None => match chance_from(text) {
            Some((percent, from)) => Some(Rule::DamageByChance(percent, from)),
            None => None,
        },
    }
}

/// The end of a connection behind what the words tell.
fn ending(text: &[u8]) -> Option<Rule>
    ensures said { IfSome result (λ rule. Say (codes "break" ∷ words text.now) rule) }
    ensures other { IfNone result ((rule : RuleValue) → Say (codes "break" ∷ words text.now) rule → ⊥) }
{
    match place_of_break(text) {
        Some((way, number)) => Some(Rule::BreakAfter(way, number)),
        None => None,
    }
}

/// A delay of the time that the words tell.
fn delay(text: &[u8]) -> Option<Rule>
    ensures said { IfSome result (λ rule. Say (codes "delay" ∷ words text.now) rule) }
    ensures other { IfNone result ((rule : RuleValue) → Say (codes "delay" ∷ words text.now) rule → ⊥) }
{
    match time_from(text) {
        Some((milliseconds, from)) => Some(Rule::Delay(milliseconds, from)),
        None => None,
    }
}

/// A pace of the time that the words tell.
fn pace(text: &[u8]) -> Option<Rule>
    ensures said { IfSome result (λ rule. Say (codes "pace" ∷ words text.now) rule) }
    ensures other { IfNone result ((rule : RuleValue) → Say (codes "pace" ∷ words text.now) rule → ⊥) }
{
    match time_from(text) {
        Some((milliseconds, from)) => Some(Rule::Pace(milliseconds, from)),
        None => None,
    }
}

/// A refusal of connections for the time that the words tell.
fn refusal(text: &[u8]) -> Option<Rule>
    ensures said { IfSome result (λ rule. Say (codes "refuse" ∷ words text.now) rule) }
    ensures other { IfNone result ((rule : RuleValue) → Say (codes "refuse" ∷ words text.now) rule → ⊥) }
{
    match behind(b"connections", text) {
        Some(word) => match time_of(word) {
            Some(milliseconds) => Some(Rule::RefuseConnections(milliseconds)),
            None => None,
        },
        None => None,
    }
}

/// A new beginning behind the frame that the words tell.
fn restart(text: &[u8]) -> Option<Rule>
    ensures said { IfSome result (λ rule. Say (codes "restart" ∷ words text.now) rule) }
    ensures other { IfNone result ((rule : RuleValue) → Say (codes "restart" ∷ words text.now) rule → ⊥) }
{
    match behind(b"after", text) {
        Some(word) => match count_of(word) {
            Some(number) => Some(Rule::RestartAfter(number)),
            None => None,
        },
        None => None,
    }
}

/// The direction and the span that the words tell.
fn segments_of(text: &[u8]) -> Option<(Way, Span)>
    ensures told { IfSome result (λ told. TellSpan (words text.now) told.0 told.1) }
    ensures other { IfNone result ((way : WayValue) (span : SpanValue) → TellSpan (words text.now) way span → ⊥) }
{
    match two_words(text) {
        Some((way, span)) => match way_of(way) {
            Some(way) => match span_of(span) {
                Some(span) => Some((way, span)),
                None => None,
            },
            None => None,
        },
        None => None,
    }
}

/// The direction, the number of a segment and the place of a byte that the words tell.
fn byte_of_segment(text: &[u8]) -> Option<(Way, u32, u32)>
    ensures told { IfSome result (λ told. TellByte (words text.now) told.0 told.1 told.2) }
    ensures other { IfNone result ((way : WayValue) (number place : ℕ) → TellByte (words text.now) way number place
        → ⊥) }
{
    match four_words(text) {
        Some((way, segment, name, byte)) => {
            if name != b"byte".as_slice() {
                return None;
            }
            match way_of(way) {
                Some(way) => match two_counts(segment, byte) {
                    Some((number, place)) => Some((way, number, place)),
                    None => None,
                },
                None => None,
            }
        }
        None => None,
    }
}

/// The direction and the number of a segment that the words tell behind `after`.
fn place_of_break(text: &[u8]) -> Option<(Way, u32)>
    ensures told { IfSome result (λ told. TellBreak (words text.now) told.0 told.1) }
    ensures other { IfNone result ((way : WayValue) (number : ℕ) → TellBreak (words text.now) way number → ⊥) }
{
    match three_words(text) {
        Some((name, way, segment)) => {
            if name != b"after".as_slice() {
                return None;
            }
            match way_of(way) {
                Some(way) => match count_of(segment) {
                    Some(number) => Some((way, number)),
                    None => None,
                },
                None => None,
            }
        }
        None => None,
    }
}

/// The numbers that two words are.
fn two_counts(first: &[u8], second: &[u8]) -> Option<(u32, u32)>
    ensures counts { IfSome result (λ counts. IsCount first.now counts.0 × IsCount second.now counts.1) }
    ensures other { IfNone result ((m n : ℕ) → IsCount first.now m → IsCount second.now n → ⊥) }
{
    match count_of(first) {
        Some(first) => match count_of(second) {
            Some(second) => Some((first, second)),
            None => None,
        },
        None => None,
    }
}

/// The chance that the first word is, and from which segment on.
fn chance_from(text: &[u8]) -> Option<(u32, u32)>
    ensures told { IfSome result (λ told. TellChance (words text.now) told.0 told.1) }
    ensures other { IfNone result ((percent from : ℕ) → TellChance (words text.now) percent from → ⊥) }
{
    match next_word(text) {
        Some((word, rest)) => match chance_of(word) {
            Some(percent) => match from_of(rest) {
                Some(from) => Some((percent, from)),
                None => None,
            },
            None => None,
        },
        None => None,
    }
}

/// The time that the first word is, and from which segment on.
fn time_from(text: &[u8]) -> Option<(u64, u32)>
    ensures told { IfSome result (λ told. TellTime (words text.now) told.0 told.1) }
    ensures other { IfNone result ((milliseconds from : ℕ) → TellTime (words text.now) milliseconds from → ⊥) }
{
    match next_word(text) {
        Some((word, rest)) => match time_of(word) {
            Some(milliseconds) => match from_of(rest) {
                Some(from) => Some((milliseconds, from)),
                None => None,
            },
            None => None,
        },
        None => None,
    }
}

/// From which segment on, as the words tell behind `from frame`: from the first where there are none.
fn from_of(text: &[u8]) -> Option<u32>
    ensures told { IfSome result (λ from. TellFrom (words text.now) from) }
    ensures other { IfNone result ((from : ℕ) → TellFrom (words text.now) from → ⊥) }
{
    match next_word(text) {
        None => Some(FIRST),
        Some((name, rest)) => {
            if name == b"from".as_slice() {
                frame_of(rest)
            } else {
                None
            }
        }
    }
}

/// The number behind `frame`.
fn frame_of(text: &[u8]) -> Option<u32>
    ensures told { IfSome result (λ from. TellFrame (words text.now) from) }
    ensures other { IfNone result ((from : ℕ) → TellFrame (words text.now) from → ⊥) }
{
    match behind(b"frame", text) {
        Some(word) => count_of(word),
        None => None,
    }
}

/// The second of two words of which the first is this one.
fn behind<'a>(name: &[u8], text: &'a [u8]) -> Option<&'a [u8]>
    ensures word { IfSome result (λ word. words text.now ≡ name.now ∷ word.now ∷ []) }
    ensures other { IfNone result ((word : List ℕ) → words text.now ≡ name.now ∷ word ∷ [] → ⊥) }
{
    match two_words(text) {
        Some((first, word)) => { if first == name { Some(word) } else { None } }
        None => None,
    }
}

/// The direction of that name.
fn way_of(word: &[u8]) -> Option<Way>
    ensures named { IfSome result (λ way. word.now ≡ way_word way) }
    ensures other { IfNone result ((way : WayValue) → word.now ≡ way_word way → ⊥) }
{
    if word == b"frame".as_slice() {
        Some(Way::Frame)
    } else if word == b"reply".as_slice() {
        Some(Way::Reply)
    } else {
        None
    }
}
