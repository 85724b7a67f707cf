//! What the rules say of a segment (profile).
ghost use Rattle.std.specs.Prelude.{◌≡◌, None, if◌then◌else◌};
ghost use Rattle.std.specs.List.{list_any};
ghost use Rattle.bad_line.specs.Fates.{loses, repeats, breaks, place_of, named_place};
ghost use Rattle.bad_line.specs.Fates.{first_place, is_within, same_way, fate_of};

use crate::rules::fate::Fate;
use crate::rules::rule::{Rule, Span, Way};

/// What comes of the segment of this number and of so many bytes, where chance does this.
pub(crate) fn fate_in(
    rules: &[Rule],
    way: Way,
    number: u64,
    length: usize,
    lost: bool,
    place: Option<usize>,
) -> Fate
    ensures { result ≡ fate_of rules.now way number length (record { lost = lost; place = place }) }
{
    let breaks = breaks_behind(rules, way, number);
    if loses_by_number(rules, way, number) {
        return gone(breaks);
    }
    if lost {
        return gone(breaks);
    }
    Fate {
        copies: copies_in(rules, way, number),
        damaged: first_of(place_named(rules, way, number, length), place),
        breaks,
    }
}

/// What comes of a segment that is lost.
fn gone(breaks: bool) -> Fate
    ensures { result ≡ record { copies = 0; damaged = None; breaks = breaks } }
{
    Fate {
        copies: 0,
        damaged: None,
        breaks,
    }
}

/// Whether some rule says that the segment is lost.
fn loses_by_number(rules: &[Rule], way: Way, number: u64) -> bool
    ensures { result ≡ list_any (loses way number) rules.now }
{
    rules.iter().any(|rule| is_lost(way, number, rule))
}

/// Whether some rule says that the segment comes twice.
fn repeats_by_number(rules: &[Rule], way: Way, number: u64) -> bool
    ensures { result ≡ list_any (repeats way number) rules.now }
{
    rules.iter().any(|rule| is_repeated(way, number, rule))
}

/// Whether some rule says that the connection breaks behind the segment.
fn breaks_behind(rules: &[Rule], way: Way, number: u64) -> bool
    ensures { result ≡ list_any (breaks way number) rules.now }
{
    rules.iter().any(|rule| is_broken(way, number, rule))
}

/// How often a segment comes that is not lost.
fn copies_in(rules: &[Rule], way: Way, number: u64) -> u8
    ensures { result ≡ (if list_any (repeats way number) rules.now then 2 else 1) }
{
    if repeats_by_number(rules, way, number) {
        2
    } else {
        1
    }
}

/// The place that the first rule names that damages a byte of the segment.
fn place_named(rules: &[Rule], way: Way, number: u64, length: usize) -> Option<usize>
    ensures { result ≡ named_place rules.now way number length }
{
    for rule in rules {
        if let Some(place) = place_in(way, number, length, rule) {
            return Some(place);
        }
    }
    None
}

/// The first of two places, if there is one.
fn first_of(named: Option<usize>, drawn: Option<usize>) -> Option<usize>
    ensures { result ≡ first_place named drawn }
{
    match named {
        Some(place) => Some(place),
        None => drawn,
    }
}

/// Whether the rule says that the segment is lost.
fn is_lost(way: Way, number: u64, rule: &Rule) -> bool
    ensures { result ≡ loses way number rule.now }
{
    match rule {
        Rule::Lose(of_way, span) => is_same(*of_way, way) && contains(*span, number),
        _ => false,
    }
}

/// Whether the rule says that the segment comes twice.
fn is_repeated(way: Way, number: u64, rule: &Rule) -> bool
    ensures { result ≡ repeats way number rule.now }
{
    match rule {
        Rule::Repeat(of_way, span) => is_same(*of_way, way) && contains(*span, number),
        _ => false,
    }
}

/// The place of the byte of the segment that the rule damages, where it has that byte.
fn place_in(way: Way, number: u64, length: usize, rule: &Rule) -> Option<usize>
    ensures { result ≡ place_of way number length rule.now }
{
    match rule {
        Rule::Damage(of_way, segment, place) => {
            if is_same(*of_way, way)
                && u64::from(*segment) == number
                && 1 <= *place
                && *place as usize <= length
            {
                Some(*place as usize)
            } else {
                None
            }
        }
        _ => None,
    }
}

/// Whether the rule says that the connection breaks behind the segment.
fn is_broken(way: Way, number: u64, rule: &Rule) -> bool
    ensures { result ≡ breaks way number rule.now }
{
    match rule {
        Rule::BreakAfter(of_way, segment) => {
            is_same(*of_way, way) && u64::from(*segment) == number
        }
        _ => false,
    }
}

/// Whether two directions are the same.
fn is_same(a: Way, b: Way) -> bool
    ensures { result ≡ same_way a b }
{
    match (a, b) {
        (Way::Frame, Way::Frame) => true,
        (Way::Frame, Way::Reply) => false,
        (Way::Reply, Way::Frame) => false,
        (Way::Reply, Way::Reply) => true,
    }
}

/// Whether a number is in the span.
fn contains(span: Span, number: u64) -> bool
    ensures { result ≡ is_within span number }
{
    u64::from(span.first) <= number && number <= u64::from(span.last)
}
