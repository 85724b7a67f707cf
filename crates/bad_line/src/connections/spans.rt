//! What rules say that is no matter of a segment (profile).
ghost use Rattle.std.specs.Prelude.{◌≡◌, [], ◌∷◌, IfOk};
ghost use Rattle.std.specs.List.{list_any};
ghost use Rattle.bad_line.specs.Connections.{refusal_in, with_restarts, is_restart};

use crate::rules::{Rule, Way};
use std::alloc::{AllocError, Global};

/// For how many milliseconds from the start no connection is taken.
pub(crate) fn refusal_of(rules: &[Rule]) -> u64
    ensures { result ≡ refusal_in rules.now }
{
    let mut longest = 0;
    for rule in rules {
        if let Rule::RefuseConnections(milliseconds) = rule {
            longest = longest.max(*milliseconds);
        }
    }
    longest
}

/// The rules, with a break of the connection in place of each new beginning of the encoder.
///
/// Errors: no memory.
pub(crate) fn breaking(alloc: Global, rules: &[Rule]) -> Result<Vec<Rule>, AllocError>
    ensures { IfOk result (λ all. all.items ≡ with_restarts rules.now) }
{
    let mut all = Vec::new(alloc);
    for rule in rules {
        all.push(broken_by(*rule))?;
    }
    Ok(all)
}

/// The rule, or a break of the connection in place of a new beginning of the encoder.
fn broken_by(rule: Rule) -> Rule
    ensures { with_restarts (rule ∷ []) ≡ result ∷ [] }
{
    match rule {
        Rule::RestartAfter(number) => Rule::BreakAfter(Way::Frame, number),
        _ => rule,
    }
}

/// Whether some rule has the encoder begin anew behind a frame after the first so many, up to the last so many.
pub(crate) fn restarts(rules: &[Rule], before: u64, passed: u64) -> bool
    ensures { result ≡ list_any (is_restart before passed) rules.now }
{
    rules.iter().any(|rule| is_due(before, passed, rule))
}

/// Whether this one does.
fn is_due(before: u64, passed: u64, rule: &Rule) -> bool
    ensures { result ≡ is_restart before passed rule.now }
{
    match rule {
        Rule::RestartAfter(number) => before < u64::from(*number) && u64::from(*number) <= passed,
        _ => false,
    }
}
