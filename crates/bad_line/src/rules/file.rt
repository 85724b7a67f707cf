//! Rules out of the lines of a text (profile).
ghost use Rattle.std.specs.Prelude.{IfOk, IfErr};
ghost use Rattle.uecp_text.specs.Input.{texts_of};
ghost use Rattle.bad_line.specs.Files.{AreSpelled, IsRefused};

use crate::rules::rule::Rule;
use crate::rules::spelled_rule::read_rule;
use std::alloc::Global;
use uecp_text::{first_input_line, text_of};

/// Why a text has no rules to give.
#[derive(Clone, Copy, Debug, PartialEq, Eq)]
pub enum RulesFault {
    /// The line of this number, counted from 1, spells no rule.
    NotARule(usize),
    /// There is no memory for the rules.
    OutOfMemory,
}

/// The rules that the lines of a text spell, in order. Blank lines and comments, which begin with `#`, spell none and
/// are passed over.
///
/// Errors: `NotARule` with the number of the first line that spells none; `OutOfMemory`.
pub fn read_rules(alloc: Global, text: &[u8]) -> Result<Vec<Rule>, RulesFault>
    ensures spelled { IfOk result (λ rules. AreSpelled (texts_of text.now) rules.items) }
    ensures refused { IfErr result (λ fault. IsRefused (texts_of text.now) fault) }
{
    let mut rules = Vec::new(alloc);
    let mut rest = text;
    let mut number = 0;
    while !rest.is_empty() {
        let (line, more) = first_input_line(rest);
        rest = more;
        number += 1;
        if let Some(text) = text_of(line) {
            match read_rule(text) {
                Ok(rule) => match rules.push(rule) {
                    Ok(()) => {}
                    Err(_) => return Err(RulesFault::OutOfMemory),
                },
                Err(_) => return Err(RulesFault::NotARule(number)),
            }
        }
    }
    Ok(rules)
}
