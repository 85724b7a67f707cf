//! How late segments come (profile).
ghost use Rattle.std.specs.Prelude.{◌≡◌};
ghost use Rattle.bad_line.specs.Delays.{delay_by, delay_in, pace_by, pace_in};

use crate::rules::rule::Rule;

/// How many milliseconds later the segment of this number comes.
pub(crate) fn delay_of(rules: &[Rule], number: u64) -> u64
    ensures { result ≡ delay_in number rules.now }
{
    let mut longest = 0;
    for rule in rules {
        longest = delayed_by(number, rule).max(longest);
    }
    longest
}

/// How many milliseconds later it comes by this rule.
fn delayed_by(number: u64, rule: &Rule) -> u64
    ensures { result ≡ delay_by number rule.now }
{
    match rule {
        Rule::Delay(milliseconds, from) => {
            if u64::from(*from) <= number {
                *milliseconds
            } else {
                0
            }
        }
        _ => 0,
    }
}

/// For how many milliseconds the segment of this number is held, one behind the other.
pub(crate) fn pace_of(rules: &[Rule], number: u64) -> u64
    ensures { result ≡ pace_in number rules.now }
{
    let mut longest = 0;
    for rule in rules {
        longest = paced_by(number, rule).max(longest);
    }
    longest
}

/// For how many milliseconds it is held by this rule.
fn paced_by(number: u64, rule: &Rule) -> u64
    ensures { result ≡ pace_by number rule.now }
{
    match rule {
        Rule::Pace(milliseconds, from) => {
            if u64::from(*from) <= number {
                *milliseconds
            } else {
                0
            }
        }
        _ => 0,
    }
}
