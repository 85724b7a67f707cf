//! What rules leave to chance (profile).
ghost use Rattle.std.specs.Prelude.{◌≡◌, ◌≤◌, true, IfSome};
ghost use Rattle.std.specs.List.{list_any};
ghost use Rattle.bad_line.specs.Fates.{may_lose, may_damage};

use crate::rules::rule::Rule;
use rand_core::Rng;
use rand_pcg::Pcg32;

/// Parts of the whole, as a chance counts them.
const WHOLE: u32 = 100;

/// Whether chance loses the segment of this number. A number is drawn for each rule that may.
pub(crate) fn draws_loss(rules: &[Rule], number: u64, draws: &mut Pcg32) -> bool
    ensures { result ≡ true → list_any (may_lose number) rules.now ≡ true }
{
    for rule in rules {
        if let Rule::LoseByChance(percent, from) = rule
            && u64::from(*from) <= number
            && draws.next_u32() % WHOLE < *percent
        {
            return true;
        }
    }
    false
}

/// Where chance damages a byte of the segment of this number and of so many bytes, if it does.
pub(crate) fn draws_place(
    rules: &[Rule],
    number: u64,
    length: usize,
    draws: &mut Pcg32,
) -> Option<usize>
    ensures { IfSome result (λ place. (list_any (may_damage number) rules.now ≡ true) × (1 ≤ place)
        × (place ≤ length)) }
{
    if length == 0 || !draws_damage(rules, number, draws) {
        return None;
    }
    Some(draws.next_u32() as usize % length + 1)
}

/// Whether chance damages the segment of this number. A number is drawn for each rule that may.
fn draws_damage(rules: &[Rule], number: u64, draws: &mut Pcg32) -> bool
    ensures { result ≡ true → list_any (may_damage number) rules.now ≡ true }
{
    for rule in rules {
        if let Rule::DamageByChance(percent, from) = rule
            && u64::from(*from) <= number
            && draws.next_u32() % WHOLE < *percent
        {
            return true;
        }
    }
    false
}
