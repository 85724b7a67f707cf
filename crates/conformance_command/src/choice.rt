//! Which cases are run (profile).
ghost use Rattle.std.specs.Prelude.{◌≡◌, length};
ghost use Rattle.std.specs.Option.{option_map};
ghost use Rattle.conformance_command.specs.Choosing.{chosen, is_chosen};

use conformance::Case;

/// Whether a case is run where this name is given.
pub(crate) fn is_chosen(only: Option<&[u8]>, case: &Case<'_>) -> bool
    ensures { result ≡ is_chosen (option_map (λ name. name.now) only.entry) case.now }
{
    match only {
        Some(name) => name == case.name || name == case.group,
        None => true,
    }
}

/// How many cases are run where this name is given.
pub(crate) fn count_chosen(only: Option<&[u8]>, cases: &[Case<'_>]) -> usize
    ensures { result ≡ length (chosen (option_map (λ name. name.now) only.entry) cases.now) }
{
    let mut count = 0;
    for case in cases {
        if is_chosen(only, case) {
            count += 1;
        }
    }
    count
}
