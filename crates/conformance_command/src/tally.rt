//! How many cases are kept (profile).
ghost use Rattle.std.specs.Prelude.{◌≡◌, ◌+◌, ◌<◌, ◌^◌};
ghost use Rattle.conformance_command.specs.Choosing.{is_kept, counted, none_counted, status_of};

use crate::went::Went;
use conformance::Verdict;

/// How many cases are kept and are not.
#[derive(Clone, Copy, Debug)]
pub(crate) struct Tally {
    /// Those that are kept.
    pub(crate) kept: usize,
    /// Those that are not kept, and count against the encoder.
    pub(crate) not_kept: usize,
    /// Those that are not kept, and are this project's own.
    pub(crate) profile_not_kept: usize,
}

impl Tally {
    /// No case yet.
    pub(crate) fn none() -> Tally
        ensures { result ≡ none_counted }
    {
        Tally {
            kept: 0,
            not_kept: 0,
            profile_not_kept: 0,
        }
    }

    /// One case more.
    pub(crate) fn count(&mut self, profile: bool, went: Went)
        requires { self.old.kept + self.old.not_kept + self.old.profile_not_kept + 1 < 2 ^ 64 }
        ensures counts { self.new ≡ counted profile went self.old }
        ensures more { self.new.kept + self.new.not_kept + self.new.profile_not_kept
            ≡ self.old.kept + self.old.not_kept + self.old.profile_not_kept + 1 }
    {
        if is_kept(went) {
            self.kept += 1;
        } else if profile {
            self.profile_not_kept += 1;
        } else {
            self.not_kept += 1;
        }
    }

    /// The exit status of a run that came to its end.
    pub(crate) fn status(self) -> u8
        ensures { result ≡ status_of self }
    {
        if self.not_kept == 0 { 0 } else { 1 }
    }
}

/// Whether a case that went so is kept.
pub(crate) fn is_kept(went: Went) -> bool
    ensures { result ≡ is_kept went }
{
    matches!(went, Went::Judged(Verdict::Kept))
}
