//! Whether bytes are there (profile).
ghost use Rattle.std.specs.Prelude.{ℕ, Option, Bool};

/// Tells whether a read would wait, and waits in its place, so that it can look after other things meanwhile. No
/// contract speaks of time, so a value that answers as it likes changes when lines are taken, and not which.
pub trait Arrival {
    // What a wait answered, of at most so many milliseconds or without limit, and how the value stands then. Nothing
    // is said of a value that nothing is known of.
    ghost answers: { Self → Option ℕ → Bool → Self → Type 0 } = { λ _ _ _ _. Unit {0} };

    /// Waits until a read would not wait, since bytes or the end are there; at most so many milliseconds, or without
    /// limit. Whether a read would not wait then.
    fn wait(&mut self, milliseconds: Option<u64>) -> bool
        ensures { answers self.old milliseconds result self.new };

    /// Waits so many milliseconds, whatever comes.
    fn pause(&mut self, milliseconds: u64);
}
