//! Why a run stops (profile).

/// Why a run stopped before the end of its input, or before what waited then was sent.
#[derive(Clone, Copy, Debug, PartialEq, Eq)]
pub(crate) enum Stop {
    /// There was no memory.
    OutOfMemory,
    /// The input could not be read.
    Reading,
    /// There is no wait for what comes.
    Listening,
}
