//! Why no line was taken (profile).
ghost use Rattle.std.specs.Prelude.{◌≡◌};
ghost use Rattle.line_feed.specs.declared.feed_fault.FeedFault.TheVariants.{OutOfMemory};

use std::alloc::AllocError;

/// Why no line was taken. What of the input is left then, [`Feed::next`](crate::Feed::next) says.
#[derive(Clone, Copy, Debug, PartialEq, Eq)]
pub enum FeedFault {
    /// A read failed, or 2^64 reads brought no end of a line.
    Reading,
    /// There was no memory. A line that it was wanted for is left.
    OutOfMemory,
}

/// A line that is refused could not be kept where such lines are.
#[derive(Clone, Copy, Debug, PartialEq, Eq)]
pub struct NotKept;

impl From<AllocError> for FeedFault {
    ghost from_gives = { λ _ e. e ≡ OutOfMemory };

    fn from(_error: AllocError) -> FeedFault {
        FeedFault::OutOfMemory
    }
}
