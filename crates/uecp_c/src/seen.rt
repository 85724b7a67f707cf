//! How far the replies to a pass have come. Source: profile.
ghost use Rattle.std.specs.Prelude.{◌≡◌};
ghost use Rattle.uecp_c.specs.Joining.{seen_with};

/// The oldest counter whose reply an encoder still keeps after a pass.
const OLDEST_KEPT: u8 = 0x81;

/// The last counter of a pass.
const LAST: u8 = 0xFF;

/// Which of the two replies were read: the one to 81, and after it the one to FF.
#[derive(Clone, Copy)]
pub(crate) struct Seen {
    pub(crate) is_first: bool,
    pub(crate) are_both: bool,
}

impl Seen {
    /// Which were read, with the one to this counter.
    pub(crate) fn with(self, counter: u8) -> Seen
        ensures { result ≡ seen_with self counter }
    {
        Seen {
            is_first: self.is_first || counter == OLDEST_KEPT,
            are_both: self.are_both || (self.is_first && counter == LAST),
        }
    }
}
