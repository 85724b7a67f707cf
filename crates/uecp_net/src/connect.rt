//! Where connections come from. Source: profile.
ghost use Rattle.std.specs.Prelude.{Option};

use std::io::{Read, Write};

/// Opens connections, one after another. This is all that whoever embeds an end has to write: an
/// [`Opening`](crate::Opening) makes [`Connections`] of it, which lets both ends of a connection go where it is done
/// with.
pub trait Connect {
    /// Where a connection's bytes come from.
    type Input: Read + Drop;

    /// Where its bytes go.
    type Output: Write + Drop;

    // Whether a call may leave this value, and give the two ends of a connection or none. An implementation that does
    // not say so may leave and give any.
    ghost opens: { Self → Option (Self.Input × Self.Output) → Self → Type 0 } = { λ _ _ _. Unit {0} };

    /// The two ends of a new connection, or None where there is none to be had.
    fn open(&mut self) -> Option<(Self::Input, Self::Output)>
        ensures { opens self.old result self.new };
}

/// Connections, one after another: each is opened, and taken back where it is done with.
pub trait Connections {
    /// Where a connection's bytes come from.
    type Input: Read + Drop;

    /// Where its bytes go.
    type Output: Write + Drop;

    // Whether a call may leave this value, and give the two ends of a connection or none.
    ghost opens: { Self → Option (Self.Input × Self.Output) → Self → Type 0 };

    // Whether a call may leave this value where it is given the two ends of a connection, as they are then.
    ghost closes: { Self → Self.Input → Self.Output → Self → Type 0 };

    /// The two ends of a new connection, or None where there is none to be had.
    fn open(&mut self) -> Option<(Self::Input, Self::Output)>
        ensures { opens self.old result self.new };

    /// Takes the two ends of a connection back, which is done with.
    fn close(&mut self, input: Self::Input, output: Self::Output)
        ensures { closes self.old input output self.new };
}
