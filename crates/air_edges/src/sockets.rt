//! What the machine gives an encoder on the air (profile).
ghost use Rattle.std.specs.Prelude.{◌<◌, ◌^◌, Bool, Option, ℕ};
ghost use Rattle.air_edges.specs.declared.sockets.Came.{Came as CameValue};

use crate::hears::Hears;
use std::io::{Read, Write};

/// What came.
#[derive(Clone, Copy, Debug)]
pub struct Came {
    /// Something of the studio: on its connection, or a new one.
    pub studio: bool,
    /// One who wants to listen to the air.
    pub air: bool,
    /// Whether the system had no descriptor or no memory for one more connection as it was asked last.
    pub is_out: bool,
}

/// The sockets of an encoder on the air and its clock: one place where a studio connects, and one where those connect
/// who listen to the air.
pub trait Sockets {
    /// Where the bytes of a studio's connection come from.
    type Input: Read + Drop;

    /// Where its bytes go.
    type Output: Write + Drop;

    /// The connection to one who listens.
    type Hearer: Hears;

    // Whether the clock may be read so, and this be left.
    ghost reads: { Self → ℕ → Self → Type 0 };

    // Whether a wait may answer so that is told whether a connection is open, and how many milliseconds it may last.
    ghost waits: { Self → Bool → ℕ → Option CameValue → Self → Type 0 };

    // Whether a studio's connection may be accepted so, or none.
    ghost opens: { Self → Option (Self.Input × Self.Output) → Self → Type 0 };

    // Whether this may be left where the two ends of one are given back, as they are then.
    ghost closes: { Self → Self.Input → Self.Output → Self → Type 0 };

    // Whether one who wants to listen may be accepted so, with its origin, or none.
    ghost joins: { Self → Option (Self.Hearer × ℕ) → Self → Type 0 };

    /// How many milliseconds have gone by since the air began.
    fn now(&mut self) -> u64
        ensures reads { reads self.old result self.new }
        ensures range { result < 2 ^ 58 };

    /// Waits until something comes of the studio, on its connection where one is open, and else a new one; or one who
    /// wants to listen; or so many milliseconds have gone by. None: nothing more can be waited for.
    fn wait(&mut self, is_open: bool, milliseconds: u64) -> Option<Came>
        ensures { waits self.old is_open milliseconds result self.new };

    /// Accepts a connection of the studio: its two ends, or None where there is none to be had.
    fn open(&mut self) -> Option<(Self::Input, Self::Output)>
        ensures { opens self.old result self.new };

    /// Takes the two ends of one back, which is done with.
    fn close(&mut self, input: Self::Input, output: Self::Output)
        ensures { closes self.old input output self.new };

    /// Accepts one who wants to listen: its connection, and from where that comes, as `origin_of` of `seats` has it; or
    /// None where there is none to be had.
    fn join(&mut self) -> Option<(Self::Hearer, u128)>
        ensures { joins self.old result self.new };
}
