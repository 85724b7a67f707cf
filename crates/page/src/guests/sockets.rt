//! What the machine gives a page (profile).
ghost use Rattle.std.specs.Prelude.{◌<◌, ◌^◌, ℕ};
ghost use Rattle.page.specs.Visits.{HasLived, IsUnsaidOne};

use crate::guests::connection::Connection;

/// What an accept came to.
pub enum Accepted<C> {
    /// One who asks, over this connection.
    One(C),
    /// Nobody asks now.
    Nobody,
    /// There is no descriptor or no memory for one more.
    NoRoom,
}

/// The sockets of a page and its clock: who asks connects to one place, and one wait is for all that may come.
///
/// Each connection that is accepted is given back once, by [`close`](Sockets::close), and has lived a life then, as
/// [`HasLived`](../specs/Visits.antt) has it: that is proved of whoever calls it, and a connection can't be let go
/// otherwise, as the type of one need not be `Drop`.
pub trait Sockets {
    /// The connection of one who asks.
    type Connection: Connection;

    // Whether the clock may be read so, and this be left.
    ghost reads: { Self → ℕ → Self → Type 0 };

    /// How many milliseconds have gone by.
    fn now(&mut self) -> u64
        ensures reads { reads self.old result self.new }
        ensures range { result < 2 ^ 58 };

    /// Waits at most so many milliseconds until something comes: somebody who asks, something on a connection or room
    /// on it, or something of the input. `numbers` are those of such connections then. Whether somebody asks; None
    /// where nothing more can be waited for.
    fn wait(&mut self, milliseconds: u64, numbers: &mut Vec<usize>) -> Option<bool>;

    /// Whether a read of the input would not wait. Where it would the next wait is for it too.
    fn has_input(&mut self) -> bool;

    /// Accepts one who asks. It is told of what comes on it. Where there is no descriptor or no memory for one more, a
    /// wait tells of those who ask only once a second has gone by, or a connection was closed.
    fn accept(&mut self) -> Accepted<Self::Connection>
        ensures { IsUnsaidOne Self.Connection.talk result };

    /// Tells of what comes on a connection; and from now on of when it may be written, or no more. Whether it can be
    /// told of.
    fn watch(&mut self, connection: &Self::Connection, writes: bool) -> bool;

    /// Takes a connection back, which is done with, and closes it.
    fn close(&mut self, connection: Self::Connection)
        requires { HasLived (Self.Connection.talk connection) };
}
