//! What it is to listen to the air (profile).
ghost use Rattle.std.specs.Prelude.{◌≤◌, List, ℕ, length};
ghost use Rattle.air_edges.specs.declared.hears.Taken.{Taken as TakenValue};
ghost use Rattle.air_edges.specs.Hearers.{Gets, IsWithin};

use std::io::Write;

/// What a connection took of the bytes that it was offered.
#[derive(Clone, Copy, Debug)]
pub enum Taken {
    /// So many of the first.
    First(usize),
    /// None for now.
    NotNow,
    /// None any more: it was closed or broke.
    Gone,
}

/// The connection to one who listens to the air. Its calls don't wait.
pub trait Hears: Write + Drop {
    // Whether it may answer so where it is offered these bytes, and be left so.
    ghost takes: { Self → List ℕ → TakenValue → Self → Type 0 };

    /// Is offered these bytes, and takes of the first as many as it can now.
    fn take(&mut self, bytes: &[u8]) -> Taken
        ensures takes { takes self.old bytes.now result self.new }
        ensures within { IsWithin bytes.now result }
        ensures gets { Gets (Self.contents self.old) (Self.contents self.new) bytes.now result };
}
