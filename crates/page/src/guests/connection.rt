//! The connection of one who asks, as the machine gives it (profile).
ghost use Rattle.std.specs.Prelude.{◌≡◌, List, ℕ};
ghost use Rattle.page.specs.declared.guests.connection.Passed.{Passed as PassedValue};
ghost use Rattle.page.specs.Talk.{Talk, IsRead, IsWritten, IsShut};

/// What a call of a connection came to.
#[derive(Clone, Copy, Debug)]
pub enum Passed {
    /// So many bytes passed.
    Bytes(usize),
    /// None for now.
    NotNow,
    /// None any more: the other end is done, or it broke.
    Gone,
}

/// The connection of one who asks. Its calls don't wait.
pub trait Connection {
    // What was said on it so far.
    ghost talk: { Self → Talk };

    // Whether a read may fill a buffer so, answer so, and leave this.
    ghost reads: { Self → List ℕ → PassedValue → Self → Type 0 };

    // The number by which it is told of.
    ghost numbered: { Self → ℕ };

    // From where it comes.
    ghost origin: { Self → ℕ };

    /// By which number it is told of where something came on it: no other that is open has this one.
    fn number(&self) -> usize
        ensures { result ≡ numbered self.now };

    /// From where it comes: the origin of the address of its other end, as `origin_of` of `seats` has it.
    fn origin(&self) -> u128
        ensures { result ≡ origin self.now };

    /// Reads once what came, into the beginning of a buffer.
    fn read(&mut self, buffer: &mut [u8]) -> Passed
        ensures reads { reads self.old buffer.new result self.new }
        ensures is_read { IsRead (talk self.old) (talk self.new) buffer.new result };

    /// Writes once as many of the first of these bytes as it takes.
    fn write(&mut self, bytes: &[u8]) -> Passed
        ensures { IsWritten (talk self.old) (talk self.new) bytes.now result };

    /// Tells the other end that no more is written. Whether that went out.
    fn shut(&mut self) -> bool
        ensures { IsShut (talk self.old) (talk self.new) result };
}
