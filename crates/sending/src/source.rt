//! Where batches of messages come from. Source: profile.
ghost use Rattle.std.specs.Prelude.{◌≡◌, ◌≤◌, ℕ, List, length};
ghost use Rattle.line_batches.specs.declared.taking.After.{After as Next};

use line_batches::After;
use uecp_frame::Message;

/// Where batches of messages come from. Contracts see where their taking stands, and how a batch is taken.
pub trait Source {
    // Where the taking of its batches stands.
    ghost At: { Type 0 };

    ghost at: { Self → Self.At };

    // What its batches are taken by, which no call changes.
    ghost How: { Type 0 };

    ghost how: { Self → Self.How };

    // A batch of at most so many messages is taken, from where to where, and what comes after it.
    ghost takes: { Self.How → (size : ℕ) → List (List ℕ) → Next → Self.At → Self.At → Type 0 };

    // The batch that was taken last.
    ghost taken: { Self → List (List ℕ) };

    // The loans that it has.
    ghost lent: { Self → List ℕ };

    /// Takes the next batch, of at most so many messages, and tells what comes after it.
    fn take(&mut self, size: usize) -> After
        requires some { 1 ≤ size }
        ensures takes { Self.takes (Self.how self.old) size (Self.taken self.new) result (Self.at self.old)
            (Self.at self.new) }
        ensures few { length (Self.taken self.new) ≤ size }
        ensures how { Self.how self.new ≡ Self.how self.old }
        ensures lent { Self.lent self.new ≡ Self.lent self.old };

    /// The batch that was taken last.
    fn batch(&self) -> &[Message]
        ensures { result.now ≡ Self.taken self.now };
}
