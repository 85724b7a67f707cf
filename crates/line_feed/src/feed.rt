//! Where lines come from (profile).
ghost use Rattle.std.specs.Prelude.{◌≡◌, ℕ, List, [], Option, Result, Bool, IfOk, IfErr};
ghost use Rattle.std.specs.Io.KnownBytes.{Keeps};
ghost use Rattle.line_feed.specs.Lines.{IsNext, IsUntaken, Refusal};
ghost use Rattle.line_feed.specs.declared.feed.Next.{Next as Came};
ghost use Rattle.line_feed.specs.declared.feed_fault.FeedFault.{FeedFault as Fault};
ghost use Rattle.line_feed.specs.declared.feed_fault.NotKept.{NotKept as Unkept};

use crate::feed_fault::{FeedFault, NotKept};
use uecp_text::TextFault;

/// The most bytes of a line, its line feed among them.
pub const LINE_MAX: usize = 65_536;

/// What came next.
#[derive(Clone, Copy, Debug, PartialEq, Eq)]
pub enum Next {
    /// A line, with its line feed; the last of an input may have none.
    Line,
    /// A line of more than [`LINE_MAX`] bytes. It was passed over whole.
    TooLong,
    /// The input has ended, and nothing of it is left.
    End,
}

/// The lines of an input, taken one after another. Contracts see what of the input is left, as far as that is known.
pub trait Feed {
    // What of the input was not taken yet, with what waits in a buffer at its front. None where that is not known.
    ghost remaining: { Self → Option (List ℕ) };

    // What a call of `next` does: what came or why nothing did, what the line holds then, and how the feed stands then.
    ghost takes: { Self → Result Came Fault → List ℕ → Self → Type 0 };

    // What a call of `is_there` does: what it answers, and how the feed stands then.
    ghost says: { Self → Bool → Self → Type 0 };

    // What a call of `pass_over` does: of which line, what it answers, and how the feed stands then.
    ghost passes: { Self → Refusal → Result (Unit {0}) Unkept → Self → Type 0 };

    /// Waits for the next line, and puts it, with its line feed, in place of what `line` held. A line of more than
    /// [`LINE_MAX`] bytes is passed over, up to and with its line feed, and `line` is left empty; at the end too.
    ///
    /// Errors: `OutOfMemory` for the line, and all is left as it was; `Reading` where a read failed. Then all is left
    /// as it was too, and the next call goes on with a beginning of a line that was read; but of a line of more than
    /// [`LINE_MAX`] bytes a beginning may have been passed over, of more than that many bytes, and the next call takes
    /// the rest of it for a line. `line` is left empty.
    fn next(&mut self, line: &mut Vec<u8>) -> Result<Next, FeedFault>
        ensures next { IfOk result (IsNext (remaining self.old) (remaining self.new) line.new.items) }
        ensures fault { IfErr result (IsUntaken (remaining self.old) (remaining self.new)) }
        ensures emptied { IfErr result (λ _. line.new.items ≡ []) }
        ensures takes { takes self.old result line.new.items self.new };

    /// Whether a whole line or the end is there, or a failed read to be told of, so that [`next`](Feed::next) would not
    /// wait. A line of more than [`LINE_MAX`] bytes is not there while its end has not come. It may read, where that
    /// does not wait.
    fn is_there(&mut self) -> bool
        ensures keeps { Keeps (remaining self.old) (remaining self.new) }
        ensures says { says self.old result self.new };

    /// Is told that the line that was taken last is refused: under which number that is said, what for, and what
    /// [`next`](Feed::next) put of it.
    ///
    /// Errors: `NotKept` where such a line is to be kept, and could not be.
    fn pass_over(&mut self, number: usize, fault: &TextFault, line: &[u8]) -> Result<(), NotKept>
        ensures keeps { Keeps (remaining self.old) (remaining self.new) }
        ensures passes { passes self.old (record { number = number; fault = fault.now; line = line.now }) result
            self.new };

    /// Waits so many milliseconds.
    fn pause(&mut self, milliseconds: u64)
        ensures { Keeps (remaining self.old) (remaining self.new) };
}
