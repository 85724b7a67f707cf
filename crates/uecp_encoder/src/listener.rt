//! Who is told of what an encoder finds and answers. Source: profile.
ghost use Rattle.std.specs.Prelude.{◌≡◌, Bool, false};
ghost use Rattle.uecp_encoder.specs.declared.listener.Event.{Event};

use crate::answer::ReplyBytes;
use uecp_elements::Code;
use uecp_frame::{Found, FrameFault};

/// What an encoder answers to what it found.
#[derive(Debug, Drop)]
pub enum Answered {
    /// A numbered frame for this encoder whose message was applied now: the code that the message got, and the reply
    /// that says it.
    New {
        /// The code of the reply.
        code: Code,
        /// The reply as it is sent.
        reply: ReplyBytes,
    },
    /// A numbered frame for this encoder whose counter is kept: its message is not looked at, and the reply is the one
    /// that was kept.
    Repeat {
        /// The code of the reply.
        code: Code,
        /// The reply as it is sent.
        reply: ReplyBytes,
    },
    /// A numbered frame for this encoder that is no repeat and whose counter is not the next. Nothing changed, and
    /// there is no reply.
    NotNext,
    /// A frame with counter 00, which is ignored.
    Unnumbered,
    /// A frame whose address does not reach this encoder.
    NotForMe,
    /// A segment that is no frame.
    Dropped(FrameFault),
}

/// What an encoder found, and what it answers to it.
#[derive(Debug, Drop)]
pub struct Event {
    /// What was found: a frame, or a segment that is none. It is never `Found::Nothing`.
    pub found: Found,
    /// What the encoder answers to it.
    pub answer: Answered,
}

/// Is told of each connection that is opened, and of each thing that an encoder finds, once it is answered.
pub trait Listener {
    // Whether it listens.
    ghost listens: { Self → Bool };

    // Whether it may be left so by being told that a connection was opened.
    ghost begins: { Self → Self → Type 0 };

    // Whether it may be left so by being told of an event, whose reply, if it has one, was written whole or not.
    ghost hears: { Self → Event → Bool → Self → Type 0 };

    // One that does not listen is as it would be left by being told.
    ghost deaf: { (l : Self) (event : Event) (sent : Bool) → listens l ≡ false → hears l event sent l };

    /// Whether it listens: one that does not is told of no event, and nothing is copied for it.
    fn is_listening(&self) -> bool
        ensures { result ≡ listens self.now };

    /// Is told that a connection was opened, before anything is read of it.
    fn begin(&mut self)
        ensures { begins self.old self.new };

    /// Is told of an event. `sent` says that its reply was written whole, or that it has none; where it is false a
    /// write of the reply failed, and the connection ends.
    fn hear(&mut self, event: &Event, sent: bool)
        ensures { hears self.old event.now sent self.new };
}

/// Listens to nothing.
#[derive(Clone, Copy, Debug)]
pub struct Unheard;

impl Listener for Unheard {
    ghost use Rattle.std.specs.Prelude.{false, refl};

    ghost listens = { λ _. false };

    ghost deaf = { λ l event sent no. refl };

    ghost begins = { λ l l'. l' ≡ l };

    ghost hears = { λ l _ _ l'. l' ≡ l };

    fn is_listening(&self) -> bool {
        false
    }

    fn begin(&mut self) {}

    fn hear(&mut self, _event: &Event, _sent: bool) {}
}
