//! What a server answers to a piece of the stream. Source: profile.
use uecp_elements::Code;
use uecp_frame::FrameFault;

/// What the last used byte brought.
#[derive(Clone, Copy, Debug, PartialEq, Eq)]
pub enum HeardWhat {
    /// No segment ended; the whole piece was used.
    Nothing,
    /// The reply to a message that waited, which waits no more. Any code acknowledges, a refusal too: the encoder had
    /// the message, and has this to say of it.
    Acknowledged {
        /// The counter of the message.
        counter: u8,
        /// What the encoder says of it.
        code: Code,
    },
    /// Another frame, as a reply that came again.
    Stray,
    /// A segment that is no frame.
    Dropped(FrameFault),
}

/// How far a piece was used, and what that brought.
#[derive(Clone, Copy, Debug, PartialEq, Eq)]
pub struct Heard {
    /// Bytes used, counted from the start of the piece. Hear the rest next.
    pub used: usize,
    /// What the last used byte brought.
    pub what: HeardWhat,
}
