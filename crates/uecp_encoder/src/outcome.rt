//! What a piece of the stream came to at an encoder, with no reply spelled. Source: profile.
use uecp_elements::Code;
use uecp_frame::FrameFault;

/// What a finding came to. It owns what it says, so that a reply can be spelled once the target is at rest, or looked
/// up where it was spelled before.
#[derive(Clone, Copy, Debug)]
pub enum Outcome {
    /// No segment ended.
    Nothing,
    /// A segment that is no frame.
    Dropped(FrameFault),
    /// A frame whose address does not reach this encoder.
    NotForMe,
    /// A frame with counter 00, which is ignored.
    Unnumbered,
    /// A numbered frame for this encoder that is no repeat and whose counter is not the next: nothing changed, and
    /// there is no reply.
    NotNext,
    /// A numbered frame for this encoder that has a reply.
    Reply {
        /// The code of the reply.
        code: Code,
        /// The counter that it is a reply to, 1 to 255.
        counter: u8,
        /// Whether the message was applied now, and not before.
        fresh: bool,
    },
}

/// How far a piece was used, and what that came to.
#[derive(Clone, Copy, Debug)]
pub struct Heard {
    /// Bytes used, counted from the start of the piece. Feed the rest next.
    pub used: usize,
    /// What the last used byte came to.
    pub outcome: Outcome,
}
