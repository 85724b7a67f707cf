//! What an encoder answers to a piece of the stream. Source: profile.
use arrayvec::ArrayVec;
use uecp_frame::FrameFault;

/// A reply as it is sent: a frame of 9 plain bytes, which takes 11 to 16.
pub type ReplyBytes = ArrayVec<u8, 16>;

/// What the last used byte brought.
#[derive(Clone, Copy, Debug)]
pub enum What<'a> {
    /// No segment ended; the whole piece was used.
    Nothing,
    /// A numbered frame for this encoder. The reply is to be sent; it is fresh where the message was applied now, and
    /// not where it had been and the kept reply is given again.
    Reply(&'a ReplyBytes, bool),
    /// A frame whose address does not reach this encoder.
    NotForMe,
    /// A frame with counter 00, which is ignored.
    Unnumbered,
    /// A numbered frame for this encoder that is no repeat and whose counter is not the next. Nothing changed, and
    /// there is no reply: its message is for later, and is to be sent again once those before it were applied.
    NotNext,
    /// A segment that is no frame.
    Dropped(FrameFault),
}

/// How far a piece was used, and what that brought.
#[derive(Clone, Copy, Debug)]
pub struct Answer<'a> {
    /// Bytes used, counted from the start of the piece. Feed the rest next.
    pub used: usize,
    /// What the last used byte brought.
    pub what: What<'a>,
}
