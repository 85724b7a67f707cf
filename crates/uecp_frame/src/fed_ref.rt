//! What a deframer answers where it lends the message. Source: profile.
use crate::address::Address;
use crate::fault::FrameFault;

/// A frame whose message is lent from the deframer that found it.
#[derive(Clone, Copy, Debug)]
pub struct FrameRef<'a> {
    /// Whom it is for, or in a reply who sends it.
    pub address: &'a Address,
    /// The sequence counter.
    pub counter: u8,
    /// What it carries, at most 255 bytes.
    pub message: &'a [u8],
}

/// What the used bytes ended: no segment, a frame, or a segment that is none.
#[derive(Clone, Copy, Debug)]
pub enum FoundRef<'a> {
    /// No segment ended; the whole piece was used.
    Nothing,
    /// The segment that ended is this frame.
    Frame(FrameRef<'a>),
    /// The segment that ended is no frame, and this is its first fault.
    Refused(FrameFault),
}

/// How far a piece was used, and what that ended.
#[derive(Clone, Copy, Debug)]
pub struct FedRef<'a> {
    /// Bytes used, counted from the start of the piece. The rest was not looked at: feed it next.
    pub used: usize,
    /// What the last used byte ended.
    pub found: FoundRef<'a>,
}
