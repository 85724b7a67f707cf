//! What a deframer answers. Source: profile.
use crate::fault::FrameFault;
use crate::frame::Frame;

/// What the used bytes ended: no segment, a frame, or a segment that is none.
#[derive(Debug, Drop)]
pub enum Found {
    /// No segment ended; the whole piece was used.
    Nothing,
    /// The segment that ended is this frame.
    Frame(Frame),
    /// The segment that ended is no frame, and this is its first fault.
    Refused(FrameFault),
}

/// How far a piece was used, and what that ended.
#[derive(Debug, Drop)]
pub struct Fed {
    /// Bytes used, counted from the start of the piece. The rest was not looked at: feed it next.
    pub used: usize,
    /// What the last used byte ended.
    pub found: Found,
}
