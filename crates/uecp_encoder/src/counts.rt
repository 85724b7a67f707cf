//! What an encoder counts. Source: profile.

/// How many findings there were of each kind, since the encoder was made. A count at its greatest value stays there.
#[derive(Clone, Copy, Debug, Default, PartialEq, Eq)]
pub struct Counts {
    /// Numbered frames that were applied.
    pub fresh: u64,
    /// Numbered frames that were answered with a kept reply.
    pub repeats: u64,
    /// Frames whose address does not reach the encoder.
    pub not_for_me: u64,
    /// Frames with counter 00.
    pub unnumbered: u64,
    /// Segments that are no frame.
    pub dropped: u64,
}
