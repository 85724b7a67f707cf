//! What a server counts. Source: profile.

/// How many findings there were of each kind in what the server heard, since it was made. A count at its greatest value
/// stays there.
#[derive(Clone, Copy, Debug, Default, PartialEq, Eq)]
pub struct ServerCounts {
    /// Replies that acknowledged a message.
    pub acknowledged: u64,
    /// All other frames.
    pub stray: u64,
    /// Segments that are no frame.
    pub dropped: u64,
}
