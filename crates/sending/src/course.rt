//! How far a run has come. Source: profile.
use line_batches::After;
use uecp_net::Progress;

/// How far a run has come.
#[derive(Debug, Drop)]
pub(crate) struct Course {
    /// How many messages were taken, and whether the encoder is joined.
    pub(crate) progress: Progress,
    /// Whether all messages that were told of were applied.
    pub(crate) applied: bool,
    /// How many messages are outstanding, of which nothing was told yet.
    pub(crate) unknown: usize,
    /// What comes behind their batch, where they are one.
    pub(crate) behind: After,
}
