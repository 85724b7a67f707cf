//! What an event on a line came to. Source: profile.
use rds_store::Group;
use uecp_elements::Code;

/// The answer to an event that was not refused.
#[derive(Clone, Copy, Debug, PartialEq, Eq)]
pub enum Stepped {
    /// The message has this number, counted from 0.
    Numbered(usize),
    /// The encoder has the message: now, where that is fresh, or before. This is its code.
    Delivered {
        /// Whether the message was applied now.
        fresh: bool,
        /// What the encoder replies.
        code: Code,
    },
    /// The encoder has passed over the message: one before it was not applied yet.
    NotNext,
    /// The server knows that the message arrived, and its code.
    Acknowledged(Code),
    /// The server knew that already.
    Stray,
    /// The noise ended this many segments, none of them a frame.
    Noise {
        /// How many segments the noise ended; one that it ends before a new one begins counts too.
        dropped: usize,
    },
    /// The end forgot what was open.
    Lost,
    /// The end started again, and goes on from what it kept.
    Restarted,
    /// The modulator has this group, or there was none to take.
    Taken(Option<Group>),
}
