//! Replies, and what comes of a case (profile).
use uecp_frame::FrameFault;

/// A reply of an encoder: to which counter, and with which code, whatever that means.
#[derive(Clone, Copy, Debug, PartialEq, Eq)]
pub struct Reply {
    /// The counter of the message that it answers.
    pub counter: u8,
    /// Its code.
    pub code: u8,
}

/// A reply that is wanted.
#[derive(Clone, Copy, Debug, PartialEq, Eq)]
pub enum Expected {
    /// This one.
    This(Reply),
    /// One to the message of this counter, with any code but 00.
    Refusal(u8),
}

/// What came of a case, by the first place where it is not as it should be.
#[derive(Clone, Copy, Debug, PartialEq, Eq)]
pub enum Verdict {
    /// What is found in what came is the wanted replies in order, and nothing else. Bytes that are no part of a segment
    /// are found as nothing.
    Kept,
    /// This reply is wanted, and nothing more came.
    Missing(Expected),
    /// The first reply is wanted, and the second, which is none such, came.
    Another(Expected, Reply),
    /// This reply came, and none is wanted any more.
    TooMany(Reply),
    /// A frame came that is no reply of the encoder.
    NoReply,
    /// A segment came that is no frame, with this fault.
    Dropped(FrameFault),
}
