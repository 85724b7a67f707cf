//! A case: what is sent, and what must come (profile).
use uecp_frame::Message;

/// One case.
#[derive(Debug, Drop)]
pub struct Case<'a> {
    /// Its name.
    pub name: &'a [u8],
    /// Which rules it belongs to.
    pub group: &'a [u8],
    /// The rule, in a sentence.
    pub rule: &'a [u8],
    /// Whether the rule, or a code that it wants, is this project's own, so that it doesn't count against a device of
    /// another producer.
    pub profile: bool,
    /// How many bytes are written at a time, from 1; None where they may be written in any pieces.
    pub pieces: Option<u32>,
    /// What is sent and must come, in order.
    pub steps: Vec<Step>,
}

/// One thing that is sent or must come.
#[derive(Debug, Drop)]
pub enum Step {
    /// A frame is sent under each of these counters, with this message, and as this says.
    Send(Counters, Message, Edit),
    /// These bytes are sent, so many times one after another.
    Bytes(Message, u32),
    /// A reply with this code must come to each of these counters, in order.
    Reply(Counters, u8),
    /// A reply with any code but 00 must come to each of these counters, in order.
    Refusal(Counters),
    /// What was sent last gets no reply.
    Nothing,
}

/// Counters one after another; none where the last is below the first.
#[derive(Clone, Copy, Debug, PartialEq, Eq)]
pub struct Counters {
    /// The first.
    pub first: u8,
    /// The last.
    pub last: u8,
}

/// How a frame is sent.
#[derive(Debug, Drop)]
pub enum Edit {
    /// Whole, to this address.
    Whole(To),
    /// With this length byte, and a check that is made with it.
    Length(u8),
    /// With the lowest bit of its check turned over.
    Check,
    /// With these bytes on the line in the place of this plain byte, counted from 0.
    Byte(u32, Message),
    /// With no more than FE and so many plain bytes.
    Cut(u32),
}

/// To whom a frame is sent.
#[derive(Clone, Copy, Debug, PartialEq, Eq)]
pub enum To {
    /// The encoder itself.
    Own,
    /// All encoders of all sites.
    All,
    /// All encoders of its site.
    AllEncoders,
    /// The encoders of its number at all sites.
    AllSites,
    /// Another encoder of its site.
    AnotherEncoder,
    /// The encoder of its number at another site.
    AnotherSite,
}
