//! What stands at one height of a ladder (profile).

use uecp_link::{LineRefusal, Stepped};

/// The arrow between the two ends, or the mark at one of them.
#[derive(Clone, Copy, Debug, PartialEq, Eq)]
pub enum Mark {
    /// From the server to the encoder.
    ToEncoder,
    /// From the encoder to the server.
    ToServer,
    /// Damaged or lost on the way to the encoder: crossed out.
    LostToEncoder,
    /// Damaged or lost on the way to the server: crossed out.
    LostToServer,
    /// Something at the server alone.
    AtServer,
    /// Something at the encoder alone.
    AtEncoder,
    /// What was open at the server was lost: crossed out.
    LostAtServer,
    /// What was open at the encoder was lost: crossed out.
    LostAtEncoder,
    /// No arrow and no mark: the event was refused.
    Nothing,
}

/// What an arrow carries.
#[derive(Clone, Copy, Debug, PartialEq, Eq)]
pub enum Label {
    /// Nothing that has a name.
    Nothing,
    /// The frame of the message of this number, counted from 0.
    Frame(usize),
    /// The reply to the message of this number.
    Reply(usize),
    /// Bytes that are no frame.
    Noise,
}

/// What is said beside it.
#[derive(Clone, Copy, Debug, PartialEq, Eq)]
pub enum Remark {
    /// That the reply was lost: its message's frame came again.
    Lost,
    /// What came of the event, as the command `line` says it.
    Step {
        /// What the line answered.
        outcome: Result<Stepped, LineRefusal>,
        /// The number of the message that the event names, or 0.
        named: usize,
    },
    /// How many messages were given up where the server was replaced.
    GivenUp(usize),
}

/// One height of a ladder.
#[derive(Clone, Copy, Debug, PartialEq, Eq)]
pub struct Row {
    /// The arrow or the mark.
    pub mark: Mark,
    /// What it carries.
    pub label: Label,
    /// What is said beside it.
    pub said: Remark,
}
