//! Why an event on a line is refused. Source: profile.
ghost use Rattle.std.specs.Prelude.{◌≡◌};
ghost use Rattle.uecp_link.specs.Refusal.{number_of, name_of};

use thiserror::Error;

/// Why an event was refused, in the order in which the reasons are looked for. A refused event has changed nothing.
#[derive(Clone, Copy, Debug, PartialEq, Eq, Error)]
pub enum LineRefusal {
    /// Eight messages were sent from the oldest one on that is not acknowledged, so none may be submitted.
    #[error("eight messages were sent from the oldest unacknowledged one on")]
    Busy,
    /// There is no such message yet, or no reply to it yet.
    #[error("there is no such message yet, or no reply to it yet")]
    NotSent,
    /// More than 126 messages were numbered after it.
    #[error("more than 126 messages were numbered after it")]
    TooLate,
    /// With the noise in that direction since the last whole frame or loss of the line, a whole frame stands in it.
    #[error("a whole frame stands in the noise")]
    HoldsAFrame,
    /// There was no memory for the message.
    #[error("there was no memory for the message")]
    OutOfMemory,
}

impl LineRefusal {
    /// Its number, 1 to 5.
    pub fn number(self) -> u8
        ensures { result ≡ number_of self }
    {
        match self {
            LineRefusal::Busy => 1,
            LineRefusal::NotSent => 2,
            LineRefusal::TooLate => 3,
            LineRefusal::HoldsAFrame => 4,
            LineRefusal::OutOfMemory => 5,
        }
    }

    /// Its name, as the program writes it.
    pub fn name(self) -> &'static str
        ensures { result.now ≡ name_of self }
    {
        match self {
            LineRefusal::Busy => "Busy",
            LineRefusal::NotSent => "NotSent",
            LineRefusal::TooLate => "TooLate",
            LineRefusal::HoldsAFrame => "HoldsAFrame",
            LineRefusal::OutOfMemory => "OutOfMemory",
        }
    }
}
