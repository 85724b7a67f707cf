//! Messages that a server holds, as they are lent and as they are kept. Source: profile.
use uecp_frame::Message;

/// A message that a server holds, lent.
#[derive(Clone, Copy, Debug)]
pub struct LentMessage<'a> {
    /// Its counter, 01 to FF.
    pub counter: u8,
    /// What it says.
    pub message: &'a Message,
    /// Whether its reply has come.
    pub marked: bool,
}

/// What is kept of a message that a server holds. Its counter follows from its place among them.
#[derive(Debug, Drop)]
pub struct KeptMessage {
    /// What it says.
    pub message: Message,
    /// Whether its reply has come.
    pub marked: bool,
}

impl Default for KeptMessage {
    /// What stands in a place where none is kept.
    fn default() -> KeptMessage {
        KeptMessage {
            message: Message::new(),
            marked: false,
        }
    }
}
