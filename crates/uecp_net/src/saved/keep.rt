//! What is kept of a server. Source: profile.
use std::marker::Model;
use uecp_encoder::SavedState;
use uecp_link::Server;

/// How far a server has come since its file was made.
#[derive(Clone, Copy, Debug, PartialEq, Eq)]
pub struct Progress {
    /// How many messages of its input were taken, from the first on.
    pub taken: u64,
    /// Whether its encoder was joined. Until it was, a start begins with a pass.
    pub joined: bool,
}

/// A server as it is saved: its last counter, the messages that it holds, and its progress. Contracts speak of it; no
/// value is made.
pub struct SavedServer {
    server: Server,
    progress: Progress,
}

impl Model for SavedServer {
    ghost use Rattle.uecp_net.specs.Keeping.{KeptServer, kept_of};

    ghost Value = { KeptServer };

    ghost view = { λ k. kept_of k.progress k.server };
}

impl SavedState for SavedServer {
    ghost use Rattle.uecp_net.specs.Keeping.{kept_of as kept_of_server};

    type End = Server;

    type Progress = Progress;

    ghost kept_of = { kept_of_server };
}
