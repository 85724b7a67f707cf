//! What a run with kept state starts from. Source: profile.
use uecp_link::Server;
use uecp_net::Progress;

/// What a run starts from.
#[derive(Drop)]
pub struct Start {
    /// The server.
    pub server: Server,
    /// How far it has come.
    pub progress: Progress,
}
