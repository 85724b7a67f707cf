//! What a server is made of (profile).
ghost use Rattle.std.specs.Prelude.{◌≡◌};
ghost use Rattle.uecp_jobs.specs.ServerRun.{server_setup};

use commands::ServerOptions;
use uecp_net::Limits;

/// What a server is made of, by the options of its command.
#[derive(Clone, Copy, Debug)]
pub struct ServerSetup {
    /// The site of its encoder.
    pub site: u16,
    /// That encoder's number at its site.
    pub encoder: u8,
    /// How often it tries, and over how many connections.
    pub limits: Limits,
    /// How many messages may be on their way at once.
    pub window: u8,
    /// Whether the encoder is joined first.
    pub join: bool,
}

/// What the server of these options is made of.
pub fn server_setup_of(options: &ServerOptions) -> ServerSetup
    ensures { result ≡ server_setup options.now }
{
    ServerSetup {
        site: options.site,
        encoder: options.encoder,
        limits: Limits {
            tries: options.tries,
            turns: options.turns,
            reconnects: options.reconnects,
            reconnect_silent: options.reconnect_silent,
        },
        window: options.window,
        join: options.join,
    }
}
