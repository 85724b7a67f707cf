//! One connection: what it is for, and what it is answered from (profile).
ghost use Rattle.std.specs.Prelude.{◌≡◌};
ghost use Rattle.http1.specs.Server.{writing};
ghost use Rattle.page.specs.declared.clients.client.Phase.TheVariants.{Asking, Live};
ghost use Rattle.page.specs.Fresh.{fresh};
ghost use Rattle.page.specs.Streaming.{IsStreaming};

use crate::events::History;
use crate::state::{Moment, Page};
use http1::Server;

/// What a connection is for.
#[derive(Clone, Copy, Debug, PartialEq, Eq)]
pub enum Phase {
    /// Its request has not come whole.
    Asking,
    /// It gets each event as it comes.
    Live,
    /// What waits is sent, and then it is closed.
    Closing,
}

/// What a connection is answered from.
#[derive(Clone, Copy)]
pub struct Site<'a> {
    /// What is shown.
    pub page: &'a Page,
    /// The last events.
    pub history: &'a History,
    /// When it is heard.
    pub moment: Moment,
    /// Whether only the machine's own names are served.
    pub own_only: bool,
    /// Whether no more connections may get events.
    pub is_full: bool,
}

/// A connection of a browser. It is asked one thing, and closed once that is answered; a stream of events goes on until
/// it is closed at the other end, or does not keep up.
#[derive(Drop)]
pub struct Client {
    pub(crate) server: Server,
    pub(crate) phase: Phase,
    pub(crate) due: u64,
    pub(crate) input: Vec<u8>,
    pub(crate) output: Vec<u8>,
    ghost asks: { phase ≡ Asking → server ≡ fresh },
    ghost streams: { phase ≡ Live → IsStreaming (writing server) },
}
