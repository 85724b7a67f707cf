//! What a page begins with: where it is served, the time, and which control lines are stale (profile).
ghost use Rattle.std.specs.Prelude.{◌≡◌, IfOk};
ghost use Rattle.page_server.specs.Starting.{IsPlaceOf};

use commands::PageOptions;
use device_edges::{AddressFault, HERE, listen_address};
use std::net::SocketAddr;
use std::time::{Clock, Duration, SystemTime};

/// The port at which the page is found that is told no other.
const PORT: u16 = 8080;

/// What a run begins with.
#[derive(Drop)]
pub(crate) struct Start {
    place: SocketAddr,
    since: Option<Duration>,
    stale: Option<u32>,
}

impl Start {
    /// The place and the limit that the options ask for, and the time that a clock tells.
    ///
    /// Errors: as [`AddressFault`] has them.
    pub(crate) fn of<C: Clock>(options: &PageOptions, clock: &C) -> Result<Start, AddressFault>
        ensures place { IfOk result (λ start. IsPlaceOf options.now start.place) }
        ensures stale { IfOk result (λ start. start.stale ≡ options.now.stale) }
    {
        let place = place_of(options)?;
        Ok(Start {
            place,
            since: since_1970(clock),
            stale: options.stale,
        })
    }

    /// Where is listened for those who ask.
    pub(crate) fn place(&self) -> SocketAddr
        ensures { result ≡ self.now.place }
    {
        self.place
    }

    /// For how many seconds nothing was told of a control line that is stale; None where none ever is.
    pub(crate) fn stale(&self) -> Option<u32>
        ensures { result ≡ self.now.stale }
    {
        self.stale
    }

    /// How long ago 1970 began; None where the machine has no clock.
    pub(crate) fn since(&self) -> Option<Duration>
        ensures { result ≡ self.now.since }
    {
        self.since
    }
}

/// The address and port at which the page is served.
///
/// Errors: as [`AddressFault`] has them.
fn place_of(options: &PageOptions) -> Result<SocketAddr, AddressFault>
    ensures { IfOk result (IsPlaceOf options.now) }
{
    let port = Some(options.port.unwrap_or(PORT));
    match &options.listen {
        None => listen_address(HERE, port),
        Some(text) => match listen_address(text.as_str(), options.port) {
            Err(AddressFault::NoPort) => listen_address(text.as_str(), port),
            place => place,
        },
    }
}

/// How long ago 1970 began; None where the machine has no clock.
fn since_1970<C: Clock>(clock: &C) -> Option<Duration> {
    match SystemTime::now(clock) {
        Ok(now) => now.duration_since(SystemTime::UNIX_EPOCH).ok(),
        Err(_) => None,
    }
}
