//! What a run begins and ends with (profile).
ghost use Rattle.std.specs.Prelude.{◌≡◌, IsTrue, ◌↔◌, option_map};
ghost use Rattle.std.specs.Duration.{as_nanos};
ghost use Rattle.page.specs.Intake.{IsLoopback, first_number, status_of};

use std::net::SocketAddr;
use std::time::Duration;

/// The number of the first event: the time since 1970 in microseconds; 1 where the machine has no clock.
pub fn first_number(since: Option<Duration>) -> u64
    ensures { result ≡ first_number (option_map as_nanos since) }
{
    match since {
        Some(since) => u64::try_from(since.as_micros()).unwrap_or(1),
        None => 1,
    }
}

/// Whether only the machine's own names are served of a page at this place: where that is on a loopback address.
pub fn own_only(place: &SocketAddr) -> bool
    ensures { IsTrue result ↔ IsLoopback place.now }
{
    place.ip().is_loopback()
}

/// The exit status at the end of the input, by whether a line was no object of ours: 1 or 0.
pub fn status_of(refused: bool) -> u8
    ensures { result ≡ status_of refused }
{
    u8::from(refused)
}
