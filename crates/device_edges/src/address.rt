//! Which address and port a text asks for (profile).
ghost use Rattle.std.specs.Prelude.{MatchResult};
ghost use Rattle.device_edges.specs.Place.{IsPlace, IsNoPlace};

use std::net::{IpAddr, SocketAddr};

/// Where an encoder listens that is told nothing else: for this machine alone.
pub const HERE: &str = "127.0.0.1";

/// Why a text and the port beside it ask for no address and port.
#[derive(Clone, Copy, Debug, PartialEq, Eq)]
pub enum AddressFault {
    /// The text is no IP address, neither alone nor with a port.
    NoAddress,
    /// It is an IP address, and no port is given.
    NoPort,
    /// It is an IP address with a port, and a port is given beside it.
    TwoPorts,
    /// The port is 0.
    PortZero,
}

impl AddressFault {
    /// What is said of it on standard error, behind `uecp: `.
    pub fn text(&self) -> &'static str {
        match self {
            AddressFault::NoAddress => "listen: no IP address, alone or with a port up to 65535",
            AddressFault::NoPort => "listen: no port is given",
            AddressFault::TwoPorts => "listen: two ports are given",
            AddressFault::PortZero => "listen: port 0 is none",
        }
    }
}

/// The address and port that a text asks for: an IP address with the port beside it, as `192.0.2.7` or `::1`; or both
/// in the text, where no port is given beside it, as `192.0.2.7:4000` or `[::1]:4000`.
///
/// Errors: as [`AddressFault`] has them.
pub fn listen_address(text: &str, port: Option<u16>) -> Result<SocketAddr, AddressFault>
    ensures { MatchResult result (IsPlace text.now port) (IsNoPlace text.now port) }
{
    match port {
        None => address_of_text(text),
        Some(port) => place_beside(text, port),
    }
}

/// The address and port of a text that has both.
fn address_of_text(text: &str) -> Result<SocketAddr, AddressFault>
    ensures { MatchResult result (IsPlace text.now None) (IsNoPlace text.now None) }
{
    match text.parse::<SocketAddr>() {
        Ok(place) if place.port() == 0 => Err(AddressFault::PortZero),
        Ok(place) => Ok(place),
        Err(_) => match text.parse::<IpAddr>() {
            Ok(_) => Err(AddressFault::NoPort),
            Err(_) => Err(AddressFault::NoAddress),
        },
    }
}

/// The address of a text, with this port.
fn place_beside(text: &str, port: u16) -> Result<SocketAddr, AddressFault>
    ensures { MatchResult result (IsPlace text.now (Some port)) (IsNoPlace text.now (Some port)) }
{
    match text.parse::<IpAddr>() {
        Ok(_) if port == 0 => Err(AddressFault::PortZero),
        Ok(address) => Ok(SocketAddr::new(address, port)),
        Err(_) => match text.parse::<SocketAddr>() {
            Ok(_) => Err(AddressFault::TwoPorts),
            Err(_) => Err(AddressFault::NoAddress),
        },
    }
}
