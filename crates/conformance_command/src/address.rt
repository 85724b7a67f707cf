//! Where an encoder listens, out of a text (profile).
ghost use Rattle.std.specs.Prelude.{IfSome};
ghost use Rattle.conformance_command.specs.Place.{IsPlace};

use commands::host_named;

/// The host and the port of a text `HOST:PORT`, the last colon between them; the host may stand in brackets, as an
/// address of version 6 does. None where it is no such text: there is no colon, no host, or no port from 1 to 65535.
pub fn address_of(text: &str) -> Option<(&str, u16)>
    ensures { IfSome result (λ place. IsPlace text.now place.0.now place.1) }
{
    let (host, digits) = text.rsplit_once(':')?;
    let port = match digits.parse::<u16>() {
        Ok(port) => port,
        Err(_) => return None,
    };
    let host = host_named(host);
    if port == 0 || host.is_empty() {
        return None;
    }
    Some((host, port))
}
