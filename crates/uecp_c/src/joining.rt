//! Whether an encoder is joined. Source: profile.
ghost use Rattle.std.specs.Prelude.{◌↔◌, IsTrue};
ghost use Rattle.uecp_c.specs.Joining.{IsJoined};

use crate::whole::has_both;
use uecp_frame::Address;

/// Whether these bytes, all that was read on a connection since a pass was begun on it, hold the reply of the encoder
/// at this address to the message under 81 and, after it, the one to FF, whatever their codes. False where site and
/// encoder are no address.
#[unsafe(no_mangle)]
pub extern "C" fn uecp_is_joined(site: u16, encoder: u8, bytes: &[u8]) -> bool
    ensures { IsTrue result ↔ IsJoined site encoder bytes.now }
{
    match Address::new(site, encoder) {
        Some(address) => has_both(address, bytes),
        None => false,
    }
}
