//! The replies of a whole connection. Source: profile.
ghost use Rattle.std.specs.Prelude.{◌≡◌, ◌↔◌, IsTrue};
ghost use Rattle.uecp_link.specs.Joining.{BringsBoth};

use crate::replies::{next_reply, rest_of};
use crate::seen::Seen;
use uecp_frame::{Address, Deframer};

/// Whether these bytes hold both replies of the encoder at this address.
pub(crate) fn has_both(address: Address, bytes: &[u8]) -> bool
    ensures { IsTrue result ↔ BringsBoth address bytes.now }
{
    let mut deframer = Deframer::new();
    let mut seen = Seen {
        is_first: false,
        are_both: false,
    };
    let mut rest = bytes;
    while !rest.is_empty() {
        let (used, counter) = next_reply(&mut deframer, address, rest);
        rest = rest_of(rest, used);
        if let Some(counter) = counter {
            seen = seen.with(counter);
        }
    }
    seen.are_both
}
