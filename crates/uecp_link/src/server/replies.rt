//! Replies among the frames that a server hears. Source: RDS Forum SPB 490, two-way mode; profile for what
//! acknowledges.
ghost use Rattle.std.specs.Prelude.{◌≡◌};
ghost use Rattle.uecp_frame.specs.Findings.{Closed};
ghost use Rattle.uecp_frame.specs.Lent.{frame_lent};
ghost use Rattle.uecp_link.specs.Server.{nothing_counted, reply_from, acknowledges};
ghost use Rattle.uecp_link.specs.HeldMessages.{held_in};

use crate::held_message::{HeldMessage, is_waiting};
use crate::server::REPLY;
use uecp_elements::Code;
use uecp_frame::{Address, FrameRef};

/// The counter and the code of a frame that is a reply of the encoder at this address.
pub(crate) fn reply_from(address: Address, frame: &FrameRef<'_>) -> Option<(u8, Code)>
    ensures { result ≡ reply_from address (frame_lent frame.now) }
{
    if *frame.address != address || frame.counter != 0 {
        return None;
    }
    let [REPLY, code, counter] = frame.message else {
        return None;
    };
    let code = Code::from_byte(*code)?;
    Some((*counter, code))
}

/// The counter and the code with which a frame acknowledges one of the messages of a server with this address.
pub(crate) fn acknowledging(
    address: Address,
    held: &[HeldMessage],
    frame: &FrameRef<'_>,
) -> Option<(u8, Code)>
    ensures { result ≡ acknowledges (record {
      address = address;
      last = 0;
      held = held_in held.now;
      counts = nothing_counted;
      part = Closed;
    }) (frame_lent frame.now) }
{
    let reply = reply_from(address, frame)?;
    if is_waiting(held, reply.0) {
        Some(reply)
    } else {
        None
    }
}
