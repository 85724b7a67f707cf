//! The spelling of a reply. Source: RDS Forum SPB 490, frame format; profile for the element 18 in it.
ghost use Rattle.std.specs.Prelude.{◌≡◌};
ghost use Rattle.uecp_frame.specs.Frame.{spelling};
ghost use Rattle.uecp_encoder.specs.Answering.{reply_of};

use crate::answer::ReplyBytes;
use uecp_elements::{ACK, Code};
use uecp_frame::{Address, FrameRef, encode_ref};

/// Replaces the content of `bytes` by the reply of the encoder at this address to a counter: from FE to FF, the bytes
/// that [`Encoder::feed`](crate::Encoder::feed) lends.
pub fn spell_reply(address: Address, code: Code, counter: u8, bytes: &mut ReplyBytes)
    ensures { bytes.new.items ≡ spelling (reply_of address counter code) }
{
    let message = [ACK, code.byte(), counter];
    let reply = FrameRef {
        address: &address,
        counter: 0,
        message: &message,
    };
    encode_ref(&reply, bytes);
}
