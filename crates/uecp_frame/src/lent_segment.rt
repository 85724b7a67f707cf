//! What was ended, as it is lent and as it is handed out. Source: profile.
ghost use Rattle.std.specs.Prelude.{◌≡◌, ◌≤◌, length};
ghost use Rattle.uecp_frame.specs.Segment.{frame_of, number_at};
ghost use Rattle.uecp_frame.specs.Lent.{frame_lent, found_lent, LendsAtMost};
ghost use Rattle.uecp_frame.specs.OpenSegment.{found_ended, IsWhole, IsAddressOf};

use crate::address::Address;
use crate::fed::Found;
use crate::fed_ref::{FoundRef, FrameRef};
use crate::frame::{CHECK, Frame, HEAD};
use crate::message::Message;
use crate::open_segment::{Ended, OpenSegment};

/// The address in the plain bytes of a frame, and where none was ended any.
pub(crate) fn address_in(ended: Ended, plain: &[u8]) -> Address
    requires whole { IsWhole ended plain.now }
    ensures { IsAddressOf ended plain.now result }
{
    match ended {
        Ended::Frame => Address::from_value(u16::from_be_bytes([plain[0], plain[1]])),
        _ => Address::from_value(0),
    }
}

/// The frame that has these plain bytes, its message lent from them.
fn frame_in<'a>(address: &'a Address, plain: &'a [u8]) -> FrameRef<'a>
    requires whole { 6 ≤ length plain.now }
    requires fits { length plain.now ≤ 261 }
    requires address { address.now ≡ number_at plain.now 0 }
    ensures frame { frame_lent result ≡ frame_of plain.now }
    ensures lends { length result.message.now ≤ 255 }
{
    let body = &plain[..plain.len() - CHECK];
    FrameRef {
        address,
        counter: body[2],
        message: &body[HEAD..],
    }
}

/// What was ended, with the address and the message lent.
pub(crate) fn lent(ended: Ended, segment: &OpenSegment) -> FoundRef<'_>
    requires whole { IsWhole ended segment.now.plain.items }
    requires address { IsAddressOf ended segment.now.plain.items segment.now.address }
    ensures found { found_lent result ≡ found_ended ended segment.now.plain.items }
    ensures lends { LendsAtMost 255 result }
{
    match ended {
        Ended::Nothing => FoundRef::Nothing,
        Ended::Frame => FoundRef::Frame(frame_in(&segment.address, segment.plain.as_slice())),
        Ended::Refused(fault) => FoundRef::Refused(fault),
    }
}

/// What was ended, with a message of its own.
pub(crate) fn found_of(ended: Ended, plain: &[u8]) -> Found
    requires whole { IsWhole ended plain.now }
    requires fits { length plain.now ≤ 261 }
    ensures { result ≡ found_ended ended plain.now }
{
    let address = address_in(ended, plain);
    match ended {
        Ended::Nothing => Found::Nothing,
        Ended::Frame => {
            let frame = frame_in(&address, plain);
            match Message::from_bytes(frame.message) {
                Some(message) => Found::Frame(Frame {
                    address,
                    counter: frame.counter,
                    message,
                }),
                None => unreachable!(),
            }
        }
        Ended::Refused(fault) => Found::Refused(fault),
    }
}
