//! One whole segment, and the frame that it spells. Source: RDS Forum SPB 490, frame format; profile for the order of
//! the faults.
ghost use Rattle.std.specs.Prelude.{◌≡◌, ◌↔◌, ◌≤◌, length, IsTrue, IfOk, Ok};
ghost use Rattle.std.specs.List.{list_any};
ghost use Rattle.uecp_frame.specs.declared.frame.Frame.{Frame as FrameValue};
ghost use Rattle.uecp_frame.specs.Stuffing.{is_delimiter};
ghost use Rattle.uecp_frame.specs.Frame.{spelling};
ghost use Rattle.uecp_frame.specs.Segment.{IsSegment, decoded};

use crate::deframer::Deframer;
use crate::fault::FrameFault;
use crate::fed::Found;
use crate::frame::{END, Frame, START};

/// Whether an FE or FF is among the bytes.
fn has_delimiter(bytes: &[u8]) -> bool
    ensures { result ≡ list_any is_delimiter bytes.now }
{
    bytes.iter().any(|byte| *byte == START || *byte == END)
}

/// Whether the bytes are one segment, as `decode` wants it: they are not empty, begin with FE, and have no other FE or
/// FF but perhaps as their last byte. A segment need not have ended.
pub fn is_segment(bytes: &[u8]) -> bool
    ensures { IsTrue result ↔ IsSegment bytes.now }
{
    if bytes.len() < 2 {
        return bytes.len() == 1 && bytes[0] == START;
    }
    bytes[0] == START && !has_delimiter(&bytes[1..bytes.len() - 1])
}

/// The frame of which these bytes are the spelling, or the segment's first fault: `Unended` where its last byte is not
/// FF. Ask [`is_segment`] first where the bytes come from outside.
pub fn decode(segment: &[u8]) -> Result<Frame, FrameFault>
    requires { IsSegment segment.now }
    // A frame is answered for its spelling,
    ensures spelled { IfOk result (λ f. segment.now ≡ spelling f) }
    // and only for it;
    ensures only { (f : FrameValue) → length f.message ≤ 255 → segment.now ≡ spelling f → result ≡ Ok f }
    // any other segment has its first fault.
    ensures exact { result ≡ decoded segment.now }
{
    match Deframer::new().feed(segment).found {
        Found::Nothing => Err(FrameFault::Unended),
        Found::Frame(frame) => Ok(frame),
        Found::Refused(fault) => Err(fault),
    }
}
