//! What was found in a stream, as C reads it. Source: profile.
ghost use Rattle.std.specs.Prelude.{◌≡◌, ◌≤◌, length};
ghost use Rattle.uecp_frame.specs.Lent.{found_lent, LendsAtMost, frame_lent};
ghost use Rattle.c_values.specs.Findings.{place_of, shown, shown_frame};

use uecp_frame::{FoundRef, FrameFault, FrameRef};

/// What was found, as C reads it.
#[repr(C)]
#[derive(Clone, Copy)]
pub struct Finding {
    /// 0 where nothing was found, 1 for a frame, 2 for a segment that is none.
    pub kind: u8,
    /// Of a segment that is no frame the number of its fault, 1 to 6.
    pub fault: u8,
    /// Of a frame its sequence counter.
    pub counter: u8,
    /// Of a frame how many bytes its message has.
    pub length: u8,
    /// Of a frame the site of its address, 0 to 1023.
    pub site: u16,
    /// Of a frame the encoder of its address, 0 to 63.
    pub encoder: u8,
    /// Of a frame its message, at the start.
    pub message: [u8; 255],
    /// Of a segment that is no frame the place of the FD where it is badly stuffed, counted from 0 at its FE, else 0.
    pub place: usize,
}

/// Of a bad stuffing the place of the FD, of another fault 0.
pub fn place_of(fault: FrameFault) -> usize
    ensures { result ≡ place_of fault }
{
    match fault {
        FrameFault::BadStuffing(place) => place,
        _ => 0,
    }
}

/// Tells a frame.
fn show_frame(frame: &FrameRef<'_>, finding: &mut Finding)
    requires { length frame.now.message.now ≤ 255 }
    ensures { finding.new ≡ shown_frame finding.old (frame_lent frame.now) }
{
    let length = frame.message.len();
    finding.kind = 1;
    finding.counter = frame.counter;
    finding.length = length as u8;
    finding.site = frame.address.site();
    finding.encoder = frame.address.encoder();
    finding.message[..length].copy_from_slice(frame.message);
}

/// Tells what was found.
pub fn show(found: &FoundRef<'_>, finding: &mut Finding)
    requires { LendsAtMost 255 found.now }
    ensures { finding.new ≡ shown finding.old (found_lent found.now) }
{
    match found {
        FoundRef::Nothing => finding.kind = 0,
        FoundRef::Frame(frame) => show_frame(frame, finding),
        FoundRef::Refused(fault) => {
            finding.kind = 2;
            finding.fault = fault.number();
            finding.place = place_of(*fault);
        }
    }
}
