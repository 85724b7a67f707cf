//! Frames and segments that are none, as lines of a phrase script (profile).
ghost use Rattle.std.specs.Prelude.{flat_map};
ghost use Rattle.uecp_frame.specs.Feeding.{findings_of};
ghost use Rattle.uecp_text.specs.Written.{Adds};
ghost use Rattle.phrase_scripts.specs.Lines.{heading_line, message_line, frame_lines, finding_lines};

use rds_text::Region;
use uecp_frame::{Found, Frame};
use uecp_lines::put_fault;
use uecp_phrases::put_message;
use uecp_text::Output;

/// The lines of what a piece ended: none, a frame's, or that of a segment that is no frame.
pub fn put_found(region: Region, found: &Found, output: &mut Output)
    ensures { Adds output.old output.new (flat_map (finding_lines region) (findings_of found.now)) }
{
    match found {
        Found::Nothing => {}
        Found::Frame(frame) => put_frame(region, frame, output),
        Found::Refused(fault) => {
            output.text("# ");
            put_fault(*fault, output);
        }
    }
}

/// The lines of a frame: its address and counter, and its message unless that is empty.
fn put_frame(region: Region, frame: &Frame, output: &mut Output)
    ensures { Adds output.old output.new (frame_lines region frame.now) }
{
    put_heading(frame, output);
    put_line(region, frame.message.bytes(), output);
}

/// The line of a frame's address and counter.
fn put_heading(frame: &Frame, output: &mut Output)
    ensures { Adds output.old output.new (heading_line frame.now) }
{
    output.text("frame");
    output.number(frame.address.value());
    output.byte(frame.counter);
    output.end();
}

/// The line of a message, unless it is empty.
fn put_line(region: Region, message: &[u8], output: &mut Output)
    ensures { Adds output.old output.new (message_line region message.now) }
{
    if !message.is_empty() {
        put_message(region, message, output);
        output.end();
    }
}
