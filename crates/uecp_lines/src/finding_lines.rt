//! Frames and segments that are none, as lines (profile).
ghost use Rattle.std.specs.Prelude.{◌≢◌, flat_map};
ghost use Rattle.uecp_frame.specs.declared.fault.FrameFault.TheVariants.{Unended};
ghost use Rattle.uecp_frame.specs.Feeding.{findings_of};
ghost use Rattle.uecp_elements.specs.Reading.{items};
ghost use Rattle.uecp_elements.specs.View.{item_of};
ghost use Rattle.uecp_lines.specs.Lines.{item_line, frame_lines, finding_lines, dropped_line};
ghost use Rattle.uecp_text.specs.Written.{Adds};

use crate::element_lines::put_element;
use uecp_elements::{Element, ElementFault, elements};
use uecp_frame::{Found, Frame, FrameFault};
use uecp_text::Output;

/// The lines of what a piece ended: none, a frame's, or that of a segment that is no frame.
pub fn put_found(found: &Found, output: &mut Output)
    ensures { Adds output.old output.new (flat_map finding_lines (findings_of found.now)) }
{
    match found {
        Found::Nothing => {}
        Found::Frame(frame) => put_frame(frame, output),
        Found::Refused(fault) => put_fault(*fault, output),
    }
}

/// The lines of a frame: its address and counter, and those of its message.
fn put_frame(frame: &Frame, output: &mut Output)
    ensures { Adds output.old output.new (frame_lines frame.now) }
{
    output.text("frame");
    output.number(frame.address.value());
    output.byte(frame.counter);
    output.end();
    put_items(frame.message.bytes(), output);
}

/// The elements of a message, and its fault if it has one.
fn put_items(message: &[u8], output: &mut Output)
    ensures { Adds output.old output.new (flat_map item_line (items message.now)) }
{
    for read in elements(message) {
        put_item(read, output);
    }
}

/// The line of an element or a fault.
fn put_item(read: Result<Element<'_>, ElementFault>, output: &mut Output)
    ensures { Adds output.old output.new (item_line (item_of read.entry)) }
{
    match read {
        Ok(element) => put_element(&element, output),
        Err(fault) => {
            output.text("fault");
            output.byte(fault.code.byte());
            output.decimal(fault.place);
            output.end();
        }
    }
}

/// The line of a segment that is no frame: the number and the name of its fault, and its place if it has one.
#[inline(always)]
pub fn put_fault(fault: FrameFault, output: &mut Output)
    ensures { Adds output.old output.new (dropped_line fault) }
{
    match fault {
        FrameFault::Unended => output.text("dropped 1 Unended\n"),
        _ => put_judged(fault, output),
    }
}

/// The same where an FF ended the segment.
fn put_judged(fault: FrameFault, output: &mut Output)
    requires { fault ≢ Unended }
    ensures { Adds output.old output.new (dropped_line fault) }
{
    match fault {
        FrameFault::Unended => unreachable!(),
        FrameFault::BadStuffing(place) => {
            output.text("dropped 2 BadStuffing");
            output.decimal(place);
            output.end();
        }
        FrameFault::TooLong => output.text("dropped 3 TooLong\n"),
        FrameFault::TooShort => output.text("dropped 4 TooShort\n"),
        FrameFault::WrongLength => output.text("dropped 5 WrongLength\n"),
        FrameFault::WrongCheck => output.text("dropped 6 WrongCheck\n"),
    }
}
