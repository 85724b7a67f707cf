//! Frames and segments that are none, as objects (profile).
ghost use Rattle.std.specs.Prelude.{◌≡◌, ◌++◌, flat_map, codes};
ghost use Rattle.serde_json.specs.Written.{compact_text, comma_if};
ghost use Rattle.uecp_frame.specs.Feeding.{findings_of};
ghost use Rattle.uecp_elements.specs.Reading.{items};
ghost use Rattle.uecp_elements.specs.View.{element_of};
ghost use Rattle.json_lines.specs.Objects.{list_of};
ghost use Rattle.json_lines.specs.Texts.{is_plain, field_text, fields_text};
ghost use Rattle.uecp_json.specs.Elements.{element_object};
ghost use Rattle.uecp_json.specs.Findings.{objects_in, fault_in, fault_object, head_fields, message_fields};
ghost use Rattle.uecp_json.specs.Findings.{place_of, frame_line, dropped_line, finding_line};
ghost use Rattle.uecp_text.specs.Written.{Adds};

use crate::elements::put_element;
use json_lines::{
    close, close_line, digits_field, null_field, number_field, open_digits, open_line, put_name,
    put_null, word_field,
};
use uecp_elements::{Element, ElementFault, elements};
use uecp_frame::{Address, Found, Frame, FrameFault};
use uecp_text::Output;

/// The line of what a piece ended: none, a frame's, or that of a segment that is no frame.
pub fn put_found(found: &Found, output: &mut Output)
    ensures { Adds output.old output.new (flat_map finding_line (findings_of found.now)) }
{
    match found {
        Found::Nothing => {}
        Found::Frame(frame) => put_frame(frame, output),
        Found::Refused(fault) => put_dropped(*fault, output),
    }
}

/// The line of a frame.
#[tactic(auto, using(json_lines::proofs::Public::parts))]
fn put_frame(frame: &Frame, output: &mut Output)
    ensures { Adds output.old output.new (frame_line frame.now) }
{
    open_line("frame", output);
    put_head(frame.address, frame.counter, output);
    put_message(frame.message.bytes(), output);
    close_line(output);
}

/// The line of a segment that is no frame: the number, the name and the place of its fault.
#[tactic(auto, using(json_lines::proofs::Public::parts))]
pub fn put_dropped(fault: FrameFault, output: &mut Output)
    ensures { Adds output.old output.new (dropped_line fault) }
{
    open_line("dropped", output);
    number_field("fault", usize::from(fault.number()), output);
    word_field("name", fault.name(), output);
    put_place(fault, output);
    close_line(output);
}

/// Whom a frame is for, and its counter.
fn put_head(address: Address, counter: u8, output: &mut Output)
    ensures { Adds output.old output.new (fields_text (head_fields address counter)) }
{
    number_field("site", usize::from(address.site()), output);
    number_field("encoder", usize::from(address.encoder()), output);
    number_field("counter", usize::from(counter), output);
}

/// The members of a message, behind those of what it came in: `message`, its bytes in hexadecimal digits; `elements`, a
/// list of its elements as objects; and `fault`, where a beginning alone is elements, the code and the place of what
/// stands behind it, else null.
pub fn put_message(message: &[u8], output: &mut Output)
    ensures { Adds output.old output.new (fields_text (message_fields message.now)) }
{
    digits_field("message", message, output);
    elements_field(message, output);
    fault_field(message, output);
}

/// The elements of a message.
#[tactic(auto, unfolding(json_lines::specs::Texts::field_text))]
fn elements_field(message: &[u8], output: &mut Output)
    ensures { Adds output.old output.new (field_text (codes "elements") (list_of (objects_in (items message.now)))) }
{
    put_name("elements", output);
    put_elements(message, output);
}

/// The fault of a message, or null.
#[tactic(auto, unfolding(json_lines::specs::Texts::field_text))]
fn fault_field(message: &[u8], output: &mut Output)
    ensures { Adds output.old output.new (field_text (codes "fault") (fault_object (fault_in (items message.now)))) }
{
    put_name("fault", output);
    put_fault(fault_in(message), output);
}

/// The list of the elements of a message.
#[tactic(auto, unfolding(json_lines::specs::Texts::values_text, json_lines::specs::Objects::list_of))]
fn put_elements(message: &[u8], output: &mut Output)
    ensures { Adds output.old output.new (compact_text (list_of (objects_in (items message.now)))) }
{
    output.text("[");
    let mut later = false;
    for read in elements(message) {
        match read {
            Ok(element) => {
                put_behind(later, &element, output);
                later = true;
            }
            Err(_) => {}
        }
    }
    output.text("]");
}

/// An element of a list, behind a comma where one stands before it.
fn put_behind(later: bool, element: &Element<'_>, output: &mut Output)
    ensures { Adds output.old output.new (comma_if later ++ compact_text (element_object (element_of element.now))) }
{
    if later {
        output.text(",");
    }
    put_element(element, output);
}

/// The fault of a message, where it has one.
fn fault_in(message: &[u8]) -> Option<ElementFault>
    ensures { result ≡ fault_in (items message.now) }
{
    for read in elements(message) {
        if let Err(fault) = read {
            return Some(fault);
        }
    }
    None
}

/// The object of that fault.
#[tactic(auto, using(json_lines::proofs::Public::parts))]
fn put_fault(fault: Option<ElementFault>, output: &mut Output)
    ensures { Adds output.old output.new (compact_text (fault_object fault)) }
{
    match fault {
        None => put_null(output),
        Some(fault) => {
            open_digits("code", &[fault.code.byte()], output);
            number_field("place", fault.place, output);
            close(output);
        }
    }
}

/// Where the fault of a segment stands.
fn put_place(fault: FrameFault, output: &mut Output)
    ensures { Adds output.old output.new (field_text (codes "place") (place_of fault)) }
{
    match fault {
        FrameFault::BadStuffing(place) => number_field("place", place, output),
        _ => null_field("place", output),
    }
}
