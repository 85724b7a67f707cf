//! The objects of elements (profile).
ghost use Rattle.std.specs.Prelude.{◌≡◌, IsTrue};
ghost use Rattle.serde_json.specs.Written.{compact_text};
ghost use Rattle.uecp_elements.specs.View.{element_of, part_of};
ghost use Rattle.uecp_json.specs.Elements.{block_fields, place_fields, part_fields, element_name};
ghost use Rattle.uecp_json.specs.Elements.{element_fields, element_object};
ghost use Rattle.json_lines.specs.Texts.{is_plain, fields_text};
ghost use Rattle.uecp_text.specs.Written.{Adds};

use json_lines::{
    block_field, byte_field, close, flag_field, number_field, open_word, said_fields,
};
use uecp_elements::{Element, RtPart};
use uecp_text::Output;

/// The object of an element: its name and what it holds.
#[tactic(auto, using(json_lines::proofs::Public::parts))]
pub fn put_element(element: &Element<'_>, output: &mut Output)
    ensures { Adds output.old output.new (compact_text (element_object (element_of element.now))) }
{
    open_word("element", name_of(element), output);
    put_fields(element, output);
    close(output);
}

/// The name of an element.
fn name_of(element: &Element<'_>) -> &'static str
    ensures value { result.now ≡ element_name (element_of element.now) }
    ensures plain { IsTrue (is_plain result.now) }
{
    match element {
        Element::Pi { .. } => "pi",
        Element::Ps { .. } => "ps",
        Element::TaTp { .. } => "traffic",
        Element::Ms { .. } => "ms",
        Element::Pty { .. } => "pty",
        Element::Rt { .. } => "rt",
        Element::Select { .. } => "select",
        Element::Group { .. } => "group",
        Element::Ack { .. } => "ack",
    }
}

/// What an element holds.
fn put_fields(element: &Element<'_>, output: &mut Output)
    ensures { Adds output.old output.new (fields_text (element_fields (element_of element.now))) }
{
    match *element {
        Element::Pi { dsn, psn, pi } => {
            put_place(dsn, psn, output);
            block_field("pi", pi, output);
        }
        Element::Ps { dsn, psn, name } => {
            put_place(dsn, psn, output);
            said_fields("name", name, output);
        }
        Element::TaTp { dsn, psn, raw } => {
            put_place(dsn, psn, output);
            flag_field("tp", raw / 2 % 2 == 1, output);
            flag_field("ta", raw % 2 == 1, output);
            byte_field("bits", raw, output);
        }
        Element::Ms { dsn, psn, raw } => {
            put_place(dsn, psn, output);
            flag_field("music", raw % 2 == 1, output);
            byte_field("bits", raw, output);
        }
        Element::Pty { dsn, psn, raw } => {
            put_place(dsn, psn, output);
            number_field("type", usize::from(raw), output);
        }
        Element::Rt { dsn, psn, part } => {
            put_place(dsn, psn, output);
            put_part(part, output);
        }
        Element::Select { dsn } => number_field("set", usize::from(dsn), output),
        Element::Group {
            kind,
            mode,
            block3,
            block4,
        } => {
            byte_field("type", kind, output);
            byte_field("mode", mode, output);
            put_blocks(block3, block4, output);
        }
        Element::Ack { code, counter } => {
            byte_field("code", code, output);
            number_field("counter", usize::from(counter), output);
        }
    }
}

/// Blocks 3 and 4 of a group.
pub fn put_blocks(block3: u16, block4: u16, output: &mut Output)
    ensures { Adds output.old output.new (fields_text (block_fields block3 block4)) }
{
    block_field("block3", block3, output);
    block_field("block4", block4, output);
}

/// The data set and the service that are named.
pub fn put_place(dsn: u8, psn: u8, output: &mut Output)
    ensures { Adds output.old output.new (fields_text (place_fields dsn psn)) }
{
    number_field("set", usize::from(dsn), output);
    number_field("service", usize::from(psn), output);
}

/// What a RadioText carries.
fn put_part(part: RtPart<'_>, output: &mut Output)
    ensures { Adds output.old output.new (fields_text (part_fields (part_of part.entry))) }
{
    match part {
        RtPart::Empty => flag_field("clear", true, output),
        RtPart::Text { head, text } => {
            byte_field("head", head, output);
            said_fields("bytes", text, output);
        }
    }
}
