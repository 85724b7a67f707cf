//! Elements as lines of a frame script (profile).
ghost use Rattle.std.specs.Prelude.{◌++◌, codes, Ok};
ghost use Rattle.uecp_elements.specs.View.{element_of, part_of};
ghost use Rattle.uecp_text.specs.Digits.{byte_word};
ghost use Rattle.uecp_lines.specs.Lines.{element_words, part_words, item_line};
ghost use Rattle.uecp_text.specs.Written.{Adds};

use uecp_elements::{Element, RtPart};
use uecp_text::Output;

/// The line of one element.
pub fn put_element(element: &Element<'_>, output: &mut Output)
    ensures { Adds output.old output.new (item_line (Ok (element_of element.now))) }
{
    put_words(element, output);
    output.end();
}

/// What that line says.
fn put_words(element: &Element<'_>, output: &mut Output)
    ensures { Adds output.old output.new (element_words (element_of element.now)) }
{
    match *element {
        Element::Pi { dsn, psn, pi } => {
            put_pair("pi", dsn, psn, output);
            output.number(pi);
        }
        Element::Ps { dsn, psn, name } => {
            put_pair("ps", dsn, psn, output);
            output.row(name);
        }
        Element::TaTp { dsn, psn, raw } => put_byte("tatp", dsn, psn, raw, output),
        Element::Ms { dsn, psn, raw } => put_byte("ms", dsn, psn, raw, output),
        Element::Pty { dsn, psn, raw } => put_byte("pty", dsn, psn, raw, output),
        Element::Rt { dsn, psn, part } => {
            put_pair("rt", dsn, psn, output);
            put_part(part, output);
        }
        Element::Select { dsn } => {
            output.text("select");
            output.byte(dsn);
        }
        Element::Ack { code, counter } => put_pair("ack", code, counter, output),
        Element::Group {
            kind,
            mode,
            block3,
            block4,
        } => {
            put_pair("group", kind, mode, output);
            output.number(block3);
            output.number(block4);
        }
    }
}

/// A name and two bytes.
fn put_pair(name: &str, first: u8, second: u8, output: &mut Output)
    ensures { Adds output.old output.new (name.now ++ byte_word first ++ byte_word second) }
{
    output.text(name);
    output.byte(first);
    output.byte(second);
}

/// A name and three bytes.
fn put_byte(name: &str, dsn: u8, psn: u8, raw: u8, output: &mut Output)
    ensures { Adds output.old output.new (name.now ++ byte_word dsn ++ byte_word psn ++ byte_word raw) }
{
    put_pair(name, dsn, psn, output);
    output.byte(raw);
}

/// The part of a RadioText after its service.
fn put_part(part: RtPart<'_>, output: &mut Output)
    ensures { Adds output.old output.new (part_words (part_of part.entry)) }
{
    match part {
        RtPart::Empty => output.text(" empty"),
        RtPart::Text { head, text } => {
            output.byte(head);
            output.row(text);
        }
    }
}
