//! Ranges of elements, and buffer rules. Source: profile.
ghost use Rattle.std.specs.Prelude.{◌≡◌};
ghost use Rattle.uecp_elements.specs.View.{element_of};
ghost use Rattle.rds_store.specs.Content.{adds, is_wrong_rule};
ghost use Rattle.rds_store.specs.Refusals.{is_out_of_range, adds_text};

use uecp_elements::{Element, RtPart};

/// The greatest programme type and the greatest group type.
pub(crate) const TYPE_MAX: u8 = 0x1f;

/// Whether the buffer rule, in bits 6 and 5, is neither 00 nor 10.
pub(crate) fn is_wrong_rule(byte: u8) -> bool
    ensures { result ≡ is_wrong_rule byte }
{
    byte / 32 % 4 == 1 || byte / 32 % 4 == 3
}

/// Whether the buffer rule is 10: what comes is added at the end.
pub(crate) fn adds(byte: u8) -> bool
    ensures { result ≡ adds byte }
{
    byte / 32 % 4 == 2
}

/// Whether the element is answered with 06 where nothing before that refuses it.
pub(crate) fn is_out_of_range(element: &Element<'_>) -> bool
    ensures { result ≡ is_out_of_range (element_of element.now) }
{
    match *element {
        Element::Pty { raw, .. } => raw > TYPE_MAX,
        Element::Rt {
            part: RtPart::Text { head, .. },
            ..
        } => is_wrong_rule(head),
        Element::Group { kind, mode, .. } => kind > TYPE_MAX || is_wrong_rule(mode),
        _ => false,
    }
}

/// Whether the element is a text that is added to those that are there.
pub(crate) fn adds_text(element: &Element<'_>) -> bool
    ensures { result ≡ adds_text (element_of element.now) }
{
    match *element {
        Element::Rt {
            part: RtPart::Text { head, .. },
            ..
        } => adds(head),
        _ => false,
    }
}
