//! Where the reading of a message begins. Source: RDS Forum SPB 490 and profile, as the elements.
ghost use Rattle.std.specs.Prelude.{◌≡◌};
ghost use Rattle.std.specs.List.{AllByRecursion};
ghost use Rattle.uecp_elements.specs.Reading.{items, IsRead, IsItem};

use crate::element_reader::Elements;

/// The elements of a message in order, and its fault last. The empty message has none.
///
/// ```
/// let mut read = elements(&[0x1c, 0x02, 0x99]);
/// let first = read.next(); // Some(Ok(Element::Select { dsn: 2 }))
/// let then = read.next(); // Some(Err(ElementFault { place: 2, code: Code::UnknownElement }))
/// ```
pub fn elements(message: &[u8]) -> Elements<'_>
    ensures items { result ≡ items message.now }
    // They are the elements of the message's one reading, and its fault last.
    ensures reading { IsRead message.now result }
    // Each element has a text of at most 64 bytes, as the calls that take an element ask.
    ensures each { AllByRecursion IsItem result }
{
    Elements {
        rest: message,
        place: 0,
    }
}
