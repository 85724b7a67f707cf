//! The elements of a message, one at a call. Sources: those of the elements, RDS Forum SPB 490 and profile; profile for
//! what is said of bytes that spell none.
ghost use Rattle.std.specs.Prelude.{◌≡◌, ◌++◌, ℕ, List, length, IfOk, IfErr};
ghost use Rattle.uecp_elements.specs.Codes.{byte_of};
ghost use Rattle.uecp_elements.specs.Grammar.{IsElement, spelling, BeginsWithNone};
ghost use Rattle.uecp_elements.specs.View.{element_of};
ghost use Rattle.c_values.specs.Buffers.{filled};
ghost use Rattle.uecp_c.specs.Elements.{element_bytes, fault_byte, ReadsFirst};

use crate::plain_element::{PlainElement, show_element, told_element};
use c_values::buffer::put;
use uecp_elements::{Code, Element, elements, push_element};
use uecp_frame::Message;

/// The spelling of an element.
fn spelled(element: &Element<'_>) -> Message
    requires { IsElement (element_of element.now) }
    ensures { result ≡ spelling (element_of element.now) }
{
    let mut message = Message::new();
    let _ = push_element(&mut message, element);
    message
}

/// The element at the front of some bytes, or the code of why there is none.
fn first_of(bytes: &[u8]) -> Result<Element<'_>, Code>
    ensures ok { IfOk result (λ e. IsElement (element_of e)
        × ((more : List ℕ) × (bytes.now ≡ spelling (element_of e) ++ more))) }
    ensures err { IfErr result (λ code. BeginsWithNone bytes.now × (byte_of code ≡ fault_byte bytes.now)) }
{
    match elements(bytes).next() {
        Some(Ok(element)) => Ok(element),
        Some(Err(fault)) => Err(fault.code),
        None => Err(Code::UnknownElement),
    }
}

/// Reads the element at the front of `bytes`, which are what is left of a message: shows it, and how many bytes it has
/// in `used`, and answers 00. Where no element is spelled there, `used` is 0, `element` stays, and the answer is the
/// code of the fault: 03 where no element begins with the first byte, or there is none, 07 where the element is cut off
/// or its text longer than 64 bytes.
#[unsafe(no_mangle)]
pub extern "C" fn uecp_read_element(
    bytes: &[u8],
    element: &mut PlainElement,
    used: &mut usize,
) -> u8
    ensures { ReadsFirst bytes.now element.old element.new used.new result }
{
    match first_of(bytes) {
        Ok(found) => {
            show_element(&found, element);
            *used = spelled(&found).bytes().len();
            Code::Applied.byte()
        }
        Err(code) => {
            *used = 0;
            code.byte()
        }
    }
}

/// Puts the spelling of the element at the start of `out`, and tells how many bytes it has, 2 to 69. Where `out` is
/// shorter than that, nothing is written. 0, and nothing is written, where no element begins with the byte of `code`,
/// or a RadioText is longer than 64 bytes.
#[unsafe(no_mangle)]
pub extern "C" fn uecp_write_element(element: &PlainElement, out: &mut [u8]) -> usize
    ensures length { result ≡ length (element_bytes element.now) }
    ensures written { out.new ≡ filled (element_bytes element.now) out.old }
{
    match told_element(element) {
        Some(element) => put(spelled(&element).bytes(), out),
        None => 0,
    }
}
