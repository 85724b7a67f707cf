//! Names by their numbers. Source: profile.
ghost use Rattle.std.specs.Prelude.{◌≡◌, length};
ghost use Rattle.std.specs.Option.{option_map};
ghost use Rattle.c_values.specs.Buffers.{filled};
ghost use Rattle.uecp_c.specs.Names.{fault_of, fault_name, code_name, byte_name};

use c_values::buffer::put;
use uecp_elements::Code;
use uecp_frame::FrameFault;

/// The fault of that number.
fn fault_of(number: u8) -> Option<FrameFault>
    ensures { result ≡ fault_of number }
{
    match number {
        1 => Some(FrameFault::Unended),
        2 => Some(FrameFault::BadStuffing(0)),
        3 => Some(FrameFault::TooLong),
        4 => Some(FrameFault::TooShort),
        5 => Some(FrameFault::WrongLength),
        6 => Some(FrameFault::WrongCheck),
        _ => None,
    }
}

/// The name of a code.
fn code_name(code: Code) -> &'static str
    ensures { result.now ≡ code_name code }
{
    match code {
        Code::Applied => "Applied",
        Code::UnknownElement => "UnknownElement",
        Code::DataSet => "DataSet",
        Code::Service => "Service",
        Code::OutOfRange => "OutOfRange",
        Code::ElementLength => "ElementLength",
        Code::NotHere => "NotHere",
        Code::BufferFull => "BufferFull",
    }
}

/// Puts the name of a segment's fault at the start of `out`, letters of ASCII with no byte 00 behind them, and tells
/// how many there are. Where `out` is shorter than that, nothing is written. 0, and nothing is written, where no fault
/// has this number.
#[unsafe(no_mangle)]
pub extern "C" fn uecp_fault_name(number: u8, out: &mut [u8]) -> usize
    ensures length { result ≡ length (fault_name number) }
    ensures written { out.new ≡ filled (fault_name number) out.old }
{
    match fault_of(number) {
        Some(fault) => put(fault.name().as_bytes(), out),
        None => 0,
    }
}

/// The same for the name of a reply code by its byte.
#[unsafe(no_mangle)]
pub extern "C" fn uecp_code_name(code: u8, out: &mut [u8]) -> usize
    ensures length { result ≡ length (byte_name code) }
    ensures written { out.new ≡ filled (byte_name code) out.old }
{
    match Code::from_byte(code) {
        Some(code) => put(code_name(code).as_bytes(), out),
        None => 0,
    }
}
