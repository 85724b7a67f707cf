//! A frame as it is sent. Source: RDS Forum SPB 490, frame format and byte stuffing.
ghost use Rattle.std.specs.Prelude.{◌≡◌, length};
ghost use Rattle.c_values.specs.Buffers.{filled};
ghost use Rattle.uecp_c.specs.Frames.{frame_bytes};

use c_values::buffer::put;
use uecp_frame::{Address, FrameBytes, FrameRef, encode_ref};

/// The most bytes of a message.
const MESSAGE_MAX: usize = 255;

/// Puts the frame of the message, as it is sent, at the start of `out`, and tells how many bytes it has, 8 to 524.
/// Where `out` is shorter than that, nothing is written. 0, and nothing is written, where there is no such frame: the
/// site is above 1023, the encoder above 63, or the message longer than 255 bytes.
#[unsafe(no_mangle)]
pub extern "C" fn uecp_encode(
    site: u16,
    encoder: u8,
    counter: u8,
    message: &[u8],
    out: &mut [u8],
) -> usize
    ensures length { result ≡ length (frame_bytes site encoder counter message.now) }
    ensures written { out.new ≡ filled (frame_bytes site encoder counter message.now) out.old }
{
    let Some(address) = Address::new(site, encoder) else {
        return 0;
    };
    if message.len() > MESSAGE_MAX {
        return 0;
    }
    let frame = FrameRef {
        address: &address,
        counter,
        message,
    };
    let mut bytes = FrameBytes::new();
    encode_ref(&frame, &mut bytes);
    put(bytes.as_slice(), out)
}
