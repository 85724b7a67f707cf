//! Whether bytes bring a frame for an encoder (profile).

use uecp_frame::{Address, Deframer, FoundRef};

/// Whether a whole good frame with a number, for the encoder of this address, ends in these bytes, behind those that
/// the deframer was fed before.
pub(crate) fn brings_frame(deframer: &mut Deframer, bytes: &[u8], address: Address) -> bool {
    let mut used = 0;
    let mut brings = false;
    for _finding in 0..bytes.len() {
        if used >= bytes.len() {
            break;
        }
        let fed = deframer.feed_ref(&bytes[used..]);
        used += fed.used;
        if let FoundRef::Frame(frame) = fed.found {
            brings = brings || (frame.counter != 0 && frame.address.reaches(address));
        }
    }
    brings
}
