//! Replies among the frames of a stream. Source: RDS Forum SPB 490, two-way mode.
ghost use Rattle.std.specs.Prelude.{◌≡◌, ◌≤◌, ◌<◌, Ok, length, take, drop, option_to_list};
ghost use Rattle.uecp_frame.specs.Beyond.{open_beyond};
ghost use Rattle.uecp_frame.specs.Lent.{frame_lent};
ghost use Rattle.uecp_link.specs.Joining.{reply_counter, reply_counters};

use uecp_elements::Code;
use uecp_frame::{Address, Deframer, FoundRef, FrameRef};

/// The first byte of a reply's message: the element message acknowledgement.
const REPLY: u8 = 0x18;

/// The counter that a frame replies to, where it is a reply of the encoder at this address.
fn counter_in(address: Address, frame: &FrameRef<'_>) -> Option<u8>
    ensures { result ≡ reply_counter address (Ok (frame_lent frame.now)) }
{
    if *frame.address != address || frame.counter != 0 {
        return None;
    }
    let [REPLY, code, counter] = frame.message else {
        return None;
    };
    match Code::from_byte(*code) {
        Some(_) => Some(*counter),
        None => None,
    }
}

/// Feeds a piece up to the next finding, and answers how many bytes that used, and the counter that it replies to,
/// where it is a reply of the encoder at this address.
pub(crate) fn next_reply(
    deframer: &mut Deframer,
    address: Address,
    piece: &[u8],
) -> (usize, Option<u8>)
    ensures fits { result.0 ≤ length piece.now }
    ensures moves { 0 < length piece.now → 0 < result.0 }
    ensures state { deframer.new ≡ open_beyond deframer.old (take result.0 piece.now) }
    ensures counter { reply_counters address deframer.old (take result.0 piece.now) ≡ option_to_list result.1 }
{
    let fed = deframer.feed_ref(piece);
    let used = fed.used;
    let counter = match &fed.found {
        FoundRef::Nothing => None,
        FoundRef::Refused(_) => None,
        FoundRef::Frame(frame) => counter_in(address, frame),
    };
    (used, counter)
}

/// What is left of a piece.
pub(crate) fn rest_of(piece: &[u8], used: usize) -> &[u8]
    requires { used ≤ length piece.now }
    ensures { result.now ≡ drop used piece.now }
{
    &piece[used..]
}
