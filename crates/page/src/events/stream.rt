//! The parts of a stream of Server-Sent Events (the HTML standard, "Server-sent events").
ghost use Rattle.std.specs.Prelude.{◌≡◌, ◌++◌, OnOk};
ghost use Rattle.page.specs.Stream.{part_text, carries};

use itoa::Buffer;
use std::alloc::AllocError;

/// The event that tells that events are gone.
pub const GAP: &str = "event: gap\ndata: events are gone\n\n";

/// A comment, so that a connection that is gone is found.
pub const ALIVE: &str = ": alive\n\n";

/// Adds the event of this number, which carries this line.
///
/// Errors: where memory is refused a beginning may have been added.
pub fn put_event(number: u64, line: &[u8], text: &mut Vec<u8>) -> Result<(), AllocError>
    ensures { OnOk result (text.new.items ≡ text.old.items ++ part_text (carries number line.now)) }
{
    let mut buffer = Buffer::new();
    text.extend_from_slice(b"id: ")?;
    text.extend_from_slice(buffer.format(number).as_bytes())?;
    text.extend_from_slice(b"\ndata: ")?;
    text.extend_from_slice(line)?;
    text.extend_from_slice(b"\n\n")?;
    Ok(())
}
