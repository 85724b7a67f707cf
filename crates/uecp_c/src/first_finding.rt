//! The first finding of bytes. Source: RDS Forum SPB 490, frame format.
ghost use Rattle.std.specs.Prelude.{◌≡◌, ◌≤◌, ◌+◌, ◌++◌, ℕ, List, length, drop};
ghost use Rattle.uecp_c.specs.Findings.{open_length, FindsFirst};

use c_values::{Finding, show};
use uecp_frame::Deframer;

/// Opens a segment wherever it stands.
const START: u8 = 0xFE;

/// Ends an open segment.
const END: u8 = 0xFF;

/// How many bytes the segment at the end has that has not ended, its FE among them; 0 where there is none.
fn open_length(bytes: &[u8]) -> usize
    ensures exact { result ≡ open_length bytes.now }
    ensures fits { result ≤ length bytes.now }
{
    let mut open = 0;
    for byte in bytes {
        if *byte == START {
            open = 1;
        } else if *byte == END {
            open = 0;
        } else if open > 0 {
            open += 1;
        }
    }
    open
}

/// Tells the first finding of the bytes as of a stream that begins with them, and how many bytes at the front are done
/// with: the others, with what comes next, hold the findings that are left. With nothing found, what is left is the
/// segment that has not ended, or nothing.
#[unsafe(no_mangle)]
pub extern "C" fn uecp_find(bytes: &[u8], finding: &mut Finding) -> usize
    ensures { FindsFirst bytes.now finding.old finding.new result }
{
    let mut deframer = Deframer::new();
    let fed = deframer.feed_ref(bytes);
    show(&fed.found, finding);
    fed.used - open_length(&bytes[..fed.used])
}
