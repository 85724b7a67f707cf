//! What comes of a case is read and judged (profile).
ghost use Rattle.std.specs.Prelude.{◌≡◌, ◌<◌, [], IsTrue, ◌↔◌};
ghost use Rattle.conformance_command.specs.Running.{Hears, IsMissing};

use crate::case_run::READS_MAX;
use crate::went::Went;
use conformance::{Expected, Verdict, judge};
use std::io::Read;
use uecp_encoder::{Failed, Meter};
use uecp_frame::Address;

/// The most bytes that one read asks for.
pub(crate) const READ_MAX: usize = 64;

/// Reads until the end, or until a read fails and no reply is missing, or until so many failed; and judges what came,
/// which it adds behind nothing.
pub(crate) fn hear<R: Read>(
    own: Address,
    patience: u32,
    replies: &[Expected],
    input: &mut Meter<R>,
    came: &mut Vec<u8>,
) -> Went
    requires some { 0 < patience }
    requires empty { came.old.items ≡ [] }
    ensures { Hears R.remaining own patience replies.now input.old input.new result came.new.items }
{
    let mut failed = 0;
    let mut buffer = [0u8; READ_MAX];
    for _turn in 0..READS_MAX {
        match input.read(&mut buffer) {
            Err(Failed) => {
                failed += 1;
                let verdict = judge(own, replies, came.as_slice());
                if failed == patience || !is_missing(verdict) {
                    return Went::Judged(verdict);
                }
            }
            Ok(0) => return Went::Judged(judge(own, replies, came.as_slice())),
            Ok(count) => {
                if came.extend_from_slice(&buffer[..count]).is_err() {
                    return Went::NotHeard;
                }
            }
        }
    }
    Went::NotQuiet
}

/// Whether a reply is missing.
fn is_missing(verdict: Verdict) -> bool
    ensures { IsTrue result ↔ IsMissing verdict }
{
    matches!(verdict, Verdict::Missing(_))
}
