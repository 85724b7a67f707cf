//! Bytes to a writer (profile).
ghost use Rattle.std.specs.Prelude.{◌≡◌, OnOk, IfErr};
ghost use Rattle.std.specs.Io.KnownBytes.{Appends};
ghost use Rattle.uecp_text.specs.declared.run_fault.RunFault.TheVariants.{Writing};
ghost use Rattle.uecp_text.specs.Written.{Begins};

use crate::input::rest_after;
use crate::run_fault::RunFault;
use std::io::{ErrorKind, Write};

/// Writes the bytes, as far as the writer takes them: where it fails, or takes none, it has got a beginning of them,
/// and the answer is `Writing`. A write that was interrupted is made again.
pub(crate) fn write_whole<W: Write>(bytes: &[u8], writer: &mut W) -> Result<(), RunFault>
    ensures written { OnOk result (Appends (W.contents writer.old) (W.contents writer.new) bytes.now) }
    ensures begun { Begins (W.contents writer.old) (W.contents writer.new) bytes.now }
    ensures failed { IfErr result (λ fault. fault ≡ Writing) }
{
    let mut rest = bytes;
    for _turn in 0..u64::MAX {
        if rest.is_empty() {
            return Ok(());
        }
        match writer.write(rest) {
            Ok(0) => return Err(RunFault::Writing),
            Ok(count) => rest = rest_after(rest, count),
            Err(error) if error.kind() == ErrorKind::Interrupted => {}
            Err(_) => return Err(RunFault::Writing),
        }
    }
    Err(RunFault::Writing)
}
