//! The lines that a run with kept state writes. Source: profile.
ghost use Rattle.std.specs.Prelude.{◌≡◌, Ok, List, ℕ, IsTrue};
ghost use Rattle.kept_jobs.specs.Stops.{TellsKept};

use crate::stop::KeptStop;
use std::io::Write;
use uecp_text::{Output, RunFault};

/// Writes out what was put down, if there was memory for all of it.
pub fn write_told<W: Write>(output: &mut Output, writer: &mut W) -> Result<(), KeptStop>
    ensures tells { (lines : List ℕ) → (IsTrue output.old.is_whole → output.old.bytes ≡ lines)
        → TellsKept lines (Ok tt) (W.contents writer.old) (W.contents writer.new) result }
{
    if output.check().is_err() {
        return Err(KeptStop::Run(RunFault::OutOfMemory));
    }
    if output.write_out(writer).is_err() {
        return Err(KeptStop::Run(RunFault::Writing));
    }
    Ok(())
}
