//! What a read brought, told at once (profile).
ghost use Rattle.std.specs.Prelude.{◌≡◌, ◌++◌, ℕ, List, [], flat_map, is_some, IfErr, OnOk, IsTrue};
ghost use Rattle.std.specs.Io.KnownBytes.{Appends};
ghost use Rattle.uecp_frame.specs.Beyond.{found_beyond, open_beyond};
ghost use Rattle.uecp_frame.specs.Feeding.{findings_of};
ghost use Rattle.uecp_text.specs.Written.{Adds};
ghost use Rattle.output_forms.specs.Forms.{found_lines};
ghost use Rattle.uecp_watch.specs.Watching.{IsTime, IsTimed, IsTold, FailsToTell};

use crate::times::put_time;
use output_forms::{Form, put_found};
use std::io::Write;
use std::time::Clock;
use uecp_frame::{Deframer, Found};
use uecp_text::{Output, RunFault, rest_after};

/// Adds the line of the time, where there is a clock.
fn put_time_of<C: Clock>(form: Form, clock: Option<&C>, output: &mut Output)
    ensures { (time : List ℕ) × IsTime form (is_some clock.entry) time × Adds output.old output.new time }
{
    if let Some(clock) = clock {
        put_time(form, clock, output);
    }
}

/// Adds the lines of what the rest of a read ends.
fn put_rest(form: Form, deframer: &mut Deframer, piece: &[u8], output: &mut Output)
    ensures lines { Adds output.old output.new (flat_map (found_lines form) (found_beyond deframer.old piece.now)) }
    ensures left { open_beyond deframer.old piece.now ≡ deframer.new }
{
    let mut rest = piece;
    while !rest.is_empty() {
        let fed = deframer.feed(rest);
        rest = rest_after(rest, fed.used);
        put_found(form, &fed.found, output);
    }
}

/// Adds the time, the lines of what a read ended first, and those of what its rest ends.
fn put_read<C: Clock>(
    form: Form,
    clock: Option<&C>,
    first: &Found,
    deframer: &mut Deframer,
    rest: &[u8],
    output: &mut Output,
)
    ensures lines { (lines : List ℕ) × IsTimed form (is_some clock.entry)
        (findings_of first.now ++ found_beyond deframer.old rest.now) lines × Adds output.old output.new lines }
    ensures left { open_beyond deframer.old rest.now ≡ deframer.new }
{
    put_time_of(form, clock, output);
    put_found(form, first, output);
    put_rest(form, deframer, rest, output);
}

/// Writes out the lines of a read where it ends a segment.
///
/// Errors: `OutOfMemory` where there was none for the lines, and none of them is written; `Writing`.
pub(crate) fn tell<W: Write, C: Clock>(
    form: Form,
    clock: Option<&C>,
    deframer: &mut Deframer,
    bytes: &[u8],
    output: &mut Output,
    writer: &mut W,
) -> Result<(), RunFault>
    requires empty { output.old.bytes ≡ [] }
    requires whole { IsTrue output.old.is_whole }
    ensures told { OnOk result ((lines : List ℕ)
        × IsTold form (is_some clock.entry) (found_beyond deframer.old bytes.now) lines
        × Appends (W.contents writer.old) (W.contents writer.new) lines) }
    ensures failed { IfErr result (FailsToTell form (is_some clock.entry) (found_beyond deframer.old bytes.now)
        (W.contents writer.old) (W.contents writer.new)) }
    ensures left { OnOk result (open_beyond deframer.old bytes.now ≡ deframer.new) }
    ensures empty { OnOk result (output.new.bytes ≡ []) }
    ensures whole { OnOk result (IsTrue output.new.is_whole) }
{
    let fed = deframer.feed(bytes);
    if let Found::Nothing = fed.found {
        return Ok(());
    }
    let rest = rest_after(bytes, fed.used);
    put_read(form, clock, &fed.found, deframer, rest, output);
    output.check()?;
    output.write_out(writer)
}
